//! Instances that are read, one of which is edited.

use asg_model::{Choice, Cost, Edit, Instance, Objective, Place};
use asg_text::{Format, read};
use std::alloc::Global;

/// The square `4:1 1:7 3:2 / 2:5 0:3 5:6 / 3:4 2:8 2:9`.
pub(crate) const PAIRS: &[u8] = b"3 3\n4:1 1:7 3:2\n2:5 0:3 5:6\n3:4 2:8 2:9\n";

// Four rows and three columns, of which the second ones are to go.
const FOUR: &[u8] = b"4 3\n3:1 0 5:2\n0 0 0\n4:3 50 7:1\n1:5 - 9:4\n";

// A length that no file here has.
const LONGEST_FILE: usize = 1_000;

/// The instance of a rect file.
pub(crate) fn instance_of(alloc: Global, file: &[u8]) -> Option<Instance> {
    if file.len() > LONGEST_FILE {
        return None;
    }
    read(alloc, Format::Rect, file).ok()
}

// Lets each column take two rows, drops the second row and closes the second column.
fn edit(inst: &mut Instance) -> Option<()> {
    inst.shape(Place::All, 2).ok()?;
    inst.edit(Objective::Sum, Edit::DropRow { row: 2 }).ok()?;
    inst.edit(Objective::Sum, Edit::DropColumn { col: 2 }).ok()
}

/// Three rows, `3:1 5:2 / 4:3 7:1 / 1:5 9:4`, in two columns that take two rows each, beside a row
/// that was dropped and a column that was closed.
pub(crate) fn edited(alloc: Global) -> Option<Instance> {
    let mut inst = instance_of(alloc, FOUR)?;
    edit(&mut inst)?;
    Some(inst)
}

/// A cell by the ids of its row and its column, and the cost that it gets, if it isn't taken out.
pub(crate) type Change = (u32, u32, Option<i64>);

/// The edit of a cell.
pub(crate) fn edit_of(change: Change) -> Edit {
    let (row, col, cost) = change;
    match cost {
        Some(a) => Edit::Cost {
            row,
            col,
            cost: Cost { a, b: 0 },
        },
        None => Edit::Forbid { row, col },
    }
}

/// No column of a row.
pub(crate) const OUT: u32 = u32::MAX;

/// Whether the choice has these columns, by their places.
pub(crate) fn has_columns(choice: &Choice, columns: &[u32]) -> bool {
    for row in 0..choice.len() {
        let place = row as usize;
        if place >= columns.len() || choice.get(row).unwrap_or(OUT) != columns[place] {
            return false;
        }
    }
    choice.len() as usize == columns.len()
}
