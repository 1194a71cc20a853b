//! How far the children of a part are above it at least.

ghost use Rattle.std.specs.Prelude.{◌≡◌, length};

use crate::benches::Parent;
use crate::numbers::{RankNumber, amount_of, capped, open};
use crate::rooms::{Room, number};
use crate::tables::Table;
use asg_dual_numbers::{set, value};

// Opens a pass from the last row of a part up: no row was gone through, and none takes the column
// of another.
fn begin<N: RankNumber>(room: &mut Room<N>, table: &Table<N>, parent: &Parent<'_>) {
    let spare_fall = parent.floor.saturating_sub(table.floor);
    room.take(table, parent);
    let numbers = table.row(table.rows);
    let keys = room.keys.as_mut_slice();
    open(numbers, room.raised.as_slice(), keys, capped(spare_fall));
    let floors = room.floors.as_mut_slice();
    for column in 0..floors.len() {
        let floor = if column < table.columns {
            N::zero()
        } else {
            N::far()
        };
        set(floors, column, floor);
    }
    for row in 0..parent.columns.len() {
        set(floors, parent.columns[row] as usize, N::far());
    }
}

// Goes through a row with this column, which it loses: how far another column of the rows behind it
// is for it at least, and how far it is for the column to go to one of them.
fn pass<N: RankNumber>(room: &mut Room<N>, numbers: &[N], own: usize) -> u64 {
    let fall = number(numbers, room.raised.as_slice(), own);
    let of_column = value(room.keys.as_slice(), own);
    let of_row = N::lessen_row(
        numbers,
        room.raised.as_slice(),
        room.floors.as_slice(),
        room.keys.as_mut_slice(),
        fall,
    );
    set(room.floors.as_mut_slice(), own, N::zero());
    amount_of(of_row).saturating_add(amount_of(of_column))
}

// Writes for each row of a part from its first on how far the child is above it in which that row
// loses its column.
pub(crate) fn measure_in<N: RankNumber>(
    gaps: &mut [u64],
    room: &mut Room<N>,
    table: &Table<N>,
    parent: &Parent<'_>,
    banned: &[u32],
)
    ensures { length gaps.new ≡ length gaps.old }
{
    begin(room, table, parent);
    let rows = parent.columns.len().min(gaps.len());
    for back in parent.row..rows {
        let row = rows - 1 - (back - parent.row);
        if row == parent.row {
            for place in 0..banned.len() {
                let column = banned[place] as usize;
                set(room.floors.as_mut_slice(), column, N::far());
            }
        }
        gaps[row] = pass(room, table.row(row), parent.columns[row] as usize);
    }
}
