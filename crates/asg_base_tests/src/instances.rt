//! What is read of a square whose cells are kept in a map.

use crate::mapped::square;
use asg_model::{Band, Instance, Place, PlaceRange, RowRoom};
use asg_values::is_hall;
use std::alloc::{AllocError, Global};
use std::test::Fail;

/// The parts of the costs of live cells, row by row.
pub(crate) type Parts = [Option<(i64, i64)>; 9];

const PLAIN: Parts = [
    Some((4, 8)),
    Some((1, 2)),
    Some((3, 6)),
    Some((2, 4)),
    Some((0, 0)),
    Some((5, 10)),
    Some((3, 6)),
    Some((2, 4)),
    Some((2, 4)),
];

/// Whether the live cells have these costs.
pub(crate) fn has_costs(inst: &Instance, want: &Parts) -> bool {
    for place in 0..9u32 {
        let parts = match inst.live(place / 3, place % 3) {
            Some(cost) => Some((cost.a, cost.b)),
            None => None,
        };
        if parts != want[place as usize] {
            return false;
        }
    }
    true
}

/// Rows, by id, and whether they are a Hall set under the band.
pub(crate) type Hall = (Band, &'static [u32], bool);

const HALLS: [Hall; 13] = [
    (Band::Under(2), &[3], true),
    (Band::Under(2), &[1], false),
    (Band::Under(2), &[3, 3], false),
    (Band::Under(2), &[4], false),
    (Band::Under(2), &[1, 2], true),
    (Band::Over(2), &[1, 2, 3], true),
    (Band::Whole, &[1, 2, 3], false),
    (Band::Between(0, 1), &[1, 2], true),
    (Band::Between(0, 1), &[1], false),
    (Band::Between(4, 5), &[3], true),
    (Band::Between(4, 5), &[1], false),
    (Band::Under(i64::MIN), &[1], true),
    (Band::Over(i64::MAX), &[1], true),
];

/// Whether rows are told to be a Hall set or not.
pub(crate) fn are_told(inst: &Instance, halls: &[Hall]) -> bool {
    for (band, rows, want) in halls {
        if is_hall(inst, *band, rows) != *want {
            return false;
        }
    }
    true
}

// Whether the third row has these parts, and there is no fourth.
fn has_parts(inst: &Instance) -> bool {
    let mut room = RowRoom::new();
    let has_third = match inst.row_parts(2, &mut room) {
        Some(parts) => {
            parts.firsts == [3, 2, 2].as_slice() && parts.seconds == [6, 4, 4].as_slice()
        }
        None => false,
    };
    has_third && inst.row_parts(3, &mut room).is_none()
}

// Whether a row and a column stand where they do, by id.
fn has_places(inst: &Instance) -> bool {
    inst.row_place(3) == Some(2)
        && inst.row_place(0).is_none()
        && inst.column_place(1) == Some(0)
        && inst.column_place(9).is_none()
}

// Whether the square refuses to place four rows, and takes one row and two places in each column.
fn reshapes(inst: &mut Instance) -> bool {
    inst.side() == 3
        && inst.shape(Place::Exactly(4), 1) == Err(PlaceRange)
        && inst.slack() == 0
        && inst.shape(Place::Exactly(1), 2) == Ok(())
        && inst.placed() == 1
        && inst.side() == 8
}

// Whether a copy has the same cells.
fn is_copied(alloc: Global, inst: &Instance) -> Result<bool, AllocError> {
    let copy = inst.copy(alloc)?;
    let is_so = has_costs(&copy, &PLAIN);
    drop(copy);
    Ok(is_so)
}

// The costs of the cells off the diagonal.
const OFF_DIAGONAL: Parts = [
    None,
    Some((1, 2)),
    Some((3, 6)),
    Some((2, 4)),
    None,
    Some((5, 10)),
    Some((3, 6)),
    Some((2, 4)),
    None,
];

// Whether the cells off the diagonal are left, where they are kept.
fn keeps_off_diagonal(inst: &mut Instance) -> bool {
    inst.retain(&|row: u32, column: u32| row != column);
    has_costs(inst, &OFF_DIAGONAL)
}

// Whether the square is read, copied, cut down and reshaped.
fn is_read(alloc: Global) -> Result<bool, AllocError> {
    let Some(mut inst) = square(alloc) else {
        return Ok(false);
    };
    let is_copied = is_copied(alloc, &inst);
    let is_so = has_costs(&inst, &PLAIN)
        && has_parts(&inst)
        && has_places(&inst)
        && are_told(&inst, &HALLS)
        && keeps_off_diagonal(&mut inst)
        && reshapes(&mut inst);
    drop(inst);
    Ok(is_so && is_copied?)
}

#[test]
fn squares_in_a_map_are_read(rt: HostRuntime) -> Result<(), Fail> {
    assert!(rt; is_read(rt.alloc())?);
    Ok(())
}
