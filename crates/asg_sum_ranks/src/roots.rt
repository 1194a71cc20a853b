//! The first answer, guessed with amounts.

ghost use Rattle.std.specs.Prelude.{◌≤◌};
ghost use Rattle.asg_model.specs.Limits.{most_side};
ghost use Rattle.asg_model.specs.Shapes.{square_side};

use crate::NoMemory;
use crate::settled::{Amounts, Settled};
use asg_dual_numbers::Lists;
use asg_duals::{Duals, sum_square, tight_duals};
use asg_model::{Instance, Objective};
use std::alloc::Global;

// Rises up to here are looked at quickly.
const QUICK_RISE: u64 = (1 << 31) - 1;

// Dual variables of the square of an instance, and its assignment.
fn square_duals(
    alloc: Global,
    objective: Objective,
    inst: &Instance,
) -> Result<Option<Duals>, NoMemory>
    requires { square_side inst.now ≤ most_side }
{
    let square = sum_square(alloc, objective, inst)?;
    let duals = tight_duals(alloc, &square);
    drop(square);
    duals
}

// What columns may rise by more where each has a row, so that none is near the floor: half of what
// is left of the rises that are looked at quickly.
fn above_floor(rises: &[u64]) -> u64 {
    let most = rises.iter().copied().max().unwrap_or(0);
    QUICK_RISE.saturating_sub(most) / 2
}

// The first answer of so many rows and columns, by dual variables of their square.
fn root_of(
    alloc: Global,
    duals: &Duals,
    rows: usize,
    columns: usize,
) -> Result<Option<Settled>, NoMemory> {
    let own = duals.columns();
    let falls = duals.falls();
    let rises = duals.rises();
    if rises.len() != columns || columns < rows || falls.len() < rows || own.len() < rows {
        return Ok(None);
    }
    let (more, floor) = if rows < columns && rows < falls.len() {
        (0, falls[rows])
    } else {
        (above_floor(rises), 0)
    };
    let mut lists = Lists::new(alloc);
    let mut amounts = Amounts::of(&mut lists, &falls[..rows], rises, floor);
    amounts.raise_all(more);
    let own = lists.copy_of(&own[..rows]);
    let root = Settled::of(&mut lists, own, 0, 0, Vec::new(alloc), amounts);
    Ok(Some(lists.whole(root)?))
}

/// The first answer of an instance of so many rows and columns, guessed with amounts; `None` where
/// nothing was found. The error is want of memory.
pub(crate) fn root(
    alloc: Global,
    objective: Objective,
    inst: &Instance,
    rows: usize,
    columns: usize,
) -> Result<Option<Settled>, NoMemory>
    requires { square_side inst.now ≤ most_side }
{
    match square_duals(alloc, objective, inst)? {
        Some(duals) => root_of(alloc, &duals, rows, columns),
        None => Ok(None),
    }
}
