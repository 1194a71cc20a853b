//! What rows choose by a list of columns, and how many chosen cells have a cost.

ghost use Rattle.std.specs.Prelude.{◌≡◌, ◌↔◌, ◌<◌, IfOk, IsTrue, false, length, option_and_then};
ghost use Rattle.std.specs.Option.{option_map_or};
ghost use Rattle.std.specs.Ordering.{int_eq};
ghost use Rattle.asg_model.specs.Live.{live_at};
ghost use Rattle.asg_model.specs.Shapes.{square_side};
ghost use Rattle.asg_model.specs.Values.{costs_at, costs_of};
ghost use Rattle.asg_square.specs.Cells.{choice_of, chosen_by};
ghost use Rattle.asg_verdicts.specs.LevelReasons.{IsColumnList};
ghost use Rattle.asg_verdicts.specs.LevelWalks.{IsCostSquare};

use crate::NoMemory;
use asg_model::{Choice, Instance};
use asg_square::Square;
use std::alloc::Global;

// The column that a row of a square chooses by a list of columns.
fn column_by(inst: &Instance, square: &Square<i64>, perm: &[u32], row: u32) -> Option<u32>
    requires square { IsCostSquare inst.now square.now }
    requires columns { IsColumnList inst.now perm.now }
    requires row { row < square_side inst.now }
    ensures { result ≡ chosen_by inst.now perm.now row }
{
    let _ = inst;
    match square.row_label(row) {
        Some(_place) => square.column_label(perm[row as usize]),
        None => None,
    }
}

/// What the rows of an instance choose by a list of columns. The error is want of memory.
pub(crate) fn chosen_by(
    alloc: Global,
    inst: &Instance,
    square: &Square<i64>,
    perm: &[u32],
) -> Result<Choice, NoMemory>
    requires square { IsCostSquare inst.now square.now }
    requires columns { IsColumnList inst.now perm.now }
    ensures { IfOk result (λ f. f ≡ choice_of inst.now perm.now) }
{
    let mut chosen = Choice::make(alloc, square.rows())?;
    for row in 0..chosen.len() {
        chosen.set(row, column_by(inst, square, perm, row));
    }
    Ok(chosen)
}

/// How many chosen cells are live and have this cost.
pub(crate) fn count_of(inst: &Instance, chosen: &Choice, cost: i64) -> u32
    requires { length chosen.now ≡ length inst.now.rows }
    ensures { result ≡ length (costs_at cost (costs_of inst.now chosen.now)) }
{
    let mut count = 0;
    for row in 0..chosen.len() {
        count += u32::from(has_cost(inst, row, chosen.get(row), cost));
    }
    count
}

// Whether the cell of a row in a column, if there is one, is live and has this cost.
fn has_cost(inst: &Instance, row: u32, column: Option<u32>, cost: i64) -> bool
    ensures { result ≡ option_map_or (λ found. int_eq found.a cost)
        (option_and_then (live_at inst.now row) column) false }
{
    match column {
        Some(column) => inst.live(row, column).is_some_and(|found| found.a == cost),
        None => false,
    }
}

/// Whether two choices over the same rows are the same.
pub(crate) fn is_same_choice(chosen: &Choice, choice: &Choice) -> bool
    requires { length chosen.now ≡ length choice.now }
    ensures { IsTrue result ↔ (chosen.now ≡ choice.now) }
{
    for row in 0..chosen.len() {
        if chosen.get(row) != choice.get(row) {
            return false;
        }
    }
    true
}
