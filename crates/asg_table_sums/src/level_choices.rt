//! Choices that are best as they are level under rises of columns.

ghost use Rattle.std.specs.Prelude.{◌<◌, ◌≤ℤ◌, ◌^◌, ℕ, pos, negsuc, IfOk, IfSome, IsTrue, length};
ghost use Rattle.asg_model.specs.Best.{IsBest};
ghost use Rattle.asg_monoids.specs.Entered.{shifted};
ghost use Rattle.asg_monoids.specs.NarrowObjectives.{is_narrow_objective};
ghost use Rattle.asg_table_sums.specs.Level.{IsLevel, IsRowLevel};

use crate::NoMemory;
use crate::fullness::are_full;
use crate::laws::level_law;
use crate::leads::{choice_of, lead, top_of};
use crate::level_rows::is_row_level;
use asg_model::limits::MOST_COST;
use asg_model::{Choice, Instance, Objective, RowRoom};
use asg_values::is_valid;
use std::alloc::Global;

// The greatest top that is tested.
const MOST_TOP: i64 = 1_099_511_627_776;

// Whether each row chooses the least of its cells once the columns have risen, none above the top,
// or chooses none, and has none below it.
fn are_rows_level(
    objective: Objective,
    inst: &Instance,
    choice: &Choice,
    rises: &[u32],
    top: i64,
) -> bool
    requires low { negsuc 999999999 ≤ℤ top }
    requires high { top ≤ℤ pos (2 ^ 40) }
    ensures { IsTrue result → (r : ℕ) → r < length choice.now
        → IsRowLevel objective inst.now choice.now rises.now (shifted top) r }
{
    let mut room = RowRoom::new();
    'rows: for row in 0..choice.len() {
        if !is_row_level(objective, inst, choice, rises, row, top, &mut room) {
            return false;
        }
    }
    true
}

// Whether a choice is level under rises of columns, with this top.
fn is_level(objective: Objective, inst: &Instance, choice: &Choice, rises: &[u32], top: i64) -> bool
    ensures { IsTrue result → IsLevel objective inst.now choice.now rises.now (shifted top) }
{
    if top < -MOST_COST || top > MOST_TOP {
        return false;
    }
    is_valid(inst, choice)
        && are_full(inst, choice, rises)
        && are_rows_level(objective, inst, choice, rises, top)
}

// The choice, where it is level.
fn tested(objective: Objective, inst: &Instance, choice: Choice, rises: &[u32]) -> Option<Choice>
    requires { IsTrue (is_narrow_objective objective) }
    ensures { IfSome result (IsBest objective inst.now) }
{
    level_law();
    let _rows = inst.rows();
    let top = top_of(objective, inst, &choice, rises);
    if is_level(objective, inst, &choice, rises, top) {
        Some(choice)
    } else {
        None
    }
}

/// A best choice for `sum` or `sum-max`, by rises of columns that are guessed and tested; `None`
/// where none was found. That is so where a row is inactive, a column is closed, a cell is absent,
/// or costs of a row differ by 2^30 or more, and, where rows stay out, any by 2^27 or more; no
/// clause says when. The error is want of memory. The time grows with the cube of the rows and
/// columns at most; the test is one pass over the costs.
pub fn best_by_table(
    alloc: Global,
    objective: Objective,
    inst: &Instance,
) -> Result<Option<Choice>, NoMemory>
    requires { IsTrue (is_narrow_objective objective) }
    ensures { IfOk result (λ found. IfSome found (IsBest objective inst.now)) }
{
    let Some(lead) = lead(alloc, objective, inst)? else {
        return Ok(None);
    };
    let rows = inst.rows().len() as u32;
    let columns = inst.columns().len();
    let choice = choice_of(alloc, rows, lead.columns.as_slice(), columns)?;
    Ok(tested(objective, inst, choice, lead.rises.as_slice()))
}
