//! Outcomes of `sum`, `sum-max` and `capped` by guesses of sums in 64 bits.

ghost use Rattle.std.specs.Prelude.{◌≤◌, IsTrue, IfOk, IfSome};
ghost use Rattle.asg_model.specs.Limits.{most_side};
ghost use Rattle.asg_model.specs.Refused.{PassesNegative};
ghost use Rattle.asg_model.specs.Shapes.{square_side};
ghost use Rattle.asg_monoids.specs.Entered.{is_sum_objective};
ghost use Rattle.asg_proof.specs.Outcomes.{IsOutcome};
ghost use Rattle.asg_proof.specs.PromisedProofs.{GivesFewPhases};
ghost use Rattle.asg_square.specs.Grid.{HasLabelsOf, HasPresenceOf};

use crate::NoMemory;
use crate::listed_grades::choice_by_columns;
use crate::solved_squares::shortage;
use crate::sparse_outcomes::outcome_by_arcs;
use crate::table_outcomes::{outcome_by_table, proved_outcome};
use asg_duals::{Duals, short_phases, sum_square, tight_duals, wide_phases};
use asg_model::{Instance, Objective};
use asg_proof::Outcome;
use asg_square::Square;
use std::alloc::Global;

// The outcome by dual variables of the square of an instance, where these lead to phases that prove
// it; else `None`.
fn dual_outcome(
    alloc: Global,
    objective: Objective,
    inst: &Instance,
    square: &Square<u64>,
    duals: &Duals,
) -> Result<Option<Outcome>, NoMemory>
    requires objective { IsTrue (is_sum_objective objective) }
    requires side { square_side inst.now ≤ most_side }
    requires passes { PassesNegative objective inst.now }
    ensures outcome { IfOk result (λ found. IfSome found (IsOutcome objective inst.now)) }
    ensures phases { IfOk result (λ found. IfSome found (GivesFewPhases (square_side inst.now))) }
{
    let choice = choice_by_columns(alloc, square, duals.columns())?;
    let plain = short_phases(alloc, duals)?;
    let phases = wide_phases(alloc, plain.as_slice())?;
    proved_outcome(alloc, objective, inst, choice, phases)
}

// The outcome by a square of the instance: a Hall set where some rows have too few present cells,
// else by dual variables that are tight on it. `None` where none are found that lead to phases that
// prove it.
fn outcome_on(
    alloc: Global,
    objective: Objective,
    inst: &Instance,
    square: &Square<u64>,
) -> Result<Option<Outcome>, NoMemory>
    requires objective { IsTrue (is_sum_objective objective) }
    requires side { square_side inst.now ≤ most_side }
    requires passes { PassesNegative objective inst.now }
    requires labels { HasLabelsOf inst.now square.now }
    requires present { HasPresenceOf inst.now square.now }
    ensures outcome { IfOk result (λ found. IfSome found (IsOutcome objective inst.now)) }
    ensures phases { IfOk result (λ found. IfSome found (GivesFewPhases (square_side inst.now))) }
{
    if let Some(found) = shortage(alloc, inst, square)? {
        return Ok(Some(found));
    }
    let Some(duals) = tight_duals(alloc, square)? else {
        return Ok(None);
    };
    dual_outcome(alloc, objective, inst, square, &duals)
}

// The same by a square that is made for it.
fn outcome_by_square(
    alloc: Global,
    objective: Objective,
    inst: &Instance,
) -> Result<Option<Outcome>, NoMemory>
    requires objective { IsTrue (is_sum_objective objective) }
    requires side { square_side inst.now ≤ most_side }
    requires passes { PassesNegative objective inst.now }
    ensures outcome { IfOk result (λ found. IfSome found (IsOutcome objective inst.now)) }
    ensures phases { IfOk result (λ found. IfSome found (GivesFewPhases (square_side inst.now))) }
{
    let square = sum_square(alloc, objective, inst)?;
    let outcome = outcome_on(alloc, objective, inst, &square);
    drop(square);
    outcome
}

/// The outcome of `sum`, `sum-max` or `capped`: by phases of sums in 64 bits that are guessed and
/// tested over the costs as they stand. They are guessed from the costs, from the live cells, where
/// these are few, and from a square, which tells too where no choice is valid. `None` where none
/// pass, as for `capped` where the costs of a least choice add up to more than the cap. The error is
/// want of memory.
pub(crate) fn by_narrow_sums(
    alloc: Global,
    objective: Objective,
    inst: &Instance,
) -> Result<Option<Outcome>, NoMemory>
    requires objective { IsTrue (is_sum_objective objective) }
    requires side { square_side inst.now ≤ most_side }
    requires passes { PassesNegative objective inst.now }
    ensures outcome { IfOk result (λ found. IfSome found (IsOutcome objective inst.now)) }
    ensures phases { IfOk result (λ found. IfSome found (GivesFewPhases (square_side inst.now))) }
{
    if let Some(found) = outcome_by_table(alloc, objective, inst)? {
        return Ok(Some(found));
    }
    if let Some(found) = outcome_by_arcs(alloc, objective, inst)? {
        return Ok(Some(found));
    }
    outcome_by_square(alloc, objective, inst)
}
