//! Outcomes of `sum`, `sum-max` and `capped` by the costs as they stand, without a square.

ghost use Rattle.std.specs.Prelude.{◌≤◌, IsTrue, IfOk, IfSome};
ghost use Rattle.asg_model.specs.Limits.{most_side};
ghost use Rattle.asg_model.specs.Refused.{PassesNegative};
ghost use Rattle.asg_model.specs.Shapes.{square_side};
ghost use Rattle.asg_monoids.specs.Entered.{is_sum_objective};
ghost use Rattle.asg_proof.specs.Outcomes.{IsOutcome};
ghost use Rattle.asg_proof.specs.PromisedProofs.{GivesFewPhases};

use crate::NoMemory;
use crate::rises::widened;
use crate::table_duals::duals_of;
use crate::trail_phases::words_of;
use asg_duals::{short_phases, wide_phases};
use asg_model::{Choice, Instance, Objective};
use asg_monoids::Bounded;
use asg_proof::{Outcome, Phase, Proof};
use asg_table_phases::proves;
use asg_table_sums::{choice_of, lead};
use asg_values::is_valid;
use std::alloc::Global;

/// The outcome of a choice with phases, where these prove it; else `None`. The error is want of
/// memory.
pub(crate) fn proved_outcome(
    alloc: Global,
    objective: Objective,
    inst: &Instance,
    choice: Choice,
    phases: Vec<Phase<u128>>,
) -> Result<Option<Outcome>, NoMemory>
    requires objective { IsTrue (is_sum_objective objective) }
    requires side { square_side inst.now ≤ most_side }
    requires passes { PassesNegative objective inst.now }
    ensures outcome { IfOk result (λ found. IfSome found (IsOutcome objective inst.now)) }
    ensures phases { IfOk result (λ found. IfSome found (GivesFewPhases (square_side inst.now))) }
{
    if !is_valid(inst, &choice) {
        return Ok(None);
    }
    if !proves(alloc, objective, inst, &choice, phases.as_slice())? {
        return Ok(None);
    }
    let sums = Bounded { top: 1 << 120 };
    let words = words_of(alloc, &sums, phases)?;
    let proof = Proof::Phases(words);
    Ok(Some(Outcome::Best { choice, proof }))
}

/// The outcome by columns of the rows and rises of the columns, where these lead to phases that prove
/// it; else `None`. The error is want of memory.
pub(crate) fn led_outcome(
    alloc: Global,
    objective: Objective,
    inst: &Instance,
    columns: &[u32],
    rises: &[u64],
) -> Result<Option<Outcome>, NoMemory>
    requires objective { IsTrue (is_sum_objective objective) }
    requires side { square_side inst.now ≤ most_side }
    requires passes { PassesNegative objective inst.now }
    ensures outcome { IfOk result (λ found. IfSome found (IsOutcome objective inst.now)) }
    ensures phases { IfOk result (λ found. IfSome found (GivesFewPhases (square_side inst.now))) }
{
    let rows = inst.rows().len() as u32;
    let choice = choice_of(alloc, rows, columns, inst.columns().len())?;
    let duals = duals_of(alloc, objective, inst, columns, rises)?;
    let plain = short_phases(alloc, &duals)?;
    let phases = wide_phases(alloc, plain.as_slice())?;
    proved_outcome(alloc, objective, inst, choice, phases)
}

/// The outcome of `sum`, `sum-max` or `capped`, by phases of plain sums that are guessed and tested
/// over the costs as they stand; `None` where none pass. That is so where a row is inactive, a column
/// is closed, a cell is absent, or costs of a row differ by 2^30 or more, where rows stay out, any by
/// 2^27 or more, and for `capped` where the costs of a least choice add up to more than the cap; no
/// clause says when. The error is want of memory.
pub(crate) fn outcome_by_table(
    alloc: Global,
    objective: Objective,
    inst: &Instance,
) -> Result<Option<Outcome>, NoMemory>
    requires objective { IsTrue (is_sum_objective objective) }
    requires side { square_side inst.now ≤ most_side }
    requires passes { PassesNegative objective inst.now }
    ensures outcome { IfOk result (λ found. IfSome found (IsOutcome objective inst.now)) }
    ensures phases { IfOk result (λ found. IfSome found (GivesFewPhases (square_side inst.now))) }
{
    let Some(lead) = lead(alloc, objective, inst)? else {
        return Ok(None);
    };
    let rises = widened(alloc, lead.rises.as_slice())?;
    led_outcome(
        alloc,
        objective,
        inst,
        lead.columns.as_slice(),
        rises.as_slice(),
    )
}
