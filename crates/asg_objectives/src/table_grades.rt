//! The outcome of `time-cost` by the table of costs, without a square.

ghost use Rattle.std.specs.Prelude.{◌≤◌, IfOk, IfSome};
ghost use Rattle.asg_model.specs.declared.objectives.Objective.TheVariants.{TimeCost};
ghost use Rattle.asg_model.specs.Limits.{most_side};
ghost use Rattle.asg_model.specs.Refused.{PassesNegative};
ghost use Rattle.asg_model.specs.Shapes.{square_side};
ghost use Rattle.asg_proof.specs.Outcomes.{IsOutcome};
ghost use Rattle.asg_proof.specs.Phases.{IsPhase};
ghost use Rattle.asg_proof.specs.PromisedProofs.{GivesFewPhases};

use crate::NoMemory;
use crate::grade_leads::{GradeLead, grade_lead};
use crate::listed_grades::has_fold;
use asg_dual_search::Bound;
use asg_model::{Choice, Instance};
use asg_order::Word;
use asg_proof::{Outcome, Phase, Phases, Proof, StepWords, WrittenPhase};
use asg_table_phases::graded_index;
use asg_table_sums::choice_of;
use std::alloc::Global;

// Amounts as words at a grade.
fn words_at(alloc: Global, grade: u64, steps: &[u64]) -> Result<StepWords, NoMemory> {
    let mut words = StepWords::none(alloc);
    for step in steps {
        words.push(Word {
            grade,
            amount: u128::from(*step),
        })?;
    }
    Ok(words)
}

// The phase of steps of these amounts at a grade, with these marks.
fn phase_at(
    alloc: Global,
    grade: u64,
    steps: &[u64],
    enters: &[u32],
    leaves: &[u32],
) -> Result<WrittenPhase, NoMemory>
    ensures { IfOk result IsPhase }
{
    let words = words_at(alloc, grade, steps)?;
    let enters = Vec::from_slice(alloc, enters)?;
    let leaves = Vec::from_slice(alloc, leaves)?;
    WrittenPhase::of(words, enters, leaves)
}

// The phase to a grade, and phases of amounts at it. No clause says that they are these.
fn phases_of(alloc: Global, bound: &Bound, amounts: &[Phase<u64>]) -> Result<Phases, NoMemory> {
    let grade = bound.limit;
    let (enters, leaves) = (bound.enters.as_slice(), bound.leaves.as_slice());
    let first = phase_at(alloc, grade, &[0], enters, leaves)?;
    let mut list = Vec::with_capacity(alloc, amounts.len().saturating_add(1))?;
    list.push(first)?;
    'phases: for k in 0..amounts.len() {
        let it = &amounts[k];
        let phase = phase_at(alloc, grade, it.steps(), it.enters(), it.leaves())?;
        list.push(phase)?;
    }
    Phases::from_vec(list)
}

// The outcome of a choice with phases, where these prove it.
fn proved_grades(
    alloc: Global,
    inst: &Instance,
    choice: Choice,
    phases: Phases,
) -> Result<Option<Outcome>, NoMemory>
    requires side { square_side inst.now ≤ most_side }
    requires passes { PassesNegative TimeCost inst.now }
    ensures outcome { IfOk result (λ found. IfSome found (IsOutcome TimeCost inst.now)) }
    ensures phases { IfOk result (λ found. IfSome found (GivesFewPhases (square_side inst.now))) }
{
    if phases.len() > inst.side() as usize {
        return Ok(None);
    }
    let listed = graded_index(alloc, inst, phases.as_slice())?;
    let Some(index) = listed else {
        return Ok(None);
    };
    if !has_fold(inst, &choice, index) {
        return Ok(None);
    }
    Ok(Some(Outcome::Best {
        choice,
        proof: Proof::Phases(phases),
    }))
}

// The outcome by phases and columns of the rows, where they pass the tests.
fn led_grades(alloc: Global, inst: &Instance, lead: &GradeLead) -> Result<Option<Outcome>, NoMemory>
    requires side { square_side inst.now ≤ most_side }
    requires passes { PassesNegative TimeCost inst.now }
    ensures outcome { IfOk result (λ found. IfSome found (IsOutcome TimeCost inst.now)) }
    ensures phases { IfOk result (λ found. IfSome found (GivesFewPhases (square_side inst.now))) }
{
    let rows = inst.rows().len() as u32;
    let columns = inst.columns().len();
    let choice = choice_of(alloc, rows, lead.columns.as_slice(), columns)?;
    let phases = phases_of(alloc, &lead.bound, lead.phases.as_slice())?;
    proved_grades(alloc, inst, choice, phases)
}

/// The outcome of `time-cost` by phases of one grade that are guessed and tested over the costs as
/// they stand; `None` where none pass, as where a row is inactive or may stay out, a column is closed
/// or holds more than one row, a cell is absent, or there are more columns than rows. The error is
/// want of memory.
pub(crate) fn outcome_by_grades(alloc: Global, inst: &Instance) -> Result<Option<Outcome>, NoMemory>
    requires side { square_side inst.now ≤ most_side }
    requires passes { PassesNegative TimeCost inst.now }
    ensures outcome { IfOk result (λ found. IfSome found (IsOutcome TimeCost inst.now)) }
    ensures phases { IfOk result (λ found. IfSome found (GivesFewPhases (square_side inst.now))) }
{
    match grade_lead(alloc, inst)? {
        Some(lead) => led_grades(alloc, inst, &lead),
        None => Ok(None),
    }
}
