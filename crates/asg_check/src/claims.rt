//! What stands against a claim.

ghost use Rattle.std.specs.Prelude.{◌≡◌, ◌↔◌, ◌≤◌, IsTrue, IfOk, unsigned_abs};
ghost use Rattle.asg_model.specs.Instances.{IsInstance};
ghost use Rattle.asg_model.specs.Limits.{most_cost, most_side};
ghost use Rattle.asg_model.specs.Refused.{PassesNegative};
ghost use Rattle.asg_model.specs.Shapes.{square_side};
ghost use Rattle.asg_model.specs.ValueRange.{IsValueInRange};
ghost use Rattle.asg_proof.specs.Proves.{takes};
ghost use Rattle.asg_proof.specs.Threshold.{ProvesBelow};
ghost use Rattle.asg_check.specs.DocumentForm.{MayBeAsked, answers_form, takes_claim};
ghost use Rattle.asg_verdicts.specs.Verdicts.{Tells, claim_reasons, proof_reasons};
ghost use Rattle.asg_check.specs.KnownPhases.{AreKnown};
ghost use Rattle.asg_check.specs.Reasons.{StandsAgainst};
ghost use Rattle.asg_check.specs.Written.{IsWrittenAs};

use crate::NoMemory;
use crate::document_forms::Form;
use crate::known_phases::known_phases_verdict;
use crate::ranking_verdicts::ranking_verdict;
use crate::window_verdicts::windows_verdict;
use crate::written_choices::written_choice;
use crate::written_values::is_same_value;
use asg_doc::{Answer, Claim};
use asg_model::{Band, Choice, Instance, Objective, Value};
use asg_proof::{Proof, WrittenPhase};
use asg_values::{is_hall, value};
use asg_verdicts::{Reason, Verdict, levels_verdict};
use std::alloc::Global;

// The verdict on a claim that answers what was asked, by its reasons in order, where some phases
// are known to be admitted. The error is want of memory.
pub(crate) fn claim_verdict(
    alloc: Global,
    objective: Objective,
    inst: &Instance,
    form: Form,
    claim: &Claim,
    known: &[WrittenPhase],
) -> Result<Verdict, NoMemory>
    requires asked { MayBeAsked form objective inst.now }
    requires answers { IsTrue (answers_form form claim.now) }
    requires takes { IsTrue (takes_claim objective claim.now) }
    requires side { square_side inst.now ≤ most_side }
    requires passes { PassesNegative objective inst.now }
    requires known { AreKnown objective inst.now known.now }
    ensures { IfOk result (Tells (StandsAgainst objective inst.now claim.now) claim_reasons) }
{
    match claim {
        Claim::Best { answer, proof } => {
            answer_verdict(alloc, objective, inst, answer, proof, known)
        }
        Claim::Nothing { rows } => {
            if is_hall(inst, Band::Whole, rows.as_slice()) {
                Ok(Verdict::Yes)
            } else {
                Ok(Reason::NotHall.verdict())
            }
        }
        Claim::Ranked {
            count,
            answers,
            nodes,
        } => ranking_verdict(
            alloc,
            objective,
            inst,
            *count,
            answers.as_slice(),
            nodes.as_slice(),
        ),
    }
}

// The verdict on an answer with its proof, by its reasons in order. The error is want of memory.
fn answer_verdict(
    alloc: Global,
    objective: Objective,
    inst: &Instance,
    answer: &Answer,
    proof: &Proof,
    known: &[WrittenPhase],
) -> Result<Verdict, NoMemory>
    requires takes { IsTrue (takes objective proof.now) }
    requires side { square_side inst.now ≤ most_side }
    requires passes { PassesNegative objective inst.now }
    requires known { AreKnown objective inst.now known.now }
    ensures { IfOk result (Tells
        (StandsAgainst objective inst.now (Claim.Best answer.now proof.now)) claim_reasons) }
{
    let Some(choice) = written_choice(alloc, inst, answer.cells.as_slice())? else {
        return Ok(Reason::NotValid.verdict());
    };
    let right = value(alloc, objective, inst, &choice)?;
    if !is_same_value(&answer.value, &right) {
        return Ok(Reason::WrongValue.verdict());
    }
    proof_verdict(alloc, objective, inst, answer, &choice, proof, known)
}

// The verdict on the proof of an answer, whose choice this is, by its reasons in order. The error
// is want of memory.
fn proof_verdict(
    alloc: Global,
    objective: Objective,
    inst: &Instance,
    answer: &Answer,
    choice: &Choice,
    proof: &Proof,
    known: &[WrittenPhase],
) -> Result<Verdict, NoMemory>
    requires takes { IsTrue (takes objective proof.now) }
    requires side { square_side inst.now ≤ most_side }
    requires passes { PassesNegative objective inst.now }
    requires known { AreKnown objective inst.now known.now }
    requires instance { IsInstance inst.now }
    requires written { IsWrittenAs inst.now answer.now.cells choice.now }
    requires in_range { IsValueInRange objective answer.now.value }
    ensures { IfOk result (Tells
        (StandsAgainst objective inst.now (Claim.Best answer.now proof.now)) proof_reasons) }
{
    match proof {
        Proof::Phases(phases) => {
            known_phases_verdict(alloc, objective, inst, choice, phases.as_slice(), known)
        }
        Proof::Below(rows) => {
            if proves_below(objective, inst, &answer.value, rows.as_slice()) {
                Ok(Verdict::Yes)
            } else {
                Ok(Reason::NotHall.verdict())
            }
        }
        Proof::Windows(windows) => {
            windows_verdict(alloc, inst, &answer.value, windows.as_slice())
        }
        Proof::Levels { perm, levels } => {
            levels_verdict(alloc, inst, choice, perm.as_slice(), levels.as_slice())
        }
    }
}

// Whether the rows are a Hall set of the costs that are strictly better than the value.
fn proves_below(objective: Objective, inst: &Instance, value: &Value, rows: &[u32]) -> bool
    requires { IsValueInRange objective value.now }
    ensures { IsTrue result ↔ ProvesBelow objective inst.now value.now rows.now }
{
    match (objective, value) {
        (Objective::Bottleneck, Value::One(value)) => {
            is_hall(inst, Band::Under(bound(*value)), rows)
        }
        (Objective::BottleneckMax, Value::One(value)) => {
            is_hall(inst, Band::Over(bound(*value)), rows)
        }
        _ => false,
    }
}

// A cost as the bound of a band.
fn bound(value: i128) -> i64
    requires { unsigned_abs value ≤ most_cost }
    ensures { result ≡ value }
{
    value as i64
}
