//! Outcomes of bottleneck objectives that are guessed on the instance's own table of costs, and
//! tested.

ghost use Rattle.std.specs.Prelude.{◌≡◌, IfOk, IfSome, IsTrue};
ghost use Rattle.asg_model.specs.Objectives.{IsBottleneck};
ghost use Rattle.asg_model.specs.ValidChoice.{IsValid};
ghost use Rattle.asg_model.specs.declared.objectives.Value.TheVariants.{One};
ghost use Rattle.asg_model.specs.Values.{choice_value};
ghost use Rattle.asg_proof.specs.Outcomes.{IsOutcome};
ghost use Rattle.asg_proof.specs.PromisedProofs.{HasThresholdProof};
ghost use Rattle.asg_proof.specs.Threshold.{ProvesBelow};

use crate::NoMemory;
use crate::leads::{Lead, table_lead};
use crate::places::{NONE, at};
use asg_model::{Band, Choice, Instance, Objective, Value};
use asg_proof::{Ids, Outcome, Proof};
use asg_values::{is_hall, is_valid, value};
use std::alloc::Global;

// The ids of the rows at these places.
fn ids_of(alloc: Global, inst: &Instance, places: &[u32]) -> Result<Vec<u32>, NoMemory> {
    let rows = inst.rows();
    let mut ids = Vec::with_capacity(alloc, places.len())?;
    for place in places {
        if (*place as usize) < rows.len() {
            ids.push(rows[*place as usize].id)?;
        }
    }
    Ok(ids)
}

// The choice of these columns.
fn choice_of(alloc: Global, inst: &Instance, columns: &[u32]) -> Result<Choice, NoMemory> {
    let rows = inst.rows().len() as u32;
    let mut choice = Choice::make(alloc, rows)?;
    for row in 0..rows {
        let column = at(columns, row);
        if row < choice.len() && column != NONE {
            choice.set(row, Some(column));
        }
    }
    Ok(choice)
}

// Whether rows prove that no valid choice has a better value.
fn is_proof(objective: Objective, inst: &Instance, bound: i64, ids: &[u32]) -> bool
    requires { IsBottleneck objective }
    ensures { IsTrue result → ProvesBelow objective inst.now (One bound) ids.now }
{
    match objective {
        Objective::BottleneckMax => is_hall(inst, Band::Over(bound), ids),
        _ => is_hall(inst, Band::Under(bound), ids),
    }
}

// The value of a valid choice.
fn bound_of(
    alloc: Global,
    objective: Objective,
    inst: &Instance,
    choice: &Choice,
) -> Result<Option<i64>, NoMemory>
    requires { IsValid inst.now choice.now }
    ensures { IfOk result (λ found.
        IfSome found (λ bound. choice_value objective inst.now choice.now ≡ One bound)) }
{
    match value(alloc, objective, inst, choice)? {
        Value::One(number) => Ok(i64::try_from(number).ok()),
        _ => Ok(None),
    }
}

// The outcome of a choice with rows, where these prove it; else `None`.
fn best_outcome(
    alloc: Global,
    objective: Objective,
    inst: &Instance,
    choice: Choice,
    ids: Vec<u32>,
) -> Result<Option<Outcome>, NoMemory>
    requires { IsBottleneck objective }
    ensures outcome { IfOk result (λ found. IfSome found (IsOutcome objective inst.now)) }
    ensures threshold { IfOk result (λ found. IfSome found HasThresholdProof) }
{
    if !is_valid(inst, &choice) {
        return Ok(None);
    }
    let Some(bound) = bound_of(alloc, objective, inst, &choice)? else {
        return Ok(None);
    };
    if !is_proof(objective, inst, bound, ids.as_slice()) {
        return Ok(None);
    }
    let proof = Proof::Below(Ids::from_vec(ids));
    Ok(Some(Outcome::Best { choice, proof }))
}

// The outcome that no choice is valid, where rows are a Hall set of the whole instance; else
// `None`.
fn no_outcome(objective: Objective, inst: &Instance, ids: Vec<u32>) -> Option<Outcome>
    ensures outcome { IfSome result (IsOutcome objective inst.now) }
    ensures threshold { IfSome result HasThresholdProof }
{
    let _ = objective;
    if !is_hall(inst, Band::Whole, ids.as_slice()) {
        return None;
    }
    let rows = Ids::from_vec(ids);
    Some(Outcome::Nothing { rows })
}

/// The outcome of a bottleneck objective by columns and rows that are guessed on the instance's own
/// table of costs and tested; `None` where rows may stay out, or a test fails. The error is want of
/// memory. The test is one pass over the costs of the rows.
pub(crate) fn guessed_outcome(
    alloc: Global,
    objective: Objective,
    inst: &Instance,
) -> Result<Option<Outcome>, NoMemory>
    requires { IsBottleneck objective }
    ensures outcome { IfOk result (λ found. IfSome found (IsOutcome objective inst.now)) }
    ensures threshold { IfOk result (λ found. IfSome found HasThresholdProof) }
{
    let Some(lead) = table_lead(alloc, objective, inst)? else {
        return Ok(None);
    };
    let Lead {
        columns,
        rows,
        is_found,
    } = lead;
    let ids = ids_of(alloc, inst, rows.as_slice())?;
    if !is_found {
        return Ok(no_outcome(objective, inst, ids));
    }
    let choice = choice_of(alloc, inst, columns.as_slice())?;
    best_outcome(alloc, objective, inst, choice, ids)
}
