//! Outcomes of `sum`, `sum-max` and `capped` where few cells are live, by lists of these, without a square.

ghost use Rattle.std.specs.Prelude.{◌≤◌, IsTrue, IfOk, IfSome};
ghost use Rattle.asg_model.specs.Limits.{most_side};
ghost use Rattle.asg_model.specs.Refused.{PassesNegative};
ghost use Rattle.asg_model.specs.Shapes.{square_side};
ghost use Rattle.asg_monoids.specs.Entered.{is_sum_objective};
ghost use Rattle.asg_proof.specs.Outcomes.{IsOutcome};
ghost use Rattle.asg_proof.specs.PromisedProofs.{GivesFewPhases};

use crate::NoMemory;
use crate::rises::rises_of;
use crate::sparse_leads::sparse_lead;
use crate::table_outcomes::led_outcome;
use asg_class_search::ArcLead;
use asg_model::{Band, Instance, Objective};
use asg_proof::{Ids, Outcome};
use asg_values::is_hall;
use std::alloc::Global;

// The ids of rows.
fn ids_of(alloc: Global, inst: &Instance, rows: &[u32]) -> Result<Vec<u32>, NoMemory> {
    let all = inst.rows();
    let mut ids = Vec::with_capacity(alloc, rows.len())?;
    for row in rows {
        if (*row as usize) < all.len() {
            ids.push(all[*row as usize].id)?;
        }
    }
    Ok(ids)
}

// The outcome that no choice is valid, where rows are a Hall set of the whole instance; else `None`.
fn hall_outcome(
    alloc: Global,
    objective: Objective,
    inst: &Instance,
    rows: &[u32],
) -> Result<Option<Outcome>, NoMemory>
    ensures outcome { IfOk result (λ found. IfSome found (IsOutcome objective inst.now)) }
    ensures phases { IfOk result (λ found. IfSome found (GivesFewPhases (square_side inst.now))) }
{
    let ids = ids_of(alloc, inst, rows)?;
    if !is_hall(inst, Band::Whole, ids.as_slice()) {
        return Ok(None);
    }
    let rows = Ids::from_vec(ids);
    Ok(Some(Outcome::Nothing { rows }))
}

/// The outcome of `sum`, `sum-max` or `capped` where few cells are live, each column holds one row,
/// and all rows are placed: by phases or by rows that are guessed and tested; `None` where none pass, or
/// the instance is another. The error is want of memory. The time of the search grows with rows
/// times live cells at most, with a heap; the test is one pass over the costs.
pub(crate) fn outcome_by_arcs(
    alloc: Global,
    objective: Objective,
    inst: &Instance,
) -> Result<Option<Outcome>, NoMemory>
    requires objective { IsTrue (is_sum_objective objective) }
    requires side { square_side inst.now ≤ most_side }
    requires passes { PassesNegative objective inst.now }
    ensures outcome { IfOk result (λ found. IfSome found (IsOutcome objective inst.now)) }
    ensures phases { IfOk result (λ found. IfSome found (GivesFewPhases (square_side inst.now))) }
{
    let Some(lead) = sparse_lead(alloc, objective, inst)? else {
        return Ok(None);
    };
    match lead {
        ArcLead::Found { columns, duals } => {
            let rises = rises_of(alloc, duals.as_slice())?;
            led_outcome(alloc, objective, inst, columns.as_slice(), rises.as_slice())
        }
        ArcLead::Short(rows) => hall_outcome(alloc, objective, inst, rows.as_slice()),
    }
}
