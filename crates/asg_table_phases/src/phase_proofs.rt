//! Whether phases prove a choice of an instance.

ghost use Rattle.std.specs.Prelude.{◌≡◌, ◌≤◌, ◌^◌, All, IfOk, IsTrue, false, map};
ghost use Rattle.asg_model.specs.Limits.{most_side};
ghost use Rattle.asg_model.specs.Refused.{PassesNegative};
ghost use Rattle.asg_model.specs.Shapes.{square_side};
ghost use Rattle.asg_monoids.specs.BoundedSums.{bounded_sums, plain_word};
ghost use Rattle.asg_monoids.specs.Entered.{is_sum_objective, sum_entered, top_of};
ghost use Rattle.asg_monoids.specs.NarrowObjectives.{is_narrow_objective};
ghost use Rattle.asg_order.specs.Bridge.{choice_fold};
ghost use Rattle.asg_order.specs.Monoid.{IsValue};
ghost use Rattle.asg_proof.specs.FoldProofs.{ProvesPhases};
ghost use Rattle.asg_proof.specs.Phases.{worded};
ghost use Rattle.asg_proof.specs.PromisedProofs.{AreFewPhases};

use crate::NoMemory;
use crate::phase_sizes::are_sized;
use crate::phase_sums::totals_of;
use crate::table_fits::fits_table;
use asg_model::{Choice, Instance, Objective};
use asg_monoids::SumKind;
use asg_proof::Phase;
use asg_proof::laws::lesser_tops_law;
use asg_replays::chosen_fold;
use std::alloc::Global;

// Whether the entered costs of a choice add up to so much.
fn adds_up_to(objective: Objective, inst: &Instance, choice: &Choice, sum: u128) -> bool
    requires objective { IsTrue (is_sum_objective objective) }
    requires passes { is_narrow_objective objective ≡ false → PassesNegative objective inst.now }
    ensures sum { IsTrue result → sum
        ≡ choice_fold (bounded_sums (top_of objective)) (sum_entered objective) inst.now choice.now }
    ensures few { IsTrue result → sum ≤ top_of objective }
{
    let _rows = inst.rows();
    let kind = SumKind::of(objective);
    let fold = chosen_fold(&kind, inst, choice);
    fold == sum
}

/// Whether phases prove for an objective of sums exactly the fold of a choice of an instance: they are
/// admitted in turn, and what their steps add up to is what the entered costs of the choice do. They
/// are at most as many as the side, and each has 1 to side steps. The answer `false` tells nothing:
/// it is so for `capped` where the steps add up to more than the cap. The time is that
/// of one pass over the costs and over the phases. The error is want of memory.
pub fn proves(
    alloc: Global,
    objective: Objective,
    inst: &Instance,
    choice: &Choice,
    phases: &[Phase<u128>],
) -> Result<bool, NoMemory>
    requires objective { IsTrue (is_sum_objective objective) }
    requires side { square_side inst.now ≤ most_side }
    requires passes { is_narrow_objective objective ≡ false → PassesNegative objective inst.now }
    ensures proved { IfOk result (λ is. IsTrue is
        → ProvesPhases objective inst.now choice.now (map (worded plain_word) phases.now)) }
    ensures few { IfOk result (λ is. IsTrue is
        → AreFewPhases (square_side inst.now) (map (worded plain_word) phases.now)) }
    ensures values { IfOk result (λ is. IsTrue is
        → All (λ phase. All (IsValue (bounded_sums (2 ^ 120))) phase.steps) phases.now) }
{
    lesser_tops_law();
    let side = inst.side();
    if !are_sized(phases, side as usize) {
        return Ok(false);
    }
    let Some(totals) = totals_of(alloc, side, phases)? else {
        return Ok(false);
    };
    if !fits_table(objective, inst, &totals) {
        return Ok(false);
    }
    Ok(adds_up_to(objective, inst, choice, totals.sum()))
}
