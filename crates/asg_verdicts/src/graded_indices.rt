//! The verdict on phases of `time-cost`, where one pass over the table of costs tells their index.

ghost use Rattle.std.specs.Prelude.{◌≡◌, ◌≢◌, ◌⊎◌, ◌≤◌, pos, ◌^◌, IfOk, IfSome};
ghost use Rattle.asg_model.specs.declared.objectives.Objective.TheVariants.{TimeCost};
ghost use Rattle.asg_model.specs.Instances.{IsInstance};
ghost use Rattle.asg_model.specs.Limits.{most_side};
ghost use Rattle.asg_model.specs.Refused.{PassesNegative};
ghost use Rattle.asg_model.specs.Shapes.{square_side};
ghost use Rattle.asg_monoids.specs.BoundedSums.{bounded_sums, bounded_difference};
ghost use Rattle.asg_monoids.specs.Entered.{time_entered};
ghost use Rattle.asg_monoids.specs.Grades.{graded, graded_difference, graded_word};
ghost use Rattle.asg_order.specs.Bridge.{choice_fold};
ghost use Rattle.asg_order.specs.Monoid.{IsValue};
ghost use Rattle.asg_square.specs.Cells.{square_cell};
ghost use Rattle.asg_replays.specs.WholeLists.{HaveIndex};

use crate::square_verdicts::index_verdict;
use crate::{NoMemory, Verdict};
use asg_model::{Choice, Instance};
use asg_monoids::TimeKind;
use asg_order::Kind;
use asg_proof::WrittenPhase;
use asg_replays::{chosen_fold, has_long};
use asg_table_phases::graded_index;
use std::alloc::Global;

// The index of phases for `time-cost`, where no phase is long, and one pass over the table of costs
// tells that they are admitted in turn from the square of the instance. Otherwise nothing is told.
// The error is want of memory.
pub(crate) fn timed_index(
    alloc: Global,
    inst: &Instance,
    phases: &[WrittenPhase],
) -> Result<Option<(u64, u128)>, NoMemory>
    requires side { square_side inst.now ≤ most_side }
    ensures { IfOk result (λ found. IfSome found (λ index.
        HaveIndex (graded (bounded_sums (2 ^ 120)))
        (graded_difference (bounded_sums (2 ^ 120)) bounded_difference) graded_word
        (square_side inst.now) (square_cell inst.now (0, 0) time_entered) index phases.now)) }
{
    if has_long(phases, inst.side()) {
        return Ok(None);
    }
    match graded_index(alloc, inst, phases)? {
        Some(index) => Ok(Some(index)),
        None => Ok(None),
    }
}

// The verdict on an index that is to be the fold of the choice for `time-cost`.
pub(crate) fn timed_fold_verdict(inst: &Instance, choice: &Choice, index: (u64, u128)) -> Verdict
    requires instance { IsInstance inst.now }
    requires passes { PassesNegative TimeCost inst.now }
    requires index { IsValue (graded (bounded_sums (2 ^ 120))) index }
    ensures { let fold = choice_fold (graded (bounded_sums (2 ^ 120))) time_entered inst.now
        choice.now in
        ((index ≡ fold) × (result ≡ Verdict.Yes))
        ⊎ ((index ≢ fold) × (result ≡ Verdict.No 7 (pos 0))) }
{
    let kind = TimeKind::new();
    let fold = chosen_fold(&kind, inst, choice);
    index_verdict(kind.monoid(), index, fold)
}
