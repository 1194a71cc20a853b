//! The index of phases of sums, where one pass over the table of costs tells it.

ghost use Rattle.std.specs.Prelude.{◌≡◌, ◌≤◌, IsTrue, IfOk, IfSome};
ghost use Rattle.asg_model.specs.Limits.{most_side};
ghost use Rattle.asg_model.specs.Shapes.{square_side};
ghost use Rattle.asg_monoids.specs.BoundedSums.{bounded_sums, bounded_difference, plain_word};
ghost use Rattle.asg_monoids.specs.Entered.{is_sum_objective, sum_entered, top_of};
ghost use Rattle.asg_square.specs.Cells.{square_cell};
ghost use Rattle.asg_replays.specs.WholeLists.{HaveIndex};

use crate::NoMemory;
use asg_model::{Instance, Objective};
use asg_monoids::{Bounded, SumKind};
use asg_order::Kind;
use asg_phase_totals::PhaseTotals;
use asg_proof::WrittenPhase;
use asg_proof::laws::lesser_tops_law;
use asg_replays::{has_long, take_all};
use asg_table_phases::fits_table;
use std::alloc::Global;

// Whether a sum isn't above where those of the objective stop.
fn is_within(objective: Objective, sum: u128) -> bool
    requires { IsTrue (is_sum_objective objective) }
    ensures { IsTrue result → sum ≤ top_of objective }
{
    let kind = SumKind::of(objective);
    sum <= kind.monoid().top
}

// The index of phases of an objective of sums, where no phase is long, one pass over the costs tells
// that they are admitted in turn from the square of the instance, and for `capped` their steps add up
// to its cap at most. Otherwise nothing is told. The error is want of memory.
pub(crate) fn sum_index(
    alloc: Global,
    objective: Objective,
    inst: &Instance,
    phases: &[WrittenPhase],
) -> Result<Option<u128>, NoMemory>
    requires sums { IsTrue (is_sum_objective objective) }
    requires side { square_side inst.now ≤ most_side }
    ensures { IfOk result (λ found. IfSome found (λ index.
        HaveIndex (bounded_sums (top_of objective)) bounded_difference plain_word
        (square_side inst.now) (square_cell inst.now 0 (sum_entered objective)) index
        phases.now)) }
{
    lesser_tops_law();
    if has_long(phases, inst.side()) {
        return Ok(None);
    }
    let sums = Bounded { top: 1 << 120 };
    let mut totals: PhaseTotals<u128> = PhaseTotals::none(alloc, inst.side())?;
    if !take_all(alloc, &sums, &mut totals, phases)? {
        return Ok(None);
    }
    if !fits_table(objective, inst, &totals) {
        return Ok(None);
    }
    let sum = totals.sum();
    if !is_within(objective, sum) {
        return Ok(None);
    }
    Ok(Some(sum))
}
