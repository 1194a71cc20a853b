//! The brief line of a ranking by sums that was searched and tested.

ghost use Rattle.std.specs.Prelude.{◌≡◌, ◌≤◌, IfOk, IfSome, IsTrue};
ghost use Rattle.asg_model.specs.Limits.{most_side};
ghost use Rattle.asg_model.specs.Refused.{PassesNegative};
ghost use Rattle.asg_model.specs.Shapes.{square_side};
ghost use Rattle.asg_monoids.specs.NarrowObjectives.{is_narrow_objective};
ghost use Rattle.asg_rank.specs.Rankings.{ranking_work};
ghost use Rattle.asg_rank.specs.Rooms.{most_work};
ghost use Rattle.asg_sum_ranks.specs.RankedSums.{AreEnds};
ghost use Rattle.asg_brief.specs.BriefLines.{IsRankedLine};

use crate::NoMemory;
use crate::brief_lines::BriefLine;
use crate::laws::ranked_ends_law;
use crate::lines::ends_line;
use asg_model::{Instance, Objective};
use asg_rank::MOST_WORK;
use asg_sum_ranks::{RankedSums, ranked_sums};
use asg_values::value;
use std::alloc::Global;

// Whether the work of a ranking of so many choices is within the limit.
fn is_within_work(inst: &Instance, count: u32) -> bool
    requires { square_side inst.now ≤ most_side }
    ensures { IsTrue result → ranking_work inst.now count ≤ most_work }
{
    let rows = inst.rows().len() as u64;
    u64::from(count) * rows * u64::from(inst.side()) <= MOST_WORK
}

// The line of the first and the last answer of a ranking of so many choices. The error is want of
// memory.
fn line_of(
    alloc: Global,
    objective: Objective,
    inst: &Instance,
    count: u32,
    ends: &RankedSums,
) -> Result<BriefLine, NoMemory>
    requires { AreEnds objective inst.now count ends.now.first ends.now.last }
    ensures { IfOk result (IsRankedLine objective inst.now count) }
{
    ranked_ends_law();
    let first = value(alloc, objective, inst, &ends.first)?;
    let last = value(alloc, objective, inst, &ends.last)?;
    ends_line(alloc, objective, count, count, &first, &last)
}

/// The line of a ranking of so many choices by `sum` or `sum-max`, where a search finds one that is
/// shown to be one and its work is within the limit. The error is want of memory.
pub(crate) fn line_by_sums(
    alloc: Global,
    objective: Objective,
    inst: &Instance,
    count: u32,
) -> Result<Option<BriefLine>, NoMemory>
    requires objective { IsTrue (is_narrow_objective objective) }
    requires side { square_side inst.now ≤ most_side }
    requires passes { PassesNegative objective inst.now }
    ensures line { IfOk result (λ found. IfSome found (IsRankedLine objective inst.now count)) }
    ensures within { IfOk result (λ found. IfSome found (λ _.
        ranking_work inst.now count ≤ most_work)) }
{
    if !is_within_work(inst, count) {
        return Ok(None);
    }
    let Some(ends) = ranked_sums(alloc, objective, inst, count)? else {
        return Ok(None);
    };
    let line = line_of(alloc, objective, inst, count, &ends)?;
    Ok(Some(line))
}
