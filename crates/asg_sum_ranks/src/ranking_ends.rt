//! Rankings by sums.

ghost use Rattle.std.specs.Prelude.{◌≡◌, ◌≤◌, IfOk, IfSome, IsTrue, length};
ghost use Rattle.asg_model.specs.Limits.{most_rows, most_side};
ghost use Rattle.asg_model.specs.Refused.{PassesNegative};
ghost use Rattle.asg_model.specs.Shapes.{square_side};
ghost use Rattle.asg_dual_bounds.specs.Numbers.{choice_of, IsAnswer};
ghost use Rattle.asg_monoids.specs.NarrowObjectives.{is_narrow_objective};
ghost use Rattle.asg_dual_bounds.specs.SumRankings.{IsSumRanking};
ghost use Rattle.asg_sum_ranks.specs.Branches.{answers_of};
ghost use Rattle.asg_sum_ranks.specs.RankedSums.{AreEnds};

use crate::NoMemory;
use crate::found::Found;
use crate::grounds::Ground;
use crate::kept_children::Kept;
use crate::ranking_tests::is_ranking;
use crate::roots::root;
use crate::searches::search;
use crate::settled::{Settled, at};
use asg_dual_bounds::laws::listed_law;
use asg_dual_bounds::sum_of;
use asg_dual_numbers::Lists;
use asg_model::{Choice, Instance, Objective};
use std::alloc::{AllocError, Global};

/// The first and the last answer of a ranking.
#[derive(Drop)]
pub struct RankedSums {
    /// The first answer, one of the least sum.
    pub first: Choice,
    /// The last answer.
    pub last: Choice,
}

// The choice that gives each row its column of a list. The error is want of memory.
fn choice(alloc: Global, columns: &[u32]) -> Result<Choice, NoMemory>
    requires { length columns.now ≤ most_rows }
    ensures { IfOk result (λ choice. choice ≡ choice_of columns.now) }
{
    let mut choice = Choice::make(alloc, columns.len() as u32)?;
    'rows: for row in 0..columns.len() {
        choice.set(row as u32, Some(columns[row]));
    }
    Ok(choice)
}

// The first and the last of answers that are a ranking by sums. The error is want of memory.
fn ends_of(
    alloc: Global,
    ground: &Ground<'_>,
    branches: &[Settled],
    count: usize,
) -> Result<RankedSums, NoMemory>
    requires objective { IsTrue (is_narrow_objective ground.now.objective) }
    requires ranking { IsSumRanking ground.now.objective ground.now.inst.now count
        (answers_of branches.now) }
    requires many { length branches.now ≡ count }
    ensures { IfOk result (λ ends. AreEnds ground.now.objective ground.now.inst.now count ends.first
        ends.last) }
{
    listed_law();
    let _rows = ground.inst.rows();
    let first = choice(alloc, at(branches, 0).columns())?;
    let last = choice(alloc, at(branches, branches.len() - 1).columns())?;
    Ok(RankedSums { first, last })
}

// Whether answers with the children that were kept are a ranking. The error is want of memory.
fn are_ranked(
    alloc: Global,
    ground: &Ground<'_>,
    branches: &[Settled],
    kept: &Kept,
    count: usize,
) -> Result<bool, NoMemory>
    requires { 1 ≤ length branches.now }
    ensures { IfOk result (λ are. IsTrue are → IsSumRanking ground.now.objective
        ground.now.inst.now count (answers_of branches.now)) }
{
    let mut lists = Lists::new(alloc);
    let mut marks = lists.of(0, ground.table.columns());
    let mut leasts = lists.of(0, ground.table.columns());
    let mut gaps = lists.of(0, ground.table.rows());
    let mut room = at(branches, 0).amounts().again(&mut lists);
    let are = is_ranking(
        ground,
        branches,
        kept,
        &mut room,
        count,
        marks.as_mut_slice(),
        leasts.as_mut_slice(),
        gaps.as_mut_slice(),
    );
    drop(room);
    drop(gaps);
    drop(leasts);
    drop(marks);
    if lists.is_short {
        return Err(AllocError);
    }
    Ok(are)
}

// What was found, where it is a ranking. The error is want of memory.
fn tested(
    alloc: Global,
    ground: &Ground<'_>,
    found: &Found,
    count: usize,
) -> Result<Option<RankedSums>, NoMemory>
    requires objective { IsTrue (is_narrow_objective ground.now.objective) }
    ensures { IfOk result (λ found. IfSome found (λ ends. AreEnds ground.now.objective
        ground.now.inst.now count ends.first ends.last)) }
{
    let branches = found.branches.as_slice();
    if branches.len() != count || count == 0 {
        return Ok(None);
    }
    if !are_ranked(alloc, ground, branches, &found.kept, count)? {
        return Ok(None);
    }
    let ends = ends_of(alloc, ground, branches, count)?;
    Ok(Some(ends))
}

// Searches from the first answer on. Gives whether as many were found. The error is want of memory.
fn is_searched(
    alloc: Global,
    ground: &Ground<'_>,
    found: &mut Found,
    count: usize,
) -> Result<bool, NoMemory>
    requires objective { IsTrue (is_narrow_objective ground.now.objective) }
    requires side { square_side ground.now.inst.now ≤ most_side }
    requires passes { PassesNegative ground.now.objective ground.now.inst.now }
{
    let (rows, columns) = (ground.table.rows(), ground.table.columns());
    let Some(root) = root(alloc, ground.objective, ground.inst, rows, columns)? else {
        return Ok(false);
    };
    if root.columns().len() != rows {
        return Ok(false);
    }
    let sum = sum_of(&ground.table, root.columns());
    search(alloc, ground, found, root, sum, count)
}

/// The first and the last answer of a ranking of so many choices by `sum` or `sum-max`; `None`
/// where the instance isn't plain, has fewer choices, or where what was found isn't shown to be a
/// ranking. The objective refuses no live cost of the instance (`asg_values::negative`), and the
/// side is at most 2,000. The error is want of memory.
///
/// Each answer parts what is left [Murty 1968], one shortest path finds the best answer of a part,
/// and parts wait unsearched by a bound of their own [Miller et al. 1997]. A part is shown
/// to have no lesser sum by dual variables, in one pass over the rows that fell.
pub fn ranked_sums(
    alloc: Global,
    objective: Objective,
    inst: &Instance,
    count: u32,
) -> Result<Option<RankedSums>, NoMemory>
    requires objective { IsTrue (is_narrow_objective objective) }
    requires side { square_side inst.now ≤ most_side }
    requires passes { PassesNegative objective inst.now }
    ensures { IfOk result (λ found. IfSome found (λ ends. AreEnds objective inst.now count
        ends.first ends.last)) }
{
    let Some(ground) = Ground::of(alloc, objective, inst)? else {
        return Ok(None);
    };
    let mut found = Found::make(alloc);
    if !is_searched(alloc, &ground, &mut found, count as usize)? {
        return Ok(None);
    }
    tested(alloc, &ground, &found, count as usize)
}
