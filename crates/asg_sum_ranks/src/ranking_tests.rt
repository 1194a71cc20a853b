//! The test of a ranking of sums.

ghost use Rattle.std.specs.Prelude.{◌≡◌, ◌+◌, ◌-◌, ◌<◌, ◌≤◌, ℕ, IfSome, IsTrue, length};
ghost use Rattle.asg_dual_bounds.specs.Numbers.{sum_at};
ghost use Rattle.asg_dual_bounds.specs.SumRankings.{IsSumRanking};
ghost use Rattle.asg_sum_ranks.specs.Branches.{answer_at, answers_of, SumsTo};

use crate::grounds::Ground;
use crate::kept_children::Kept;
use crate::settled::{Amounts, Settled, at};
use crate::shut_tests::are_all_shut;
use crate::tree_tests::are_branches;
use asg_dual_bounds::sum_of;

// The sum of an answer.
fn number_of(ground: &Ground<'_>, columns: &[u32]) -> u64
    requires { length columns.now ≡ length ground.now.inst.now.rows }
    ensures { result ≡ sum_at ground.now.objective ground.now.inst.now columns.now }
{
    sum_of(&ground.table, columns)
}

// The sum of the last answer, where the sums ascend.
fn last_sum(ground: &Ground<'_>, branches: &[Settled]) -> Option<u64>
    requires some { 1 ≤ length branches.now }
    requires sides { (a : ℕ) → a < length branches.now
        → length (answer_at branches.now a) ≡ length ground.now.inst.now.rows }
    ensures { IfSome result (SumsTo ground.now.objective ground.now.inst.now branches.now
        (length branches.now)) }
{
    let mut last = number_of(ground, at(branches, 0).columns());
    'branches: for place in 1..branches.len() {
        let sum = number_of(ground, at(branches, place).columns());
        if sum < last {
            return None;
        }
        last = sum;
    }
    Some(last)
}

/// Whether the answers are a ranking of so many by their sums. It stands by itself in the program, where
/// its lists are known to lie apart: written into its caller it takes three times as long.
#[inline(never)]
pub(crate) fn is_ranking(
    ground: &Ground<'_>,
    branches: &[Settled],
    kept: &Kept,
    room: &mut Amounts,
    count: usize,
    marks: &mut [u32],
    leasts: &mut [u32],
    gaps: &mut [u64],
) -> bool
    ensures { IsTrue result → IsSumRanking ground.now.objective ground.now.inst.now count
        (answers_of branches.now) }
{
    if branches.len() != count {
        return false;
    }
    if count == 0 {
        return false;
    }
    if !are_branches(ground, branches, marks) {
        return false;
    }
    let Some(least) = last_sum(ground, branches) else {
        return false;
    };
    are_all_shut(ground, branches, kept, room, least, marks, leasts, gaps)
}
