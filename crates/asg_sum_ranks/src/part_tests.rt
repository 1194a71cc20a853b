//! Tests of answers and amounts in parts, over a ground.

ghost use Rattle.std.specs.Prelude.{◌≡◌, ◌<◌, IfSome, IsTrue, length};
ghost use Rattle.asg_dual_bounds.specs.Bounds.{AreAbove, IsDualBound};
ghost use Rattle.asg_dual_bounds.specs.Numbers.{IsAnswer};
ghost use Rattle.asg_dual_bounds.specs.Parts.{Part as P};
ghost use Rattle.asg_dual_bounds.specs.Views.{part_of};
ghost use Rattle.asg_sum_ranks.specs.Branches.{branch_at, part_at, child_at, HaveGaps, IsSound};

use crate::grounds::Ground;
use crate::settled::{Amounts, Settled, at};
use asg_dual_bounds::{Part, child_gaps, dual_bound, is_above, is_above_child, is_answer};

/// Whether a list of columns is an answer.
pub(crate) fn has_answer(ground: &Ground<'_>, columns: &[u32], marks: &mut [u32]) -> bool
    ensures { IsTrue result → IsAnswer ground.now.objective ground.now.inst.now columns.now }
{
    is_answer(&ground.table, columns, marks)
}

/// Whether amounts are above the part of the answer at a place, the whole.
pub(crate) fn is_above_whole(ground: &Ground<'_>, branch: &Settled, marks: &mut [u32]) -> bool
    ensures { IsTrue result → (part : P) → AreAbove ground.now.objective ground.now.inst.now part
        branch.now.duals }
{
    let duals = branch.duals();
    is_above(&ground.table, duals, marks)
}

// The part of the answer at a place.
fn part_at(branches: &[Settled], place: usize) -> Part<'_>
    requires place { place < length branches.now }
    requires parent { (branch_at branches.now place).parent < length branches.now }
    ensures { part_of result.columns.now result.row result.banned.now ≡ part_at branches.now place }
{
    let branch = at(branches, place);
    Part {
        columns: at(branches, branch.parent()).columns(),
        row: branch.row(),
        banned: branch.banned(),
    }
}

/// Whether amounts are above the child by a row of the part of the answer at a place.
pub(crate) fn is_above_at(
    ground: &Ground<'_>,
    branches: &[Settled],
    place: usize,
    row: usize,
    amounts: &Amounts,
    marks: &mut [u32],
) -> bool
    requires place { place < length branches.now }
    requires above { AreAbove ground.now.objective ground.now.inst.now
        (part_at branches.now place) (branch_at branches.now place).duals }
    ensures { IsTrue result → AreAbove ground.now.objective ground.now.inst.now
        (child_at branches.now place row) amounts.now }
{
    let branch = at(branches, place);
    if branches.len() <= branch.parent() {
        return false;
    }
    let part = part_at(branches, place);
    let answer = branch.columns();
    let before = branch.duals();
    let after = amounts.lend();
    is_above_child(&ground.table, part, answer, row, before, after, marks)
}

/// The bound by amounts for the rows and columns of a ground.
pub(crate) fn bound_of(ground: &Ground<'_>, amounts: &Amounts) -> Option<u64>
    ensures { IfSome result (IsDualBound (length ground.now.inst.now.columns)
        (length ground.now.inst.now.rows) amounts.now) }
{
    if amounts.rises().len() != ground.table.columns()
        || amounts.falls().len() != ground.table.rows()
    {
        return None;
    }
    let duals = amounts.lend();
    dual_bound(duals)
}

/// Writes the gaps of the children of the part of the answer at a place: how much above its bound
/// theirs are. Gives whether it could.
pub(crate) fn measure(
    ground: &Ground<'_>,
    branches: &[Settled],
    place: usize,
    marks: &mut [u32],
    leasts: &mut [u32],
    gaps: &mut [u64],
) -> bool
    ensures { IsTrue result → place < length branches.now
        → IsSound ground.now.objective ground.now.inst.now branches.now place
        → HaveGaps ground.now.objective ground.now.inst.now branches.now place gaps.new }
{
    if branches.len() <= place {
        return false;
    }
    let branch = at(branches, place);
    if branches.len() <= branch.parent() {
        return false;
    }
    let part = part_at(branches, place);
    let answer = branch.columns();
    let duals = branch.duals();
    child_gaps(&ground.table, part, answer, duals, marks, leasts, gaps)
}
