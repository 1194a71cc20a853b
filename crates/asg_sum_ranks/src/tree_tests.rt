//! Tests of all answers that were given: they come from the whole on.

ghost use Rattle.std.specs.Prelude.{◌+◌, ◌<◌, ◌≤◌, IsTrue, length};
ghost use Rattle.asg_dual_bounds.specs.Bounds.{AreAbove};
ghost use Rattle.asg_sum_ranks.specs.Branches.{branch_at, part_at, AreBranches, IsChild};

use crate::branch_tests::{is_child, is_in_part};
use crate::grounds::Ground;
use crate::part_tests::{has_answer, is_above_at, is_above_whole};
use crate::settled::{Settled, at};

// Whether the first answer is one, of the whole.
fn is_root(ground: &Ground<'_>, branches: &[Settled], marks: &mut [u32]) -> bool
    requires { 1 ≤ length branches.now }
    ensures { IsTrue result
        → AreBranches ground.now.objective ground.now.inst.now branches.now 1 }
{
    let root = at(branches, 0);
    let banned = root.banned();
    let columns = root.columns();
    if root.row() != 0 {
        return false;
    }
    if banned.len() != 0 {
        return false;
    }
    if !has_answer(ground, columns, marks) {
        return false;
    }
    if !is_in_part(branches, 0) {
        return false;
    }
    is_above_whole(ground, root, marks)
}

// Whether the amounts of the answer at a place are above its part, a child of an earlier one.
fn is_above_part(ground: &Ground<'_>, branches: &[Settled], place: usize, marks: &mut [u32]) -> bool
    requires place { place < length branches.now }
    requires child { IsChild ground.now.inst.now branches.now place }
    requires before { AreBranches ground.now.objective ground.now.inst.now branches.now place }
    ensures { IsTrue result → AreAbove ground.now.objective ground.now.inst.now
        (part_at branches.now place) (branch_at branches.now place).duals }
{
    let branch = at(branches, place);
    is_above_at(
        ground,
        branches,
        branch.parent(),
        branch.row(),
        branch.amounts(),
        marks,
    )
}

// Whether the answer at a place is one, of a child of an earlier one's part.
fn is_branch(ground: &Ground<'_>, branches: &[Settled], place: usize, marks: &mut [u32]) -> bool
    requires from { 1 ≤ place }
    requires place { place < length branches.now }
    requires before { AreBranches ground.now.objective ground.now.inst.now branches.now place }
    ensures { IsTrue result
        → AreBranches ground.now.objective ground.now.inst.now branches.now (place + 1) }
{
    let branch = at(branches, place);
    let columns = branch.columns();
    if !is_child(ground, branches, place) {
        return false;
    }
    if !is_in_part(branches, place) {
        return false;
    }
    if !has_answer(ground, columns, marks) {
        return false;
    }
    is_above_part(ground, branches, place, marks)
}

/// Whether each answer is one, of a child of an earlier one's part, the first one of the whole.
pub(crate) fn are_branches(ground: &Ground<'_>, branches: &[Settled], marks: &mut [u32]) -> bool
    requires { 1 ≤ length branches.now }
    ensures { IsTrue result → AreBranches ground.now.objective ground.now.inst.now branches.now
        (length branches.now) }
{
    if !is_root(ground, branches, marks) {
        return false;
    }
    'branches: for place in 1..branches.len() {
        if !is_branch(ground, branches, place, marks) {
            return false;
        }
    }
    true
}
