//! Tests of what is left of the parts of the answers that were given: no lesser sum.

ghost use Rattle.std.specs.Prelude.{◌+◌, ◌<◌, ◌≤◌, ℕ, IsTrue, length};
ghost use Rattle.asg_dual_bounds.specs.Bounds.{IsDualBound};
ghost use Rattle.asg_sum_ranks.specs.Branches.{branch_at, child_at, AreBranches, AreShut, HaveGaps, IsAtLeast, IsGiven, IsShut, IsSound};

use crate::grounds::Ground;
use crate::kept_children::Kept;
use crate::part_tests::{bound_of, is_above_at, measure};
use crate::settled::{Amounts, Settled, at};
use asg_dual_bounds::laws::{dual_bound_law, split_law};

// Whether the part of one answer is the child by a row of that of another.
fn is_part_of(branches: &[Settled], given: usize, place: usize, row: usize) -> bool
    ensures { IsTrue result → IsGiven branches.now (length branches.now) place row }
{
    if given == 0 || branches.len() <= given {
        return false;
    }
    let branch = at(branches, given);
    branch.parent() == place && branch.row() == row
}

// Whether amounts show that a child has no sum below the least.
fn is_shown(
    ground: &Ground<'_>,
    branches: &[Settled],
    place: usize,
    row: usize,
    amounts: &Amounts,
    least: u64,
    marks: &mut [u32],
) -> bool
    requires place { place < length branches.now }
    requires sound { IsSound ground.now.objective ground.now.inst.now branches.now place }
    requires row { (branch_at branches.now place).row ≤ row }
    requires below { row < length ground.now.inst.now.rows }
    ensures { IsTrue result → IsAtLeast ground.now.objective ground.now.inst.now
        (child_at branches.now place row) least }
{
    dual_bound_law();
    let Some(bound) = bound_of(ground, amounts) else {
        return false;
    };
    least <= bound && is_above_at(ground, branches, place, row, amounts, marks)
}

// Whether kept amounts, those at a place from 1, show it.
fn is_shown_at(
    ground: &Ground<'_>,
    branches: &[Settled],
    kept: &Kept,
    room: &mut Amounts,
    place: usize,
    row: usize,
    least: u64,
    marks: &mut [u32],
) -> bool
    requires place { place < length branches.now }
    requires sound { IsSound ground.now.objective ground.now.inst.now branches.now place }
    requires row { (branch_at branches.now place).row ≤ row }
    requires below { row < length ground.now.inst.now.rows }
    ensures { IsTrue result → IsAtLeast ground.now.objective ground.now.inst.now
        (child_at branches.now place row) least }
{
    let shown = at(branches, place).shown(row);
    if shown == 0 {
        return false;
    }
    if !kept.write(shown - 1, at(branches, place), least, room) {
        return false;
    }
    is_shown(ground, branches, place, row, room, least, marks)
}

// Whether a bound and a gap come to the least.
fn reaches(bound: u64, gap: u64, least: u64) -> bool
    ensures { IsTrue result → least ≤ bound + gap }
{
    least <= bound || least - bound <= gap
}

// Whether the child by a row is the part of an answer, or has no sum below the least.
fn is_shut(
    ground: &Ground<'_>,
    branches: &[Settled],
    kept: &Kept,
    room: &mut Amounts,
    place: usize,
    row: usize,
    bound: u64,
    gap: u64,
    least: u64,
    marks: &mut [u32],
) -> bool
    requires place { place < length branches.now }
    requires sound { IsSound ground.now.objective ground.now.inst.now branches.now place }
    requires row { (branch_at branches.now place).row ≤ row }
    requires below { row < length ground.now.inst.now.rows }
    requires bound { IsAtLeast ground.now.objective ground.now.inst.now
        (child_at branches.now place row) (bound + gap) }
    ensures { IsTrue result
        → IsShut ground.now.objective ground.now.inst.now branches.now least place row }
{
    let given = at(branches, place).child(row);
    if given != 0 {
        return is_part_of(branches, given, place, row);
    }
    if at(branches, place).shown(row) != 0 {
        return is_shown_at(ground, branches, kept, room, place, row, least, marks);
    }
    reaches(bound, gap, least)
}

// Whether each child of the part of the answer at a place is so, by these gaps.
fn are_shut_by(
    ground: &Ground<'_>,
    branches: &[Settled],
    kept: &Kept,
    room: &mut Amounts,
    place: usize,
    bound: u64,
    gaps: &[u64],
    least: u64,
    marks: &mut [u32],
) -> bool
    requires place { place < length branches.now }
    requires sound { IsSound ground.now.objective ground.now.inst.now branches.now place }
    requires bound { IsDualBound (length ground.now.inst.now.columns)
        (length ground.now.inst.now.rows) (branch_at branches.now place).duals bound }
    requires gaps { HaveGaps ground.now.objective ground.now.inst.now branches.now place gaps.now }
    ensures { IsTrue result
        → AreShut ground.now.objective ground.now.inst.now branches.now least place }
{
    let first = at(branches, place).row();
    let rows = ground.table.rows();
    if gaps.len() < rows {
        return false;
    }
    'children: for row in first..rows {
        if !is_shut(
            ground, branches, kept, room, place, row, bound, gaps[row], least, marks,
        ) {
            return false;
        }
    }
    true
}

// Whether each child of the part of the answer at a place is so.
fn are_children_shut(
    ground: &Ground<'_>,
    branches: &[Settled],
    kept: &Kept,
    room: &mut Amounts,
    place: usize,
    least: u64,
    marks: &mut [u32],
    leasts: &mut [u32],
    gaps: &mut [u64],
) -> bool
    requires place { place < length branches.now }
    requires sound { IsSound ground.now.objective ground.now.inst.now branches.now place }
    ensures { IsTrue result
        → AreShut ground.now.objective ground.now.inst.now branches.now least place }
{
    dual_bound_law();
    split_law();
    let Some(bound) = bound_of(ground, at(branches, place).amounts()) else {
        return false;
    };
    if least <= bound {
        return true;
    }
    if !measure(ground, branches, place, marks, leasts, gaps) {
        return false;
    }
    are_shut_by(
        ground, branches, kept, room, place, bound, gaps, least, marks,
    )
}

/// Whether each child of the parts of the answers that were given is the part of one of them, or
/// has no sum below the least, by its own bound or by amounts that were kept.
pub(crate) fn are_all_shut(
    ground: &Ground<'_>,
    branches: &[Settled],
    kept: &Kept,
    room: &mut Amounts,
    least: u64,
    marks: &mut [u32],
    leasts: &mut [u32],
    gaps: &mut [u64],
) -> bool
    requires { AreBranches ground.now.objective ground.now.inst.now branches.now
        (length branches.now) }
    ensures { IsTrue result → (a : ℕ) → a < length branches.now
        → AreShut ground.now.objective ground.now.inst.now branches.now least a }
{
    'branches: for place in 0..branches.len() {
        if !are_children_shut(
            ground, branches, kept, room, place, least, marks, leasts, gaps,
        ) {
            return false;
        }
    }
    true
}
