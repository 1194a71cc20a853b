//! One phase: a row without a column gets one.

ghost use Rattle.std.specs.Prelude.{◌≡◌, ◌≢◌, ℕ, ◌+◌, ◌<◌, ◌≤◌, None};
ghost use Rattle.std.specs.Prelude.{vec_len, vec_capacity, All, AllPairs, IfSome, slice_index};
ghost use Rattle.asg_model.specs.Limits.{most_side};
ghost use Rattle.asg_admit.specs.Reduced.{IsReduced, IsPhaseTo};
ghost use Rattle.asg_match.specs.Matching.{IsFree, column_at};
ghost use Rattle.asg_pool.specs.Forest.{IsLive};
ghost use Rattle.asg_proof.specs.Phases.{IsAdmittedPhase};
ghost use Rattle.asg_square.specs.Grid.{cell_at};
ghost use Rattle.asg_growth.specs.Growths.{IsRoomy, Searches, IsReady, Closes, phase_in};
ghost use Rattle.asg_growth.specs.Rest.{cut, IsRestOf};
ghost use Rattle.asg_algebra.specs.Served.{made_of, IsServed, Serves};
ghost use Rattle.asg_algebra.specs.Solved.{ArePushed};
ghost use Rattle.asg_algebra.specs.Stages.{stage_of};

use asg_growth::{Growth, grow, plant, refill};
use asg_kept::KeptSquare;
use asg_match::{Exit, Matching, flip};
use asg_order::DMonoid;
use asg_pool::{Region, Trail};

// How the augmentation of a row ended.
#[derive(Clone, Copy)]
pub(crate) enum Served {
    // The row has a column; with the last trail.
    Has(Option<Trail>),
    // The rows of the tree have too few columns; with the trail as it was.
    Lacks(Option<Trail>),
}

// Cuts marks to a number of steps.
pub(crate) fn cut_marks(marks: &mut [u32], steps: u32)
    ensures { marks.new ≡ cut steps marks.old }
{
    for mark in marks.iter_mut() {
        *mark = (*mark).min(steps);
    }
}

// Closes the phase of the search: its marks are cut to its steps, and there is room for a value for
// each step and one more.
fn close<M: DMonoid>(m: &M, growth: &mut Growth<M::Value>)
    requires room { vec_len growth.old.steps < vec_capacity growth.old.room }
    requires small { vec_len growth.old.steps ≤ most_side }
    ensures { Closes growth.old growth.new }
{
    let steps = growth.steps.len();
    cut_marks(&mut growth.enters, steps as u32);
    cut_marks(&mut growth.leaves, steps as u32);
    refill(&mut growth.room, m.unit(), steps + 1);
}

// Settles the phase of the search on the square and pushes it on the trail, if it has a step.
fn keep<M: DMonoid, S: KeptSquare<M>>(
    m: &M,
    reduced: &mut S,
    growth: &mut Growth<M::Value>,
    region: &mut Region<M::Value>,
    trail: Option<Trail>,
) -> Option<Trail>
    requires reduced { IsReduced (M.monoid_of m.now) (S.as_reduced reduced.old) }
    requires admitted { let before = S.as_reduced reduced.old in
        IsAdmittedPhase (M.monoid_of m.now) (M.difference m.now) before.now.side
        (phase_in growth.old) (cell_at before.now) }
    requires roomy { IsRoomy (S.as_reduced reduced.old).now.side growth.old }
    requires few { vec_len growth.old.steps ≤ (S.as_reduced reduced.old).now.side }
    requires small { (S.as_reduced reduced.old).now.side ≤ most_side }
    requires spare { 1 ≤ region.old.spare }
    requires live { IfSome trail (IsLive region.old) }
    requires region_side { region.old.side ≡ (S.as_reduced reduced.old).now.side }
    ensures phase { IsPhaseTo (M.monoid_of m.now) (M.difference m.now) (phase_in growth.old)
        (S.as_reduced reduced.old) (S.as_reduced reduced.new) }
    ensures pushed { let phase = phase_in growth.old in
        ArePushed (made_of phase phase.steps) region.old region.new trail result }
    ensures tree { growth.new.tree ≡ growth.old.tree }
    ensures roomy { IsRoomy (S.as_reduced reduced.old).now.side growth.new }
{
    if growth.steps.is_empty() {
        return trail;
    }
    close(m, growth);
    reduced.settle(
        m,
        &growth.steps,
        &growth.enters,
        &growth.leaves,
        &mut growth.room,
    );
    Some(region.push(trail, &growth.steps, &growth.enters, &growth.leaves))
}

// After the last row of a phase: the path is flipped, and the square, the index and the trail
// follow. The last trail.
fn finish<M: DMonoid, S: KeptSquare<M>>(
    m: &M,
    reduced: &mut S,
    matching: &mut Matching,
    growth: &mut Growth<M::Value>,
    region: &mut Region<M::Value>,
    trail: Option<Trail>,
    sum: M::Value,
    column: u32,
) -> Option<Trail>
    requires search { Searches (M.monoid_of m.now) (M.difference m.now) (S.as_reduced reduced.old)
        matching.old growth.old sum (vec_len growth.old.tree.rows) }
    requires ready { IsReady (M.monoid_of m.now) growth.old sum column }
    requires free { IsFree matching.old column }
    requires spare { 1 ≤ region.old.spare }
    requires live { IfSome trail (IsLive region.old) }
    requires region_side { region.old.side ≡ (S.as_reduced reduced.old).now.side }
    requires reduced { IsReduced (M.monoid_of m.now) (S.as_reduced reduced.old) }
    ensures serves { (root : ℕ) → root ≡ slice_index growth.old.tree.rows.items 0
        → IsServed (M.monoid_of m.now) (M.difference m.now)
        (stage_of (S.as_reduced reduced.old) matching.old region.old)
        (stage_of (S.as_reduced reduced.new) matching.new region.new) trail result root }
    ensures tree { growth.new.tree ≡ growth.old.tree }
    ensures roomy { IsRoomy (S.as_reduced reduced.old).now.side growth.new }
{
    let _ = sum;
    let place = growth.tree.parents[column as usize];
    flip(matching, &growth.tree, Exit { place, column });
    keep(m, reduced, growth, region, trail)
}

// Gives a row that has no column one, by at most one phase. `Lacks` where the rows of its tree have
// too few columns; then all is as it was.
pub(crate) fn augment<M: DMonoid, S: KeptSquare<M>>(
    m: &M,
    reduced: &mut S,
    matching: &mut Matching,
    growth: &mut Growth<M::Value>,
    region: &mut Region<M::Value>,
    trail: Option<Trail>,
    root: u32,
) -> Served
    requires rest { IsRestOf (M.monoid_of m.now) (S.as_reduced reduced.old) matching.old }
    requires small { (S.as_reduced reduced.old).now.side ≤ most_side }
    requires roomy { IsRoomy (S.as_reduced reduced.old).now.side growth.old }
    requires root { root < (S.as_reduced reduced.old).now.side }
    requires root_free { column_at matching.old root ≡ None }
    requires spare { 1 ≤ region.old.spare }
    requires live { IfSome trail (IsLive region.old) }
    requires region_side { region.old.side ≡ (S.as_reduced reduced.old).now.side }
    ensures serves { Serves (M.monoid_of m.now) (M.difference m.now)
        (stage_of (S.as_reduced reduced.old) matching.old region.old)
        (stage_of (S.as_reduced reduced.new) matching.new region.new) trail root
        growth.new.tree.rows.items result }
    ensures roomy { IsRoomy (S.as_reduced reduced.old).now.side growth.new }
    ensures below { let side = (S.as_reduced reduced.old).now.side in
        All (λ r. r < side) growth.new.tree.rows.items }
    ensures apart { AllPairs ◌≢◌ growth.new.tree.rows.items }
{
    let mut sum = plant(m, growth, root);
    match grow(m, reduced, matching, growth, &mut sum) {
        None => Served::Lacks(trail),
        Some(column) => {
            Served::Has(finish(m, reduced, matching, growth, region, trail, sum, column))
        }
    }
}
