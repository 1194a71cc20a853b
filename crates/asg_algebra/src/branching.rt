//! One tree on a square that isn't touched: a branch of a square that was solved.

ghost use Rattle.std.specs.Prelude.{◌≡◌, ◌∷◌, [], ◌<◌, ◌≤◌, Some, None, IsTrue, vec_len, slice_index, IfSome};
ghost use Rattle.asg_model.specs.Limits.{most_side};
ghost use Rattle.asg_match.specs.Matching.{column_at};
ghost use Rattle.asg_order.specs.Monoid.{IsValue};
ghost use Rattle.asg_pool.specs.Forest.{IsLive};
ghost use Rattle.asg_algebra.specs.Benches.{IsBench};
ghost use Rattle.asg_algebra.specs.Branches.{IsAtLimit, Probes, Branches};
ghost use Rattle.asg_algebra.specs.LineSteps.{steps_in};
ghost use Rattle.asg_proof.specs.Phases.{IsAdmittedPhase};
ghost use Rattle.asg_square.specs.Grid.{cell_at};
ghost use Rattle.asg_growth.specs.Growths.{IsRoomy, Searches, phase_in};
ghost use Rattle.asg_kept.specs.Masked.{masked_reduced};
ghost use Rattle.asg_growth.specs.Rest.{IsRestOf};
ghost use Rattle.asg_algebra.specs.Served.{made_of};
ghost use Rattle.asg_algebra.specs.Solved.{ArePushed};
ghost use Rattle.asg_algebra.specs.Stages.{stage_of};

use crate::bench::Bench;
use crate::line_steps::{line_phase, push_line};
use crate::phases::cut_marks;
use asg_admit::Reduced;
use asg_growth::{Growth, Round, advance_round, plant};
use asg_kept::{Masked, RowSquare};
use asg_match::{Exit, Matching, flip};
use asg_order::DMonoid;
use asg_pool::{Region, Trail};

// How a tree grew.
#[derive(Clone, Copy)]
enum Probe {
    // No column can be reached.
    Stuck,
    // A column that no row has.
    Exit(u32),
    // The index came to the limit.
    Beyond,
}

/// What [`branch_from`] came to.
#[derive(Clone, Copy)]
pub enum Branch<V: Copy> {
    /// The root has a column; with the index and the last trail.
    Reached(V, Option<Trail>),
    /// The index came to the limit; with the index and the last trail.
    Left(V, Option<Trail>),
    /// The rows of the tree have too few columns.
    Short,
}

// Whether an index times a sum has come to a limit, if there is one.
fn is_at_limit<M: DMonoid>(m: &M, index: M::Value, sum: M::Value, limit: Option<M::Value>) -> bool
    requires index { IsValue (M.monoid_of m.now) index }
    requires sum { IsValue (M.monoid_of m.now) sum }
    requires limit { IfSome limit (IsValue (M.monoid_of m.now)) }
    ensures { IsTrue result → IsAtLimit (M.monoid_of m.now) limit
        ((M.monoid_of m.now).product index sum) }
{
    match limit {
        Some(limit) => m.le(limit, m.op(index, sum)),
        None => false,
    }
}

// Grows the tree up to the first column that no row has, or up to the limit.
fn grow_within<M: DMonoid, S: RowSquare<M>>(
    m: &M,
    reduced: &S,
    index: M::Value,
    matching: &Matching,
    growth: &mut Growth<M::Value>,
    sum: &mut M::Value,
    limit: Option<M::Value>,
) -> Probe
    requires search { Searches (M.monoid_of m.now) (M.difference m.now) (S.as_reduced reduced.now)
        matching.now growth.old sum.old 0 }
    requires root { vec_len growth.old.tree.rows ≡ 1 }
    requires index { index ≡ (S.as_reduced reduced.now).index }
    requires limit { IfSome limit (IsValue (M.monoid_of m.now)) }
    ensures probes { Probes (M.monoid_of m.now) (M.difference m.now) (S.as_reduced reduced.now)
        matching.now limit growth.new sum.new result }
    ensures first { slice_index growth.new.tree.rows.items 0
        ≡ slice_index growth.old.tree.rows.items 0 }
{
    for place in 0..reduced.side() {
        match advance_round(m, reduced, matching, growth, sum, place) {
            Round::Stuck => return Probe::Stuck,
            Round::Exit(column) => return Probe::Exit(column),
            Round::More => {
                if is_at_limit(m, index, *sum, limit) {
                    return Probe::Beyond;
                }
            }
        }
    }
    Probe::Stuck
}

// Pushes the phase of the search on the trail, if it has a step.
fn push<V: Copy>(
    growth: &mut Growth<V>,
    region: &mut Region<V>,
    trail: Option<Trail>,
) -> Option<Trail>
    requires few { vec_len growth.old.steps ≤ region.old.side }
    requires small { region.old.side ≤ most_side }
    requires roomy { IsRoomy region.old.side growth.old }
    requires spare { 1 ≤ region.old.spare }
    requires live { IfSome trail (IsLive region.old) }
    ensures pushed { let phase = phase_in growth.old in
        ArePushed (made_of phase phase.steps) region.old region.new trail result }
    ensures tree { growth.new.tree ≡ growth.old.tree }
    ensures roomy { IsRoomy region.old.side growth.new }
{
    let steps = growth.steps.len();
    if steps == 0 {
        return trail;
    }
    cut_marks(&mut growth.enters, steps as u32);
    cut_marks(&mut growth.leaves, steps as u32);
    Some(region.push(trail, &growth.steps, &growth.enters, &growth.leaves))
}

// Gives a row that has no column one on a square that isn't touched: one tree grows, up to a column
// that no row has or until the index comes to the limit, and its phase is pushed on the trail, if
// it has a step. `Left` and `Short` leave the matching; `Short` leaves the region.
fn serve_branch<M: DMonoid, S: RowSquare<M>>(
    m: &M,
    reduced: &S,
    matching: &mut Matching,
    growth: &mut Growth<M::Value>,
    region: &mut Region<M::Value>,
    trail: Option<Trail>,
    root: u32,
    limit: Option<M::Value>,
) -> Branch<M::Value>
    requires rest { IsRestOf (M.monoid_of m.now) (S.as_reduced reduced.now) matching.old }
    requires small { (S.as_reduced reduced.now).now.side ≤ most_side }
    requires bench { IsBench (S.as_reduced reduced.now).now.side growth.old }
    requires root { root < (S.as_reduced reduced.now).now.side }
    requires root_free { column_at matching.old root ≡ None }
    requires limit { IfSome limit (IsValue (M.monoid_of m.now)) }
    requires spare { 1 ≤ region.old.spare }
    requires live { IfSome trail (IsLive region.old) }
    requires region_side { region.old.side ≡ (S.as_reduced reduced.now).now.side }
    ensures branches { Branches (M.monoid_of m.now) (M.difference m.now)
        (stage_of (S.as_reduced reduced.now) matching.old region.old)
        (stage_of (S.as_reduced reduced.now) matching.new region.new) limit trail root
        growth.new.tree.rows.items result }
    ensures bench { IsBench (S.as_reduced reduced.now).now.side growth.new }
{
    let index = reduced.index();
    let mut sum = plant(m, growth, root);
    match grow_within(m, reduced, index, matching, growth, &mut sum, limit) {
        Probe::Stuck => Branch::Short,
        Probe::Exit(column) => {
            let place = growth.tree.parents[column as usize];
            flip(matching, &growth.tree, Exit { place, column });
            Branch::Reached(m.op(index, sum), push(growth, region, trail))
        }
        Probe::Beyond => Branch::Left(m.op(index, sum), push(growth, region, trail)),
    }
}

// Whether a step takes the index to the limit and lowers the root's row or a column that no row has;
// its phase is written then.
fn comes_by_line<M: DMonoid, S: RowSquare<M>>(
    m: &M,
    reduced: &S,
    matching: &Matching,
    growth: &mut Growth<M::Value>,
    root: u32,
    limit: M::Value,
    index: M::Value,
    step: M::Value,
) -> bool
    requires rest { IsRestOf (M.monoid_of m.now) (S.as_reduced reduced.now) matching.now }
    requires bench { IsBench (S.as_reduced reduced.now).now.side growth.old }
    requires root { root < (S.as_reduced reduced.now).now.side }
    requires limit { IsValue (M.monoid_of m.now) limit }
    requires index { IsValue (M.monoid_of m.now) index }
    requires step { IsValue (M.monoid_of m.now) step }
    ensures far { IsTrue result → IsAtLimit (M.monoid_of m.now) (Some limit)
        ((M.monoid_of m.now).product index step) }
    ensures admitted { let now = (S.as_reduced reduced.now).now in
        IsTrue result → IsAdmittedPhase (M.monoid_of m.now) (M.difference m.now) now.side
        (steps_in growth.new) (cell_at now) }
    ensures steps { IsTrue result → growth.new.steps.items ≡ step ∷ [] }
    ensures bench { IsBench (S.as_reduced reduced.now).now.side growth.new }
{
    if !is_at_limit(m, index, step, Some(limit)) {
        return false;
    }
    line_phase(m, reduced, matching, growth, step, root)
}

// Gives a row that has no column one on a square that isn't touched, up to a limit: the branch is
// left by one step where that can be, and else one tree grows.
fn leave_or_grow<M: DMonoid, S: RowSquare<M>>(
    m: &M,
    reduced: &S,
    matching: &mut Matching,
    growth: &mut Growth<M::Value>,
    region: &mut Region<M::Value>,
    trail: Option<Trail>,
    root: u32,
    limit: M::Value,
) -> Branch<M::Value>
    requires rest { IsRestOf (M.monoid_of m.now) (S.as_reduced reduced.now) matching.old }
    requires small { (S.as_reduced reduced.now).now.side ≤ most_side }
    requires bench { IsBench (S.as_reduced reduced.now).now.side growth.old }
    requires root { root < (S.as_reduced reduced.now).now.side }
    requires root_free { column_at matching.old root ≡ None }
    requires limit { IsValue (M.monoid_of m.now) limit }
    requires spare { 1 ≤ region.old.spare }
    requires live { IfSome trail (IsLive region.old) }
    requires region_side { region.old.side ≡ (S.as_reduced reduced.now).now.side }
    ensures branches { Branches (M.monoid_of m.now) (M.difference m.now)
        (stage_of (S.as_reduced reduced.now) matching.old region.old)
        (stage_of (S.as_reduced reduced.now) matching.new region.new) (Some limit) trail root
        growth.new.tree.rows.items result }
    ensures bench { IsBench (S.as_reduced reduced.now).now.side growth.new }
{
    let index = reduced.index();
    let step = m.diff(limit, index);
    if comes_by_line(m, reduced, matching, growth, root, limit, index, step) {
        let last = push_line(growth, region, trail);
        return Branch::Left(m.op(index, step), Some(last));
    }
    serve_branch(
        m,
        reduced,
        matching,
        growth,
        region,
        trail,
        root,
        Some(limit),
    )
}

// Gives a row that has no column one on a square that isn't touched, up to a limit where there is
// one.
fn leave_or_serve<M: DMonoid, S: RowSquare<M>>(
    m: &M,
    reduced: &S,
    matching: &mut Matching,
    growth: &mut Growth<M::Value>,
    region: &mut Region<M::Value>,
    trail: Option<Trail>,
    root: u32,
    limit: Option<M::Value>,
) -> Branch<M::Value>
    requires rest { IsRestOf (M.monoid_of m.now) (S.as_reduced reduced.now) matching.old }
    requires small { (S.as_reduced reduced.now).now.side ≤ most_side }
    requires bench { IsBench (S.as_reduced reduced.now).now.side growth.old }
    requires root { root < (S.as_reduced reduced.now).now.side }
    requires root_free { column_at matching.old root ≡ None }
    requires limit { IfSome limit (IsValue (M.monoid_of m.now)) }
    requires spare { 1 ≤ region.old.spare }
    requires live { IfSome trail (IsLive region.old) }
    requires region_side { region.old.side ≡ (S.as_reduced reduced.now).now.side }
    ensures branches { Branches (M.monoid_of m.now) (M.difference m.now)
        (stage_of (S.as_reduced reduced.now) matching.old region.old)
        (stage_of (S.as_reduced reduced.now) matching.new region.new) limit trail root
        growth.new.tree.rows.items result }
    ensures bench { IsBench (S.as_reduced reduced.now).now.side growth.new }
{
    match limit {
        Some(far) => leave_or_grow(m, reduced, matching, growth, region, trail, root, far),
        None => serve_branch(m, reduced, matching, growth, region, trail, root, None),
    }
}

/// Gives a row that has no column one on a square of which some cells are left out; the square
/// isn't touched. `words` has for each row as many words of 64 bits as its columns need: the cells
/// whose bit is set count.
///
/// Each of these cells and the index are values, and each matched cell is one of them that the
/// index absorbs. Where there is a limit, and one step that takes the index to it is at most each
/// of these cells in the root's row, or in the first column that no row has, the phase of this step
/// is pushed on the trail (`Left`). Else one tree grows, up to a column that no row has (`Reached`)
/// or until the index times its steps comes to the limit (`Left`); its phase, which is admitted from
/// these cells, is pushed on the trail, if it has a step. After `Reached` the root and each row
/// that had a column have one, by cells that are absorbed after the phase. `Left` and `Short` leave
/// the matching, `Short` leaves the region, and then the bench's violator has rows with fewer
/// columns than they are. It takes no memory. The time grows with the square of the side at most.
pub fn branch_from<M: DMonoid>(
    m: &M,
    reduced: &Reduced<M::Value>,
    words: &[u64],
    matching: &mut Matching,
    bench: &mut Bench<M::Value>,
    region: &mut Region<M::Value>,
    trail: Option<Trail>,
    root: u32,
    limit: Option<M::Value>,
) -> Branch<M::Value>
    requires rest { IsRestOf (M.monoid_of m.now) (masked_reduced reduced.now words.now)
        matching.old }
    requires small { reduced.now.now.side ≤ most_side }
    requires bench_side { bench.old.side ≡ reduced.now.now.side }
    requires root { root < reduced.now.now.side }
    requires root_free { column_at matching.old root ≡ None }
    requires limit { IfSome limit (IsValue (M.monoid_of m.now)) }
    requires spare { 1 ≤ region.old.spare }
    requires live { IfSome trail (IsLive region.old) }
    requires region_side { region.old.side ≡ reduced.now.now.side }
    ensures branches { Branches (M.monoid_of m.now) (M.difference m.now)
        (stage_of (masked_reduced reduced.entry.now words.now) matching.old region.old)
        (stage_of (masked_reduced reduced.entry.now words.now) matching.new region.new)
        limit trail root bench.new.rows result }
    ensures bench_side { bench.new.side ≡ bench.old.side }
{
    let _ = reduced.now.side();
    let square = Masked {
        square: reduced,
        words,
    };
    leave_or_serve(
        m,
        &square,
        matching,
        &mut bench.growth,
        region,
        trail,
        root,
        limit,
    )
}
