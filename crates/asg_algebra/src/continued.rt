//! Reduced squares that are solved on by phases and columns that are given, from wherever they come.

ghost use Rattle.std.specs.Prelude.{◌≡◌, ◌+◌, ◌≤◌, None, All, length, replicate, IfOk, IfSome};
ghost use Rattle.asg_admit.specs.Reduced.{IsReduced};
ghost use Rattle.asg_growth.specs.Growing.{IsAbsorbed};
ghost use Rattle.asg_match.specs.Matching.{IsPerfect};
ghost use Rattle.asg_pool.specs.Forest.{IsLive};
ghost use Rattle.asg_proof.specs.PromisedProofs.{IsPhaseOver};
ghost use Rattle.asg_square.specs.Grid.{cell_at};
ghost use Rattle.asg_algebra.specs.Continued.{IsTaken};
ghost use Rattle.asg_algebra.specs.Solved.{ArePushed, HasSolved, unmatched};

use crate::NoMemory;
use crate::given::solve_given;
use crate::workplaces::spare_region;
use asg_admit::Reduced;
use asg_kept::Keeps;
use asg_match::Matching;
use asg_order::DMonoid;
use asg_pool::{Region, Trail};
use asg_proof::Phase;
use std::alloc::Global;

/// A reduced square as phases that are given led to it, with a column for each row by an absorbed
/// cell.
#[derive(Drop)]
pub struct Taken<V: Copy> {
    pub(crate) reduced: Reduced<V>,
    pub(crate) matching: Matching,
}

// An equal reduced square. The error is want of memory.
fn copied<V: Copy>(alloc: Global, reduced: &Reduced<V>) -> Result<Reduced<V>, NoMemory>
    ensures { IfOk result (λ copy. copy ≡ reduced.entry.now) }
{
    let now = reduced.now.copy(alloc)?;
    let index = reduced.index;
    Ok(Reduced { now, index })
}

// Solves a copy of a reduced square by phases and columns that are given, in a region of its own;
// `None` where they don't solve it. The error is want of memory.
fn led_copy<M: Keeps>(
    alloc: Global,
    m: &M,
    reduced: &Reduced<M::Value>,
    matching: &mut Matching,
    given: &[Phase<M::Value>],
    columns: &[u32],
) -> Result<Option<Reduced<M::Value>>, NoMemory>
    requires reduced { IsReduced (M.monoid_of m.now) reduced.now }
    requires few { length given.now ≤ reduced.now.now.side }
    requires none { matching.old ≡ replicate reduced.now.now.side None }
    ensures { IfOk result (λ found. IfSome found (λ after. IsTaken (M.monoid_of m.now)
        (M.difference m.now) given.now reduced.entry.now
        (record { reduced = after; matching = matching.new }))) }
{
    let side = reduced.now.side();
    let mut region = spare_region(alloc, side, given.len() as u32)?;
    let copy = copied(alloc, reduced)?;
    match solve_given(alloc, m, copy, matching, &mut region, given, columns) {
        Ok(Some(solved)) => {
            drop(region);
            Ok(Some(solved.reduced))
        }
        Ok(None) => {
            drop(region);
            Ok(None)
        }
        Err(error) => {
            drop(region);
            Err(error)
        }
    }
}

/// What phases and columns that are given, from wherever they come, come to on a reduced square,
/// which isn't touched: `None` where they don't solve it. Each phase and each column is tested, as
/// [`solve_given`] does it, on a copy. The phases are at most as many as the side. The error is want
/// of memory. The time is that of [`solve_given`].
pub fn take_given<M: Keeps>(
    alloc: Global,
    m: &M,
    reduced: &Reduced<M::Value>,
    given: &[Phase<M::Value>],
    columns: &[u32],
) -> Result<Option<Taken<M::Value>>, NoMemory>
    requires reduced { IsReduced (M.monoid_of m.now) reduced.now }
    requires few { length given.now ≤ reduced.now.now.side }
    ensures { IfOk result (λ found. IfSome found
        (IsTaken (M.monoid_of m.now) (M.difference m.now) given.now reduced.entry.now)) }
{
    let mut matching = Matching::make(alloc, reduced.now.side())?;
    match led_copy(alloc, m, reduced, &mut matching, given, columns) {
        Ok(Some(after)) => Ok(Some(Taken {
            reduced: after,
            matching,
        })),
        Ok(None) => {
            drop(matching);
            Ok(None)
        }
        Err(error) => {
            drop(matching);
            Err(error)
        }
    }
}

// Pushes phases in turn on a trail, or on none; the last trail. It takes no memory.
fn push_phases<V: Copy>(
    region: &mut Region<V>,
    trail: Option<Trail>,
    given: &[Phase<V>],
) -> Option<Trail>
    requires spare { length given.now ≤ region.old.spare }
    requires live { IfSome trail (IsLive region.old) }
    requires over { All (IsPhaseOver region.old.side) given.now }
    ensures { ArePushed given.now region.old region.new trail result }
{
    let mut last = trail;
    'phases: for k in 0..given.len() {
        let phase = &given[k];
        let next = region.push(last, phase.steps(), phase.enters(), phase.leaves());
        last = Some(next);
    }
    last
}

/// Puts what phases that are given came to in the place of the reduced square and the matching, and
/// pushes the phases on a trail, or on none: so the square is solved on by them, as
/// [`solve`](crate::solve) solves it, and every row has a column. The last trail is given. At least
/// as many records are spare as there are phases, and as many fewer are then. It takes no memory.
pub fn take_over<M: DMonoid>(
    m: &M,
    reduced: &mut Reduced<M::Value>,
    matching: &mut Matching,
    region: &mut Region<M::Value>,
    trail: Option<Trail>,
    given: &[Phase<M::Value>],
    taken: Taken<M::Value>,
) -> Option<Trail>
    requires taken { IsTaken (M.monoid_of m.now) (M.difference m.now) given.now reduced.old taken }
    requires matching_side { length matching.old ≡ reduced.old.now.side }
    requires few { length given.now ≤ unmatched matching.old }
    requires spare { length given.now ≤ region.old.spare }
    requires region_side { region.old.side ≡ reduced.old.now.side }
    requires live { IfSome trail (IsLive region.old) }
    ensures solved { HasSolved (M.monoid_of m.now) (M.difference m.now) reduced.old reduced.new
        matching.old matching.new region.old region.new trail result }
    ensures perfect { IsPerfect (IsAbsorbed (M.monoid_of m.now) reduced.new.index
        (cell_at reduced.new.now)) reduced.new.now.side matching.new }
    ensures spare { region.new.spare + length given.now ≡ region.old.spare }
{
    let _ = m;
    let last = push_phases(region, trail, given);
    let Taken {
        reduced: now,
        matching: found,
    } = taken;
    *reduced = now;
    *matching = found;
    last
}
