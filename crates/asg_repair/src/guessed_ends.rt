//! Squares that are solved on by few phases that are guessed.

ghost use Rattle.std.specs.Prelude.{◌≡◌, ◌+◌, ◌≤◌, IfOk, IfSome, length};
ghost use Rattle.asg_admit.specs.Reduced.{IsReduced};
ghost use Rattle.asg_algebra.specs.Continued.{IsTaken};
ghost use Rattle.asg_algebra.specs.Solved.{HasSolved, unmatched};
ghost use Rattle.asg_growth.specs.Growing.{IsAbsorbed};
ghost use Rattle.asg_kept_phases.specs.Led.{MaySolve};
ghost use Rattle.asg_match.specs.Matching.{IsPerfect};
ghost use Rattle.asg_model.specs.Shapes.{square_side};
ghost use Rattle.asg_pool.specs.Forest.{IsLive};
ghost use Rattle.asg_square.specs.Grid.{cell_at};
ghost use Rattle.asg_repair.specs.LeadsOn.{IsReady, LeadsOn};

use crate::NoMemory;
use crate::free_rows::free_rows;
use crate::works::Work;
use asg_admit::Reduced;
use asg_algebra::{Taken, take_given, take_over};
use asg_duals::Guess;
use asg_kept_phases::PhaseChain;
use asg_match::Matching;
use asg_model::Instance;
use asg_order::{Kind, Ordered};
use asg_pool::{Region, Trail};
use asg_roots::RootGuess;
use asg_square::Square;
use std::alloc::Global;

/// Phases and a column for each row, guessed, and what they come to on a square.
#[derive(Drop)]
pub(crate) struct GuessedEnd<V: Copy> {
    pub(crate) hint: Guess<V>,
    pub(crate) taken: Taken<V>,
}

// What was guessed, where it has at most so many phases.
fn at_most<V: Copy>(hint: Guess<V>, most: u32) -> Option<Guess<V>>
    ensures { IfSome result (λ few. length few.phases ≤ most) }
{
    if hint.phases().len() > most as usize {
        drop(hint);
        return None;
    }
    Some(hint)
}

// At most so many phases and a column for each row that may solve a square, guessed; `None` where
// none are, as for want of memory.
fn few_guessed<K: Kind>(
    alloc: Global,
    kind: &K,
    square: &Square<<K::M as Ordered>::Value>,
    most: u32,
) -> Option<Guess<<K::M as Ordered>::Value>>
where
    K::M: RootGuess,
    ensures { IfSome result (λ few. length few.phases ≤ most) }
{
    match kind.monoid().guess(alloc, kind.objective(), square) {
        Ok(Some(hint)) => at_most(hint, most),
        Ok(None) => None,
        Err(_) => None,
    }
}

// What phases and columns that were guessed come to on a square, which isn't touched. The error is
// want of memory.
fn tried<K: Kind>(
    alloc: Global,
    kind: &K,
    reduced: &Reduced<<K::M as Ordered>::Value>,
    hint: &Guess<<K::M as Ordered>::Value>,
) -> Result<Option<Taken<<K::M as Ordered>::Value>>, NoMemory>
where
    K::M: RootGuess,
    requires reduced { IsReduced (K.M.monoid_of (K.monoid kind.now)) reduced.now }
    requires few { length hint.now.phases ≤ reduced.now.now.side }
    ensures { IfOk result (λ found. IfSome found (IsTaken (K.M.monoid_of (K.monoid kind.now))
        (K.M.difference (K.monoid kind.now)) hint.now.phases reduced.entry.now)) }
{
    take_given(alloc, kind.monoid(), reduced, hint.phases(), hint.columns())
}

// Phases that are guessed, at most so many, and what they come to on a square, which isn't touched;
// `None` where they don't solve it, and for want of memory.
fn end_with<K: Kind>(
    alloc: Global,
    kind: &K,
    reduced: &Reduced<<K::M as Ordered>::Value>,
    most: u32,
) -> Option<GuessedEnd<<K::M as Ordered>::Value>>
where
    K::M: RootGuess,
    requires reduced { IsReduced (K.M.monoid_of (K.monoid kind.now)) reduced.now }
    requires most { most ≤ reduced.now.now.side }
    ensures few { IfSome result (λ end. length end.hint.phases ≤ most) }
    ensures taken { IfSome result (λ end. IsTaken (K.M.monoid_of (K.monoid kind.now))
        (K.M.difference (K.monoid kind.now)) end.hint.phases reduced.entry.now end.taken) }
{
    let hint = few_guessed(alloc, kind, &reduced.now, most)?;
    match tried(alloc, kind, reduced, &hint) {
        Ok(Some(taken)) => Some(GuessedEnd { hint, taken }),
        Ok(None) => None,
        Err(_) => None,
    }
}

// Puts what guessed phases came to in the place of the square and its matching, and pushes the
// phases on a trail; the last trail.
fn taken_over<K: Kind>(
    kind: &K,
    reduced: &mut Reduced<<K::M as Ordered>::Value>,
    matching: &mut Matching,
    region: &mut Region<<K::M as Ordered>::Value>,
    trail: Option<Trail>,
    end: GuessedEnd<<K::M as Ordered>::Value>,
) -> Option<Trail>
    requires taken { IsTaken (K.M.monoid_of (K.monoid kind.now))
        (K.M.difference (K.monoid kind.now)) end.hint.phases reduced.old end.taken }
    requires matching_side { length matching.old ≡ reduced.old.now.side }
    requires few { length end.hint.phases ≤ unmatched matching.old }
    requires spare { length end.hint.phases ≤ region.old.spare }
    requires region_side { region.old.side ≡ reduced.old.now.side }
    requires live { IfSome trail (IsLive region.old) }
    ensures solved { HasSolved (K.M.monoid_of (K.monoid kind.now))
        (K.M.difference (K.monoid kind.now)) reduced.old reduced.new matching.old matching.new
        region.old region.new trail result }
    ensures perfect { IsPerfect (IsAbsorbed (K.M.monoid_of (K.monoid kind.now)) reduced.new.index
        (cell_at reduced.new.now)) reduced.new.now.side matching.new }
    ensures spare { region.new.spare + length end.hint.phases ≡ region.old.spare }
{
    let GuessedEnd { hint, taken } = end;
    take_over(
        kind.monoid(),
        reduced,
        matching,
        region,
        trail,
        hint.phases(),
        taken,
    )
}

// The same for the phases of an instance. So many records more than the square has rows are spare.
fn take_end<K: Kind>(
    kind: &K,
    inst: &Instance,
    work: &mut Work<<K::M as Ordered>::Value>,
    phases: &mut PhaseChain<<K::M as Ordered>::Value>,
    end: GuessedEnd<<K::M as Ordered>::Value>,
)
    requires ready { IsReady (K.M.monoid_of (K.monoid kind.now))
        (K.M.difference (K.monoid kind.now)) (K.entered kind.now) inst.now work.old phases.old }
    requires taken { IsTaken (K.M.monoid_of (K.monoid kind.now))
        (K.M.difference (K.monoid kind.now)) end.hint.phases work.old.reduced end.taken }
    requires few { length end.hint.phases ≤ unmatched work.old.matching }
    requires spare { square_side inst.now + length end.hint.phases ≤ phases.old.region.spare }
    ensures { LeadsOn (K.M.monoid_of (K.monoid kind.now)) (K.M.difference (K.monoid kind.now))
        (K.entered kind.now) inst.now work.old work.new phases.old phases.new }
{
    let _spare = phases.region.spare();
    let trail = phases.last;
    let last = taken_over(
        kind,
        &mut work.reduced,
        &mut work.matching,
        &mut phases.region,
        trail,
        end,
    );
    phases.last = last;
    phases.is_told = false;
}

// The same, where there is memory for the records.
fn take_with_room<K: Kind>(
    kind: &K,
    inst: &Instance,
    work: &mut Work<<K::M as Ordered>::Value>,
    phases: &mut PhaseChain<<K::M as Ordered>::Value>,
    end: GuessedEnd<<K::M as Ordered>::Value>,
)
    requires may_solve { MaySolve (K.M.monoid_of (K.monoid kind.now)) (K.entered kind.now)
        (K.objective kind.now) (K.reach kind.now) inst.now }
    requires ready { IsReady (K.M.monoid_of (K.monoid kind.now))
        (K.M.difference (K.monoid kind.now)) (K.entered kind.now) inst.now work.old phases.old }
    requires taken { IsTaken (K.M.monoid_of (K.monoid kind.now))
        (K.M.difference (K.monoid kind.now)) end.hint.phases work.old.reduced end.taken }
    requires few { length end.hint.phases ≤ unmatched work.old.matching }
    ensures { LeadsOn (K.M.monoid_of (K.monoid kind.now)) (K.M.difference (K.monoid kind.now))
        (K.entered kind.now) inst.now work.old work.new phases.old phases.new }
{
    let side = inst.side();
    let count = end.hint.phases().len() as u32;
    match phases.prepare(side + count) {
        Ok(()) => take_end(kind, inst, work, phases, end),
        Err(_) => drop(end),
    }
}

/// Solves on from the phases by few more that are guessed, where two rows or more have no column,
/// and the phases are at most as many as these and solve the square. Else, and for want of memory,
/// the square, the matching and the phases stay. The time grows with the cube of the side at most.
pub(crate) fn guess_on<K: Kind>(
    alloc: Global,
    kind: &K,
    inst: &Instance,
    work: &mut Work<<K::M as Ordered>::Value>,
    phases: &mut PhaseChain<<K::M as Ordered>::Value>,
)
where
    K::M: RootGuess,
    requires may_solve { MaySolve (K.M.monoid_of (K.monoid kind.now)) (K.entered kind.now)
        (K.objective kind.now) (K.reach kind.now) inst.now }
    requires ready { IsReady (K.M.monoid_of (K.monoid kind.now))
        (K.M.difference (K.monoid kind.now)) (K.entered kind.now) inst.now work.old phases.old }
    ensures { LeadsOn (K.M.monoid_of (K.monoid kind.now)) (K.M.difference (K.monoid kind.now))
        (K.entered kind.now) inst.now work.old work.new phases.old phases.new }
{
    let most = free_rows(&work.matching);
    if most < 2 {
        return;
    }
    match end_with(alloc, kind, &work.reduced, most) {
        Some(end) => take_with_room(kind, inst, work, phases, end),
        None => {}
    }
}
