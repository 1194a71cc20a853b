//! Phases that are given, from wherever they come, are taken where they are admitted.

ghost use Rattle.std.specs.Prelude.{◌≡◌, ◌<◌, ◌≤◌, ◌∷◌, [], Some, length, IfSome, IsTrue};
ghost use Rattle.asg_admit.specs.Reduced.{IsReduced, IsPhaseTo, phase_of};
ghost use Rattle.asg_pool.specs.Forest.{IsLive};
ghost use Rattle.asg_proof.specs.Phases.{AreAdmittedPhases, IsAdmittedPhase};
ghost use Rattle.asg_square.specs.Grid.{cell_at};
ghost use Rattle.asg_algebra.specs.Solved.{LeadTo};

use asg_kept::KeptSquare;
use asg_order::DMonoid;
use asg_pool::{Region, Trail};
use asg_proof::Phase;

// Applies a phase where it is admitted, and tells whether it is. One that is known to be admitted
// isn't tested.
fn apply_phase<M: DMonoid, S: KeptSquare<M>>(
    m: &M,
    square: &mut S,
    steps: &[M::Value],
    enters: &[u32],
    leaves: &[u32],
    room: &mut [M::Value],
    is_known: bool,
) -> bool
    requires reduced { IsReduced (M.monoid_of m.now) (S.as_reduced square.old) }
    requires room { length steps.now < length room.old }
    requires known { let phase = phase_of steps.now enters.now leaves.now in IsTrue is_known
        → IsAdmittedPhase (M.monoid_of m.now) (M.difference m.now)
        (S.as_reduced square.old).now.side phase (cell_at (S.as_reduced square.old).now) }
    ensures admitted { let phase = phase_of steps.now enters.now leaves.now in IsTrue result
        → IsAdmittedPhase (M.monoid_of m.now) (M.difference m.now)
        (S.as_reduced square.old).now.side phase (cell_at (S.as_reduced square.old).now) }
    ensures phase { let phase = phase_of steps.now enters.now leaves.now in IsTrue result
        → IsPhaseTo (M.monoid_of m.now) (M.difference m.now) phase (S.as_reduced square.old)
        (S.as_reduced square.new) }
    ensures room { length room.new ≡ length room.old }
{
    if !is_known {
        return square.replay(m, steps, enters, leaves, room);
    }
    square.settle(m, steps, enters, leaves, room);
    true
}

// Applies a phase and pushes it on a trail, where it is admitted; the new trail.
fn take_phase<M: DMonoid, S: KeptSquare<M>>(
    m: &M,
    square: &mut S,
    region: &mut Region<M::Value>,
    trail: Option<Trail>,
    steps: &[M::Value],
    enters: &[u32],
    leaves: &[u32],
    room: &mut [M::Value],
    is_known: bool,
) -> Option<Trail>
    requires reduced { IsReduced (M.monoid_of m.now) (S.as_reduced square.old) }
    requires spare { 1 ≤ region.old.spare }
    requires live { IfSome trail (IsLive region.old) }
    requires region_side { region.old.side ≡ (S.as_reduced square.old).now.side }
    requires room { (S.as_reduced square.old).now.side < length room.old }
    requires known { let phase = phase_of steps.now enters.now leaves.now in IsTrue is_known
        → IsAdmittedPhase (M.monoid_of m.now) (M.difference m.now)
        (S.as_reduced square.old).now.side phase (cell_at (S.as_reduced square.old).now) }
    ensures leads { let phase = phase_of steps.now enters.now leaves.now in
        IfSome result (λ next. LeadTo (M.monoid_of m.now) (M.difference m.now) (phase ∷ [])
        (S.as_reduced square.old) (S.as_reduced square.new) region.old region.new trail
        (Some next)) }
    ensures room { length room.new ≡ length room.old }
{
    let side = square.side() as usize;
    if steps.is_empty() || steps.len() > side {
        return None;
    }
    if apply_phase(m, square, steps, enters, leaves, room, is_known) {
        Some(region.push(trail, steps, enters, leaves))
    } else {
        None
    }
}

/// Applies phases that are given, from wherever they come, one after another, and pushes them on
/// the last trail, which is that of the last phase then; whether all are admitted. It ends with the
/// first that isn't, and the square serves no more. Each has 1 to side steps. Where they are known
/// to be admitted in turn they aren't tested.
pub(crate) fn take_phases<M: DMonoid, S: KeptSquare<M>>(
    m: &M,
    square: &mut S,
    region: &mut Region<M::Value>,
    last: &mut Option<Trail>,
    given: &[Phase<M::Value>],
    room: &mut [M::Value],
    are_known: bool,
) -> bool
    requires reduced { IsReduced (M.monoid_of m.now) (S.as_reduced square.old) }
    requires spare { length given.now ≤ region.old.spare }
    requires live { IfSome last.old (IsLive region.old) }
    requires region_side { region.old.side ≡ (S.as_reduced square.old).now.side }
    requires room { (S.as_reduced square.old).now.side < length room.old }
    requires known { IsTrue are_known → AreAdmittedPhases (M.monoid_of m.now)
        (M.difference m.now) (S.as_reduced square.old).now.side given.now
        (cell_at (S.as_reduced square.old).now) }
    ensures { IsTrue result → LeadTo (M.monoid_of m.now) (M.difference m.now) given.now
        (S.as_reduced square.old) (S.as_reduced square.new) region.old region.new last.old
        last.new }
{
    'phases: for k in 0..given.len() {
        let phase = &given[k];
        let Some(next) = take_phase(
            m,
            square,
            region,
            *last,
            phase.steps(),
            phase.enters(),
            phase.leaves(),
            room,
            are_known,
        ) else {
            return false;
        };
        *last = Some(next);
    }
    true
}
