//! Whole phases that are tested by blocks of steps first.

ghost use Rattle.std.specs.Prelude.{◌≡◌, ◌↔◌, ◌<◌, false, length, IsTrue};
ghost use Rattle.asg_admit.specs.Reduced.{IsReduced, IsPhaseTo, IsPhaseInPart, KeepsLabels, phase_of};
ghost use Rattle.asg_proof.specs.Phases.{IsAdmittedPhase};
ghost use Rattle.asg_square.specs.Grid.{cell_at};

use crate::settling::settle;
use asg_admit::{Reduced, blocks_allow, is_over};
use asg_order::DMonoid;

/// Applies a phase where it is admitted from the square, and tells whether it is, as [`replay`](asg_admit::replay)
/// does, but in a time that is that of the steps and of the cells, however many steps there are:
/// those from one mark to the next are tested on the least cell of their rows and columns alone.
/// Where the phase isn't admitted the square may be changed in part: each cell is as it was or as
/// the phase makes it, and the side, the labels and the index stay. `room` has more places than
/// there are steps, and what is in it before and afterwards means nothing. It takes no memory.
pub fn replay_within<M: DMonoid>(
    m: &M,
    reduced: &mut Reduced<M::Value>,
    steps: &[M::Value],
    enters: &[u32],
    leaves: &[u32],
    room: &mut [M::Value],
) -> bool
    requires reduced { IsReduced (M.monoid_of m.now) reduced.old }
    requires room { length steps.now < length room.old }
    ensures admitted { let phase = phase_of steps.now enters.now leaves.now in
        IsTrue result ↔ IsAdmittedPhase (M.monoid_of m.now) (M.difference m.now)
        reduced.old.now.side phase (cell_at reduced.old.now) }
    ensures applied { let phase = phase_of steps.now enters.now leaves.now in
        IsTrue result
        → IsPhaseTo (M.monoid_of m.now) (M.difference m.now) phase reduced.old reduced.new }
    ensures refused { let phase = phase_of steps.now enters.now leaves.now in
        result ≡ false
        → IsPhaseInPart (M.monoid_of m.now) (M.difference m.now) phase reduced.old reduced.new }
    ensures labels { KeepsLabels reduced.old.now reduced.new.now }
    ensures reduced { IsReduced (M.monoid_of m.now) reduced.new }
    ensures room { length room.new ≡ length room.old }
{
    if !is_over(m, &reduced.now, steps, enters, leaves) {
        return false;
    }
    reduced.now.side();
    if !blocks_allow(m, &reduced.now, steps, enters, leaves, room) {
        return false;
    }
    settle(m, reduced, steps, enters, leaves, room);
    true
}
