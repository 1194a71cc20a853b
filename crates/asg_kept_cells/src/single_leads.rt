//! Phases that are known to be admitted, applied to a square. Where one has one step, at which few
//! columns stay, the cells that change are few.

ghost use Rattle.std.specs.Prelude.{◌≡◌, ◌<◌, length};
ghost use Rattle.asg_admit.specs.Reduced.{IsPhaseTo, IsReduced};
ghost use Rattle.asg_proof.specs.Phases.{IsAdmittedPhase, phase_of};
ghost use Rattle.asg_square.specs.Grid.{cell_at};

use asg_admit::{Reduced, staying, step};
use asg_order::DMonoid;
use asg_settling::settle;

// Of so many columns one may stay for the cells to be changed one by one.
const SPARSE: usize = 16;

// Applies an admitted phase of one step.
fn settle_step<M: DMonoid>(
    m: &M,
    reduced: &mut Reduced<M::Value>,
    steps: &[M::Value],
    enters: &[u32],
    leaves: &[u32],
)
    requires reduced { IsReduced (M.monoid_of m.now) reduced.old }
    requires admitted { IsAdmittedPhase (M.monoid_of m.now) (M.difference m.now)
        reduced.old.now.side (phase_of steps.now enters.now leaves.now)
        (cell_at reduced.old.now) }
    requires one { length steps.now ≡ 1 }
    ensures { IsPhaseTo (M.monoid_of m.now) (M.difference m.now)
        (phase_of steps.now enters.now leaves.now) reduced.old reduced.new }
{
    step(m, reduced, enters, leaves, 0, steps[0]);
}

/// Applies an admitted phase. `room` has more places than there are steps, and what is in it before
/// and afterwards means nothing. It takes no memory.
pub(crate) fn settle_one<M: DMonoid>(
    m: &M,
    reduced: &mut Reduced<M::Value>,
    steps: &[M::Value],
    enters: &[u32],
    leaves: &[u32],
    room: &mut [M::Value],
)
    requires reduced { IsReduced (M.monoid_of m.now) reduced.old }
    requires admitted { IsAdmittedPhase (M.monoid_of m.now) (M.difference m.now)
        reduced.old.now.side (phase_of steps.now enters.now leaves.now)
        (cell_at reduced.old.now) }
    requires room { length steps.now < length room.old }
    ensures phase { IsPhaseTo (M.monoid_of m.now) (M.difference m.now)
        (phase_of steps.now enters.now leaves.now) reduced.old reduced.new }
    ensures room { length room.new ≡ length room.old }
{
    if steps.len() != 1 {
        settle(m, reduced, steps, enters, leaves, room);
        return;
    }
    if staying(leaves, 0) > leaves.len() / SPARSE {
        settle(m, reduced, steps, enters, leaves, room);
        return;
    }
    settle_step(m, reduced, steps, enters, leaves);
}
