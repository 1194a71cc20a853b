//! Whole phases that are tested first.

ghost use Rattle.std.specs.Prelude.{◌≡◌, ◌↔◌, false, IsTrue};
ghost use Rattle.asg_admit.specs.Reduced.{IsReduced, IsPhaseTo, phase_of};
ghost use Rattle.asg_admit.specs.Settling.{SettlesPhase};
ghost use Rattle.asg_proof.specs.Phases.{IsAdmittedPhase};
ghost use Rattle.asg_proof.specs.Steps.{HasValues};
ghost use Rattle.asg_square.specs.Grid.{cell_at};

use crate::admission::admits;
use crate::reduced::Reduced;
use crate::stepping::step_rows;
use asg_order::{DMonoid, fold};
use asg_square::Square;

/// Applies a phase where it is admitted from the square, and tells whether it is: the lists are
/// over the rows and the columns, each step is a value, and each step in turn has one more row and
/// column than the side and is at most each present cell of both. The index is then multiplied by
/// all steps. Otherwise nothing is changed. It takes no memory, and its time grows with the steps
/// times the cells; that of `asg_settling::replay_within` doesn't.
pub fn replay<M: DMonoid>(
    m: &M,
    reduced: &mut Reduced<M::Value>,
    steps: &[M::Value],
    enters: &[u32],
    leaves: &[u32],
) -> bool
    requires { IsReduced (M.monoid_of m.now) reduced.old }
    ensures admitted { let phase = phase_of steps.now enters.now leaves.now in
        IsTrue result ↔ IsAdmittedPhase (M.monoid_of m.now) (M.difference m.now)
        reduced.old.now.side phase (cell_at reduced.old.now) }
    ensures applied { let phase = phase_of steps.now enters.now leaves.now in
        IsTrue result
        → IsPhaseTo (M.monoid_of m.now) (M.difference m.now) phase reduced.old reduced.new }
    ensures kept { result ≡ false → reduced.new ≡ reduced.old }
    ensures reduced { IsReduced (M.monoid_of m.now) reduced.new }
{
    if !admits(m, &reduced.now, steps, enters, leaves) {
        return false;
    }
    apply(m, reduced, steps, enters, leaves);
    true
}

// Applies an admitted phase.
fn apply<M: DMonoid>(
    m: &M,
    reduced: &mut Reduced<M::Value>,
    steps: &[M::Value],
    enters: &[u32],
    leaves: &[u32],
)
    requires reduced { IsReduced (M.monoid_of m.now) reduced.old }
    requires admitted { let phase = phase_of steps.now enters.now leaves.now in
        IsAdmittedPhase (M.monoid_of m.now) (M.difference m.now) reduced.old.now.side phase
        (cell_at reduced.old.now) }
    ensures { let phase = phase_of steps.now enters.now leaves.now in
        IsPhaseTo (M.monoid_of m.now) (M.difference m.now) phase reduced.old reduced.new }
{
    reduced.now.side();
    reduced.index = m.op(reduced.index, fold(m, steps));
    take_steps(m, &mut reduced.now, steps, enters, leaves);
    reduced.now.side();
}

// Applies the steps of an admitted phase to the cells, one after another.
fn take_steps<M: DMonoid>(
    m: &M,
    square: &mut Square<M::Value>,
    steps: &[M::Value],
    enters: &[u32],
    leaves: &[u32],
)
    requires cells { HasValues (M.monoid_of m.now) square.old.side (cell_at square.old) }
    requires admitted { let phase = phase_of steps.now enters.now leaves.now in
        IsAdmittedPhase (M.monoid_of m.now) (M.difference m.now) square.old.side phase
        (cell_at square.old) }
    ensures { let phase = phase_of steps.now enters.now leaves.now in
        SettlesPhase (M.monoid_of m.now) (M.difference m.now) phase square.old square.new }
{
    for t in 0..steps.len() {
        step_rows(m, square, enters, leaves, t, steps[t]);
    }
}
