//! Phases of one step by 1.

ghost use Rattle.std.specs.Prelude.{◌≡◌, ◌==◌, ◌+◌, ◌≤◌, ◌<◌, ◌∷◌, [], ℕ, IsTrue, length, slice_index, if◌then◌else◌};
ghost use Rattle.asg_model.specs.Limits.{most_side};
ghost use Rattle.asg_levels.specs.UnitSteps.{CountsRight};

use asg_admit::{entered, staying};
use asg_proof::WrittenPhase;

// Whether a phase has one step, by 1.
fn is_unit_step(phase: &WrittenPhase) -> bool
    ensures { IsTrue result → phase.now.steps ≡ record { grade = 0; amount = 1 } ∷ [] }
{
    let steps = phase.steps();
    if steps.len() != 1 {
        return false;
    }
    let step = steps.get(0);
    step.grade == 0 && step.amount == 1
}

// Whether lists are over the rows and the columns of a square of this side, and the rows that have
// entered at the first step and the columns that stay are one more than it.
fn counts_right(enters: &[u32], leaves: &[u32], side: usize) -> bool
    requires { side ≤ most_side }
    ensures { IsTrue result → CountsRight side enters.now leaves.now }
{
    if enters.len() != side {
        return false;
    }
    if leaves.len() != side {
        return false;
    }
    entered(enters, 0) + staying(leaves, 0) == side + 1
}

/// Whether a phase has one step, by 1, and its lists are over the rows and the columns of a square
/// of this side, one more of them in the step than it.
pub(crate) fn is_unit(phase: &WrittenPhase, side: usize) -> bool
    requires { side ≤ most_side }
    ensures step { IsTrue result → phase.now.steps ≡ record { grade = 0; amount = 1 } ∷ [] }
    ensures counts { IsTrue result → CountsRight side phase.now.enters phase.now.leaves }
{
    if !is_unit_step(phase) {
        return false;
    }
    counts_right(phase.enters(), phase.leaves(), side)
}

/// Adds 1 at each place at which a mark is 0.
pub fn count_zeros(marks: &[u32], counts: &mut Vec<u32>)
    requires within { length marks.now ≤ length counts.old.items }
    requires few { (k : ℕ) → k < length marks.now → slice_index counts.old.items k ≤ most_side }
    ensures count { length counts.new.items ≡ length counts.old.items }
    ensures each { (k : ℕ) → k < length marks.now → slice_index counts.new.items k
        ≡ slice_index counts.old.items k + (if slice_index marks.now k == 0 then 1 else 0) }
    ensures rest { (k : ℕ) → length marks.now ≤ k
        → slice_index counts.new.items k ≡ slice_index counts.old.items k }
{
    for place in 0..marks.len() {
        counts[place] += u32::from(marks[place] == 0);
    }
}
