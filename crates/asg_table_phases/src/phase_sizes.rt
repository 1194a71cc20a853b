//! How many steps phases have.

ghost use Rattle.std.specs.Prelude.{◌≤◌, ◌↔◌, All, IsTrue, length};
ghost use Rattle.asg_table_phases.specs.Sizes.{IsSized, AreSized};

use asg_proof::Phase;

// Whether a phase has 1 to side steps.
fn is_sized(phase: &Phase<u128>, side: usize) -> bool
    ensures { IsTrue result ↔ IsSized side phase.now }
{
    let steps = phase.steps().len();
    1 <= steps && steps <= side
}

// Whether each phase has 1 to side steps.
fn are_each_sized(phases: &[Phase<u128>], side: usize) -> bool
    ensures { IsTrue result ↔ All (IsSized side) phases.now }
{
    phases.iter().all(|phase| is_sized(phase, side))
}

/// Whether phases are at most as many as the side, and each has 1 to side steps.
pub(crate) fn are_sized(phases: &[Phase<u128>], side: usize) -> bool
    ensures { IsTrue result → AreSized side phases.now }
{
    phases.len() <= side && are_each_sized(phases, side)
}
