//! What phases come to.

ghost use Rattle.std.specs.Prelude.{◌≡◌, ◌≤◌, ◌∷◌, [], List, ℕ, IfOk, IfSome, IsTrue, length};
ghost use Rattle.asg_phase_totals.specs.PhaseTotals.{AreTotals};
ghost use Rattle.asg_model.specs.Limits.{most_side};
ghost use Rattle.asg_proof.specs.Phases.{PhaseOf};

use crate::NoMemory;
use asg_phase_totals::PhaseTotals;
use asg_proof::Phase;
use std::alloc::Global;

// Takes in a phase before those that came to the totals, where it has fewer steps than the room has
// places and can precede them, and tells whether it did.
fn take_in(totals: &mut PhaseTotals<u128>, phase: &Phase<u128>, room: &mut [u128]) -> bool
    ensures taken { IsTrue result
        → (rest : List (PhaseOf ℕ)) → AreTotals rest totals.old
        → AreTotals (phase.now ∷ rest) totals.new }
    ensures side { length totals.new.rows ≡ length totals.old.rows }
{
    let steps = phase.steps();
    if steps.len() >= room.len() {
        return false;
    }
    totals.put_before(steps, phase.enters(), phase.leaves(), room)
}

// Takes in all phases, from the last one back, up to the first that isn't taken in, and tells
// whether there is none.
fn take_all(totals: &mut PhaseTotals<u128>, phases: &[Phase<u128>], room: &mut [u128]) -> bool
    requires { AreTotals [] totals.old }
    ensures taken { IsTrue result → AreTotals phases.now totals.new }
    ensures side { length totals.new.rows ≡ length totals.old.rows }
{
    let count = phases.len();
    'phases: for back in 0..count {
        if !take_in(totals, &phases[count - 1 - back], room) {
            return false;
        }
    }
    true
}

/// What phases come to, none of which has more steps than the side, where each can precede those
/// behind it. The error is want of memory.
pub(crate) fn totals_of(
    alloc: Global,
    side: u32,
    phases: &[Phase<u128>],
) -> Result<Option<PhaseTotals<u128>>, NoMemory>
    requires { side ≤ most_side }
    ensures totals { IfOk result (λ found. IfSome found (AreTotals phases.now)) }
    ensures side { IfOk result (λ found. IfSome found (λ totals. length totals.rows ≡ side)) }
{
    let mut totals = PhaseTotals::none(alloc, side)?;
    let mut room = vec![in alloc; 0u128; side as usize + 1]?;
    if take_all(&mut totals, phases, room.as_mut_slice()) {
        Ok(Some(totals))
    } else {
        Ok(None)
    }
}
