//! Lists of phases of sums, tested with few looks at the cells.

ghost use Rattle.std.specs.Prelude.{◌≡◌, ◌<◌, length, All, IfOk, IsTrue};
ghost use Rattle.asg_monoids.specs.BoundedSums.{bounded_sums, bounded_difference};
ghost use Rattle.asg_proof.specs.Phases.{AreAdmittedPhases};
ghost use Rattle.asg_square.specs.Grid.{cell_at};

use crate::NoMemory;
use asg_phase_totals::{ListTest, SumNumber};
use asg_proof::Phase;
use asg_square::Square;
use std::alloc::Global;

// Whether each phase has fewer steps than there are places.
fn have_room<N: SumNumber>(given: &[Phase<N>], places: usize) -> bool
    ensures { IsTrue result → All (λ p. length p.steps < places) given.now }
{
    'phases: for k in 0..given.len() {
        if given[k].steps().len() >= places {
            return false;
        }
    }
    true
}

// Whether phases are admitted in turn from a square, where it is told.
fn test_list<N: SumNumber>(
    test: &mut ListTest<N>,
    square: &Square<N>,
    given: &[Phase<N>],
    room: &mut [N],
) -> bool
    requires { test.old ≡ square.now.side }
    ensures { IsTrue result
        → AreAdmittedPhases (bounded_sums N.top) bounded_difference square.now.side
        (N.phases given.now) (λ r k. N.present (cell_at square.now r k)) }
{
    if !have_room(given, room.len()) {
        return false;
    }
    match test.admits(square, given, room) {
        Some(is_admitted) => is_admitted,
        None => false,
    }
}

/// Whether phases are admitted in turn from a square, by sums that stop at the top of the numbers,
/// where it is told: not where one has more steps than the side, nor where sums come near the top.
/// The error is want of memory.
pub(crate) fn are_admitted<N: SumNumber>(
    alloc: Global,
    square: &Square<N>,
    given: &[Phase<N>],
) -> Result<bool, NoMemory>
    ensures { IfOk result (λ told. IsTrue told
        → AreAdmittedPhases (bounded_sums N.top) bounded_difference square.now.side
        (N.phases given.now) (λ r k. N.present (cell_at square.now r k))) }
{
    let side = square.side();
    let mut test = ListTest::with_side(alloc, side)?;
    let mut room = vec![in alloc; N::zero(); side as usize + 1]?;
    Ok(test_list(&mut test, square, given, room.as_mut_slice()))
}
