//! Guesses for pairs of sums of which the first decides.

use crate::NoMemory;
use crate::guesses::Guess;
use crate::phase_moves::moves_of;
use crate::plain_guesses::plain_guess;
use crate::readings::{FIRST_UNIT, Firsts, Seconds};
use crate::retold_phases::append_multiplied;
use asg_proof::Phase;
use asg_square::Square;
use std::alloc::Global;

// A guess for the second parts, over the cells whose first part is 0 after a guess for those. The
// error is want of memory.
fn guess_seconds(
    alloc: Global,
    square: &Square<u128>,
    firsts: &Guess<u64>,
) -> Result<Option<Guess<u64>>, NoMemory> {
    let moves = moves_of(alloc, firsts.phases(), firsts.columns().len())?;
    let reading = Seconds {
        falls: moves.falls.as_slice(),
        rises: moves.rises.as_slice(),
    };
    plain_guess(alloc, square, &reading)
}

// The phases for first parts, with steps times 2^42, and then those for second ones.
fn pair_phases(
    alloc: Global,
    firsts: &[Phase<u64>],
    seconds: &[Phase<u64>],
) -> Result<Vec<Phase<u128>>, NoMemory> {
    let mut phases = Vec::new(alloc);
    append_multiplied(alloc, &mut phases, firsts, FIRST_UNIT)?;
    append_multiplied(alloc, &mut phases, seconds, 1)?;
    Ok(phases)
}

// The guess of both, with the assignment of the second one.
fn joined(
    alloc: Global,
    firsts: &Guess<u64>,
    seconds: &Guess<u64>,
) -> Result<Guess<u128>, NoMemory> {
    let columns = Vec::from_slice(alloc, seconds.columns())?;
    let phases = pair_phases(alloc, firsts.phases(), seconds.phases())?;
    Ok(Guess::of(phases, columns))
}

/// Phases and an assignment of least sum for a square of pairs, each in one number: its first part
/// times 2^42, and its second part. `None` where none is guessed.
///
/// Two squares of sums are solved, each as [`tight_duals`](crate::tight_duals) solves one: that of
/// the first parts, and that of the second ones, over the cells whose first part is 0 after the
/// phases of the first. Those phases, with steps times 2^42, leave all second parts as they are.
/// And where the second parts of an assignment add up to less than 2^42, all other cells are above
/// what the phases of the second ones take. The error is want of memory.
pub fn pair_guess(alloc: Global, square: &Square<u128>) -> Result<Option<Guess<u128>>, NoMemory> {
    let Some(firsts) = plain_guess(alloc, square, &Firsts)? else {
        return Ok(None);
    };
    match guess_seconds(alloc, square, &firsts)? {
        Some(seconds) => Ok(Some(joined(alloc, &firsts, &seconds)?)),
        None => Ok(None),
    }
}
