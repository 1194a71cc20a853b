//! Guesses for sums that stop at a cap.

ghost use Rattle.std.specs.Prelude.{◌<◌, ◌≤◌};
ghost use Rattle.std.specs.List.{sum};

use crate::NoMemory;
use crate::guesses::Guess;
use crate::plain_guesses::plain_guess;
use crate::readings::{Whole, narrow};
use crate::retold_phases::multiplied;
use asg_proof::{Phase, cut_steps};
use asg_square::Square;
use std::alloc::Global;

// What steps add up to, at most 2^64 - 1.
fn sum_of(steps: &[u64]) -> u64
    ensures { result ≤ sum steps.now }
{
    let mut total = 0u64;
    'steps: for step in steps {
        total = total.saturating_add(*step);
    }
    total
}

// A phase with steps of 128 bits, those up to what is left.
fn cut_phase(alloc: Global, phase: &Phase<u64>, left: u64) -> Result<Phase<u128>, NoMemory>
    requires { 0 < left }
{
    let mut steps = Vec::from_slice(alloc, phase.steps())?;
    if sum_of(steps.as_slice()) > left {
        cut_steps(&mut steps, left);
    }
    let kept = multiplied(alloc, phase, steps.as_slice(), 1);
    drop(steps);
    kept
}

// The phases up to one in which their sum passes a cap; of that one the steps up to the cap.
fn cut_phases(alloc: Global, plain: &[Phase<u64>], cap: u64) -> Result<Vec<Phase<u128>>, NoMemory> {
    let mut phases = Vec::with_capacity(alloc, plain.len())?;
    let mut left = cap;
    for k in 0..plain.len() {
        if left == 0 {
            break;
        }
        let phase = &plain[k];
        phases.push(cut_phase(alloc, phase, left)?)?;
        left = left.saturating_sub(sum_of(phase.steps()));
    }
    Ok(phases)
}

// The guess with the assignment of a plain one.
fn cut_guess(alloc: Global, plain: &Guess<u64>, cap: u64) -> Result<Guess<u128>, NoMemory> {
    let columns = Vec::from_slice(alloc, plain.columns())?;
    let phases = cut_phases(alloc, plain.phases(), cap)?;
    Ok(Guess::of(phases, columns))
}

/// Phases and an assignment of least sum for a square whose sums stop at a cap; `None` where none
/// is guessed. The cells are at most the cap.
///
/// Plain sums of the cells are solved, as [`tight_duals`](crate::tight_duals) solves them. Where
/// the steps of their phases add up to more than the cap, the list is cut so that they add up to
/// it: then the sums of all assignments stop there. The error is want of memory.
pub fn capped_guess(
    alloc: Global,
    square: &Square<u128>,
    cap: u128,
) -> Result<Option<Guess<u128>>, NoMemory> {
    match plain_guess(alloc, square, &Whole)? {
        Some(plain) => Ok(Some(cut_guess(alloc, &plain, narrow(cap))?)),
        None => Ok(None),
    }
}
