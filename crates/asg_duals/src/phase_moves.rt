//! What phases of sums take from rows and add to columns in all.

use crate::NoMemory;
use asg_dual_numbers::{amount, put_amount};
use asg_proof::Phase;
use std::alloc::Global;

/// By how much each row falls and each column rises.
#[derive(Drop)]
pub(crate) struct Moves {
    /// By how much each row falls.
    pub falls: Vec<u64>,
    /// By how much each column rises.
    pub rises: Vec<u64>,
}

// What the steps from each one on add up to.
fn sums_from(alloc: Global, steps: &[u64]) -> Result<Vec<u64>, NoMemory> {
    let mut sums = vec![in alloc; 0; steps.len()]?;
    let mut sum = 0u64;
    for back in 0..steps.len() {
        let place = steps.len() - 1 - back;
        sum = sum.wrapping_add(steps[place]);
        put_amount(sums.as_mut_slice(), place, sum);
    }
    Ok(sums)
}

// Adds to each amount the sum from its mark on.
fn add_from(amounts: &mut [u64], marks: &[u32], sums: &[u64]) {
    for place in 0..amounts.len().min(marks.len()) {
        let sum = amount(sums, marks[place] as usize);
        amounts[place] = amounts[place].wrapping_add(sum);
    }
}

/// By how much each row falls, and each column rises, by all of these phases of a square of this
/// side. The error is want of memory.
pub(crate) fn moves_of(
    alloc: Global,
    phases: &[Phase<u64>],
    side: usize,
) -> Result<Moves, NoMemory> {
    let mut moves = Moves {
        falls: vec![in alloc; 0; side]?,
        rises: vec![in alloc; 0; side]?,
    };
    for k in 0..phases.len() {
        let phase = &phases[k];
        let sums = sums_from(alloc, phase.steps())?;
        add_from(moves.falls.as_mut_slice(), phase.enters(), sums.as_slice());
        add_from(moves.rises.as_mut_slice(), phase.leaves(), sums.as_slice());
    }
    Ok(moves)
}
