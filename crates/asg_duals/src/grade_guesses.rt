//! Guesses for graded sums, and for maxima.

use crate::NoMemory;
use crate::cell_numbers::numbers_of;
use crate::guesses::Guess;
use crate::plain_guesses::plain_guess;
use crate::readings::{AtGrade, Grades, Peaks};
use crate::retold_phases::append_graded;
use asg_dual_numbers::Lists;
use asg_dual_search::{Bound, Threshold, threshold_of};
use asg_proof::Phase;
use asg_square::Square;
use std::alloc::Global;

// The phase of one step, on the rows and columns that show a bound.
fn bound_phase<V: Copy>(alloc: Global, step: V, bound: &Bound) -> Result<Phase<V>, NoMemory> {
    let mut lists = Lists::new(alloc);
    let steps = lists.of(step, 1);
    let enters = lists.copy_of(bound.enters.as_slice());
    let leaves = lists.copy_of(bound.leaves.as_slice());
    lists.whole(Phase::of(steps, enters, leaves))
}

// The least grade within which each row has a column of its own, as a bound that shows it. The
// error is want of memory.
fn grade_bound(alloc: Global, square: &Square<(u64, u128)>) -> Result<Option<Bound>, NoMemory> {
    let grades = numbers_of(alloc, square, &Grades)?;
    let threshold = threshold_of(alloc, &grades);
    drop(grades);
    match threshold? {
        Some(Threshold { bound, columns }) => {
            drop(columns);
            Ok(Some(bound))
        }
        None => Ok(None),
    }
}

// The phase to the grade of a bound, where it is above 0, and plain phases at this grade.
fn phases_at(
    alloc: Global,
    bound: &Bound,
    plain: &[Phase<u64>],
) -> Result<Vec<Phase<(u64, u128)>>, NoMemory> {
    let grade = bound.limit;
    let mut phases = Vec::new(alloc);
    if grade > 0 {
        let step: (u64, u128) = (grade, 0);
        phases.push(bound_phase(alloc, step, bound)?)?;
    }
    append_graded(alloc, &mut phases, plain, grade)?;
    Ok(phases)
}

// The phases to the grade of a bound and at it, with the assignment of a plain guess.
fn guess_at(
    alloc: Global,
    bound: &Bound,
    plain: &Guess<u64>,
) -> Result<Guess<(u64, u128)>, NoMemory> {
    let columns = Vec::from_slice(alloc, plain.columns())?;
    let phases = phases_at(alloc, bound, plain.phases())?;
    Ok(Guess::of(phases, columns))
}

/// Phases and an assignment of least graded sum; `None` where none is guessed.
///
/// The greatest grade of such an assignment is the least one within which each row has a column of
/// its own. Where it is above 0, a first phase of one step leads to it, on rows that have fewer
/// columns below it than they are. Then the amounts at this grade are solved, as
/// [`tight_duals`](crate::tight_duals) solves sums, where a lower grade counts as 0 and a higher
/// one as absent. The error is want of memory.
pub fn grade_guess(
    alloc: Global,
    square: &Square<(u64, u128)>,
) -> Result<Option<Guess<(u64, u128)>>, NoMemory> {
    let Some(bound) = grade_bound(alloc, square)? else {
        return Ok(None);
    };
    let grade = bound.limit;
    match plain_guess(alloc, square, &AtGrade { grade })? {
        Some(plain) => Ok(Some(guess_at(alloc, &bound, &plain)?)),
        None => Ok(None),
    }
}

// The phase to a bound, where it is above 0.
fn peak_phases(alloc: Global, bound: &Bound) -> Result<Vec<Phase<u64>>, NoMemory> {
    let mut phases = Vec::new(alloc);
    if bound.limit > 0 {
        phases.push(bound_phase(alloc, bound.limit, bound)?)?;
    }
    Ok(phases)
}

// The phase to the bound of a threshold, with its assignment.
fn guess_within(alloc: Global, threshold: &Threshold) -> Result<Guess<u64>, NoMemory> {
    let columns = Vec::from_slice(alloc, threshold.columns.as_slice())?;
    let phases = peak_phases(alloc, &threshold.bound)?;
    Ok(Guess::of(phases, columns))
}

/// A phase of one step to the greatest number of an assignment, and an assignment by which it is
/// least; no phase where it is 0, and `None` where none is guessed. The step is on rows that have
/// fewer columns below that number than they are. The error is want of memory.
pub fn peak_guess(alloc: Global, square: &Square<u64>) -> Result<Option<Guess<u64>>, NoMemory> {
    let peaks = numbers_of(alloc, square, &Peaks)?;
    let threshold = threshold_of(alloc, &peaks);
    drop(peaks);
    match threshold? {
        Some(threshold) => Ok(Some(guess_within(alloc, &threshold)?)),
        None => Ok(None),
    }
}
