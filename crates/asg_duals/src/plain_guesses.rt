//! Guesses for plain sums of the numbers as which cells are read.

use crate::NoMemory;
use crate::assigning::{MOST_FOUND, tight_duals};
use crate::cell_numbers::numbers_of;
use crate::conversion::short_phases;
use crate::duals::Duals;
use crate::guesses::Guess;
use crate::readings::{Reading, amount};
use asg_dual_numbers::{Found, Numbers};
use asg_dual_search::Search;
use asg_square::Square;
use std::alloc::Global;

// Whether no number of a row is below 0 once the row has fallen and the columns have risen.
fn row_is_above(numbers: &[u64], rises: &[u64], fall: u64) -> bool {
    let mut is_above = true;
    for column in 0..numbers.len().min(rises.len()) {
        is_above = is_above && numbers[column].saturating_add(rises[column]) >= fall;
    }
    is_above
}

// Whether, once all rows have fallen and all columns have risen, the number of each row at its
// column is 0, and none is below 0.
fn are_tight_on(numbers: &Numbers, found: &Found) -> bool {
    if found.columns.len() < numbers.side as usize {
        return false;
    }
    for row in 0..numbers.side {
        let fall = amount(found.falls.as_slice(), row as usize);
        let column = found.columns[row as usize] as usize;
        let rise = amount(found.rises.as_slice(), column);
        if amount(numbers.row(row), column).wrapping_add(rise) != fall {
            return false;
        }
        if !row_is_above(numbers.row(row), found.rises.as_slice(), fall) {
            return false;
        }
    }
    true
}

// The phases of dual variables, and their assignment.
fn guess_of(alloc: Global, duals: &Duals) -> Result<Guess<u64>, NoMemory> {
    let phases = short_phases(alloc, duals)?;
    let columns = Vec::from_slice(alloc, duals.columns())?;
    Ok(Guess::of(phases, columns))
}

/// Phases and an assignment of least sum for a square of sums in 64 bits, by what
/// [`tight_duals`](crate::tight_duals) finds; `None` where none is guessed. The error is want of
/// memory.
pub fn sum_guess(alloc: Global, square: &Square<u64>) -> Result<Option<Guess<u64>>, NoMemory> {
    match tight_duals(alloc, square)? {
        Some(duals) => Ok(Some(guess_of(alloc, &duals)?)),
        None => Ok(None),
    }
}

// What a search finds first that is tight on the numbers; `None` where it finds nothing so.
fn tight_found(
    alloc: Global,
    numbers: &Numbers,
    search: &mut Search<'_>,
) -> Result<Option<Found>, NoMemory> {
    for _ in 0..MOST_FOUND {
        let Some(found) = search.next(alloc)? else {
            return Ok(None);
        };
        if are_tight_on(numbers, &found) {
            return Ok(Some(found));
        }
    }
    Ok(None)
}

// The same of a search of the square whose cells were read as these numbers.
fn found_in<V: Copy>(
    alloc: Global,
    square: &Square<V>,
    numbers: &Numbers,
) -> Result<Option<Found>, NoMemory> {
    let mut search = Search::of_numbers(alloc, square, numbers)?;
    let found = tight_found(alloc, numbers, &mut search);
    drop(search);
    found
}

// The phases and the assignment of what was found.
fn guess_found(alloc: Global, found: Found) -> Result<Guess<u64>, NoMemory> {
    let duals = Duals::of(found.columns, found.falls, found.rises);
    let guess = guess_of(alloc, &duals);
    drop(duals);
    guess
}

// Phases of plain sums and an assignment of least sum of the numbers as which cells are read;
// `None` where none is guessed. The error is want of memory.
pub(crate) fn plain_guess<R: Reading>(
    alloc: Global,
    square: &Square<R::Cell>,
    reading: &R,
) -> Result<Option<Guess<u64>>, NoMemory> {
    let numbers = numbers_of(alloc, square, reading)?;
    let found = found_in(alloc, square, &numbers);
    drop(numbers);
    match found? {
        Some(found) => Ok(Some(guess_found(alloc, found)?)),
        None => Ok(None),
    }
}
