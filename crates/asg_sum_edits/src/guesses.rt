//! Guesses of dual variables.

ghost use Rattle.std.specs.Prelude.{◌≤◌};
ghost use Rattle.asg_model.specs.Limits.{most_side};
ghost use Rattle.asg_model.specs.Shapes.{square_side};

use crate::NoMemory;
use crate::places::{name, number_at};
use crate::row_tests::number;
use asg_duals::{sum_square, tight_duals};
use asg_model::{Instance, Objective};
use asg_table_sums::lead;
use std::alloc::Global;

/// A column for each row, by how much each row may fall, and by how much each column may rise: a
/// guess, of which nothing is known.
#[derive(Drop)]
pub(crate) struct Guess {
    pub columns: Vec<u32>,
    pub falls: Vec<u64>,
    pub rises: Vec<u64>,
}

// By how much each number can sink: where there are more columns than rows, by the least one, which
// all columns have that no row of the instance takes.
fn sinking(rows: usize, numbers: &[u64]) -> u64 {
    if numbers.len() <= rows {
        return 0;
    }
    let mut least = u64::MAX;
    for number in numbers {
        least = least.min(*number);
    }
    least
}

// The first of the numbers, at most so many, each less by so much. The error is want of memory.
fn sunk(alloc: Global, count: usize, numbers: &[u64], by: u64) -> Result<Vec<u64>, NoMemory> {
    let mut sunk = Vec::with_capacity(alloc, count)?;
    for place in 0..count.min(numbers.len()) {
        sunk.push(numbers[place].wrapping_sub(by))?;
    }
    Ok(sunk)
}

// The fall of each row: the number of its cell, with what its column rises by. The error is want of
// memory.
fn falls_of(
    alloc: Global,
    objective: Objective,
    inst: &Instance,
    columns: &[u32],
    rises: &[u64],
) -> Result<Vec<u64>, NoMemory> {
    let mut falls = Vec::with_capacity(alloc, columns.len())?;
    for place in 0..columns.len() {
        let column = columns[place];
        let cell = match inst.live(name(place), column) {
            Some(cost) => number(objective, cost),
            None => 0,
        };
        falls.push(cell.saturating_add(number_at(rises, column as usize)))?;
    }
    Ok(falls)
}

// The numbers in 64 bits. The error is want of memory.
fn widened(alloc: Global, numbers: &[u32]) -> Result<Vec<u64>, NoMemory> {
    let mut widened = Vec::with_capacity(alloc, numbers.len())?;
    for place in 0..numbers.len() {
        widened.push(u64::from(numbers[place]))?;
    }
    Ok(widened)
}

// A first guess, by the costs as they stand; `None` where nothing was found. The error is want of
// memory.
fn guess_by_table(
    alloc: Global,
    objective: Objective,
    inst: &Instance,
) -> Result<Option<Guess>, NoMemory> {
    let Some(found) = lead(alloc, objective, inst)? else {
        return Ok(None);
    };
    let rises = widened(alloc, found.rises.as_slice())?;
    let columns = Vec::from_slice(alloc, found.columns.as_slice())?;
    let falls = falls_of(alloc, objective, inst, columns.as_slice(), rises.as_slice())?;
    Ok(Some(Guess {
        columns,
        falls,
        rises,
    }))
}

// A first guess, by the square of the instance; `None` where nothing was found. The error is want of
// memory.
fn guess_by_square(
    alloc: Global,
    objective: Objective,
    inst: &Instance,
) -> Result<Option<Guess>, NoMemory>
    requires { square_side inst.now ≤ most_side }
{
    let square = sum_square(alloc, objective, inst)?;
    let Some(duals) = tight_duals(alloc, &square)? else {
        return Ok(None);
    };
    let rows = inst.rows().len();
    let by = sinking(rows, duals.rises());
    let columns = Vec::from_slice(alloc, &duals.columns()[..rows.min(duals.columns().len())])?;
    let falls = sunk(alloc, rows, duals.falls(), by)?;
    let rises = sunk(alloc, inst.columns().len(), duals.rises(), by)?;
    Ok(Some(Guess {
        columns,
        falls,
        rises,
    }))
}

/// A first guess, by the costs as they stand where a choice is found by them, else by the square of
/// the instance; `None` where nothing was found. The error is want of memory.
pub(crate) fn first_guess(
    alloc: Global,
    objective: Objective,
    inst: &Instance,
) -> Result<Option<Guess>, NoMemory>
    requires { square_side inst.now ≤ most_side }
{
    match guess_by_table(alloc, objective, inst)? {
        Some(guess) => Ok(Some(guess)),
        None => guess_by_square(alloc, objective, inst),
    }
}
