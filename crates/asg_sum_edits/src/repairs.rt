//! Columns for the rows whose cells no longer fit: a guess. Nothing is known of what is found here;
//! it is tested.

use crate::NoMemory;
use crate::founds::Found;
use crate::guesses::Guess;
use crate::paths::{Paths, augment, give, paths_of};
use crate::places::{NONE, name_at, number_at};
use crate::row_tests::number;
use crate::turns::turn_of;
use asg_model::{Instance, Objective, RowRoom};
use std::alloc::Global;

// The numbers of what was found, with no column for any row. The error is want of memory.
fn freed(alloc: Global, found: &Found) -> Result<Guess, NoMemory> {
    let columns = vec![in alloc; NONE; found.falls.len()]?;
    let falls = Vec::from_slice(alloc, found.falls.as_slice())?;
    let rises = Vec::from_slice(alloc, found.rises.as_slice())?;
    Ok(Guess {
        columns,
        falls,
        rises,
    })
}

// Whether a row's cell is there and its cost with the column's rise is the row's fall.
fn is_tight(objective: Objective, inst: &Instance, guess: &Guess, row: u32, column: u32) -> bool {
    match inst.live(row, column) {
        Some(cost) => {
            let rise = number_at(guess.rises.as_slice(), column as usize);
            let fall = number_at(guess.falls.as_slice(), row as usize);
            number(objective, cost).wrapping_add(rise) == fall
        }
        None => false,
    }
}

// Gives each row its column where its cell still fits.
fn give_kept(
    objective: Objective,
    inst: &Instance,
    found: &Found,
    guess: &mut Guess,
    paths: &mut Paths,
) {
    for row in 0..found.choice.len() {
        if let Some(column) = found.choice.get(row)
            && is_tight(objective, inst, guess, row, column)
        {
            give(guess, paths, row, column);
        }
    }
}

// Gives each row that has none a column, and says whether each has one then.
fn augment_all(
    objective: Objective,
    inst: &Instance,
    room: &mut RowRoom,
    guess: &mut Guess,
    paths: &mut Paths,
) -> bool {
    let turn = turn_of(objective);
    let mut row = 0u32;
    for _ in 0..guess.columns.len() {
        if name_at(guess.columns.as_slice(), row as usize) == NONE
            && !augment(inst, turn, room, guess, paths, row)
        {
            return false;
        }
        row = row.wrapping_add(1);
    }
    true
}

/// A guess from what was found before costs changed: rows whose cells still fit keep their columns.
/// `None` where a row gets none. The error is want of memory.
pub(crate) fn repaired(
    alloc: Global,
    objective: Objective,
    inst: &Instance,
    room: &mut RowRoom,
    found: &Found,
) -> Result<Option<Guess>, NoMemory> {
    let mut paths = paths_of(alloc, found.rises.len())?;
    let mut guess = freed(alloc, found)?;
    give_kept(objective, inst, found, &mut guess, &mut paths);
    if augment_all(objective, inst, room, &mut guess, &mut paths) {
        Ok(Some(guess))
    } else {
        Ok(None)
    }
}
