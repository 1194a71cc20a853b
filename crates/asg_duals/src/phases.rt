//! Phases by what rows fall and columns rise in all.

use crate::NoMemory;
use asg_dual_numbers::{Lists, name, put};
use asg_proof::Phase;
use std::alloc::Global;

// A list without 0 at its start, and without what follows an equal amount.
fn changes_of(alloc: Global, amounts: &[u64]) -> Result<Vec<u64>, NoMemory> {
    let mut changes = Vec::with_capacity(alloc, amounts.len())?;
    let mut last = 0;
    for amount in amounts {
        if *amount != last {
            last = *amount;
            changes.push(last)?;
        }
    }
    Ok(changes)
}

// The different amounts above 0 of a list, the least first.
fn levels_of(alloc: Global, amounts: &[u64]) -> Result<Vec<u64>, NoMemory> {
    let mut ordered = changes_of(alloc, amounts)?;
    ordered.as_mut_slice().sort_unstable();
    changes_of(alloc, ordered.as_slice())
}

// The step at which a row enters that falls by an amount, or a column leaves that rises by it: the
// place of the amount among the levels, counted from the greatest, and the number of steps for 0.
fn mark_of(levels: &[u64], amount: u64) -> u32 {
    if amount == 0 {
        return name(levels.len());
    }
    let place = match levels.binary_search(&amount) {
        Ok(place) => place,
        Err(place) => place,
    };
    name(levels.len().saturating_sub(place).saturating_sub(1))
}

// The mark of an amount, which is looked for only where the amount is another than the last one.
#[inline]
fn next_mark(levels: &[u64], amount: u64, last: &mut (u64, u32)) -> u32 {
    if amount != last.0 {
        *last = (amount, mark_of(levels, amount));
    }
    last.1
}

// The steps from each level down to the next, the greatest first.
fn steps_of(alloc: Global, levels: &[u64]) -> Result<Vec<u64>, NoMemory> {
    let count = levels.len();
    let mut steps = Vec::with_capacity(alloc, count)?;
    for back in 0..count {
        let place = count - 1 - back;
        let low = if place > 0 { levels[place - 1] } else { 0 };
        steps.push(levels[place].saturating_sub(low))?;
    }
    Ok(steps)
}

// The phase in which each row falls by its amount and the column of each row rises by its amount.
// It has a step for each different amount above 0 by which a row falls. The error is want of
// memory.
pub(crate) fn phase_of(
    alloc: Global,
    columns: &[u32],
    falls: &[u64],
    rises: &[u64],
) -> Result<Phase<u64>, NoMemory> {
    let levels = levels_of(alloc, falls)?;
    let steps = steps_of(alloc, levels.as_slice())?;
    let mut lists = Lists::new(alloc);
    let mut enters = lists.of(0, columns.len());
    let mut leaves = lists.of(0, columns.len());
    let mut fall = (0, name(levels.len()));
    let mut rise = fall;
    for row in 0..columns.len().min(falls.len()).min(rises.len()) {
        let enter = next_mark(levels.as_slice(), falls[row], &mut fall);
        let leave = next_mark(levels.as_slice(), rises[row], &mut rise);
        put(enters.as_mut_slice(), row, enter);
        put(leaves.as_mut_slice(), columns[row] as usize, leave);
    }
    drop(levels);
    lists.whole(Phase::of(steps, enters, leaves))
}
