//! Dual variables of the square of an instance, from what a search of its costs found. Nothing here
//! is tested.

use crate::NoMemory;
use asg_dual_numbers::{amount, at};
use asg_duals::{Duals, entered};
use asg_model::{Instance, Objective};
use std::alloc::Global;

// By how much a row may fall that has its cell in a column: by what the cost enters as, with what
// the column rises by.
fn fall_of(objective: Objective, inst: &Instance, rises: &[u64], row: u32, column: u32) -> u64 {
    let Some(cost) = inst.live(row, column) else {
        return 0;
    };
    let rise = amount(rises, column as usize);
    entered(objective, cost.a).wrapping_add(rise)
}

// By how much each row of the instance may fall, 0 where it has no column.
fn row_falls(
    alloc: Global,
    objective: Objective,
    inst: &Instance,
    columns: &[u32],
    rises: &[u64],
) -> Result<Vec<u64>, NoMemory> {
    let count = inst.rows().len() as u32;
    let mut falls = Vec::with_capacity(alloc, count as usize)?;
    for row in 0..count {
        let column = at(columns, row as usize);
        falls.push(fall_of(objective, inst, rises, row, column))?;
    }
    Ok(falls)
}

fn greatest_of(amounts: &[u64]) -> u64 {
    let mut greatest = 0;
    for place in 0..amounts.len() {
        greatest = greatest.max(amounts[place]);
    }
    greatest
}

// By how much each column of the square may rise: a copy as much as its column, any other by so
// much.
fn square_rises(
    alloc: Global,
    inst: &Instance,
    rises: &[u64],
    other: u64,
    side: usize,
) -> Result<Vec<u64>, NoMemory> {
    let columns = inst.columns();
    let mut wide = Vec::with_capacity(alloc, side)?;
    for column in 0..columns.len() {
        let rise = amount(rises, column);
        for _ in 0..columns[column].cap {
            wide.push(rise)?;
        }
    }
    for _ in wide.len()..side {
        wide.push(other)?;
    }
    Ok(wide)
}

// The columns of a square that no row has yet.
#[derive(Drop)]
struct FreeColumns {
    // For each column of the instance the first of its copies that no row has.
    next: Vec<u32>,
    // For each column of the instance the place behind its copies.
    ends: Vec<u32>,
    // The first column that is a copy of none and that no row has.
    extra: u32,
}

impl FreeColumns {
    // All columns of the square of an instance.
    fn all(alloc: Global, inst: &Instance) -> Result<FreeColumns, NoMemory> {
        let columns = inst.columns();
        let mut next = Vec::with_capacity(alloc, columns.len())?;
        let mut ends = Vec::with_capacity(alloc, columns.len())?;
        let mut extra = 0u32;
        for column in 0..columns.len() {
            next.push(extra)?;
            extra = extra.wrapping_add(columns[column].cap);
            ends.push(extra)?;
        }
        Ok(FreeColumns { next, ends, extra })
    }

    // A copy of a column of the instance, and where that has none that is free, a column that is a
    // copy of none.
    fn take(&mut self, column: usize) -> u32 {
        if column < self.next.len() && column < self.ends.len() {
            let copy = self.next[column];
            if copy < self.ends[column] {
                self.next[column] = copy.wrapping_add(1);
                return copy;
            }
        }
        let extra = self.extra;
        self.extra = extra.wrapping_add(1);
        extra
    }

    // Gives rows behind the others the copies that are left, up to so many rows in all.
    fn share(&self, columns: &mut Vec<u32>, side: usize) -> Result<(), NoMemory> {
        for column in 0..self.next.len() {
            for copy in self.next[column]..at(self.ends.as_slice(), column) {
                if columns.len() < side {
                    columns.push(copy)?;
                }
            }
        }
        Ok(())
    }
}

// The column of each row of the square: of the instance's rows a copy of their column or one that
// is a copy of none, of the others the copies that are left.
fn square_columns(
    alloc: Global,
    inst: &Instance,
    columns: &[u32],
    side: usize,
) -> Result<Vec<u32>, NoMemory> {
    let mut free = FreeColumns::all(alloc, inst)?;
    let mut own = Vec::with_capacity(alloc, side)?;
    for row in 0..columns.len() {
        own.push(free.take(columns[row] as usize))?;
    }
    free.share(&mut own, side)?;
    Ok(own)
}

// By how much each row of the square may fall: a row that has no cell of the instance by what its
// column rises by.
fn square_falls(
    alloc: Global,
    falls: &[u64],
    columns: &[u32],
    rises: &[u64],
) -> Result<Vec<u64>, NoMemory> {
    let mut all = Vec::with_capacity(alloc, columns.len())?;
    for row in 0..columns.len() {
        let fall = amount(falls, row);
        let rise = amount(rises, columns[row] as usize);
        all.push(fall.max(rise))?;
    }
    Ok(all)
}

/// The dual variables of the square of an instance by columns of its rows and rises of its columns.
/// Its columns that are copies of none rise by as much as the row that falls most. Nothing is
/// tested. The error is want of memory.
pub(crate) fn duals_of(
    alloc: Global,
    objective: Objective,
    inst: &Instance,
    columns: &[u32],
    rises: &[u64],
) -> Result<Duals, NoMemory> {
    let side = inst.side() as usize;
    let falls = row_falls(alloc, objective, inst, columns, rises)?;
    let most = greatest_of(falls.as_slice());
    let rises = square_rises(alloc, inst, rises, most, side)?;
    let columns = square_columns(alloc, inst, columns, side)?;
    let falls = square_falls(
        alloc,
        falls.as_slice(),
        columns.as_slice(),
        rises.as_slice(),
    )?;
    Ok(Duals::of(columns, falls, rises))
}
