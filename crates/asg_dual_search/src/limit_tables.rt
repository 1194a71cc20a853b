//! Tables whose greatest chosen number is searched to be least, without a square.

use crate::NoMemory;
use crate::bounds::{Bound, bound_of};
use crate::costs::put_numbers;
use crate::limit_paths::MISSING;
use crate::thresholds::{Threshold, threshold_by};
use asg_dual_numbers::{Lists, NO_NUMBER, Number, Table, padded};
use std::alloc::Global;

/// A square table of costs, row by row, as numbers of 32 bits from a base on, with the least of
/// each row and of each column.
#[derive(Drop)]
pub struct LimitTable {
    table: Table<i32>,
    line: Vec<i32>,
    base: i64,
    row_leasts: Vec<i32>,
    column_leasts: Vec<i32>,
}

// The least of some numbers.
fn least_of(numbers: &[i32]) -> i32 {
    let mut least = i32::MAX;
    for place in 0..numbers.len() {
        least = least.min(numbers[place]);
    }
    least
}

// Lowers each number to that of another list.
fn lower(leasts: &mut [i32], numbers: &[i32]) {
    for place in 0..leasts.len().min(numbers.len()) {
        leasts[place] = leasts[place].min(numbers[place]);
    }
}

// Writes numbers, one that is too great for each that is missing, and tells the greatest that is
// there.
fn put_known(line: &mut [i32], numbers: &[u64]) -> u64 {
    let mut greatest = 0u64;
    for column in 0..numbers.len().min(line.len()) {
        let number = numbers[column];
        let is_there = number != NO_NUMBER;
        greatest = greatest.max(if is_there { number } else { 0 });
        line[column] = i32::of(if is_there { number } else { MISSING });
    }
    greatest
}

impl LimitTable {
    /// A table for so many rows and columns, none of which stands in it yet, whose numbers begin at a
    /// base. The error is want of memory.
    pub fn make(alloc: Global, side: u32, base: i64) -> Result<LimitTable, NoMemory> {
        let side = side as usize;
        let wide = padded(side);
        let mut lists = Lists::new(alloc);
        let cells = lists.room(side.saturating_mul(wide));
        let table = LimitTable {
            table: Table { side, wide, cells },
            line: lists.of(i32::greatest(), wide),
            base,
            row_leasts: lists.room(side),
            column_leasts: lists.of(i32::MAX, side),
        };
        lists.whole(table)
    }

    // Takes the row that was written. The error is want of memory.
    fn take_line(&mut self) -> Result<(), NoMemory> {
        let line = self.line.as_slice();
        self.row_leasts.push(least_of(line))?;
        lower(self.column_leasts.as_mut_slice(), line);
        self.table.cells.extend_from_slice(line)
    }

    /// Takes a further row of costs. Whether it could: there is one for each column, none is below
    /// the base or too great, and a row was missing. The error is want of memory.
    pub fn push(&mut self, costs: &[i64]) -> Result<bool, NoMemory> {
        let side = self.table.side;
        if costs.len() != side || self.row_leasts.len() >= side {
            return Ok(false);
        }
        if put_numbers(self.line.as_mut_slice(), costs, self.base, false) >= MISSING {
            return Ok(false);
        }
        self.take_line()?;
        Ok(true)
    }

    // Takes a further row of numbers, of which some may be missing. Whether it could: none is too
    // great. The error is want of memory.
    pub(crate) fn push_known(&mut self, numbers: &[u64]) -> Result<bool, NoMemory> {
        if put_known(self.line.as_mut_slice(), numbers) >= MISSING {
            return Ok(false);
        }
        self.take_line()?;
        Ok(true)
    }

    /// The greatest of the rows' and the columns' least numbers, as a bound. The error is want of
    /// memory.
    pub fn first_bound(&self, alloc: Global) -> Result<Bound, NoMemory> {
        let mut lists = Lists::new(alloc);
        let rows = self.row_leasts.as_slice();
        let bound = bound_of(&mut lists, rows, self.column_leasts.as_slice());
        lists.whole(bound)
    }

    /// The least limit within which each row has a column of its own, as in
    /// [`threshold_of`](crate::threshold_of); `None` where rows are missing, or none was found. The
    /// error is want of memory.
    pub fn threshold(self, alloc: Global) -> Result<Option<Threshold>, NoMemory> {
        let mut table = self;
        if table.row_leasts.len() < table.table.side {
            return Ok(None);
        }
        let bound = table.first_bound(alloc)?;
        threshold_by(alloc, &mut table.table, bound)
    }
}
