//! The rows of an instance's own table of costs, by grades. Nothing here is tested.

use crate::NoMemory;
use crate::bounds::Bound;
use crate::grades::NO_GRADE;
use crate::places::put_bit;
use crate::row_keys::{Keys, grade_of};
use asg_dual_numbers::Lists;
use asg_model::{Instance, Objective, RowRoom};
use std::alloc::Global;

/// How the costs of an instance are read, and in which of its rows and columns.
#[derive(Drop)]
pub(crate) struct TableRows {
    pub(crate) keys: Keys,
    /// The places of the active rows.
    pub(crate) active: Vec<u32>,
    /// The open columns, by a bit each.
    pub(crate) open: Vec<u64>,
    // The least key that is read in each column, that of no cell where it is closed.
    floors: Vec<i64>,
    // How many rows the open columns hold.
    room: u64,
}

// The places of the active rows.
fn active_rows(alloc: Global, inst: &Instance) -> Result<Vec<u32>, NoMemory> {
    let rows = inst.rows();
    let mut active = Vec::with_capacity(alloc, rows.len())?;
    for place in 0..rows.len() as u32 {
        if rows[place as usize].active {
            active.push(place)?;
        }
    }
    Ok(active)
}

// Puts the least of all keys at each column whose bit is set in both lists.
fn put_floors(floors: &mut [i64], words: &[u64], others: &[u64]) {
    let count = words.len().min(others.len()).saturating_mul(64);
    for column in 0..floors.len().min(count) {
        if (words[column / 64] & others[column / 64]) >> (column % 64) & 1 == 1 {
            floors[column] = i64::MIN;
        }
    }
}

// Sets the bits of the open columns, and tells how many rows they hold.
fn put_open(open: &mut [u64], inst: &Instance) -> u64 {
    let columns = inst.columns();
    let mut room = 0u64;
    for place in 0..columns.len() as u32 {
        let column = columns[place as usize];
        if column.usable {
            put_bit(open, place, true);
            room = room.saturating_add(u64::from(column.cap));
        }
    }
    room
}

// An active row, and its least grade.
#[derive(Clone, Copy)]
struct Dearest {
    row: u32,
    grade: u32,
}

// The grade of the greatest of the keys of columns with the lowest floor.
fn greatest_grade(leasts: &[i64], floors: &[i64]) -> u32 {
    let mut greatest = i64::MIN;
    for column in 0..leasts.len().min(floors.len()) {
        if floors[column] == i64::MIN {
            greatest = greatest.max(leasts[column]);
        }
    }
    grade_of(greatest)
}

// These rows with a grade. The error is want of memory.
fn bound_by(alloc: Global, grade: u32, rows: &[u32]) -> Result<Bound, NoMemory> {
    let rows = Vec::from_slice(alloc, rows)?;
    Ok(Bound { grade, rows })
}

// The least grade of the cells of some rows, whose keys are no less than the columns' floors.
fn least_grade(keys: Keys, inst: &Instance, rows: &[u32], floors: &[i64]) -> u32 {
    let mut room = RowRoom::new();
    let mut least = NO_GRADE;
    for row in rows {
        if let Some(parts) = inst.row_parts(*row, &mut room) {
            least = least.min(keys.least_grade(parts.firsts, floors));
        }
    }
    least
}

impl TableRows {
    /// Of this instance, for this objective. The error is want of memory.
    pub(crate) fn of(
        alloc: Global,
        objective: Objective,
        inst: &Instance,
    ) -> Result<TableRows, NoMemory> {
        let columns = inst.columns().len();
        let active = active_rows(alloc, inst)?;
        let mut lists = Lists::new(alloc);
        let mut open = lists.of(0, columns.div_ceil(64));
        let room = put_open(&mut open, inst);
        let mut floors = lists.of(i64::MAX, columns);
        put_floors(&mut floors, open.as_slice(), open.as_slice());
        lists.whole(TableRows {
            keys: Keys::of(objective),
            active,
            open,
            floors,
            room,
        })
    }

    // The active row whose least grade is the greatest, with that; lowers the keys of columns to
    // those of their costs.
    fn dearest_row(&self, inst: &Instance, leasts: &mut [i64]) -> Dearest {
        let mut room = RowRoom::new();
        let mut dearest = Dearest { row: 0, grade: 0 };
        for place in 0..self.active.len() {
            let row = self.active[place];
            let Some(parts) = inst.row_parts(row, &mut room) else {
                continue;
            };
            self.keys.lower(leasts, parts.firsts);
            let grade = self.keys.least_grade(parts.firsts, self.floors.as_slice());
            if grade > dearest.grade {
                dearest = Dearest { row, grade };
            }
        }
        dearest
    }

    /// A grade that no assignment of all active rows can do without, and rows that show it: the
    /// greatest of the rows' least grades and, where each column is needed, of the columns' too.
    /// The error is want of memory.
    pub(crate) fn first_bound(&self, alloc: Global, inst: &Instance) -> Result<Bound, NoMemory> {
        let are_needed = self.active.len() as u64 == self.room;
        let count = if are_needed { self.floors.len() } else { 0 };
        let mut leasts = vec![in alloc; i64::MAX; count]?;
        let dearest = self.dearest_row(inst, &mut leasts);
        let grade = greatest_grade(leasts.as_slice(), self.floors.as_slice());
        drop(leasts);
        if !are_needed || grade <= dearest.grade {
            return bound_by(alloc, dearest.grade, &[dearest.row]);
        }
        bound_by(alloc, grade, self.active.as_slice())
    }

    /// The least grade of the cells of some rows in the open columns whose bit is set, that of no
    /// cell where they have none. The error is want of memory.
    pub(crate) fn next_grade(
        &self,
        alloc: Global,
        inst: &Instance,
        rows: &[u32],
        words: &[u64],
    ) -> Result<u32, NoMemory> {
        let mut floors = vec![in alloc; i64::MAX; self.floors.len()]?;
        put_floors(&mut floors, words, self.open.as_slice());
        let least = least_grade(self.keys, inst, rows, floors.as_slice());
        drop(floors);
        Ok(least)
    }
}
