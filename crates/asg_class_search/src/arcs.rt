//! The present cells of few-celled squares, row by row.

use crate::NoMemory;
use crate::classes::Classes;
use asg_dual_numbers::{Lists, NONE, Sums, amount, at, name};
use std::alloc::Global;

// Of so many cells of the counted rows at most one is present, for lists of arcs to serve.
const SPARSE: usize = 8;

// A present cell of a row: its column and its value.
#[derive(Clone, Copy)]
pub(crate) struct Arc {
    pub column: u32,
    pub cell: i64,
}

// A cell of no column.
#[inline]
pub(crate) fn no_arc() -> Arc {
    Arc {
        column: NONE,
        cell: 0,
    }
}

/// The present cells of counted rows: the place of the first one of each row, and behind the last
/// row the number of all; of each its column and its value.
#[derive(Drop)]
pub struct Arcs {
    starts: Vec<u32>,
    list: Vec<Arc>,
}

impl Arcs {
    /// No arcs, with room for so many, of so many rows. The error is want of memory.
    pub fn none(alloc: Global, rows: usize, count: usize) -> Result<Arcs, NoMemory> {
        let mut starts = Vec::with_capacity(alloc, rows.saturating_add(1))?;
        starts.push(0)?;
        Ok(Arcs {
            starts,
            list: Vec::with_capacity(alloc, count)?,
        })
    }

    /// One more arc of the row that is not ended: its column, and its value, below 2^62. The error
    /// is want of memory.
    #[inline]
    pub fn push(&mut self, column: u32, cell: i64) -> Result<(), NoMemory> {
        self.list.push(Arc { column, cell })?;
        Ok(())
    }

    /// Ends a row; what is pushed from here on is of the next one. The error is want of memory.
    pub fn end_row(&mut self) -> Result<(), NoMemory> {
        self.starts.push(name(self.list.len()))?;
        Ok(())
    }

    // How many rows are ended.
    pub(crate) fn rows(&self) -> usize {
        self.starts.len().saturating_sub(1)
    }

    // How many arcs there are.
    pub(crate) fn count(&self) -> usize {
        self.list.len()
    }

    // The arcs of a row.
    #[inline]
    pub(crate) fn of_row(&self, row: u32) -> &[Arc] {
        let all = self.list.as_slice();
        let end = at(self.starts.as_slice(), (row as usize).wrapping_add(1)) as usize;
        let end = end.min(all.len());
        let first = (at(self.starts.as_slice(), row as usize) as usize).min(end);
        &all[first..end]
    }
}

// How many cells of a row are present.
fn count_row(sums: &Sums<'_>, row: u32) -> usize {
    let mut count = 0usize;
    for word in sums.row_words(row) {
        count = count.saturating_add(word.count_ones() as usize);
    }
    count
}

// How many cells of the counted rows are present.
fn count_all(sums: &Sums<'_>, rows: &[u32]) -> usize {
    let mut count = 0usize;
    for row in rows {
        count = count.saturating_add(count_row(sums, *row));
    }
    count
}

// Lists the present cells of a row.
fn list_row(lists: &mut Lists, list: &mut Vec<Arc>, sums: &Sums<'_>, row: u32) {
    let values = sums.row_values(row);
    let words = sums.row_words(row);
    for number in 0..words.len() {
        let mut rest = words[number];
        for _ in 0..64 {
            if rest == 0 {
                break;
            }
            let place = number
                .wrapping_mul(64)
                .wrapping_add(rest.trailing_zeros() as usize);
            let cell = (amount(values, place) % (1 << 62)) as i64;
            let column = name(place);
            lists.push(list, Arc { column, cell });
            rest &= rest.wrapping_sub(1);
        }
    }
}

/// The present cells of the counted rows, where they are few and each column is a class of its own;
/// `None` otherwise.
pub fn arcs_of(lists: &mut Lists, sums: &Sums<'_>, classes: &Classes) -> Option<Arcs> {
    if !classes.is_plain || classes.outside > 0 {
        return None;
    }
    let rows = classes.rows.as_slice();
    let count = count_all(sums, rows);
    if count > rows.len().saturating_mul(classes.firsts.len()) / SPARSE {
        return None;
    }
    let mut starts = lists.room(rows.len().saturating_add(1));
    let mut list = lists.room(count);
    lists.push(&mut starts, 0);
    for row in rows {
        list_row(lists, &mut list, sums, *row);
        lists.push(&mut starts, name(list.len()));
    }
    Some(Arcs { starts, list })
}
