//! Tables of costs that are searched as they stand, without a square.

use crate::NoMemory;
use crate::costs::{end_of, put_numbers};
use crate::solving::{Task, greatest_dual, solve};
use asg_class_search::Bench;
use asg_dual_numbers::{Lists, Number, Table, padded, value};
use std::alloc::Global;

// How far costs may lie from the first one of the table to count as near.
const NEAR: i64 = 1 << 27;

// By less than this the costs of a row differ, so that numbers of 32 bits serve.
const MOST_WIDTH: u64 = 1 << 30;

/// What the search of a table finds: nothing of it is tested.
#[derive(Drop)]
pub struct Lead {
    /// The column of each row; at a row that stays out a number past all columns.
    pub columns: Vec<u32>,
    /// By how much each column may rise.
    pub rises: Vec<u32>,
}

/// A table of costs, row by row, as numbers of 32 bits: where all are near its first one, those of
/// all rows begin there, else those of a row at its least cost; where the greatest sum is searched
/// for, they go down.
#[derive(Drop)]
pub struct CostTable {
    rows: usize,
    table: Table<i32>,
    line: Vec<i32>,
    first: Option<i64>,
    are_near: bool,
    is_max: bool,
}

// Lets each column rise by as much as its dual variable is below the greatest.
fn raise(rises: &mut [u32], duals: &[i32], greatest: i64) {
    for column in 0..rises.len() {
        let dual = value(duals, column).to_wide();
        let rise = greatest.wrapping_sub(dual).max(0) as u64 % (1 << 32);
        rises[column] = rise as u32;
    }
}

// Whether each column has room for one row.
fn are_single(rooms: &[u32]) -> bool {
    for place in 0..rooms.len() {
        if rooms[place] != 1 {
            return false;
        }
    }
    true
}

impl CostTable {
    /// A table for so many rows and columns, none of which stands in it yet; whether it is for the
    /// greatest sum, else for the least. The error is want of memory.
    pub fn make(
        alloc: Global,
        rows: u32,
        columns: u32,
        is_max: bool,
    ) -> Result<CostTable, NoMemory> {
        let side = columns as usize;
        let wide = padded(side);
        let mut lists = Lists::new(alloc);
        let cells = lists.room((rows as usize).saturating_mul(wide));
        let line = lists.of(i32::greatest(), wide);
        lists.whole(CostTable {
            rows: 0,
            table: Table { side, wide, cells },
            line,
            first: None,
            are_near: true,
            is_max,
        })
    }

    // Writes the numbers of a row, which begin near the first cost of all, and tells their bits.
    fn put_near(&mut self, costs: &[i64]) -> u64 {
        if costs.is_empty() {
            return 0;
        }
        let first = self.first.unwrap_or(costs[0]);
        self.first = Some(first);
        let base = if self.is_max {
            first.wrapping_add(NEAR)
        } else {
            first.wrapping_sub(NEAR)
        };
        put_numbers(self.line.as_mut_slice(), costs, base, self.is_max)
    }

    // The same, where they begin at its least or its greatest cost.
    fn put_far(&mut self, costs: &[i64]) -> u64 {
        let base = end_of(costs, self.is_max);
        put_numbers(self.line.as_mut_slice(), costs, base, self.is_max)
    }

    /// Takes a further row of costs. Whether it could: there is one for each column, and they
    /// differ by little enough. The error is want of memory.
    pub fn push(&mut self, costs: &[i64]) -> Result<bool, NoMemory> {
        if costs.len() != self.table.side {
            return Ok(false);
        }
        if self.are_near {
            self.are_near = self.put_near(costs) >> 28 == 0;
        }
        if !self.are_near && self.put_far(costs) >= MOST_WIDTH {
            return Ok(false);
        }
        self.table.cells.extend_from_slice(self.line.as_slice())?;
        self.rows = self.rows.saturating_add(1);
        Ok(true)
    }

    // What a bench came to.
    fn lead_on(&self, lists: &mut Lists, bench: &Bench<i32>, task: Task) -> Lead {
        let side = self.table.side;
        let mut rises = lists.of(0, side);
        let duals = bench.duals.as_slice();
        raise(&mut rises, duals, greatest_dual(duals, side, task));
        Lead {
            columns: lists.copy_of(bench.rows.class_of.as_slice()),
            rises,
        }
    }

    // What a task comes to, where columns have these rooms.
    fn search_by(&self, lists: &mut Lists, rooms: Vec<u32>, task: Task) -> Option<Lead> {
        let mut bench = Bench::make(lists, &self.table, self.rows, rooms);
        let lead = if solve(lists, &mut bench, &self.table, task) {
            Some(self.lead_on(lists, &bench, task))
        } else {
            None
        };
        drop(bench);
        lead
    }

    // What is asked of all rows where each is to have a column of its own.
    fn apart(&self) -> Task {
        if self.rows == self.table.side {
            Task::Whole
        } else {
            Task::Few
        }
    }

    /// Columns of their own for all rows, of least or greatest sum, and by how much columns may rise,
    /// as [`CostTable::search`] finds them. The error is want of memory.
    pub fn search_apart(&self, alloc: Global) -> Result<Option<Lead>, NoMemory> {
        if self.rows > self.table.side {
            return Ok(None);
        }
        let mut lists = Lists::new(alloc);
        let rooms = lists.of(1, self.table.side);
        let lead = self.search_by(&mut lists, rooms, self.apart());
        lists.whole(lead)
    }

    /// Columns for all rows but so many, of which each takes at most as many rows as its room, of
    /// least or greatest sum, and by how much columns may rise, so that the cells of no row are
    /// less than its own, or greater, and, where rows stay out, no cell of these is less than any
    /// that is chosen, or greater; `None` where none were found. No clause says that it is so. The
    /// error is want of memory.
    ///
    /// The method is that of [`Search::next`]. Where rows stay out and the costs are far from one
    /// another, nothing is found.
    ///
    /// [`Search::next`]: crate::Search::next
    pub fn search(
        &self,
        alloc: Global,
        rooms: &[u32],
        outside: usize,
    ) -> Result<Option<Lead>, NoMemory> {
        if rooms.len() != self.table.side || outside > 0 && !self.are_near {
            return Ok(None);
        }
        if outside == 0 && are_single(rooms) {
            return self.search_apart(alloc);
        }
        let mut lists = Lists::new(alloc);
        let rooms = lists.copy_of(rooms);
        let lead = self.search_by(&mut lists, rooms, Task::AllBut(outside));
        lists.whole(lead)
    }
}
