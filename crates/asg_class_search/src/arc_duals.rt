//! Dual variables of squares with few present cells.

use crate::NoMemory;
use crate::arc_bench::ArcBench;
use crate::arc_paths::solve_arcs;
use crate::arcs::Arcs;
use crate::classes::Classes;
use crate::placings::{Placing, found_by, next_free};
use asg_dual_numbers::{Found, Lists, at, name, put, put_amount};
use std::alloc::Global;

// The cells of rows in their columns.
fn cells_of(lists: &mut Lists, numbers: &[i64]) -> Vec<u64> {
    let mut cells = lists.of(0, numbers.len());
    for row in 0..numbers.len() {
        put_amount(cells.as_mut_slice(), row, numbers[row].max(0) as u64);
    }
    cells
}

// What a bench came to.
fn found_on(lists: &mut Lists, side: u32, classes: &Classes, bench: &ArcBench) -> Found {
    let cells = cells_of(lists, bench.rows.cell_of.as_slice());
    let placing = Placing {
        class_of: bench.rows.column_of.as_slice(),
        cells: cells.as_slice(),
        duals: bench.duals.as_slice(),
        greatest: 0,
        outside: 0,
    };
    let found = found_by(lists, side, classes, &placing);
    drop(cells);
    found
}

/// An assignment of a square of this side with dual variables, by the arcs of its counted rows;
/// `None` where none was found.
pub fn found_by_arcs(
    lists: &mut Lists,
    side: u32,
    classes: &Classes,
    arcs: &Arcs,
) -> Option<Found> {
    let columns = classes.firsts.len();
    if classes.rows.len() > columns {
        return None;
    }
    let mut bench = ArcBench::make(lists, arcs, columns);
    let found = if solve_arcs(&mut bench, arcs) {
        Some(found_on(lists, side, classes, &bench))
    } else {
        None
    };
    drop(bench);
    found
}

/// What a search over arcs comes to.
#[derive(Drop)]
pub enum ArcLead {
    /// The column of each row, and of each column its dual variable, at most 0.
    Found { columns: Vec<u32>, duals: Vec<i64> },
    /// Rows that reach fewer columns than they are.
    Short(Vec<u32>),
}

// The first row that has no column, and the rows whose columns the last search reached.
fn short_rows(lists: &mut Lists, bench: &ArcBench) -> Vec<u32> {
    let first = name(next_free(bench.rows.column_of.as_slice(), 0));
    let mut rows = lists.of(first, bench.done.count.saturating_add(1));
    for place in 0..bench.done.count {
        let column = at(bench.done.columns.as_slice(), place) as usize;
        let row = at(bench.rows.row_of.as_slice(), column);
        put(rows.as_mut_slice(), place.saturating_add(1), row);
    }
    rows
}

/// Columns of rows with dual variables of the columns, of which there are so many, by the arcs of
/// the rows; where not every row gets one, rows that reach too few. Nothing is tested. The error is
/// want of memory.
pub fn lead_by_arcs(alloc: Global, arcs: &Arcs, columns: usize) -> Result<ArcLead, NoMemory> {
    let mut lists = Lists::new(alloc);
    let mut bench = ArcBench::make(&mut lists, arcs, columns);
    let lead = if solve_arcs(&mut bench, arcs) {
        ArcLead::Found {
            columns: lists.copy_of(bench.rows.column_of.as_slice()),
            duals: lists.copy_of(bench.duals.as_slice()),
        }
    } else {
        ArcLead::Short(short_rows(&mut lists, &bench))
    };
    drop(bench);
    lists.whole(lead)
}
