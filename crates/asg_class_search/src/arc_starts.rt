//! Column reduction and augmenting row reduction over lists of arcs [Jonker and Volgenant 1987].

use crate::arc_bench::ArcRows;
use crate::arcs::{Arc, Arcs, no_arc};
use crate::rows::wait_again;
use asg_dual_numbers::{NONE, Served, at, name, put, set, value};

// The most row scans of a pass for each row.
const MOST_SCANS: usize = 3;

// Notes the least cell of each column as its key, with its row.
fn least_cells(keys: &mut [i64], came: &mut [u32], arcs: &Arcs) {
    for row in 0..arcs.rows() {
        let row = name(row);
        for arc in arcs.of_row(row) {
            let column = arc.column as usize;
            if arc.cell < value(&*keys, column) {
                set(keys, column, arc.cell);
                put(came, column, row);
            }
        }
    }
}

// The greatest key of a column that was reached, 0 where none was.
fn greatest_key(keys: &[i64]) -> i64 {
    let mut greatest = 0;
    for column in 0..keys.len() {
        if keys[column] < i64::MAX && keys[column] > greatest {
            greatest = keys[column];
        }
    }
    greatest
}

// Column reduction where there are as many rows as columns: the dual variable of each is its least
// cell, less the greatest of these, and a row that has the least cell of columns gets one of them.
pub(crate) fn reduce_columns(
    duals: &mut [i64],
    rows: &mut ArcRows,
    keys: &mut [i64],
    came: &mut [u32],
    arcs: &Arcs,
) {
    least_cells(keys, came, arcs);
    let greatest = greatest_key(&*keys);
    for column in 0..keys.len() {
        let key = value(&*keys, column);
        if key < i64::MAX {
            set(duals, column, key.wrapping_sub(greatest));
            let row = at(&*came, column);
            if at(rows.column_of.as_slice(), row as usize) == NONE {
                rows.pair(row, name(column), key);
            }
            set(keys, column, i64::MAX);
        }
    }
}

// The least of a row's cells less the dual variables of columns, and the next, with their arcs.
#[derive(Clone, Copy)]
struct TwoArcs {
    least: i64,
    next: i64,
    arc: Arc,
    next_arc: Arc,
}

// The two least arcs of a row.
fn two_least(arcs: &[Arc], duals: &[i64]) -> TwoArcs {
    let mut least = i64::MAX;
    let mut next = i64::MAX;
    let mut place = arcs.len();
    let mut next_place = arcs.len();
    for number in 0..arcs.len() {
        let arc = arcs[number];
        let reduced = arc.cell.wrapping_sub(value(duals, arc.column as usize));
        if reduced < next {
            if reduced < least {
                next = least;
                next_place = place;
                least = reduced;
                place = number;
            } else {
                next = reduced;
                next_place = number;
            }
        }
    }
    TwoArcs {
        least,
        next,
        arc: arc_at(arcs, place),
        next_arc: arc_at(arcs, next_place),
    }
}

// The arc at a place, one of no column outside.
#[inline]
fn arc_at(arcs: &[Arc], place: usize) -> Arc {
    if place < arcs.len() {
        arcs[place]
    } else {
        no_arc()
    }
}

// Gives a row a column by an arc, and says which row lost it.
fn take(rows: &mut ArcRows, row: u32, arc: Arc, at_once: bool) -> Served {
    if arc.column == NONE {
        return Served::Tied(row);
    }
    let displaced = at(rows.row_of.as_slice(), arc.column as usize);
    rows.pair(row, arc.column, arc.cell);
    if displaced == NONE {
        return Served::Alone;
    }
    put(rows.column_of.as_mut_slice(), displaced as usize, NONE);
    if at_once {
        Served::Ahead(displaced)
    } else {
        Served::Tied(displaced)
    }
}

// Gives a waiting row its least column, which falls until the next one is as near, or the next
// column where these are equally near and a row has the first.
fn serve(duals: &mut [i64], rows: &mut ArcRows, arcs: &Arcs, row: u32) -> Served {
    let two = two_least(arcs.of_row(row), &*duals);
    let column = two.arc.column as usize;
    let is_nearer = two.least < two.next;
    if is_nearer && two.next < i64::MAX {
        let by = two.next.wrapping_sub(two.least);
        set(duals, column, value(&*duals, column).wrapping_sub(by));
        return take(rows, row, two.arc, true);
    }
    let arc = if at(rows.row_of.as_slice(), column) == NONE {
        two.arc
    } else if is_nearer {
        no_arc()
    } else {
        two.next_arc
    };
    take(rows, row, arc, false)
}

// Augmenting row reduction: one pass over the waiting rows; how many wait afterwards.
pub(crate) fn reduce_rows(
    duals: &mut [i64],
    rows: &mut ArcRows,
    waiting: &mut [u32],
    delayed: &mut [u32],
    arcs: &Arcs,
    count: usize,
) -> usize {
    let mut later = 0usize;
    let mut next = 0usize;
    for _ in 0..waiting.len().saturating_mul(MOST_SCANS) {
        if next >= count {
            break;
        }
        let row = at(&*waiting, next);
        match serve(duals, rows, arcs, row) {
            Served::Alone => next = next.saturating_add(1),
            Served::Ahead(displaced) => put(waiting, next, displaced),
            Served::Tied(waits) => {
                next = next.saturating_add(1);
                put(delayed, later, waits);
                later = later.saturating_add(1);
            }
        }
    }
    wait_again(waiting, delayed, next, count, later)
}
