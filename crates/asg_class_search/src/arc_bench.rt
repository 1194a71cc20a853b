//! What the solver of arcs keeps from row to row, with all its memory.

use crate::arcs::Arcs;
use asg_dual_numbers::{Heap, Lists, NONE, Ranked, put, set};

// A column at a distance.
#[derive(Clone, Copy)]
pub(crate) struct Entry {
    pub distance: i64,
    pub column: usize,
}

impl Ranked for Entry {
    #[inline]
    fn is_before(self, other: Entry) -> bool {
        self.distance < other.distance
    }
}

// The columns of rows so far, of each row its cell in its column, and the row of each column.
#[derive(Drop)]
pub(crate) struct ArcRows {
    pub column_of: Vec<u32>,
    pub cell_of: Vec<i64>,
    pub row_of: Vec<u32>,
}

// A tree of shortest paths.
#[derive(Drop)]
pub(crate) struct ArcTree {
    // Of each column the shortest distance so far, and the row and the cell that it is reached by.
    pub keys: Vec<i64>,
    pub came: Vec<u32>,
    pub came_by: Vec<i64>,
    // The columns that were reached, in order.
    pub touched: Vec<u32>,
    pub touches: usize,
    // Columns that are reached and that rows have.
    pub heap: Heap<Entry>,
    // The nearest free column that was reached, and its distance.
    pub end: u32,
    pub bound: i64,
}

// The columns that are done in order, how many they are, and the distance of each that is.
#[derive(Drop)]
pub(crate) struct ArcDone {
    pub columns: Vec<u32>,
    pub count: usize,
    pub reached: Vec<i64>,
}

// The columns of rows so far, the dual variable of each column, and room for searches.
#[derive(Drop)]
pub(crate) struct ArcBench {
    pub duals: Vec<i64>,
    pub rows: ArcRows,
    pub tree: ArcTree,
    pub done: ArcDone,
    pub waiting: Vec<u32>,
    pub delayed: Vec<u32>,
}

impl ArcTree {
    fn make(lists: &mut Lists, side: usize, room: usize) -> ArcTree {
        ArcTree {
            keys: lists.of(i64::MAX, side),
            came: lists.of(NONE, side),
            came_by: lists.of(0, side),
            touched: lists.of(NONE, side),
            touches: 0,
            heap: Heap::of(lists.room(room)),
            end: NONE,
            bound: i64::MAX,
        }
    }
}

impl ArcRows {
    // Gives a row a column, in which it has this cell.
    pub(crate) fn pair(&mut self, row: u32, column: u32, cell: i64) {
        put(self.column_of.as_mut_slice(), row as usize, column);
        set(self.cell_of.as_mut_slice(), row as usize, cell);
        put(self.row_of.as_mut_slice(), column as usize, row);
    }
}

impl ArcBench {
    // A bench over so many columns; no row has one.
    pub(crate) fn make(lists: &mut Lists, arcs: &Arcs, side: usize) -> ArcBench {
        let rows = arcs.rows();
        ArcBench {
            duals: lists.of(0, side),
            rows: ArcRows {
                column_of: lists.of(NONE, rows),
                cell_of: lists.of(0, rows),
                row_of: lists.of(NONE, side),
            },
            tree: ArcTree::make(lists, side, arcs.count()),
            done: ArcDone {
                columns: lists.of(NONE, side),
                count: 0,
                reached: lists.of(0, side),
            },
            waiting: lists.of(0, rows),
            delayed: lists.of(0, rows),
        }
    }
}
