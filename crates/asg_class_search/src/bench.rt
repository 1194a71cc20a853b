//! What the solvers over tables keep from row to row, with all their memory.

use crate::rows::Rows;
use crate::trees::Tree;
use asg_dual_numbers::{Lists, NONE, Number, Table};

// Of each class the least number of the rows that have no class, and its row.
#[derive(Drop)]
pub(crate) struct Leasts<N: Number> {
    pub numbers: Vec<N>,
    pub rows: Vec<u32>,
}

/// The classes of rows so far, the dual variables of classes, and room for searches.
#[derive(Drop)]
pub struct Bench<N: Number> {
    /// The dual variable of each class: a cell is its number less it.
    pub duals: Vec<N>,
    /// The classes of rows.
    pub rows: Rows,
    /// The paths of the last search.
    pub tree: Tree<N>,
    /// The rows without a class.
    pub waiting: Vec<u32>,
    /// Those that wait for the next pass over such rows.
    pub delayed: Vec<u32>,
    pub(crate) leasts: Leasts<N>,
    /// The dual variable of the rows that have no class.
    pub level: N,
    /// How many rows paths went through.
    pub scans: u64,
}

impl<N: Number> Bench<N> {
    /// A bench over a table of so many rows, whose classes have room for so many of them each; no
    /// row has a class.
    pub fn make(lists: &mut Lists, table: &Table<N>, rows: usize, rooms: Vec<u32>) -> Bench<N> {
        let wide = table.wide;
        Bench {
            duals: lists.of(N::zero(), wide),
            rows: Rows::make(lists, rows, wide, rooms),
            tree: Tree::make(lists, wide),
            waiting: lists.of(0, rows),
            delayed: lists.of(0, rows),
            leasts: Leasts {
                numbers: lists.of(N::greatest(), wide),
                rows: lists.of(NONE, wide),
            },
            level: N::zero(),
            scans: 0,
        }
    }
}
