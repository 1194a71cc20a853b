//! Room for a search.

use crate::benches::Parent;
use crate::numbers::{RankNumber, load};
use crate::tables::Table;
use asg_dual_numbers::{Lists, NONE, name, put, set, value};

// The columns that are done in order, the distance of each, the row of each, and by how much the
// numbers of that row are less where they are reached from it.
#[derive(Drop)]
pub(crate) struct Done<N: RankNumber> {
    pub columns: Vec<u32>,
    pub distances: Vec<N>,
    pub rows: Vec<u32>,
    pub less: Vec<N>,
}

// The lists that a search goes by.
#[derive(Drop)]
pub(crate) struct Room<N: RankNumber> {
    // The name of the part whose columns these are.
    part: u32,
    // By how much each column rose since first, and the row that has it.
    pub raised: Vec<N>,
    pub row_of: Vec<u32>,
    // Of each column the shortest distance so far.
    pub keys: Vec<N>,
    pub done: Done<N>,
    // Of each column what the numbers of a row in it count as at least, where it may not be taken.
    pub floors: Vec<N>,
}

impl<N: RankNumber> Done<N> {
    // Notes a column as done, the so-manieth, at its distance, with its row, and by how much the
    // numbers of that are less.
    pub(crate) fn note(&mut self, count: usize, column: usize, distance: N, row: u32, less: N) {
        put(self.columns.as_mut_slice(), count, name(column));
        set(self.distances.as_mut_slice(), count, distance);
        put(self.rows.as_mut_slice(), count, row);
        set(self.less.as_mut_slice(), count, less);
    }
}

// Notes of which columns the rows from one on have which.
fn list_rows(row_of: &mut [u32], columns: &[u32], from: usize) {
    for row in from..columns.len() {
        put(row_of, columns[row] as usize, name(row));
    }
}

// A row's number in a column with what the column rose; of the row's own column, this is how much it
// fell since first.
#[inline]
pub(crate) fn number<N: RankNumber>(numbers: &[N], raised: &[N], column: usize) -> N {
    value(numbers, column).plus(value(raised, column))
}

impl<N: RankNumber> Room<N> {
    // Room for searches over so many places of a row.
    pub(crate) fn make(lists: &mut Lists, wide: usize) -> Room<N> {
        Room {
            part: NONE,
            raised: lists.of(N::zero(), wide),
            row_of: lists.of(NONE, wide),
            keys: lists.of(N::zero(), wide),
            done: Done {
                columns: lists.of(NONE, wide),
                distances: lists.of(N::zero(), wide),
                rows: lists.of(NONE, wide),
                less: lists.of(N::zero(), wide),
            },
            floors: lists.of(N::zero(), wide),
        }
    }

    // Takes the columns of a part: by how much each rose since first, and which row has it. Those of
    // the part whose columns were taken last stand.
    pub(crate) fn take(&mut self, table: &Table<N>, parent: &Parent<'_>) {
        if self.part == parent.name {
            return;
        }
        self.part = parent.name;
        let bases = table.bases.as_slice();
        load(parent.rises, bases, self.raised.as_mut_slice());
        let row_of = self.row_of.as_mut_slice();
        if table.rows < table.columns {
            row_of.fill(NONE);
        }
        list_rows(row_of, parent.columns, parent.row);
    }
}
