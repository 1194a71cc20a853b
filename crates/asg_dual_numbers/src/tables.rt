//! Square tables of numbers.

use crate::numbers::Number;

/// A table, row by row; each row has `wide` places, of which the first `side` are cells.
#[derive(Drop)]
pub struct Table<N: Number> {
    /// How many cells a row has.
    pub side: usize,
    /// How many places a row has.
    pub wide: usize,
    /// The places of all rows.
    pub cells: Vec<N>,
}

impl<N: Number> Table<N> {
    /// The numbers of a row, nothing where there is no such row.
    #[inline]
    pub fn row(&self, row: u32) -> &[N] {
        let first = (row as usize).wrapping_mul(self.wide);
        let end = first.wrapping_add(self.wide);
        if first <= end && end <= self.cells.len() {
            &self.cells[first..end]
        } else {
            &[]
        }
    }
}

/// The places of a row of so many cells: whole sixteens.
pub fn padded(side: usize) -> usize {
    side.saturating_add(15) / 16 * 16
}
