//! Squares of numbers, in which some may be missing.

use crate::sums::part;

/// Stands for no number.
pub const NO_NUMBER: u64 = u64::MAX;

/// A square of numbers. Where the list is shorter than the side times itself, rows are empty.
#[derive(Drop)]
pub struct Numbers {
    /// How many rows there are, and numbers in each.
    pub side: u32,
    /// The numbers, row by row, with [`NO_NUMBER`] for each that is missing.
    pub cells: Vec<u64>,
}

impl Numbers {
    /// The numbers of a row, nothing where there is no such row.
    #[inline]
    pub fn row(&self, row: u32) -> &[u64] {
        part(self.cells.as_slice(), row, self.side as usize)
    }
}
