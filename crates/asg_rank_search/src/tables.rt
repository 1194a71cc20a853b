//! Tables of numbers less the first dual variables.

use crate::numbers::{RankNumber, capped};
use asg_dual_numbers::{Lists, padded, set, value};

// From where a number stands for a cell that is absent.
const ABSENT: u64 = 1 << 61;

/// A table, row by row; each row has so many places, of which the first ones are cells: numbers with
/// what their column rose and less what their row fell at first. Behind the last row stands the row
/// of the columns that no row has.
#[derive(Drop)]
pub struct Table<N: RankNumber> {
    // How many rows there are, but for the last one.
    pub(crate) rows: usize,
    pub(crate) columns: usize,
    pub(crate) wide: usize,
    // Whether each number that was entered is less than what stands for an absent one.
    pub(crate) is_exact: bool,
    // What each column rose at first, and those without a row.
    pub(crate) bases: Vec<u64>,
    pub(crate) floor: u64,
    cells: Vec<N>,
}

// Writes a row's numbers with what the columns rose and less what the row fell. Whether each that
// is present is within what a path may be long.
fn write_cells<N: RankNumber>(cells: &mut [N], numbers: &[u64], rises: &[u64], fall: u64) -> bool {
    let count = cells.len().min(numbers.len()).min(rises.len());
    let mut is_exact = true;
    for column in 0..count {
        let number = numbers[column];
        if number < ABSENT {
            let rest = number.wrapping_add(rises[column]).saturating_sub(fall);
            cells[column] = capped(rest);
            is_exact = is_exact && rest <= N::most();
        }
    }
    is_exact
}

impl<N: RankNumber> Table<N> {
    // A table of so many rows, and of a column for each of these rises, without a number yet but
    // for those of the last row: 0 everywhere.
    pub(crate) fn make(lists: &mut Lists, rows: usize, rises: &[u64], floor: u64) -> Table<N> {
        let columns = rises.len();
        let wide = padded(columns);
        let last = rows.saturating_mul(wide);
        let bases = lists.copy_of(rises);
        let mut cells = lists.of(N::far(), last.saturating_add(wide));
        for column in 0..columns {
            let rest = capped(rises[column].saturating_sub(floor));
            set(cells.as_mut_slice(), last.wrapping_add(column), rest);
        }
        Table {
            rows,
            columns,
            wide,
            is_exact: true,
            bases,
            floor,
            cells,
        }
    }

    // The numbers of a row, nothing where there is no such row.
    #[inline]
    pub(crate) fn row(&self, row: usize) -> &[N] {
        let first = row.wrapping_mul(self.wide);
        let end = first.wrapping_add(self.wide);
        if first <= end && end <= self.cells.len() {
            &self.cells[first..end]
        } else {
            &[]
        }
    }

    // The number of a row in a column, as if the rows were one list.
    #[inline]
    pub(crate) fn number(&self, row: usize, column: usize) -> N {
        let place = row.wrapping_mul(self.wide).wrapping_add(column);
        value(self.cells.as_slice(), place)
    }

    /// Enters the numbers of a row, and by how much it fell. A number from 2^61 on stands for a cell
    /// that is absent.
    pub fn enter(&mut self, row: usize, numbers: &[u64], fall: u64) {
        let first = row.wrapping_mul(self.wide);
        let end = first.wrapping_add(self.wide);
        if first <= end && end <= self.cells.len() {
            let bases = self.bases.as_slice();
            let is_exact = write_cells(&mut self.cells[first..end], numbers, bases, fall);
            self.is_exact = self.is_exact && is_exact;
        }
    }
}
