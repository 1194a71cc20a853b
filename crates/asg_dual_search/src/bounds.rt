//! Lower bounds of the greatest number of an assignment, from rows and from columns.

use asg_dual_numbers::{Lists, put};

/// A limit below which there is no assignment, with the marks that show it. The rows that enter at
/// 0 have, below the limit, columns alone that leave at 0, and are one more than these; each other
/// row and column has the mark 1.
#[derive(Drop)]
pub struct Bound {
    /// The limit.
    pub limit: u64,
    /// The mark of each row.
    pub enters: Vec<u32>,
    /// The mark of each column.
    pub leaves: Vec<u32>,
}

// The greatest of some numbers, and the first place that has it.
#[derive(Clone, Copy)]
struct Greatest {
    place: usize,
    number: i32,
}

fn greatest_of(numbers: &[i32]) -> Greatest {
    let mut greatest = Greatest {
        place: 0,
        number: 0,
    };
    for place in 0..numbers.len() {
        if numbers[place] > greatest.number {
            greatest.place = place;
            greatest.number = numbers[place];
        }
    }
    greatest
}

// The greatest of the rows' least numbers and of the columns', where there are as many. A row shows
// it by itself; a column by all rows, which have no more than the other columns below it.
pub(crate) fn bound_of(lists: &mut Lists, row_leasts: &[i32], column_leasts: &[i32]) -> Bound {
    let side = column_leasts.len();
    let row = greatest_of(row_leasts);
    let column = greatest_of(column_leasts);
    let is_row = row.number >= column.number;
    let mark: u32 = if is_row { 1 } else { 0 };
    let mut enters = lists.of(mark, side);
    let mut leaves = lists.of(mark, side);
    if is_row {
        put(enters.as_mut_slice(), row.place, 0);
    } else {
        put(leaves.as_mut_slice(), column.place, 1);
    }
    Bound {
        limit: row.number.max(column.number).max(0) as u64,
        enters,
        leaves,
    }
}
