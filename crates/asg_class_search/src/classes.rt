//! Rows and columns of a square by what they stand for: columns that are copies of one column of
//! the instance are alike, and so are all rows that stand for no row of it.

use crate::near_cells::are_present;
use asg_dual_numbers::{Lists, NONE, Sums, at, put};
use asg_square::Square;

/// The rows of a square that stand for rows of the instance, and its columns by classes of copies.
#[derive(Drop)]
pub struct Classes {
    /// The rows that stand for rows of the instance.
    pub rows: Vec<u32>,
    // The first column of each class.
    pub(crate) firsts: Vec<u32>,
    /// How many columns each class has.
    pub rooms: Vec<u32>,
    // The first column that is a copy of none; there are none behind it that are.
    pub(crate) extra: u32,
    /// How many of the rows take columns that are copies of none.
    pub outside: usize,
    /// How many columns all classes have, the first ones of the square.
    pub room: usize,
    /// Whether each class has one column, that of its own place.
    pub is_plain: bool,
}

impl Classes {
    /// Of a square of this side each row and each column by itself.
    pub fn apart(lists: &mut Lists, side: u32) -> Classes {
        let count = side as usize;
        let mut rows = lists.room(count);
        for place in 0..side {
            lists.push(&mut rows, place);
        }
        Classes {
            firsts: lists.copy_of(rows.as_slice()),
            rows,
            rooms: lists.of(1, count),
            extra: side,
            outside: 0,
            room: count,
            is_plain: true,
        }
    }

    /// Whether some rows or columns of a square of this side are alike.
    pub fn are_fewer(&self, side: usize) -> bool {
        self.rows.len() < side || self.firsts.len() < side
    }
}

// The rows of a square that stand for rows of the instance.
fn counted_rows<V: Copy>(lists: &mut Lists, square: &Square<V>) -> Vec<u32> {
    let side = square.side();
    let mut rows = lists.room(side as usize);
    for row in 0..side {
        if square.row_label(row).is_some() {
            lists.push(&mut rows, row);
        }
    }
    rows
}

// One column more for the last class.
fn widen(rooms: &mut Vec<u32>) {
    let last = rooms.len().wrapping_sub(1);
    let room = at(rooms.as_slice(), last);
    put(rooms.as_mut_slice(), last, room.saturating_add(1));
}

// How many of the rows take columns that are copies of none, of which there are so many: as many,
// where the first row has a cell in the first of them.
fn outside_of(sums: &Sums<'_>, rows: &[u32], extra: u32, extras: usize) -> usize {
    if sums.has(at(rows, 0), extra) {
        extras.min(rows.len())
    } else {
        0
    }
}

// Whether each class has one column, that of its own place.
fn are_plain(firsts: &[u32], rooms: &[u32]) -> bool {
    for place in 0..firsts.len().min(rooms.len()) {
        if firsts[place] as usize != place || rooms[place] != 1 {
            return false;
        }
    }
    true
}

/// The rows and columns of a square by what they stand for, where its cells are these sums.
pub fn classes_of<V: Copy>(lists: &mut Lists, square: &Square<V>, sums: &Sums<'_>) -> Classes {
    let side = square.side();
    let rows = counted_rows(lists, square);
    let mut firsts = lists.room(side as usize);
    let mut rooms = lists.room(side as usize);
    let mut last = NONE;
    let mut extra = side;
    let mut extras = 0usize;
    for column in 0..side {
        let label = square.column_label(column).unwrap_or(NONE);
        if label == NONE {
            extra = extra.min(column);
            extras = extras.saturating_add(1);
        } else if label == last {
            widen(&mut rooms);
        } else {
            lists.push(&mut firsts, column);
            lists.push(&mut rooms, 1);
            last = label;
        }
    }
    let outside = outside_of(sums, rows.as_slice(), extra, extras);
    let is_plain = are_plain(firsts.as_slice(), rooms.as_slice());
    let room = (side as usize).saturating_sub(extras);
    Classes {
        rows,
        firsts,
        rooms,
        extra,
        outside,
        room,
        is_plain,
    }
}

// Whether a row may take each of the columns that are copies of none, or none of them, as told.
fn is_even(sums: &Sums<'_>, row: u32, extra: u32, takes: bool) -> bool {
    for column in extra..sums.side {
        if sums.has(row, column) != takes {
            return false;
        }
    }
    true
}

/// Whether all counted rows may take columns that are copies of none, or no such row may, and all
/// other rows any of the others. So it is in squares of instances.
pub fn are_even<V: Copy>(square: &Square<V>, sums: &Sums<'_>, classes: &Classes) -> bool {
    for row in 0..square.side() {
        let is_good = if square.row_label(row).is_some() {
            is_even(sums, row, classes.extra, classes.outside > 0)
        } else {
            are_present(sums.row_words(row), classes.room)
        };
        if !is_good {
            return false;
        }
    }
    true
}
