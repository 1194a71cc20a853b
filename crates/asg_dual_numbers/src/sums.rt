//! Squares of sums, as they are searched.

use crate::cell_numbers::{NO_NUMBER, Numbers};
use crate::lists::Lists;
use crate::places::is_marked;
use asg_square::Square;

/// The cells of a square, row by row, and of each row the bits of those that are present, in so many
/// words.
#[derive(Drop)]
pub struct Sums<'a> {
    /// How many rows there are, and cells in each.
    pub side: u32,
    /// The cells, row by row.
    pub values: &'a [u64],
    words: Vec<u64>,
    wide: usize,
}

// The part of a list from a multiple of a width on, of that width; nothing outside.
#[inline]
pub(crate) fn part(list: &[u64], number: u32, wide: usize) -> &[u64] {
    let first = (number as usize).wrapping_mul(wide);
    let end = first.wrapping_add(wide);
    if first <= end && end <= list.len() {
        &list[first..end]
    } else {
        &[]
    }
}

// Whether each number from a place to another is there.
#[inline]
fn are_there(numbers: &[u64], first: usize, end: usize) -> bool {
    let mut are_there = true;
    for column in first..end.min(numbers.len()) {
        are_there &= numbers[column] != NO_NUMBER;
    }
    are_there
}

// Whether none is.
#[inline]
fn are_missing(numbers: &[u64], first: usize, end: usize) -> bool {
    let mut are_missing = true;
    for column in first..end.min(numbers.len()) {
        are_missing &= numbers[column] == NO_NUMBER;
    }
    are_missing
}

// The bits of the numbers that are there, of a word of a row. Where all are there, or none, they
// aren't told one by one.
#[inline]
fn word_of(numbers: &[u64], number: usize) -> u64 {
    let first = number.saturating_mul(64);
    let end = first.saturating_add(64).min(numbers.len());
    if end.saturating_sub(first) == 64 && are_there(numbers, first, end) {
        return u64::MAX;
    }
    if are_missing(numbers, first, end) {
        return 0;
    }
    let mut word = 0u64;
    let mut bit = 1u64;
    for column in first..end {
        if numbers[column] != NO_NUMBER {
            word |= bit;
        }
        bit = bit.wrapping_shl(1);
    }
    word
}

impl<'a> Sums<'a> {
    /// The sums of a square.
    pub fn of_square(lists: &mut Lists, square: &'a Square<u64>) -> Sums<'a> {
        let side = square.side();
        let wide = (side as usize).saturating_add(63) / 64;
        let mut words = lists.room(wide.saturating_mul(side as usize));
        for row in 0..side {
            lists.append(&mut words, square.row_words(row));
        }
        Sums {
            side,
            values: square.values(),
            words,
            wide,
        }
    }

    /// Numbers as sums.
    pub fn of_numbers(lists: &mut Lists, numbers: &'a Numbers) -> Sums<'a> {
        let side = numbers.side;
        let wide = (side as usize).saturating_add(63) / 64;
        let mut words = lists.room(wide.saturating_mul(side as usize));
        for row in 0..side {
            let cells = numbers.row(row);
            for number in 0..wide {
                lists.push(&mut words, word_of(cells, number));
            }
        }
        Sums {
            side,
            values: numbers.cells.as_slice(),
            words,
            wide,
        }
    }

    /// The cells of a row, nothing where there is no such row.
    #[inline]
    pub fn row_values(&self, row: u32) -> &[u64] {
        part(self.values, row, self.side as usize)
    }

    /// The bits of the present cells of a row, nothing where there is no such row.
    #[inline]
    pub fn row_words(&self, row: u32) -> &[u64] {
        part(self.words.as_slice(), row, self.wide)
    }

    /// Whether a cell is present.
    pub fn has(&self, row: u32, column: u32) -> bool {
        column < self.side && is_marked(self.row_words(row), column as usize)
    }
}
