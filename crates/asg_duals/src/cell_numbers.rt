//! The cells of squares, read as numbers.

use crate::NoMemory;
use crate::readings::Reading;
use asg_dual_numbers::{Lists, NO_NUMBER, Numbers};
use asg_square::Square;
use std::alloc::Global;

// Reads cells of a row that are all present.
#[inline]
fn read_present<R: Reading>(
    reading: &R,
    row: u32,
    values: &[R::Cell],
    first: usize,
    numbers: &mut [u64],
) {
    let end = first
        .saturating_add(64)
        .min(values.len())
        .min(numbers.len());
    for column in first..end {
        numbers[column] = reading.read(row, column, values[column]);
    }
}

// Reads the cells of a word of a row.
#[inline]
fn read_word<R: Reading>(
    reading: &R,
    row: u32,
    values: &[R::Cell],
    number: usize,
    word: u64,
    numbers: &mut [u64],
) {
    let first = number.saturating_mul(64);
    if word == u64::MAX {
        read_present(reading, row, values, first, numbers);
        return;
    }
    let end = first
        .saturating_add(64)
        .min(values.len())
        .min(numbers.len());
    let mut rest = word;
    for column in first..end {
        let is_present = rest & 1 == 1;
        let read = if is_present {
            reading.read(row, column, values[column])
        } else {
            NO_NUMBER
        };
        numbers[column] = read;
        rest >>= 1;
    }
}

// Reads the cells of a row.
fn read_row<R: Reading>(
    reading: &R,
    row: u32,
    values: &[R::Cell],
    words: &[u64],
    numbers: &mut [u64],
) {
    for number in 0..words.len() {
        read_word(reading, row, values, number, words[number], numbers);
    }
}

// Reads the cells of a square. The error is want of memory.
pub(crate) fn numbers_of<R: Reading>(
    alloc: Global,
    square: &Square<R::Cell>,
    reading: &R,
) -> Result<Numbers, NoMemory> {
    let side = square.side();
    let wide = side as usize;
    let mut lists = Lists::new(alloc);
    let mut cells = lists.room(wide.saturating_mul(wide));
    let mut numbers = lists.of(NO_NUMBER, wide);
    for row in 0..side {
        read_row(
            reading,
            row,
            square.row_values(row),
            square.row_words(row),
            numbers.as_mut_slice(),
        );
        lists.append(&mut cells, numbers.as_slice());
    }
    drop(numbers);
    lists.whole(Numbers { side, cells })
}
