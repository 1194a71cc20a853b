//! Tables of squares by classes: a row for each row that stands for one of the instance, a place
//! for each class.

use crate::classes::Classes;
use crate::near_cells::{are_present, put_near};
use crate::ranges::{Ranges, Spread, put_word, ranges_by, row_range};
use asg_dual_numbers::{Lists, Number, Sums, Table, amount, at, padded, put_amount};

/// Room for the cells of a row at the first columns of classes, with a bit for each that is present.
#[derive(Drop)]
pub struct ClassRow {
    values: Vec<u64>,
    words: Vec<u64>,
}

// The bits of the present cells of up to 64 classes.
fn present_bits(words: &[u64], firsts: &[u32], number: usize) -> u64 {
    let first = number.saturating_mul(64);
    let end = first.saturating_add(64).min(firsts.len());
    let mut bits = 0;
    for place in first..end {
        let column = firsts[place] as usize;
        let bit = amount(words, column / 64) >> ((column % 64) as u32) & 1;
        bits |= bit << ((place % 64) as u32);
    }
    bits
}

// The first amounts, all where there are fewer.
#[inline]
fn first_amounts(amounts: &[u64], count: usize) -> &[u64] {
    if count < amounts.len() {
        &amounts[..count]
    } else {
        amounts
    }
}

impl ClassRow {
    /// Room for the cells of a row.
    pub fn make(lists: &mut Lists, classes: &Classes) -> ClassRow {
        let count = classes.firsts.len();
        ClassRow {
            values: lists.of(0, count),
            words: lists.of(0, count / 64 + 1),
        }
    }

    // Reads a row, where its cells don't stand in their places.
    fn read(&mut self, sums: &Sums<'_>, classes: &Classes, row: u32) {
        if classes.is_plain {
            return;
        }
        let values = sums.row_values(row);
        let words = sums.row_words(row);
        let firsts = classes.firsts.as_slice();
        for place in 0..firsts.len() {
            let cell = amount(values, firsts[place] as usize);
            put_amount(self.values.as_mut_slice(), place, cell);
        }
        let is_whole = are_present(words, classes.room);
        for number in 0..self.words.len() {
            let bits = if is_whole {
                u64::MAX
            } else {
                present_bits(words, firsts, number)
            };
            put_amount(self.words.as_mut_slice(), number, bits);
        }
    }

    // The cells of a row that was read.
    #[inline]
    fn values<'b>(&'b self, sums: &'b Sums<'_>, classes: &Classes, row: u32) -> &'b [u64] {
        if classes.is_plain {
            first_amounts(sums.row_values(row), classes.firsts.len())
        } else {
            self.values.as_slice()
        }
    }

    // The bits of its present cells; behind them some may be set.
    #[inline]
    fn words<'b>(&'b self, sums: &'b Sums<'_>, classes: &Classes, row: u32) -> &'b [u64] {
        if classes.is_plain {
            sums.row_words(row)
        } else {
            self.words.as_slice()
        }
    }
}

/// The ranges of the rows. Where rows may take columns that are copies of none, all rows have one
/// range.
pub fn class_ranges(
    lists: &mut Lists,
    sums: &Sums<'_>,
    classes: &Classes,
    room: &mut ClassRow,
) -> Ranges {
    let count = classes.rows.len();
    let mut leasts = lists.of(0, count);
    let mut spread = Spread::none();
    for place in 0..count {
        let row = at(classes.rows.as_slice(), place);
        room.read(sums, classes, row);
        let range = row_range(
            room.values(&*sums, classes, row),
            room.words(&*sums, classes, row),
        );
        put_amount(leasts.as_mut_slice(), place, range.least);
        spread = spread.with(range);
    }
    ranges_by(leasts, spread, classes.outside > 0)
}

// Writes the cells of a row with so much less, and this number for those that are absent.
fn put_cells<N: Number>(numbers: &mut [N], values: &[u64], words: &[u64], least: u64, absent: u64) {
    for number in 0..words.len() {
        put_word(numbers, values, number, words[number], least, absent);
    }
}

/// The table of the rows: each cell is what is taken away from its row less, and an absent one is
/// this number.
pub fn class_table<N: Number>(
    lists: &mut Lists,
    sums: &Sums<'_>,
    classes: &Classes,
    leasts: &[u64],
    absent: u64,
    room: &mut ClassRow,
) -> Table<N> {
    let side = classes.firsts.len();
    let wide = padded(side);
    let count = classes.rows.len();
    let mut cells = lists.room(count.saturating_mul(wide));
    let mut numbers = lists.of(N::greatest(), wide);
    for place in 0..count {
        let row = at(classes.rows.as_slice(), place);
        room.read(sums, classes, row);
        put_cells(
            numbers.as_mut_slice(),
            room.values(&*sums, classes, row),
            room.words(&*sums, classes, row),
            amount(leasts, place),
            absent,
        );
        lists.append(&mut cells, numbers.as_slice());
    }
    drop(numbers);
    Table { side, wide, cells }
}

/// The table of the rows with so much less; `None` where a cell is absent, or not near.
pub fn near_class_table<N: Number>(
    lists: &mut Lists,
    sums: &Sums<'_>,
    classes: &Classes,
    base: u64,
    room: &mut ClassRow,
) -> Option<Table<N>> {
    let side = classes.firsts.len();
    let wide = padded(side);
    let count = classes.rows.len();
    let mut cells = lists.room(count.saturating_mul(wide));
    let mut numbers = lists.of(N::greatest(), wide);
    let mut are_near = true;
    for place in 0..count {
        let row = at(classes.rows.as_slice(), place);
        room.read(sums, classes, row);
        let values = room.values(&*sums, classes, row);
        are_near = are_present(sums.row_words(row), classes.room)
            && put_near(numbers.as_mut_slice(), values, side, base);
        if !are_near {
            break;
        }
        lists.append(&mut cells, numbers.as_slice());
    }
    drop(numbers);
    if are_near {
        Some(Table { side, wide, cells })
    } else {
        None
    }
}
