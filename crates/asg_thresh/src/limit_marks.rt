//! The cells of an instance within one limit after another, by a bit each. Nothing here is tested.

ghost use Rattle.std.specs.Prelude.{ℕ, ◌<◌, IsTrue};
ghost use Rattle.asg_bit_rows.specs.BitTable.{is_bit_set};

use crate::NoMemory;
use crate::row_keys::end_of;
use crate::table_rows::TableRows;
use asg_bit_rows::{BitRows, first_bits};
use asg_model::limits::{MOST_COLUMNS, MOST_ROWS};
use asg_model::{Instance, RowRoom};
use std::alloc::Global;

/// Marks of the cells within a limit, of those within a lesser one, and of those within a greater
/// one. What the last two say alike needs no look at the costs.
#[derive(Drop)]
pub(crate) struct LimitMarks {
    pub(crate) bits: BitRows,
    lesser: BitRows,
    greater: BitRows,
}

/// The words of a row, none past the last row.
#[inline]
pub(crate) fn words_of(bits: &BitRows, row: u32) -> &[u64] {
    if row < bits.rows() {
        bits.row(row)
    } else {
        &[]
    }
}

// The bits of a word among the first so many.
#[inline]
fn first_of(word: u64, count: usize) -> u64
    ensures { (k : ℕ) → IsTrue (is_bit_set result k) → k < count }
{
    word & first_bits(count)
}

// Writes a word of a row, without the bits past the last column.
#[inline]
fn put_word(bits: &mut BitRows, row: u32, number: u32, word: u64) {
    let columns = bits.columns();
    if row < bits.rows() && number < columns.div_ceil(64) {
        let count = (columns - 64 * number).min(64) as usize;
        bits.put_word(row, number, first_of(word, count));
    }
}

// Takes over the bits of rows of the same size.
fn take_over(bits: &mut BitRows, from: &BitRows) {
    if bits.rows() == from.rows() && bits.columns() == from.columns() {
        bits.take(from);
    }
}

// Marks the cells of a row with a key before the end.
fn mark_row(marks: &mut LimitMarks, table: &TableRows, row: u32, firsts: &[i64], end: i64) {
    let lesser = words_of(&marks.lesser, row);
    let greater = words_of(&marks.greater, row);
    let count = lesser.len().min(greater.len()).min(table.open.len());
    for number in 0..count.min(MOST_COLUMNS) {
        let mut word = lesser[number];
        if word != greater[number] {
            let start = (64 * number).min(firsts.len());
            let piece = &firsts[start..(start + 64).min(firsts.len())];
            word = table.keys.word_before(piece, end) & table.open[number];
        }
        put_word(&mut marks.bits, row, number as u32, word);
    }
}

impl LimitMarks {
    /// No cell of an instance is marked. The error is want of memory.
    pub(crate) fn make(alloc: Global, inst: &Instance) -> Result<LimitMarks, NoMemory> {
        let rows = inst.rows().len().min(MOST_ROWS) as u32;
        let columns = inst.columns().len().min(MOST_COLUMNS) as u32;
        let mut greater = BitRows::make(alloc, rows, columns)?;
        greater.set_all();
        Ok(LimitMarks {
            bits: BitRows::make(alloc, rows, columns)?,
            lesser: BitRows::make(alloc, rows, columns)?,
            greater,
        })
    }

    /// Marks the cells of the active rows in open columns with a grade of at most the limit, which
    /// is between those that were kept.
    pub(crate) fn mark(&mut self, inst: &Instance, table: &TableRows, limit: u32) {
        let mut room = RowRoom::new();
        let end = end_of(limit);
        for place in 0..table.active.len() {
            let row = table.active[place];
            if let Some(parts) = inst.row_parts(row, &mut room) {
                mark_row(self, table, row, parts.firsts, end);
            }
        }
    }

    /// Keeps the marks as those within a lesser limit than all that come.
    pub(crate) fn keep_lesser(&mut self) {
        take_over(&mut self.lesser, &self.bits);
    }

    /// Keeps the marks as those within a greater limit than all that come.
    pub(crate) fn keep_greater(&mut self) {
        take_over(&mut self.greater, &self.bits);
    }
}
