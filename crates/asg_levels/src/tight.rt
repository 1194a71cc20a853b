//! The cells that are 0 after steps by 1, as rows of bits.

ghost use Rattle.std.specs.Prelude.{◌≡◌, ◌==◌, ◌+◌, ◌*◌, ◌<◌, ◌≤◌, ◌&&◌, ◌||◌, not, ℕ, IfOk, length};
ghost use Rattle.std.specs.Prelude.{slice_index};
ghost use Rattle.asg_model.specs.Limits.{most_side};
ghost use Rattle.asg_bit_rows.specs.BitTable.{is_bit_set, word_count};
ghost use Rattle.asg_levels.specs.MarkWords.{words_each, AreMarkWords};
ghost use Rattle.asg_levels.specs.Tight.{TightensWords, Tightens};

use crate::NoMemory;
use crate::mark_words::{mark_words, word_of};
use asg_bit_rows::BitRows;
use std::alloc::Global;

// The bits of the cells that are 0, of 64 columns of a row: of those that were 0 and of those that
// were 1, by the columns that are out of as many steps as the row is in, and of one less.
#[inline]
pub(crate) fn tight_word(zeros: u64, ones: u64, equal: u64, lesser: u64) -> u64
    ensures { (k : ℕ) → k < 64 → is_bit_set result k
        ≡ ((is_bit_set zeros k && is_bit_set equal k)
        || ((is_bit_set ones k && not (is_bit_set zeros k)) && is_bit_set lesser k)) }
{
    zeros & equal | ones & !zeros & lesser
}

// The word of a row that is in so many steps, of which the words of cells that were 0 and that were
// 1 are these.
#[inline]
pub(crate) fn word_at(
    zeros: &[u64],
    ones: &[u64],
    words: &[u64],
    outs: &[u32],
    ins: u32,
    number: u32,
) -> u64
    requires zeros_below { number < length zeros.now }
    requires ones_below { number < length ones.now }
    requires number_below { number < words_each outs.now }
    requires few_ins { ins ≤ most_side + 1 }
    requires words { AreMarkWords outs.now words.now }
    requires marks_below { (ins + 1) * words_each outs.now + words_each outs.now
        ≤ length words.now }
    ensures { (k : ℕ) → k < 64 → is_bit_set result k
        ≡ ((is_bit_set (slice_index zeros.now number) k
        && (slice_index outs.now (64 * number + k) == ins))
        || ((is_bit_set (slice_index ones.now number) k
        && not (is_bit_set (slice_index zeros.now number) k))
        && (slice_index outs.now (64 * number + k) + 1 == ins))) }
{
    let equal = word_of(words, outs, ins + 1, number);
    let lesser = word_of(words, outs, ins, number);
    let place = number as usize;
    tight_word(zeros[place], ones[place], equal, lesser)
}

// Marks the cells of a row that are 0, which is in so many steps.
fn tighten_row(
    marks: &mut BitRows,
    zeros: &BitRows,
    ones: &BitRows,
    words: &[u64],
    outs: &[u32],
    ins: u32,
    row: u32,
)
    requires row_below { row < marks.old.rows }
    requires zero_rows { zeros.now.rows ≡ marks.old.rows }
    requires zero_columns { zeros.now.columns ≡ marks.old.columns }
    requires one_rows { ones.now.rows ≡ marks.old.rows }
    requires one_columns { ones.now.columns ≡ marks.old.columns }
    requires outs { length outs.now ≡ 64 * word_count marks.old.columns }
    requires few_ins { ins ≤ most_side + 1 }
    requires words { AreMarkWords outs.now words.now }
    requires marks_below { (ins + 1) * words_each outs.now + words_each outs.now
        ≤ length words.now }
    ensures { TightensWords marks.old marks.new zeros.now ones.now outs.now ins row
        (word_count marks.old.columns) }
{
    let zero_words = zeros.row(row);
    let one_words = ones.row(row);
    for number in 0..zero_words.len() as u32 {
        let word = word_at(zero_words, one_words, words, outs, ins, number);
        marks.put_word(row, number, word);
    }
}

/// Marks the cells that are 0 after at most so many steps, of those that were 0 and those that were
/// 1 before them: by how many steps each row is in and how many each column is out of. The error is
/// want of memory.
pub fn tighten(
    alloc: Global,
    marks: &mut BitRows,
    zeros: &BitRows,
    ones: &BitRows,
    ins: &[u32],
    outs: &[u32],
    most: u32,
) -> Result<(), NoMemory>
    requires zero_rows { zeros.now.rows ≡ marks.old.rows }
    requires zero_columns { zeros.now.columns ≡ marks.old.columns }
    requires one_rows { ones.now.rows ≡ marks.old.rows }
    requires one_columns { ones.now.columns ≡ marks.old.columns }
    requires square { marks.old.columns ≡ marks.old.rows }
    requires few { marks.old.rows ≤ most_side }
    requires some { 0 < marks.old.rows }
    requires ins { length ins.now ≡ marks.old.rows }
    requires outs { length outs.now ≡ 64 * word_count marks.old.columns }
    requires few_ins { (r : ℕ) → r < length ins.now → slice_index ins.now r ≤ most }
    requires few_steps { most ≤ most_side + 1 }
    ensures rows { marks.new.rows ≡ marks.old.rows }
    ensures columns { marks.new.columns ≡ marks.old.columns }
    ensures bits { IfOk result (λ _. Tightens marks.new zeros.now ones.now ins.now outs.now
        marks.old.rows marks.old.rows) }
{
    let words = mark_words(alloc, outs, most + 2)?;
    for row in 0..ins.len() as u32 {
        let count = ins[row as usize];
        tighten_row(marks, zeros, ones, words.as_slice(), outs, count, row);
    }
    Ok(())
}
