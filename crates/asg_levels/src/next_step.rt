//! The cells that are 0 after one more step by 1, by those that were 0 before it.

ghost use Rattle.std.specs.Prelude.{◌≡◌, ◌==◌, ◌+◌, ◌*◌, ◌<◌, ◌≤◌, ◌&&◌, ◌||◌, not, ℕ, List, Option, length};
ghost use Rattle.std.specs.Prelude.{slice_index};
ghost use Rattle.asg_model.specs.Limits.{most_side};
ghost use Rattle.asg_bit_rows.specs.BitTable.{has_bit, is_bit_set, word_count};
ghost use Rattle.asg_levels.specs.NextStep.{AreZeroBits, ClearsColumns, ClearsWord, RenewsRows};
ghost use Rattle.asg_levels.specs.Tight.{TightensWords, Tightens};
ghost use Rattle.asg_levels.specs.UnitSteps.{AreDuals, CountsStep};

use crate::mark_words::{equal_bits, lesser_bits};
use crate::tight::tight_word;
use asg_bit_rows::BitRows;

// The bits of at most 64 numbers, the first one lowest: 1 for those that are 0.
#[inline]
fn zero_bits(numbers: &[u32]) -> u64
    requires { length numbers.now ≤ 64 }
    ensures { AreZeroBits numbers.now (length numbers.now) result }
{
    if numbers.len() == 64 {
        return equal_bits(numbers, 0);
    }
    let mut word = 0;
    for (place, number) in numbers.iter().enumerate() {
        word |= u64::from(*number == 0) << place;
    }
    word
}

// The bits of 64 columns from `64 * number` on: 1 for those that are out of the step.
fn left_word(leaves: &[u32], number: u32) -> u64
    requires few { length leaves.now ≤ most_side }
    requires number_below { number < word_count (length leaves.now) }
    ensures { (k : ℕ) → k < 64 → 64 * number + k < length leaves.now
        → is_bit_set result k ≡ (slice_index leaves.now (64 * number + k) == 0) }
{
    let from = 64 * number as usize;
    let to = (from + 64).min(leaves.len());
    zero_bits(&leaves[from..to])
}

// The word without the bits of another.
#[inline]
fn without(word: u64, bits: u64) -> u64
    ensures { (k : ℕ) → k < 64
        → is_bit_set result k ≡ (is_bit_set word k && not (is_bit_set bits k)) }
{
    word & !bits
}

// Takes the marks of these of 64 columns in all rows.
fn clear_word(marks: &mut BitRows, number: u32, left: u64)
    requires { number < word_count marks.old.columns }
    ensures { ClearsWord marks.old marks.new number left }
{
    if left == 0 {
        return;
    }
    for row in 0..marks.rows() {
        let word = without(marks.row(row)[number as usize], left);
        marks.put_word(row, number, word);
    }
}

// Takes the marks of the columns that are out of the step.
fn clear_left(marks: &mut BitRows, leaves: &[u32])
    requires columns { marks.old.columns ≡ length leaves.now }
    requires few { length leaves.now ≤ most_side }
    ensures { ClearsColumns marks.old marks.new leaves.now (word_count (length leaves.now)) }
{
    for number in 0..leaves.len().div_ceil(64) as u32 {
        let left = left_word(leaves, number);
        clear_word(marks, number, left);
    }
}

// The word of a row that is in so many steps, of which the words of cells that were 0 and that were
// 1 are these.
#[inline]
fn word_now(zeros: &[u64], ones: &[u64], outs: &[u32], ins: u32, number: u32) -> u64
    requires zeros_below { number < length zeros.now }
    requires ones_below { number < length ones.now }
    requires number_below { 64 * number + 64 ≤ length outs.now }
    ensures { (k : ℕ) → k < 64 → is_bit_set result k
        ≡ ((is_bit_set (slice_index zeros.now number) k
        && (slice_index outs.now (64 * number + k) == ins))
        || ((is_bit_set (slice_index ones.now number) k
        && not (is_bit_set (slice_index zeros.now number) k))
        && (slice_index outs.now (64 * number + k) + 1 == ins))) }
{
    let place = number as usize;
    let counts = &outs[64 * place..64 * place + 64];
    let equal = equal_bits(counts, ins);
    let lesser = lesser_bits(counts, ins);
    tight_word(zeros[place], ones[place], equal, lesser)
}

// Marks the cells of a row that are 0, which is in so many steps.
fn renew_row(marks: &mut BitRows, zeros: &BitRows, ones: &BitRows, outs: &[u32], ins: u32, row: u32)
    requires row_below { row < marks.old.rows }
    requires zero_rows { zeros.now.rows ≡ marks.old.rows }
    requires zero_columns { zeros.now.columns ≡ marks.old.columns }
    requires one_rows { ones.now.rows ≡ marks.old.rows }
    requires one_columns { ones.now.columns ≡ marks.old.columns }
    requires outs { length outs.now ≡ 64 * word_count marks.old.columns }
    ensures { TightensWords marks.old marks.new zeros.now ones.now outs.now ins row
        (word_count marks.old.columns) }
{
    let zero_words = zeros.row(row);
    let one_words = ones.row(row);
    for number in 0..zero_words.len() as u32 {
        let word = word_now(zero_words, one_words, outs, ins, number);
        marks.put_word(row, number, word);
    }
}

// The same of a row that may be in the step.
fn renew_entered(
    marks: &mut BitRows,
    zeros: &BitRows,
    ones: &BitRows,
    outs: &[u32],
    ins: u32,
    row: u32,
    enters: u32,
)
    requires row_below { row < marks.old.rows }
    requires zero_rows { zeros.now.rows ≡ marks.old.rows }
    requires zero_columns { zeros.now.columns ≡ marks.old.columns }
    requires one_rows { ones.now.rows ≡ marks.old.rows }
    requires one_columns { ones.now.columns ≡ marks.old.columns }
    requires outs { length outs.now ≡ 64 * word_count marks.old.columns }
    ensures entered { enters ≡ 0 → TightensWords marks.old marks.new zeros.now ones.now outs.now
        ins row (word_count marks.old.columns) }
    ensures other { (enters ≡ 0 → ⊥) → marks.new ≡ marks.old }
{
    if enters == 0 {
        renew_row(marks, zeros, ones, outs, ins, row);
    }
}

/// Marks the cells that are 0 after a step by 1, where the marks are those of the cells that were 0
/// before it: by how many steps each row is in and how many each column is out of now. The rows
/// that are in the step and the columns that are out of it have 0 in their lists. It takes no
/// memory. The time is that of the words of the rows in the step, and of a word of each row for 64
/// columns some of which are out of it.
pub fn tighten_more(
    marks: &mut BitRows,
    zeros: &BitRows,
    ones: &BitRows,
    enters: &[u32],
    leaves: &[u32],
    ins: &[u32],
    outs: &[u32],
)
    requires zero_rows { zeros.now.rows ≡ marks.old.rows }
    requires zero_columns { zeros.now.columns ≡ marks.old.columns }
    requires one_rows { ones.now.rows ≡ marks.old.rows }
    requires one_columns { ones.now.columns ≡ marks.old.columns }
    requires square { marks.old.columns ≡ marks.old.rows }
    requires few { marks.old.rows ≤ most_side }
    requires enters { length enters.now ≡ marks.old.rows }
    requires leaves { length leaves.now ≡ marks.old.rows }
    requires ins { length ins.now ≡ marks.old.rows }
    requires outs { length outs.now ≡ 64 * word_count marks.old.columns }
    ensures rows { marks.new.rows ≡ marks.old.rows }
    ensures columns { marks.new.columns ≡ marks.old.columns }
    ensures bits { (count : ℕ) (ins_before outs_before : List ℕ) (square : ℕ → ℕ → Option ℕ)
        → AreDuals marks.old.rows count zeros.now ones.now ins_before outs_before square
        → Tightens marks.old zeros.now ones.now ins_before outs_before marks.old.rows
        marks.old.rows
        → CountsStep marks.old.rows enters.now leaves.now ins_before outs_before ins.now outs.now
        → Tightens marks.new zeros.now ones.now ins.now outs.now marks.old.rows marks.old.rows }
{
    let _zeros = zeros.rows();
    let _ones = ones.rows();
    clear_left(marks, leaves);
    for row in 0..enters.len() as u32 {
        let place = row as usize;
        renew_entered(marks, zeros, ones, outs, ins[place], row, enters[place]);
    }
    let _marks = marks.rows();
}
