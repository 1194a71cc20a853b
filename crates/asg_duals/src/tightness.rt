//! The test of dual variables, in one pass over the cells.

ghost use Rattle.std.specs.Prelude.{◌≡◌, ◌<◌, ◌≤◌, ◌+◌, ◌/◌, ◌%◌, ℕ, IsTrue, Some, IfSome, IsSome, length, slice_index};
ghost use Rattle.asg_bit_rows.specs.BitTable.{is_bit_set, word_count};
ghost use Rattle.asg_square.specs.Grid.{cell_at};
ghost use Rattle.asg_bit_rows.specs.WordBits.{HasBit};
ghost use Rattle.asg_duals.specs.Tight.{AreTight, IsRowTight, Reaches};

use crate::duals::Duals;
use asg_square::Square;

// Whether each value is, with its column's rise, at least the fall.
#[inline]
fn are_above(values: &[u64], rises: &[u64], fall: u64) -> bool
    requires { length rises.now ≡ length values.now }
    ensures { IsTrue result → (c : ℕ) → c < length values.now
        → Reaches values.now rises.now fall c }
{
    'columns: for column in 0..values.len() {
        if values[column].saturating_add(rises[column]) < fall {
            return false;
        }
    }
    true
}

// The 64 numbers from a place on.
#[inline]
fn word_of(numbers: &[u64], first: usize) -> &[u64]
    requires { first + 64 ≤ length numbers.now }
    ensures count { length result.now ≡ 64 }
    ensures each { (k : ℕ) → k < 64
        → slice_index result.now k ≡ slice_index numbers.now (first + k) }
{
    &numbers[first..first + 64]
}

// Whether the value of a column, where there is one, is with its rise at least the fall.
#[inline]
fn is_above(values: &[u64], rises: &[u64], fall: u64, column: usize) -> bool
    requires { length rises.now ≡ length values.now }
    ensures { IsTrue result → column < length values.now
        → Reaches values.now rises.now fall column }
{
    if column >= values.len() {
        return true;
    }
    values[column].saturating_add(rises[column]) >= fall
}

// Whether each value from a place on whose bit is set is, with its rise, at least the fall.
#[inline]
fn set_are_above(values: &[u64], rises: &[u64], fall: u64, first: usize, word: u64) -> bool
    requires rises { length rises.now ≡ length values.now }
    requires first { first ≤ length values.now }
    ensures { IsTrue result → (k : ℕ) → HasBit word k → first + k < length values.now
        → Reaches values.now rises.now fall (first + k) }
{
    let mut rest = word;
    'bits: while rest != 0 {
        let k = rest.trailing_zeros();
        if !is_above(values, rises, fall, first + k as usize) {
            return false;
        }
        rest &= !(1 << k);
    }
    true
}

// The same, all 64 at a time where all bits are set.
#[inline]
fn word_is_above(values: &[u64], rises: &[u64], fall: u64, first: usize, word: u64) -> bool
    requires rises { length rises.now ≡ length values.now }
    requires first { first ≤ length values.now }
    ensures { IsTrue result → (k : ℕ) → HasBit word k → first + k < length values.now
        → Reaches values.now rises.now fall (first + k) }
{
    if word == u64::MAX && values.len() - first >= 64 {
        are_above(word_of(values, first), word_of(rises, first), fall)
    } else {
        set_are_above(values, rises, fall, first, word)
    }
}

// Whether each cell whose bit is set is, with its column's rise, at least the fall.
fn words_are_above(values: &[u64], words: &[u64], rises: &[u64], fall: u64) -> bool
    requires rises { length rises.now ≡ length values.now }
    requires words { length words.now ≡ word_count (length values.now) }
    ensures { IsTrue result → (c : ℕ) → c < length values.now
        → IsTrue (is_bit_set (slice_index words.now (c / 64)) (c % 64))
        → Reaches values.now rises.now fall c }
{
    'words: for number in 0..words.len() {
        if !word_is_above(values, rises, fall, 64 * number, words[number]) {
            return false;
        }
    }
    true
}

// Whether each present cell of a row is, with its column's rise, at least the fall.
fn row_is_above(square: &Square<u64>, row: u32, rises: &[u64], fall: u64) -> bool
    requires row { row < square.now.side }
    requires rises { length rises.now ≡ square.now.side }
    ensures { IsTrue result → (c x : ℕ) → cell_at square.now row c ≡ Some x
        → fall ≤ x + slice_index rises.now c }
{
    words_are_above(square.row_values(row), square.row_words(row), rises, fall)
}

// The same, at once where nothing is below the fall.
fn row_is_held(square: &Square<u64>, row: u32, rises: &[u64], fall: u64) -> bool
    requires row { row < square.now.side }
    requires rises { length rises.now ≡ square.now.side }
    ensures { IsTrue result → (c x : ℕ) → cell_at square.now row c ≡ Some x
        → fall ≤ x + slice_index rises.now c }
{
    if fall == 0 {
        return true;
    }
    row_is_above(square, row, rises, fall)
}

// Whether a cell is present and, with its column's rise, the fall.
fn is_at(square: &Square<u64>, row: u32, column: u32, rises: &[u64], fall: u64) -> bool
    requires row { row < square.now.side }
    requires column { column < square.now.side }
    requires rises { length rises.now ≡ square.now.side }
    ensures present { IsTrue result → IsSome (cell_at square.now row column) }
    ensures level { IsTrue result → (x : ℕ) → cell_at square.now row column ≡ Some x
        → fall ≡ x + slice_index rises.now column }
{
    match square.at(row, column) {
        Some(cell) => cell.checked_add(rises[column as usize]) == Some(fall),
        None => false,
    }
}

// Whether a row has a column of its own and is tight.
fn row_is_tight(square: &Square<u64>, duals: &Duals, row_of: &[u32], row: u32) -> bool
    requires row { row < square.now.side }
    requires columns { length duals.now.columns ≡ square.now.side }
    requires falls { length duals.now.falls ≡ square.now.side }
    requires rises { length duals.now.rises ≡ square.now.side }
    ensures { IsTrue result → IsRowTight square.now duals.now row_of.now row }
{
    let column = duals.columns()[row as usize];
    let fall = duals.falls()[row as usize];
    if column >= square.side() || column as usize >= row_of.len() {
        return false;
    }
    if row_of[column as usize] != row || !is_at(square, row, column, duals.rises(), fall) {
        return false;
    }
    row_is_held(square, row, duals.rises(), fall)
}

// Whether dual variables are tight on an assignment, which the rows of columns show to give no
// column twice.
fn are_tight(square: &Square<u64>, duals: &Duals, row_of: &[u32]) -> bool
    ensures { IsTrue result → AreTight square.now duals.now }
{
    let side = square.side() as usize;
    if duals.columns().len() != side {
        return false;
    }
    if duals.falls().len() != side {
        return false;
    }
    if duals.rises().len() != side {
        return false;
    }
    'rows: for row in 0..square.side() {
        if !row_is_tight(square, duals, row_of, row) {
            return false;
        }
    }
    true
}

// The dual variables where they are tight.
pub(crate) fn tested(square: &Square<u64>, duals: Duals, row_of: &[u32]) -> Option<Duals>
    ensures { IfSome result (AreTight square.now) }
{
    if are_tight(square, &duals, row_of) {
        Some(duals)
    } else {
        None
    }
}
