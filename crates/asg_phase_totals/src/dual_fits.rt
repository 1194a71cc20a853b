//! Whether cells allow a phase, by raised dual variables.

ghost use Rattle.std.specs.Prelude.{◌≡◌, ◌↔◌, ◌<◌, ◌≤◌, ◌+◌, ◌*◌, ◌^◌, ℕ, IsTrue, Some, false, length, slice_index};
ghost use Rattle.std.specs.Int.{bit_at};
ghost use Rattle.asg_phase_totals.specs.Duals.{AreSums, FitCells, FitsAt, FitsRows, FitsRow, sum_before};
ghost use Rattle.asg_square.specs.Grid.{cell_at};

use crate::sum_numbers::SumNumber;
use asg_square::Square;

/// Whether each present cell of the rows that enter allows the steps: with the dual variable of its
/// row and the steps before that enters it is at least the dual variable of its column, which has
/// the steps before it leaves.
pub fn rows_fit<N: SumNumber>(
    square: &Square<N>,
    rows: &[N],
    columns: &[N],
    steps: &[N],
    enters: &[u32],
    sums: &[N],
) -> bool
    requires rows { length rows.now ≡ square.now.side }
    requires columns { length columns.now ≡ square.now.side }
    requires enters { length enters.now ≡ square.now.side }
    requires room { length steps.now < length sums.now }
    requires sums { AreSums (N.numbers steps.now) (N.numbers sums.now) }
    requires few_rows { (r : ℕ) → r < square.now.side → slice_index (N.numbers rows.now) r
        + sum_before (N.numbers steps.now) (length steps.now) ≤ N.top }
    requires few_cells { (r k x : ℕ) → N.present (cell_at square.now r k) ≡ Some x → x ≤ N.top }
    ensures { IsTrue result
        ↔ FitsRows square.now.side (λ r k. N.present (cell_at square.now r k))
        (N.numbers rows.now) (N.numbers columns.now) (N.numbers steps.now) enters.now }
{
    for row in 0..square.side() {
        let r = row as usize;
        if !row_fits(square, row, rows[r], columns, steps, enters[r], sums) {
            return false;
        }
    }
    true
}

// Whether each present cell of a row does so; nothing is asked where the row never enters.
fn row_fits<N: SumNumber>(
    square: &Square<N>,
    row: u32,
    dual: N,
    columns: &[N],
    steps: &[N],
    enter: u32,
    sums: &[N],
) -> bool
    requires row { row < square.now.side }
    requires columns { length columns.now ≡ square.now.side }
    requires room { length steps.now < length sums.now }
    requires sums { AreSums (N.numbers steps.now) (N.numbers sums.now) }
    requires few_rows { N.number dual
        + sum_before (N.numbers steps.now) (length steps.now) ≤ N.top }
    requires few_cells { (k x : ℕ) → N.present (cell_at square.now row k) ≡ Some x → x ≤ N.top }
    ensures { IsTrue result
        ↔ FitsRow square.now.side (λ k. N.present (cell_at square.now row k)) (N.number dual)
        (N.numbers columns.now) (N.numbers steps.now) enter }
{
    if enter as usize >= steps.len() {
        return true;
    }
    fit_cells(square, row, dual.plus(sums[enter as usize]), columns)
}

// Whether each present cell of a row is, with so much more, at least the number of its column.
pub(crate) fn fit_cells<N: SumNumber>(square: &Square<N>, row: u32, raise: N, columns: &[N]) -> bool
    requires row { row < square.now.side }
    requires columns { length columns.now ≡ square.now.side }
    requires few { N.number raise ≤ N.top }
    requires few_cells { (k x : ℕ) → N.present (cell_at square.now row k) ≡ Some x → x ≤ N.top }
    ensures { IsTrue result
        ↔ FitCells square.now.side (λ k. N.present (cell_at square.now row k)) (N.number raise)
        (N.numbers columns.now) }
{
    square.side();
    let values = square.row_values(row);
    let words = square.row_words(row);
    for number in 0..words.len() {
        if !word_fits(values, columns, raise, number, words[number]) {
            return false;
        }
    }
    true
}

// Whether the cells of a row whose bits a word has do so.
#[inline]
fn word_fits<N: SumNumber>(values: &[N], columns: &[N], raise: N, number: usize, word: u64) -> bool
    requires first { 64 * number ≤ length values.now }
    requires values { (k : ℕ) → bit_at word k ≡ 1 → 64 * number + k < length values.now }
    requires columns { length columns.now ≡ length values.now }
    requires short { length values.now < 2 ^ 32 }
    requires few { (k : ℕ) → bit_at word k ≡ 1
        → slice_index (N.numbers values.now) (64 * number + k) + N.number raise < N.width }
    ensures { IsTrue result
        ↔ ((k : ℕ) → k < 64 → bit_at word k ≡ 1
        → FitsAt (N.numbers values.now) (N.numbers columns.now) (N.number raise)
        (64 * number + k)) }
{
    if word == u64::MAX {
        all_fit(word_of(values, number), word_of(columns, number), raise)
    } else {
        some_fit(values, columns, raise, 64 * number, word)
    }
}

/// The numbers of the 64 columns of a word.
#[inline]
pub fn word_of<N: SumNumber>(numbers: &[N], number: usize) -> &[N]
    requires { 64 * number + 64 ≤ length numbers.now }
    ensures count { length result.now ≡ 64 }
    ensures each { (k : ℕ) → k < 64 → slice_index (N.numbers result.now) k
        ≡ slice_index (N.numbers numbers.now) (64 * number + k) }
{
    let first = 64 * number;
    &numbers[first..first + 64]
}

// Whether 64 cells do so. It takes the same time whatever the answer.
#[inline]
fn all_fit<N: SumNumber>(values: &[N], columns: &[N], raise: N) -> bool
    requires values { length values.now ≡ 64 }
    requires columns { length columns.now ≡ 64 }
    requires few { (k : ℕ) → k < 64
        → slice_index (N.numbers values.now) k + N.number raise < N.width }
    ensures { IsTrue result
        ↔ ((k : ℕ) → k < 64
        → FitsAt (N.numbers values.now) (N.numbers columns.now) (N.number raise) k) }
{
    let mut fits = true;
    for k in 0..64usize {
        fits &= fits_at(values[k], raise, columns[k]);
    }
    fits
}

// Whether a value is, with so much more, at least the number of a column.
#[inline]
fn fits_at<N: SumNumber>(value: N, raise: N, column: N) -> bool
    requires { N.number value + N.number raise < N.width }
    ensures fits { IsTrue result → N.number column ≤ N.number value + N.number raise }
    ensures beyond { result ≡ false → N.number value + N.number raise < N.number column }
{
    !value.plus(raise).is_below(column)
}

// Whether the cells behind a place whose bits a word has do so.
#[inline]
fn some_fit<N: SumNumber>(values: &[N], columns: &[N], raise: N, first: usize, word: u64) -> bool
    requires first { first ≤ length values.now }
    requires values { (k : ℕ) → bit_at word k ≡ 1 → first + k < length values.now }
    requires columns { length columns.now ≡ length values.now }
    requires short { length values.now < 2 ^ 32 }
    requires few { (k : ℕ) → bit_at word k ≡ 1
        → slice_index (N.numbers values.now) (first + k) + N.number raise < N.width }
    ensures { IsTrue result
        ↔ ((k : ℕ) → k < 64 → bit_at word k ≡ 1
        → FitsAt (N.numbers values.now) (N.numbers columns.now) (N.number raise) (first + k)) }
{
    let mut rest = word;
    'bits: while rest != 0 {
        let k = rest.trailing_zeros();
        let column = first + k as usize;
        if !fits_at(values[column], raise, columns[column]) {
            return false;
        }
        rest &= !(1 << k);
    }
    true
}
