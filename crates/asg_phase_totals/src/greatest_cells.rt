//! The greatest cell of a square.

ghost use Rattle.std.specs.Prelude.{◌≡◌, ◌⊎◌, ◌<◌, ◌≤◌, ℕ, IsTrue, Some, length, slice_index};
ghost use Rattle.asg_phase_totals.specs.Duals.{IsGreatest, IsGreaterOf};
ghost use Rattle.asg_cell_tables.specs.CellTable.{AreValuesOf};
ghost use Rattle.asg_square.specs.Grid.{cell_at};

use crate::sum_numbers::SumNumber;
use asg_square::Square;

/// The greatest present cell of a square, 0 where none is present.
pub fn greatest_cell<N: SumNumber>(square: &Square<N>) -> N
    ensures { IsGreatest square.now.side (λ r k. N.present (cell_at square.now r k)) (N.number result) }
{
    let mut greatest = N::zero();
    for row in 0..square.side() {
        greatest = greater_in_row(square, row, greatest);
    }
    greatest
}

// The greater of two.
#[inline]
pub(crate) fn greater_of<N: SumNumber>(a: N, b: N) -> N
    ensures above { N.number a ≤ N.number result }
    ensures above_other { N.number b ≤ N.number result }
    ensures one { (N.number result ≡ N.number a) ⊎ (N.number result ≡ N.number b) }
{
    if a.is_below(b) { b } else { a }
}

// The greatest present cell of a row, or the greatest so far where that is greater.
fn greater_in_row<N: SumNumber>(square: &Square<N>, row: u32, so_far: N) -> N
    requires { row < square.now.side }
    ensures { IsGreaterOf 0 square.now.side (λ k. N.present (cell_at square.now row k))
        (N.number so_far) (N.number result) }
{
    let side = square.side();
    let values = square.row_values(row);
    let mut greatest = so_far;
    for number in 0..side.div_ceil(64) {
        let from = 64 * number;
        let next = from + 64;
        let to = next.min(side);
        greatest = greater_in_piece(square, row, values, from, to, greatest);
    }
    greatest
}

// The same of the cells from one column on and before another. None of them is looked at where no
// value is greater, that of an absent cell among them.
#[inline]
fn greater_in_piece<N: SumNumber>(
    square: &Square<N>,
    row: u32,
    values: &[N],
    from: u32,
    to: u32,
    so_far: N,
) -> N
    requires row { row < square.now.side }
    requires order { from ≤ to }
    requires within { to ≤ square.now.side }
    requires values { AreValuesOf (cell_at square.now row) square.now.side values.now }
    ensures { IsGreaterOf from to (λ k. N.present (cell_at square.now row k)) (N.number so_far)
        (N.number result) }
{
    if is_none_above(&values[from as usize..to as usize], so_far) {
        return so_far;
    }
    let mut greatest = so_far;
    for column in from..to {
        greatest = greater(square, row, column, values[column as usize], greatest);
    }
    greatest
}

// Whether no value is greater than this one.
#[inline]
fn is_none_above<N: SumNumber>(values: &[N], most: N) -> bool
    ensures { IsTrue result → (k : ℕ) → k < length values.now
        → slice_index (N.numbers values.now) k ≤ N.number most }
{
    if values.len() == 64 {
        return is_none_of_64(values, most);
    }
    for k in 0..values.len() {
        if most.is_below(values[k]) {
            return false;
        }
    }
    true
}

// The same of 64 values. It takes the same time whatever the answer.
#[inline]
fn is_none_of_64<N: SumNumber>(values: &[N], most: N) -> bool
    requires { length values.now ≡ 64 }
    ensures { IsTrue result → (k : ℕ) → k < 64
        → slice_index (N.numbers values.now) k ≤ N.number most }
{
    let mut is_none = true;
    for k in 0..64usize {
        is_none &= !most.is_below(values[k]);
    }
    is_none
}

// The cell where it is present and greater than the greatest so far, which otherwise stays. What stands for
// its value is looked at first, since that is greater for few cells.
#[inline]
fn greater<N: SumNumber>(square: &Square<N>, row: u32, column: u32, value: N, greatest: N) -> N
    requires row { row < square.now.side }
    requires column { column < square.now.side }
    requires value { (x : N) → cell_at square.now row column ≡ Some x → value ≡ x }
    ensures above { (x : ℕ) → N.present (cell_at square.now row column) ≡ Some x → x ≤ N.number result }
    ensures grows { N.number greatest ≤ N.number result }
    ensures reached { (N.number result ≡ N.number greatest)
        ⊎ (N.present (cell_at square.now row column) ≡ Some (N.number result)) }
{
    if !greatest.is_below(value) {
        return greatest;
    }
    match square.at(row, column) {
        Some(x) => x,
        None => greatest,
    }
}
