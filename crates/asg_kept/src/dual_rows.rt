//! Rows of squares that are kept by dual variables.

ghost use Rattle.std.specs.Prelude.{◌≡◌, ◌↔◌, ◌<◌, ◌≤◌, ◌+◌, ◌*◌, ◌%◌, ◌^◌, ℕ, length, slice_index};
ghost use Rattle.std.specs.Int.{bit_at};
ghost use Rattle.asg_phase_totals.specs.Duals.{dual_bits, dual_values};

use crate::narrow_rows::lesser_bits;
use asg_phase_totals::{SumNumber, word_of};
use std::marker::Model;

/// The values of a row of a [`DualSquare`](crate::DualSquare), one for each column. Contracts see
/// it as the list of them.
#[derive(Drop)]
pub(crate) struct DualRow<'a, N: SumNumber> {
    values: &'a [N],
    columns: &'a [N],
    row: N,
}

impl<'a, N: SumNumber> Model for DualRow<'a, N> {
    ghost use Rattle.std.specs.Prelude.{◌≡◌, List, ℕ, length};
    ghost use Rattle.asg_phase_totals.specs.Duals.{dual_values};

    ghost Value = { List ℕ };

    ghost view = { λ r.
        dual_values N.width (N.numbers r.values.now) (N.numbers r.columns.now) (N.number r.row) };

    ghost invariant = { λ r. length r.columns.now ≡ length r.values.now };
}

impl<'a, N: SumNumber> DualRow<'a, N> {
    /// The value at a column, by one sum and one difference.
    #[inline]
    pub(crate) fn value(&self, column: u32) -> N
        requires { column < length self.now }
        ensures { N.number result ≡ slice_index self.now column }
    {
        value_at(self.values, self.columns, self.row, column)
    }
}

impl<'a> DualRow<'a, u64> {
    /// Of the 64 columns of a word those at which a sum with the value is less than the key: a bit
    /// for each, the first column's lowest. Values and keys may be any numbers; the sums are taken
    /// in 64 bits. It takes the same time whatever the answer.
    #[inline]
    pub(crate) fn lesser(&self, sum: u64, keys: &[u64], number: u32) -> u64
        requires within { 64 * number + 64 ≤ length self.now }
        requires keys { length keys.now ≡ length self.now }
        ensures { (k : ℕ) → k < 64 → (bit_at result k ≡ 1)
            ↔ ((sum + slice_index self.now (64 * number + k)) % 2 ^ 64
            < slice_index keys.now (64 * number + k)) }
    {
        let number = number as usize;
        let values = word_of(self.values, number);
        let columns = word_of(self.columns, number);
        let keys = word_of(keys, number);
        lesser_bits(sum.wrapping_add(self.row), values, columns, keys)
    }
}

// The value at a column, with the dual variables of the columns and of the row.
#[inline]
fn value_at<N: SumNumber>(values: &[N], columns: &[N], row: N, column: u32) -> N
    requires column { column < length values.now }
    requires columns { length columns.now ≡ length values.now }
    ensures { N.number result ≡ dual_bits N.width (N.number row)
        (slice_index (N.numbers columns.now) column) (slice_index (N.numbers values.now) column) }
{
    let value = values[column as usize];
    value
        .wrapping_plus(row)
        .wrapping_minus(columns[column as usize])
}

// The row of these values, with the dual variables of the columns and of the row.
pub(crate) fn dual_row<'a, N: SumNumber>(
    values: &'a [N],
    columns: &'a [N],
    row: N,
) -> DualRow<'a, N>
    requires { length columns.now ≡ length values.now }
    ensures { result
        ≡ dual_values N.width (N.numbers values.now) (N.numbers columns.now) (N.number row) }
{
    DualRow {
        values,
        columns,
        row,
    }
}
