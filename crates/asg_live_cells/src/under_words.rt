//! Words of the cells of a square whose grades are under a limit.

ghost use Rattle.std.specs.Prelude.{◌≡◌, ◌+◌, ◌-◌, ◌*◌, ◌<◌, ◌≤◌, ℕ, min, nat_lt, length, slice_index};
ghost use Rattle.asg_model.specs.Limits.{most_side};
ghost use Rattle.asg_bit_rows.specs.BitTable.{is_bit_set, word_count};
ghost use Rattle.asg_square.specs.Grid.{cell_at};
ghost use Rattle.asg_live_cells.specs.UnderWords.{is_under, AreBitsUnder};

use asg_square::Square;
use std::simd::prelude::*;

// The bits of 64 grades, the first one lowest: 1 for those under the limit.
#[inline]
fn full_bits(grades: &[u32], limit: u32) -> u64
    requires { length grades.now ≡ 64 }
    ensures { AreBitsUnder grades.now 64 limit result }
{
    let limits = Simd::<u32, 64>::splat(limit);
    Simd::<u32, 64>::from_slice(grades)
        .simd_lt(limits)
        .to_bitmask()
}

// The same of at most 64 grades.
#[inline]
fn bits_under(grades: &[u32], limit: u32) -> u64
    requires { length grades.now ≤ 64 }
    ensures { AreBitsUnder grades.now (length grades.now) limit result }
{
    if grades.len() == 64 {
        return full_bits(grades, limit);
    }
    let mut word = 0;
    for (place, grade) in grades.iter().enumerate() {
        word |= u64::from(*grade < limit) << place;
    }
    word
}

// The grades of at most 64 columns, from column `64 * number` on.
#[inline]
fn piece_of(grades: &[u32], number: u32) -> &[u32]
    requires number_below { number < word_count (length grades.now) }
    requires few { length grades.now ≤ most_side }
    ensures count { length result.now ≡ min 64 (length grades.now - 64 * number) }
    ensures cells { (k : ℕ) → k < length result.now
        → slice_index result.now k ≡ slice_index grades.now (64 * number + k) }
{
    let start = 64 * number;
    let count = (grades.len() as u32 - start).min(64);
    &grades[start as usize..(start + count) as usize]
}

// The bits of the last grades of a row, so many of at least 64: those of the last 64 without the
// first ones.
#[inline]
fn last_bits(values: &[u32], count: u32, limit: u32) -> u64
    requires some { 0 < count }
    requires few { count ≤ 64 }
    requires long { 64 ≤ length values.now }
    ensures { (k : ℕ) → k < count → is_bit_set result k
        ≡ nat_lt (slice_index values.now (length values.now - count + k)) limit }
{
    full_bits(&values[values.len() - 64..], limit) >> (64 - count)
}

// The bits of the grades of at most 64 columns of a row, from column `64 * number` on.
#[inline]
fn piece_bits(values: &[u32], number: u32, limit: u32) -> u64
    requires number_below { number < word_count (length values.now) }
    requires few { length values.now ≤ most_side }
    ensures { (k : ℕ) → k < 64 → 64 * number + k < length values.now
        → is_bit_set result k ≡ nat_lt (slice_index values.now (64 * number + k)) limit }
{
    let piece = piece_of(values, number);
    if piece.len() == 64 || values.len() < 64 {
        return bits_under(piece, limit);
    }
    last_bits(values, piece.len() as u32, limit)
}

/// Which of 64 cells of a row, from column `64 * number` on, are there with a grade under the
/// limit: bit k says it of the column `64 * number + k`, and no bit past the last column is set.
#[inline]
pub fn under_word(square: &Square<u32>, row: u32, number: u32, limit: u32) -> u64
    requires row_below { row < square.now.side }
    requires number_below { number < word_count square.now.side }
    requires few { square.now.side ≤ most_side }
    ensures { (k : ℕ) → k < 64 → is_bit_set result k
        ≡ is_under limit (cell_at square.now row (64 * number + k)) }
{
    let word = square.row_words(row)[number as usize];
    word & piece_bits(square.row_values(row), number, limit)
}
