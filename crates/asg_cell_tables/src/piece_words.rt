//! Words of up to 64 bits: which cells of a row side by side are present.

ghost use Rattle.std.specs.Prelude.{◌≡◌, ℕ, ◌<◌, ◌≤◌, ◌&&◌, ◌||◌, FitsSigned, None, is_some, length, not, pos, slice_index_or};
ghost use Rattle.std.specs.Int.{w64};
ghost use Rattle.asg_model.specs.Table.{absent};
ghost use Rattle.asg_cell_tables.specs.Filling.{AreBitsOf};
ghost use Rattle.asg_cell_tables.specs.RowPieces.{AreKnownAs, is_there};

use crate::labellings::Labelling;
use asg_bit_rows::first_bits;
use asg_model::ABSENT;
use std::simd::prelude::*;

// Each of these numbers fits its type, as one that is read does: the loop reads, and does nothing.
#[inline]
fn all_fit(numbers: &[i64])
    ensures { (k : ℕ) → k < length numbers.now
        → FitsSigned w64 (slice_index_or numbers.now k (pos 0)) }
{
    for k in 0..numbers.len() {
        let _number = numbers[k];
    }
}

// Which of 64 first parts aren't that of an absent cell.
#[inline]
fn full_present(firsts: &[i64]) -> u64
    requires { length firsts.now ≡ 64 }
    ensures { AreBitsOf 64 (λ k. is_there (slice_index_or firsts.now k absent)) result }
{
    all_fit(firsts);
    Simd::<i64, 64>::from_slice(firsts)
        .simd_ne(Simd::splat(ABSENT))
        .to_bitmask()
}

/// Which of at most 64 first parts aren't that of an absent cell.
#[inline]
pub(crate) fn present_word(firsts: &[i64]) -> u64
    requires { length firsts.now ≤ 64 }
    ensures { AreBitsOf (length firsts.now)
        (λ k. is_there (slice_index_or firsts.now k absent)) result }
{
    if firsts.len() == 64 {
        return full_present(firsts);
    }
    let mut word = 0;
    for k in 0..firsts.len() {
        word |= u64::from(firsts[k] != ABSENT) << k;
    }
    word
}

/// So many bits, all of them set or none.
#[inline]
pub(crate) fn equal_bits(count: usize, are_set: bool) -> u64
    requires { count ≤ 64 }
    ensures { AreBitsOf count (λ _. are_set) result }
{
    if are_set { first_bits(count) } else { 0 }
}

// The bits of the columns with a label.
#[inline]
fn labelled_bits(columns: &[Option<u32>]) -> u64
    requires { length columns.now ≤ 64 }
    ensures { AreBitsOf (length columns.now)
        (λ k. is_some (slice_index_or columns.now k None)) result }
{
    let mut word = 0;
    for k in 0..columns.len() {
        word |= u64::from(columns[k].is_some()) << k;
    }
    word
}

// The bits of the columns without a label.
#[inline]
fn unlabelled_bits(columns: &[Option<u32>]) -> u64
    requires { length columns.now ≤ 64 }
    ensures { AreBitsOf (length columns.now)
        (λ k. not (is_some (slice_index_or columns.now k None))) result }
{
    let mut word = 0;
    for k in 0..columns.len() {
        word |= u64::from(columns[k].is_none()) << k;
    }
    word
}

/// The bits of the columns without a label, or none.
#[inline]
pub(crate) fn extra_bits(columns: &[Option<u32>], are_there: bool) -> u64
    requires { length columns.now ≤ 64 }
    ensures { AreBitsOf (length columns.now)
        (λ k. are_there && not (is_some (slice_index_or columns.now k None))) result }
{
    if are_there {
        unlabelled_bits(columns)
    } else {
        0
    }
}

// The bits of the columns with a label, at once where it is known which have one.
#[inline]
fn known_bits(columns: &[Option<u32>], labelling: Labelling, first: usize) -> u64
    requires few { length columns.now ≤ 64 }
    requires known { AreKnownAs labelling first columns.now }
    ensures { AreBitsOf (length columns.now)
        (λ k. is_some (slice_index_or columns.now k None)) result }
{
    let _ = first;
    match labelling {
        Labelling::Plain => equal_bits(columns.len(), true),
        Labelling::Twice => equal_bits(columns.len(), true),
        Labelling::Extra => equal_bits(columns.len(), false),
        Labelling::Mixed => labelled_bits(columns),
    }
}

/// The bits of the columns with a label, or of all columns.
#[inline]
pub(crate) fn free_bits(
    columns: &[Option<u32>],
    labelling: Labelling,
    first: usize,
    are_all: bool,
) -> u64
    requires few { length columns.now ≤ 64 }
    requires known { AreKnownAs labelling first columns.now }
    ensures { AreBitsOf (length columns.now)
        (λ k. are_all || is_some (slice_index_or columns.now k None)) result }
{
    if are_all {
        equal_bits(columns.len(), true)
    } else {
        known_bits(columns, labelling, first)
    }
}
