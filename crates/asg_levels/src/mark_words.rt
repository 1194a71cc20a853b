//! Words of the columns that are out of a given number of steps.

ghost use Rattle.std.specs.Prelude.{◌≡◌, ◌==◌, ◌+◌, ◌*◌, ◌<◌, ◌≤◌, ℕ, IfOk, length};
ghost use Rattle.std.specs.Prelude.{slice_index};
ghost use Rattle.asg_model.specs.Limits.{most_side};
ghost use Rattle.asg_bit_rows.specs.BitTable.{is_bit_set};
ghost use Rattle.asg_levels.specs.MarkWords.{words_each, AreMarkWords};

use crate::NoMemory;
use std::alloc::Global;
use std::simd::prelude::*;

// The bits of 64 numbers, the first one lowest: 1 for those that are equal to x.
#[inline]
pub(crate) fn equal_bits(numbers: &[u32], x: u32) -> u64
    requires { length numbers.now ≡ 64 }
    ensures { (k : ℕ) → k < 64 → is_bit_set result k ≡ (slice_index numbers.now k == x) }
{
    let xs = Simd::<u32, 64>::splat(x);
    Simd::<u32, 64>::from_slice(numbers)
        .simd_eq(xs)
        .to_bitmask()
}

// The bits of the numbers that are 1 less than x.
#[inline]
pub(crate) fn lesser_bits(numbers: &[u32], x: u32) -> u64
    requires { length numbers.now ≡ 64 }
    ensures { (k : ℕ) → k < 64 → is_bit_set result k ≡ (slice_index numbers.now k + 1 == x) }
{
    if x == 0 {
        return 0;
    }
    equal_bits(numbers, x - 1)
}

// The bits of 64 columns: 1 for those that are out of one step less than the mark says.
fn mark_word(outs: &[u32], number: u32, mark: u32) -> u64
    requires { 64 * number + 64 ≤ length outs.now }
    ensures { (k : ℕ) → k < 64
        → is_bit_set result k ≡ (slice_index outs.now (64 * number + k) + 1 == mark) }
{
    let from = 64 * number as usize;
    lesser_bits(&outs[from..from + 64], mark)
}

/// The words of so many marks, one after the other: bit k of word n of a mark says whether the
/// column `64 * n + k` is out of one step less than the mark says. So those of the mark 0 have no
/// bit. The error is want of memory.
pub(crate) fn mark_words(alloc: Global, outs: &[u32], marks: u32) -> Result<Vec<u64>, NoMemory>
    requires some { 0 < words_each outs.now }
    requires few { length outs.now ≤ most_side + 63 }
    requires few_marks { marks ≤ most_side + 3 }
    ensures count { IfOk result (λ v. length v.items ≡ marks * (words_each outs.now)) }
    ensures words { IfOk result (λ v. AreMarkWords outs.now v.items) }
{
    let width = (outs.len() / 64) as u32;
    let count = marks * width;
    let mut words = Vec::with_capacity(alloc, count as usize)?;
    for place in 0..count {
        words.push(mark_word(outs, place % width, place / width))?;
    }
    Ok(words)
}

/// The word of a mark at a number, of the words of marks.
#[inline]
pub(crate) fn word_of(words: &[u64], outs: &[u32], mark: u32, number: u32) -> u64
    requires words { AreMarkWords outs.now words.now }
    requires mark_below { mark * (words_each outs.now) + words_each outs.now ≤ length words.now }
    requires number_below { number < words_each outs.now }
    ensures { (k : ℕ) → k < 64
        → is_bit_set result k ≡ (slice_index outs.now (64 * number + k) + 1 == mark) }
{
    words[mark as usize * (outs.len() / 64) + number as usize]
}
