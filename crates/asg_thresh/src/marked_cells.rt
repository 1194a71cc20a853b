//! The cells that a limit allows, as rows of bits.

ghost use Rattle.std.specs.Prelude.{◌≡◌, ℕ, ◌*◌, ◌<◌, ◌≤◌, IfOk, length, vec_len};
ghost use Rattle.asg_match.specs.ColumnSet.{word_count};
ghost use Rattle.asg_thresh.specs.Words.{AreBitsUpTo, IsWordUpTo, MarksUpTo};

use crate::NoMemory;
use asg_match::Allowed;
use std::alloc::Global;
use std::simd::prelude::*;

/// The cells of a square that are marked by a bit each, 64 columns to a word.
#[derive(Drop)]
pub(crate) struct MarkedCells {
    pub(crate) side: u32,
    pub(crate) words: Vec<u64>,
    ghost few: { side ≤ most_side },
    ghost sized: { vec_len words ≡ side * word_count side },
}

impl Allowed for MarkedCells {
    ghost use Rattle.asg_thresh.specs.Words.{IsMarked};

    ghost side = { λ s. s.side };

    ghost allows = { λ s. IsMarked s.words.items s.side };

    #[inline]
    fn has(&self, r: u32, c: u32) -> bool {
        let width = self.side.div_ceil(64);
        self.words[(r * width + c / 64) as usize] >> (c % 64) & 1 == 1
    }

    #[inline]
    fn among(&self, r: u32, number: u32, columns: u64) -> u64 {
        if columns == 0 {
            return 0;
        }
        let width = self.side.div_ceil(64);
        self.words[(r * width + number) as usize] & columns
    }

    ghost within = { λ s r c h. (h.row, h.column) };
}

// The bits of 64 grades, the first one lowest: 1 for a grade of at most the limit.
#[inline]
fn full_bits(grades: &[u32], limit: u32) -> u64
    requires { length grades.now ≡ 64 }
    ensures { AreBitsUpTo grades.now 64 limit result }
{
    let limits = Simd::<u32, 64>::splat(limit);
    Simd::<u32, 64>::from_slice(grades)
        .simd_le(limits)
        .to_bitmask()
}

// The bits of at most 64 grades, the first one lowest: 1 for a grade of at most the limit.
#[inline]
fn bits_of(grades: &[u32], limit: u32) -> u64
    requires { length grades.now ≤ 64 }
    ensures { AreBitsUpTo grades.now (length grades.now) limit result }
{
    if grades.len() == 64 {
        return full_bits(grades, limit);
    }
    let mut word = 0;
    for (place, grade) in grades.iter().enumerate() {
        word |= u64::from(*grade <= limit) << place;
    }
    word
}

// The grades of at most 64 cells of a row, from 64 times the number on.
#[inline]
fn piece_of(grades: &[u32], side: u32, row: u32, number: u32) -> &[u32]
    requires row_below { row < side }
    requires number_below { number < word_count side }
    requires few { side ≤ most_side }
    requires square { length grades.now ≡ side * side }
    ensures count { length result.now ≡ min 64 (side - 64 * number) }
    ensures cells { (k : ℕ) → k < length result.now
        → slice_index result.now k ≡ grade_at grades.now side row (64 * number + k) }
{
    let start = row * side + 64 * number;
    let count = (side - 64 * number).min(64);
    &grades[start as usize..(start + count) as usize]
}

impl MarkedCells {
    /// No cell of the square is marked.
    pub(crate) fn make(alloc: Global, side: u32) -> Result<MarkedCells, NoMemory>
        requires { side ≤ most_side }
        ensures { IfOk result (λ m. m.side ≡ side) }
    {
        let count = side * side.div_ceil(64);
        let words = vec![in alloc; 0; count as usize]?;
        Ok(MarkedCells { side, words })
    }

    /// Marks the cells with a grade of at most the limit, and no others.
    pub(crate) fn mark(&mut self, grades: &[u32], limit: u32)
        requires { length grades.now ≡ self.old.side * self.old.side }
        ensures side { self.new.side ≡ self.old.side }
        ensures cells { MarksUpTo grades.now self.new.side limit self.new.words.items }
    {
        mark_words(&mut self.words, grades, self.side, limit);
    }
}

// The bits of a word by its place among all words: 1 for a cell with a grade of at most the limit.
#[inline]
fn word_at(grades: &[u32], side: u32, limit: u32, place: u32) -> u64
    requires few { side ≤ most_side }
    requires square { length grades.now ≡ side * side }
    requires place_below { place < side * word_count side }
    ensures { IsWordUpTo grades.now side limit place result }
{
    let width = side.div_ceil(64);
    bits_of(piece_of(grades, side, place / width, place % width), limit)
}

// Sets the words to the bits of the cells with a grade of at most the limit.
fn mark_words(words: &mut Vec<u64>, grades: &[u32], side: u32, limit: u32)
    requires few { side ≤ most_side }
    requires square { length grades.now ≡ side * side }
    requires sized { vec_len words.old ≡ side * word_count side }
    ensures sized { vec_len words.new ≡ vec_len words.old }
    ensures cells { MarksUpTo grades.now side limit words.new.items }
{
    for place in 0..words.len() as u32 {
        words[place as usize] = word_at(grades, side, limit, place);
    }
}

ghost use Rattle.std.specs.Prelude.{◌+◌, ◌-◌, min, slice_index};
ghost use Rattle.asg_model.specs.Limits.{most_side};
ghost use Rattle.asg_thresh.specs.Grades.{grade_at};
