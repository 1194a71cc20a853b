//! Bits of a row at columns that stand side by side, set or cleared a word at a time.

ghost use Rattle.std.specs.Prelude.{◌≡◌, ◌↔◌, ◌<◌, ◌≤◌, ◌&&◌, ℕ, IsTrue, not, if◌then◌else◌};
ghost use Rattle.asg_bit_rows.specs.BitTable.{has_bit, is_bit_set, is_from_to, PutsColumns, PutsOnly};
ghost use Rattle.asg_bit_rows.specs.WordBits.{HasBit};

use crate::bit_rows::BitRows;

/// The first bits of a word, so many as there are to be, and at most all 64.
#[inline]
pub fn first_bits(count: usize) -> u64
    ensures { (k : ℕ) → HasBit result k ↔ ((k < count) × (k < 64)) }
{
    if count >= 64 {
        return u64::MAX;
    }
    (1 << count) - 1
}

// The word without the bits of another.
#[inline]
fn without(word: u64, bits: u64) -> u64
    ensures { (k : ℕ) → k < 64
        → is_bit_set result k ≡ (is_bit_set word k && not (is_bit_set bits k)) }
{
    word & !bits
}

// The bits of a word from one on and before another.
#[inline]
fn bits_between(from: u32, to: u32) -> u64
    ensures { (k : ℕ) → k < 64 → is_bit_set result k ≡ is_from_to from to k }
{
    without(first_bits(to as usize), first_bits(from as usize))
}

// The word in which these bits are set, or cleared.
#[inline]
fn with_bits(word: u64, bits: u64, is_set: bool) -> u64
    ensures { (k : ℕ) → k < 64 → is_bit_set result k
        ≡ (if is_bit_set bits k then is_set else is_bit_set word k) }
{
    if is_set {
        word | bits
    } else {
        without(word, bits)
    }
}

impl BitRows {
    /// Sets or clears the bits of a row at the columns from one on and before another. It takes no
    /// memory.
    pub fn put_columns(&mut self, r: u32, from: u32, to: u32, is_set: bool)
        requires row_below { r < self.old.rows }
        requires within { to ≤ self.old.columns }
        ensures { PutsColumns self.old self.new r from to is_set }
    {
        for number in from / 64..to.div_ceil(64) {
            let first = 64 * number;
            let bits = bits_between(from.saturating_sub(first), to - first);
            let word = with_bits(self.row(r)[number as usize], bits, is_set);
            self.put_word(r, number, word);
        }
    }

    /// Sets the bits of a row at the columns from one on and before another, and clears all its
    /// others. It takes no memory.
    pub fn put_only(&mut self, r: u32, from: u32, to: u32)
        requires row_below { r < self.old.rows }
        requires within { to ≤ self.old.columns }
        ensures { PutsOnly self.old self.new r from to }
    {
        let columns = self.columns();
        self.put_columns(r, 0, columns, false);
        self.put_columns(r, from, to, true);
    }

    /// Sets all bits. It takes no memory.
    pub fn set_all(&mut self)
        ensures rows { self.new.rows ≡ self.old.rows }
        ensures columns { self.new.columns ≡ self.old.columns }
        ensures all { (r c : ℕ) → r < self.old.rows → c < self.old.columns
            → IsTrue (has_bit self.new r c) }
    {
        let columns = self.columns();
        for r in 0..self.rows() {
            self.put_columns(r, 0, columns, true);
        }
    }
}
