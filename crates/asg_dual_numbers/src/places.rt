//! Reading and writing at places that may lie outside a list.

ghost use Rattle.std.specs.Prelude.{◌≡◌, length};

/// No row or column.
pub const NONE: u32 = u32::MAX;

/// The place as a name of a row or column, none where it is too great.
#[inline]
pub fn name(place: usize) -> u32 {
    if place < 4294967295 {
        place as u32
    } else {
        NONE
    }
}

/// The name at a place, none outside.
#[inline]
pub fn at(names: &[u32], place: usize) -> u32 {
    if place < names.len() {
        names[place]
    } else {
        NONE
    }
}

/// Writes a name at a place, nothing outside.
#[inline]
pub fn put(names: &mut [u32], place: usize, name: u32)
    ensures { length names.new ≡ length names.old }
{
    if place < names.len() {
        names[place] = name;
    }
}

/// The amount at a place, 0 outside.
#[inline]
pub fn amount(amounts: &[u64], place: usize) -> u64 {
    if place < amounts.len() {
        amounts[place]
    } else {
        0
    }
}

/// Writes an amount at a place, nothing outside.
#[inline]
pub fn put_amount(amounts: &mut [u64], place: usize, amount: u64)
    ensures { length amounts.new ≡ length amounts.old }
{
    if place < amounts.len() {
        amounts[place] = amount;
    }
}

/// Sets or clears the bit of a column, in words of 64.
#[inline]
pub fn mark(words: &mut [u64], column: usize, is: bool)
    ensures { length words.new ≡ length words.old }
{
    let place = column / 64;
    if place < words.len() {
        let bit = 1u64 << ((column % 64) as u32);
        if is {
            words[place] |= bit;
        } else {
            words[place] &= !bit;
        }
    }
}

/// Whether the bit of a column is set, in words of 64; it isn't past the last word.
#[inline]
pub fn is_marked(words: &[u64], column: usize) -> bool {
    amount(words, column / 64) >> ((column % 64) as u32) & 1 == 1
}

// The bits of 16 columns, the first one's lowest.
#[inline]
pub(crate) fn sixteen(words: &[u64], number: usize) -> u64 {
    amount(words, number / 4) >> (16 * (number % 4) as u32)
}
