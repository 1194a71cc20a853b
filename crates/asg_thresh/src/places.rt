//! Reading and writing at places that may lie outside a list.

/// No row or column.
pub(crate) const NONE: u32 = u32::MAX;

/// The number at a place, `NONE` past the last.
#[inline]
pub(crate) fn at(numbers: &[u32], place: u32) -> u32 {
    if (place as usize) < numbers.len() {
        numbers[place as usize]
    } else {
        NONE
    }
}

/// Writes a number at a place, nothing past the last.
#[inline]
pub(crate) fn put(numbers: &mut [u32], place: u32, number: u32) {
    if (place as usize) < numbers.len() {
        numbers[place as usize] = number;
    }
}

/// Sets or clears the bit of a column, 64 to a word; nothing past the last word.
#[inline]
pub(crate) fn put_bit(words: &mut [u64], column: u32, is_set: bool) {
    let number = (column / 64) as usize;
    if number >= words.len() {
        return;
    }
    let bit = 1u64 << (column % 64);
    if is_set {
        words[number] |= bit;
    } else {
        words[number] &= !bit;
    }
}

/// The column of a bit of the word at a place.
#[inline]
pub(crate) fn column_of(number: usize, bit: u32) -> u32 {
    (number.min(1 << 20) as u32 * 64).wrapping_add(bit)
}
