//! Plain numbers within a text, of whose digits eight are read at once.

ghost use Rattle.std.specs.Prelude.{◌≡◌, ◌+◌, ◌-◌, ◌*◌, ◌^◌, ◌<◌, ◌≤◌, ℕ, true, IfSome, length, take, drop, slice_index};
ghost use Rattle.std.specs.List.{list_all};
ghost use Rattle.std.specs.Char.{is_ascii_digit};
ghost use Rattle.std.specs.Str.Parse.{digits_value};
ghost use Rattle.asg_tokens.specs.NextCells.{IsShortAmount};

use crate::numbers::MOST_AMOUNT;

/// How many bytes are read at once.
pub(crate) const WORD: usize = 8;

// How many digits a number has at most.
const MOST_DIGITS: usize = 10;

/// The number of the digits from a place up to another, where there are at most ten and it is at
/// most 10^9. A word can be read behind them.
#[inline(always)]
pub(crate) fn amount_of(text: &[u8], start: usize, end: usize) -> Option<i64>
    requires order { start ≤ end }
    requires long { end + 8 ≤ length text.now }
    requires digits { (k : ℕ) → start ≤ k → k < end
        → is_ascii_digit (slice_index text.now k) ≡ true }
    ensures { IfSome result (λ amount.
        IsShortAmount (drop start text.now) amount (drop end text.now)) }
{
    if start == end {
        return None;
    }
    if end - start > WORD {
        return long_amount(text, start, end);
    }
    let number = number_in_word(&text[start..start + WORD], end - start);
    Some(number as i64)
}

// The number of at least eight digits, where there are at most ten and it is at most 10^9.
#[inline(always)]
fn long_amount(text: &[u8], start: usize, end: usize) -> Option<i64>
    requires many { start + 8 ≤ end }
    requires long { end + 8 ≤ length text.now }
    requires digits { (k : ℕ) → start ≤ k → k < end
        → is_ascii_digit (slice_index text.now k) ≡ true }
    ensures { IfSome result (λ amount.
        IsShortAmount (drop start text.now) amount (drop end text.now)) }
{
    if end - start > MOST_DIGITS {
        return None;
    }
    let number = number_past_word(&text[start..end]);
    if number > MOST_AMOUNT {
        return None;
    }
    Some(number as i64)
}

// The number of eight to ten digits.
#[inline(always)]
fn number_past_word(digits: &[u8]) -> u64
    requires many { 8 ≤ length digits.now }
    requires few { length digits.now ≤ 10 }
    requires digits { list_all is_ascii_digit digits.now ≡ true }
    ensures { result ≡ digits_value 10 digits.now }
{
    let mut number = number_in_word(&digits[..WORD], WORD);
    for k in WORD..digits.len() {
        number = number * 10 + (u64::from(digits[k]) - u64::from(b'0'));
    }
    number
}

// The number of the digits with which eight bytes begin, by three multiplications: the bytes behind
// them are shifted out of the word, as if zeros stood before the digits; neighbours are joined, in
// its bytes, to pairs, and these to the number, in its upper half.
#[inline(always)]
fn number_in_word(bytes: &[u8], len: usize) -> u64
    requires word { length bytes.now ≡ 8 }
    requires some { 0 < len }
    requires within { len ≤ 8 }
    requires digits { list_all is_ascii_digit (take len bytes.now) ≡ true }
    ensures value { result ≡ digits_value 10 (take len bytes.now) }
    ensures small { result < 1000000000 }
{
    let word = u64::from_le_bytes([
        bytes[0], bytes[1], bytes[2], bytes[3], bytes[4], bytes[5], bytes[6], bytes[7],
    ]);
    let values = word
        .wrapping_sub(0x3030_3030_3030_3030)
        .wrapping_mul(shift_of(len));
    let pairs = values.wrapping_mul(10).wrapping_add(values >> 8);
    let first = (pairs & 0x0000_00ff_0000_00ff).wrapping_mul(100 + (1_000_000 << 32));
    let second = ((pairs >> 16) & 0x0000_00ff_0000_00ff).wrapping_mul(1 + (10_000 << 32));
    first.wrapping_add(second) >> 32
}

// By what a word is multiplied so that its first bytes, so many of them, come to stand at its end.
#[inline(always)]
fn shift_of(len: usize) -> u64
    requires some { 0 < len }
    requires within { len ≤ 8 }
    ensures { result ≡ 2 ^ (64 - 8 * len) }
{
    match len {
        1 => 1 << 56,
        2 => 1 << 48,
        3 => 1 << 40,
        4 => 1 << 32,
        5 => 1 << 24,
        6 => 1 << 16,
        7 => 1 << 8,
        8 => 1,
        _ => 0,
    }
}
