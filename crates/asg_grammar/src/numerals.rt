//! Numbers in their one spelling: digits without a leading zero, and a minus before a negative one.

ghost use Rattle.std.specs.Prelude.{◌≡◌, ◌+◌, ◌*◌, ◌-◌, ◌<◌, ◌≤◌, ◌^◌, ◌↔◌, ◌++◌, pos, negsuc, IsTrue, IfSome, SomeIff};
ghost use Rattle.std.specs.Fmt.{decimal};
ghost use Rattle.asg_grammar.specs.Spellings.{Spells, IsPlain, number_spelling, long_spelling, wide_spelling, signed_spelling};

use crate::byte_cuts::after;

// Whether there is a byte, and no zero before others.
fn is_plain(word: &[u8]) -> bool
    ensures { IsTrue result ↔ IsPlain word.now }
{
    match word {
        [] => false,
        [_] => true,
        [first, ..] => *first != b'0',
    }
}

// The number with one digit more; none where the byte is no digit or the number is past 128 bits.
fn longer(value: u128, byte: u8) -> Option<u128>
    ensures { SomeIff result
        ((48 ≤ byte) × (byte ≤ 57) × (value * 10 + (byte - 48) < 2 ^ 128))
        (value * 10 + (byte - 48)) }
{
    if byte < b'0' || byte > b'9' {
        return None;
    }
    value.checked_mul(10)?.checked_add(u128::from(byte - b'0'))
}

/// The number of 128 bits without a sign that a word spells.
pub fn wide_number(word: &[u8]) -> Option<u128>
    ensures { Spells wide_spelling word.now result }
{
    if !is_plain(word) {
        return None;
    }
    let mut value = 0;
    for byte in word {
        value = longer(value, *byte)?;
    }
    Some(value)
}

// A number below 2^32.
fn small_of(size: u128) -> Option<u32>
    ensures { SomeIff result (size < 2 ^ 32) size }
{
    u32::try_from(size).ok()
}

/// The number of 32 bits that a word spells.
pub fn number(word: &[u8]) -> Option<u32>
    ensures { Spells number_spelling word.now result }
{
    small_of(wide_number(word)?)
}

// A number below 2^64.
fn long_of(size: u128) -> Option<u64>
    ensures { SomeIff result (size < 2 ^ 64) size }
{
    u64::try_from(size).ok()
}

// The number of 64 bits that a word spells.
pub(crate) fn long_number(word: &[u8]) -> Option<u64>
    ensures { Spells long_spelling word.now result }
{
    // No number of 64 bits has more digits.
    if word.len() > 20 {
        return None;
    }
    long_of(wide_number(word)?)
}

// The number that comes first, and what follows its digits: some where it has at most 18 digits and
// none follows a zero. It is read in one pass.
pub(crate) fn leading_number(text: &[u8]) -> Option<(u64, &[u8])>
    ensures { IfSome result
        (λ parts. (parts.0 < 10 ^ 18) × (text.now ≡ decimal parts.0 ++ parts.1.now)) }
{
    let (first, mut rest) = text.split_first()?;
    if *first < b'0' || *first > b'9' {
        return None;
    }
    if *first == b'0' {
        return Some((0, rest));
    }
    let mut value = u64::from(*first - b'0');
    'digits: while let Some((byte, left)) = rest.split_first() {
        if *byte < b'0' || *byte > b'9' {
            break;
        }
        if value >= 100_000_000_000_000_000 {
            return None;
        }
        value = value * 10 + u64::from(*byte - b'0');
        rest = left;
    }
    Some((value, rest))
}

// A number of 64 bits where it is below 2^32.
pub(crate) fn short_of(size: u64) -> Option<u32>
    ensures { SomeIff result (size < 2 ^ 32) size }
{
    u32::try_from(size).ok()
}

// A number below 2^127 with a sign.
fn positive_of(size: u128) -> Option<i128>
    ensures { SomeIff result (size < 2 ^ 127) (pos size) }
{
    i128::try_from(size).ok()
}

// A number of 1 to 2^127 after a minus.
fn negative_of(size: u128) -> Option<i128>
    ensures { SomeIff result ((0 < size) × (size ≤ 2 ^ 127)) (negsuc (size - 1)) }
{
    if size == 0 || size > 1 << 127 {
        return None;
    }
    Some(-1 - (size - 1) as i128)
}

/// The signed number of 128 bits that a word spells.
pub fn signed_number(word: &[u8]) -> Option<i128>
    ensures { Spells signed_spelling word.now result }
{
    match after(b"-", word) {
        Some(digits) => negative_of(wide_number(digits)?),
        None => positive_of(wide_number(word)?),
    }
}
