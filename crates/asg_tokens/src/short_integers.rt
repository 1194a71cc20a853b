//! The common case of a part of a cell: a short integer.

ghost use Rattle.std.specs.Prelude.{◌≡◌, ◌≤◌, ◌∷◌, true, pos, IfSome, length, take};
ghost use Rattle.std.specs.List.{list_all};
ghost use Rattle.std.specs.Char.{is_ascii_digit};
ghost use Rattle.std.specs.Str.Parse.{digits_value};
ghost use Rattle.asg_tokens.specs.NextCells.{IsShortInteger, IsShortAmount, IsBehindSpace};

use crate::numbers::{MOST_AMOUNT, is_negative};
use crate::pieces::Separators;

/// An integer that a text begins with, and the text behind it.
#[derive(Clone, Copy)]
pub struct ShortInteger<'a> {
    pub value: i64,
    pub rest: &'a [u8],
}

// How many digits are read at most.
const MOST_DIGITS: usize = 10;

/// The integer that a text begins with, where it has at most ten digits and lies between -10^9 and
/// 10^9. `None` tells nothing of the text; it comes too where the text has less than eleven bytes
/// behind the sign.
#[inline(always)]
pub fn short_integer<'a>(text: &'a [u8]) -> Option<ShortInteger<'a>>
    ensures { IfSome result (λ short. IsShortInteger text.now short.value short.rest.now) }
{
    if is_negative(text) {
        let short = short_amount(&text[1..])?;
        Some(ShortInteger {
            value: -short.value,
            rest: short.rest,
        })
    } else {
        short_amount(text)
    }
}

// The same, for an integer without a sign.
#[inline(always)]
fn short_amount<'a>(text: &'a [u8]) -> Option<ShortInteger<'a>>
    ensures { IfSome result (λ short. IsShortAmount text.now short.value short.rest.now) }
{
    if text.len() <= MOST_DIGITS {
        return None;
    }
    let (number, len) = short_number(text);
    if len == 0 || number > MOST_AMOUNT {
        return None;
    }
    Some(ShortInteger {
        value: number as i64,
        rest: &text[len..],
    })
}

/// An id that a text begins with, and the text behind it.
#[derive(Clone, Copy)]
pub struct ShortId<'a> {
    pub id: u32,
    pub rest: &'a [u8],
}

/// The id that a text begins with, where it has at most ten digits and is at most 10^9. `None`
/// tells nothing of the text; it comes too where the text has less than eleven bytes.
#[inline(always)]
pub fn short_id<'a>(text: &'a [u8]) -> Option<ShortId<'a>>
    ensures { IfSome result (λ short. IsShortAmount text.now (pos short.id) short.rest.now) }
{
    if text.len() <= MOST_DIGITS {
        return None;
    }
    let (number, len) = short_number(text);
    if len == 0 || number > MOST_AMOUNT {
        return None;
    }
    Some(ShortId {
        id: number as u32,
        rest: &text[len..],
    })
}

/// The text behind the separator that a text begins with; `None` where it begins with none.
#[inline(always)]
pub(crate) fn behind_space<'a>(text: &'a [u8]) -> Option<&'a [u8]>
    ensures { IfSome result (λ rest. IsBehindSpace text.now rest.now) }
{
    if text.is_empty() || !Separators::Spaces.has(text[0]) {
        return None;
    }
    Some(&text[1..])
}

/// The text behind the byte with which a text begins; `None` where it begins with another or none.
#[inline(always)]
pub fn behind_byte<'a>(text: &'a [u8], byte: u8) -> Option<&'a [u8]>
    ensures { IfSome result (λ rest. text.now ≡ byte ∷ rest.now) }
{
    if text.is_empty() || text[0] != byte {
        return None;
    }
    Some(&text[1..])
}

// The number of the digits that the text begins with, at most ten of them, and how many they are.
#[inline]
fn short_number(text: &[u8]) -> (u64, usize)
    requires { 10 ≤ length text.now }
    ensures within { result.1 ≤ 10 }
    ensures digits { list_all is_ascii_digit (take result.1 text.now) ≡ true }
    ensures value { result.0 ≡ digits_value 10 (take result.1 text.now) }
{
    let mut number = 0;
    let mut len = 0;
    for byte in &text[..MOST_DIGITS] {
        if !byte.is_ascii_digit() {
            break;
        }
        number = number * 10 + u64::from(*byte - b'0');
        len += 1;
    }
    (number, len)
}
