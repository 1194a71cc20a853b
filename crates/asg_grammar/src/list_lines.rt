//! Lines of listed numbers, read in one pass.

ghost use Rattle.std.specs.Prelude.{◌≡◌, ◌<◌, ◌^◌, ◌++◌, ◌∷◌, IfOk, IfSome};
ghost use Rattle.std.specs.Fmt.{decimal};
ghost use Rattle.asg_grammar.specs.NumberLists.{IsNumberList};
ghost use Rattle.asg_grammar.specs.Spellings.{spaced};

use crate::byte_cuts::after;
use crate::number_lists::Numbers;
use crate::numerals::{leading_number, short_of};
use std::alloc::{AllocError, Global};

// Whether a space or LF comes first.
fn is_end(rest: &[u8]) -> bool {
    match rest {
        [first, ..] => *first == b' ' || *first == b'\n',
        [] => false,
    }
}

// The number of one digit after a space that comes first, and what follows it: some only where a
// space or LF follows.
fn next_digit(bytes: &[u8]) -> Option<(u32, &[u8])>
    ensures { IfSome result (λ parts.
        (parts.0 < 2 ^ 32) × (bytes.now ≡ 32 ∷ (decimal parts.0 ++ parts.1.now))) }
{
    let [space, digit, rest @ ..] = bytes else {
        return None;
    };
    if *space != b' ' || *digit < b'0' || *digit > b'9' || !is_end(rest) {
        return None;
    }
    Some((u32::from(*digit - b'0'), rest))
}

// The number of 32 bits and at most 18 digits after a space that comes first, and what follows it.
fn next_short(bytes: &[u8]) -> Option<(u32, &[u8])>
    ensures { IfSome result (λ parts.
        (parts.0 < 2 ^ 32) × (bytes.now ≡ 32 ∷ (decimal parts.0 ++ parts.1.now))) }
{
    let (number, rest) = leading_number(after(b" ", bytes)?)?;
    Some((short_of(number)?, rest))
}

// The number after a space that comes first, and what follows it: some only where it has 32 bits.
fn next_number(bytes: &[u8]) -> Option<(u32, &[u8])>
    ensures { IfSome result (λ parts.
        (parts.0 < 2 ^ 32) × (bytes.now ≡ 32 ∷ (decimal parts.0 ++ parts.1.now))) }
{
    if let Some(parts) = next_digit(bytes) {
        return Some(parts);
    }
    next_short(bytes)
}

// The numbers that come first behind a front, each after a space, and what follows the LF behind
// them: some only where the front, numbers and LF do. They are read in one pass, into room for so
// many, which grows where they are more and is given back where they are fewer. The error is want of
// memory.
pub(crate) fn leading_list<'a>(
    alloc: Global,
    room: usize,
    front: &[u8],
    bytes: &'a [u8],
) -> Result<Option<(Numbers, &'a [u8])>, AllocError>
    ensures { IfOk result (λ found. IfSome found (λ parts. IsNumberList parts.0
        × (bytes.now ≡ front.now ++ (spaced parts.0 ++ 10 ∷ parts.1.now)))) }
{
    let Some(text) = after(front, bytes) else {
        return Ok(None);
    };
    let mut numbers = Vec::with_capacity(alloc, room)?;
    let mut rest = text;
    'listed: while let Some((number, left)) = next_number(rest) {
        numbers.push(number)?;
        rest = left;
    }
    numbers.shrink_to_fit();
    match rest {
        [b'\n', rest @ ..] if !numbers.is_empty() => Ok(Some((Numbers::from_vec(numbers), rest))),
        _ => Ok(None),
    }
}
