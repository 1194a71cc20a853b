//! What a line says behind its first word.

ghost use Rattle.std.specs.Prelude.{◌≡◌, ◌∷◌, ◌++◌, ℕ, List, IfSome, MatchOption, IsTrue};
ghost use Rattle.asg_grammar.specs.Spellings.{Spells, SpellsOrFails, ListsFirst, ListsNext, IsPair, pair_text, long_spelling, long_pair_spelling, positive_spelling, pair_spelling, signed_pair_spelling, graded_spelling, list_spelling};
ghost use Rattle.asg_grammar.specs.Lines.{IsCutAt};

use crate::byte_cuts::{after, cut};
use crate::faults::Fault;
use crate::number_lists::Numbers;
use crate::numerals::{leading_number, long_number, number, short_of, signed_number, wide_number};
use std::alloc::Global;

/// The number of 1 to 2^32 - 1 that a text spells.
pub fn positive(text: &[u8]) -> Option<u32>
    ensures { Spells positive_spelling text.now result }
{
    let number = number(text)?;
    if number == 0 {
        return None;
    }
    Some(number)
}

/// The two numbers of 32 bits that a text spells, with a space between them.
pub fn pair(text: &[u8]) -> Option<(u32, u32)>
    ensures { Spells pair_spelling text.now result }
{
    let (first, rest) = cut(b' ', text);
    let second = number(after(b" ", rest)?)?;
    Some((number(first)?, second))
}

/// The two signed numbers of 128 bits that a text spells, with a colon between them.
pub fn signed_pair(text: &[u8]) -> Option<(i128, i128)>
    ensures { Spells signed_pair_spelling text.now result }
{
    let (first, rest) = cut(b':', text);
    let second = signed_number(after(b":", rest)?)?;
    Some((signed_number(first)?, second))
}

/// The number of 64 bits and the one of 128 bits that a text spells, with a colon between them.
pub fn graded(text: &[u8]) -> Option<(u64, u128)>
    ensures { Spells graded_spelling text.now result }
{
    let (grade, rest) = cut(b':', text);
    let amount = wide_number(after(b":", rest)?)?;
    Some((long_number(grade)?, amount))
}

// The two numbers of the line that comes first, and what follows its LF: some only where a line of
// two numbers does. They are read in one pass.
pub(crate) fn leading_pair(bytes: &[u8]) -> Option<((u32, u32), &[u8])>
    ensures { IfSome result
        (λ parts. IsPair parts.0 × (bytes.now ≡ pair_text parts.0 ++ 10 ∷ parts.1.now)) }
{
    let (first, rest) = leading_number(bytes)?;
    let (second, rest) = leading_number(after(b" ", rest)?)?;
    let pair = (short_of(first)?, short_of(second)?);
    Some((pair, after(b"\n", rest)?))
}

// Whether no bytes are left, or a space comes first.
fn is_cut(rest: &[u8]) -> bool
    ensures { IsTrue result → IsCutAt 32 rest.now }
{
    match rest {
        [] => true,
        [first, ..] => *first == b' ',
    }
}

// The number of at most 18 digits after a space that comes first, and what follows it: some only
// where that is nothing or begins with a space. It is read in one pass.
fn short_long(text: &[u8]) -> Option<(u64, &[u8])>
    ensures { IfSome result
        (λ parts. ListsNext long_spelling text.now parts.0 parts.1.now) }
{
    let (number, rest) = leading_number(after(b" ", text)?)?;
    if is_cut(rest) {
        Some((number, rest))
    } else {
        None
    }
}

// The number of 64 bits after a space that comes first, by a cut at the next space, and what
// follows it.
fn long_cut(text: &[u8]) -> Option<(u64, &[u8])>
    ensures { MatchOption result
        ((number : ℕ) (rest : List ℕ) → ListsNext long_spelling text.now number rest → ⊥)
        (λ parts. ListsNext long_spelling text.now parts.0 parts.1.now) }
{
    let (word, rest) = cut(b' ', after(b" ", text)?);
    Some((long_number(word)?, rest))
}

/// The number of 64 bits after a space that comes first, and what follows it; none exactly where no
/// such number stands between a space that comes first and the next space or the end. One of at
/// most 18 digits is read in one pass.
pub fn next_long(text: &[u8]) -> Option<(u64, &[u8])>
    ensures { MatchOption result
        ((number : ℕ) (rest : List ℕ) → ListsNext long_spelling text.now number rest → ⊥)
        (λ parts. ListsNext long_spelling text.now parts.0 parts.1.now) }
{
    if let Some(parts) = short_long(text) {
        return Some(parts);
    }
    long_cut(text)
}

// The two numbers of 64 bits that a text spells, with a colon between them.
fn long_pair(text: &[u8]) -> Option<(u64, u64)>
    ensures { Spells long_pair_spelling text.now result }
{
    let (grade, rest) = cut(b':', text);
    let amount = long_number(after(b":", rest)?)?;
    Some((long_number(grade)?, amount))
}

// The two numbers of at most 18 digits after a space that comes first, with a colon between them,
// and what follows them: some only where that is nothing or begins with a space. They are read in
// one pass.
fn short_graded(text: &[u8]) -> Option<((u64, u64), &[u8])>
    ensures { IfSome result
        (λ parts. ListsNext long_pair_spelling text.now parts.0 parts.1.now) }
{
    let (grade, rest) = leading_number(after(b" ", text)?)?;
    let (amount, rest) = leading_number(after(b":", rest)?)?;
    if is_cut(rest) {
        Some(((grade, amount), rest))
    } else {
        None
    }
}

// The two numbers of 64 bits after a space that comes first, with a colon between them, by cuts at
// the next space and at the colon, and what follows them.
fn graded_cut(text: &[u8]) -> Option<((u64, u64), &[u8])>
    ensures { MatchOption result
        ((pair : ℕ × ℕ) (rest : List ℕ) → ListsNext long_pair_spelling text.now pair rest → ⊥)
        (λ parts. ListsNext long_pair_spelling text.now parts.0 parts.1.now) }
{
    let (word, rest) = cut(b' ', after(b" ", text)?);
    Some((long_pair(word)?, rest))
}

/// The two numbers of 64 bits after a space that comes first, with a colon between them, and what
/// follows them; none exactly where no two such numbers stand between a space that comes first and
/// the next space or the end. Those of at most 18 digits are read in one pass.
pub fn next_graded(text: &[u8]) -> Option<((u64, u64), &[u8])>
    ensures { MatchOption result
        ((pair : ℕ × ℕ) (rest : List ℕ) → ListsNext long_pair_spelling text.now pair rest → ⊥)
        (λ parts. ListsNext long_pair_spelling text.now parts.0 parts.1.now) }
{
    if let Some(parts) = short_graded(text) {
        return Some(parts);
    }
    graded_cut(text)
}

// The number of 32 bits and at most 18 digits after a space that comes first, and what follows it.
fn next_short(text: &[u8]) -> Option<(u32, &[u8])>
    ensures { IfSome result (λ parts. ListsFirst text.now parts.0 parts.1.now) }
{
    let (number, rest) = short_long(text)?;
    Some((short_of(number)?, rest))
}

// The number after a space that comes first, by a cut at the next space, and what follows it.
fn next_cut(text: &[u8]) -> Option<(u32, &[u8])>
    ensures { MatchOption result ((n : ℕ) (rest : List ℕ) → ListsFirst text.now n rest → ⊥)
        (λ parts. ListsFirst text.now parts.0 parts.1.now) }
{
    let (word, rest) = cut(b' ', after(b" ", text)?);
    Some((number(word)?, rest))
}

// The number after a space that comes first, and what follows it.
fn next_number(text: &[u8]) -> Option<(u32, &[u8])>
    ensures { MatchOption result ((n : ℕ) (rest : List ℕ) → ListsFirst text.now n rest → ⊥)
        (λ parts. ListsFirst text.now parts.0 parts.1.now) }
{
    if let Some(parts) = next_short(text) {
        return Some(parts);
    }
    next_cut(text)
}

/// The numbers of 32 bits that a text lists, each after a space: at least one. They alone take
/// memory.
pub fn numbers(alloc: Global, text: &[u8]) -> Result<Numbers, Fault>
    ensures { SpellsOrFails list_spelling text.now result }
{
    let mut numbers = Vec::new(alloc);
    let mut rest = text;
    while let Some((number, left)) = next_number(rest) {
        numbers.push(number)?;
        rest = left;
    }
    if numbers.is_empty() || !rest.is_empty() {
        return Err(Fault::Refused);
    }
    Ok(Numbers::from_vec(numbers))
}
