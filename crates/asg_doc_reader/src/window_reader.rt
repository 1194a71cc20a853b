//! Readers of windows.

ghost use Rattle.std.specs.Prelude.{ℕ, ℤ, List, FitsSigned, MatchOption, SomeIff};
ghost use Rattle.std.specs.Int.{w64};
ghost use Rattle.asg_grammar.specs.Parts.{counted};
ghost use Rattle.asg_grammar.specs.Reading.{ReadsOrFails};
ghost use Rattle.asg_grammar.specs.Spellings.{Spells, SpellsOrFails};
ghost use Rattle.asg_doc_reader.specs.DocumentParts.{HasBounds, bound_spelling, window_spelling};
ghost use Rattle.asg_doc_reader.specs.DocumentParts.{window_part};

use asg_grammar::{Fault, Lines, after, cut, numbers, signed_number};
use asg_proof::{Ids, Window, Windows};
use std::alloc::Global;

// A signed number of 64 bits.
fn short_of(number: i128) -> Option<i64>
    ensures { SomeIff result (FitsSigned w64 number) number }
{
    i64::try_from(number).ok()
}

// The signed number of 64 bits that a word spells.
pub(crate) fn bound_of(word: &[u8]) -> Option<i64>
    ensures { Spells bound_spelling word.now result }
{
    short_of(signed_number(word)?)
}

// The two bounds that come first, with a space between them, and what follows them.
fn bounds_of(text: &[u8]) -> Option<((i64, i64), &[u8])>
    ensures { MatchOption result
        ((lo hi : ℤ) (rest : List ℕ) → HasBounds text.now lo hi rest → ⊥)
        (λ parts. HasBounds text.now parts.0.0 parts.0.1 parts.1.now) }
{
    let (lo, rest) = cut(b' ', text);
    let (hi, rows) = cut(b' ', after(b" ", rest)?);
    let hi = bound_of(hi)?;
    Some(((bound_of(lo)?, hi), rows))
}

// The window that a text spells.
fn window_of(alloc: Global, text: &[u8]) -> Result<Window, Fault>
    ensures { SpellsOrFails window_spelling text.now result }
{
    let Some(((lo, hi), rows)) = bounds_of(text) else {
        return Err(Fault::Refused);
    };
    let rows = numbers(alloc, rows)?;
    let mut ids = rows.into_vec();
    ids.shrink_to_fit();
    let rows = Ids::from_vec(ids);
    Ok(Window { lo, hi, rows })
}

// A window: its line.
fn window(alloc: Global, lines: &mut Lines) -> Result<Window, Fault>
    ensures { ReadsOrFails window_part lines.old lines.new result }
{
    let (text, left) = lines.next_behind(b"window ")?;
    let window = window_of(alloc, text)?;
    *lines = left;
    Ok(window)
}

// As many windows as the count says. The count takes no memory, only the windows that are read.
pub(crate) fn windows(alloc: Global, count: u32, lines: &mut Lines) -> Result<Windows, Fault>
    ensures { ReadsOrFails (counted count window_part) lines.old lines.new result }
{
    let mut windows = Vec::new(alloc);
    for _ in 0..count {
        windows.push(window(alloc, lines)?)?;
    }
    windows.shrink_to_fit();
    Ok(Windows::from_vec(windows))
}
