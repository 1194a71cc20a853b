//! The cells of square and rect files where plain numbers and absent cells stand one after the
//! other, with one separator behind each: 64 bytes of the text are searched at once for the ends of
//! its numbers, as [Langdale and Lemire 2019] search JSON.

ghost use Rattle.std.specs.Prelude.{◌≡◌, ◌+◌, ◌<◌, ◌≤◌, ℕ, true, IfSome, length, drop, slice_index};
ghost use Rattle.std.specs.Char.{is_ascii_digit};
ghost use Rattle.asg_tokens.specs.CellBlocks.{AreDigitsFrom, AreReadOn, IsPlainCell};
ghost use Rattle.asg_tokens.specs.NextCells.{IsShortAmount, IsBehindSpace};
ghost use Rattle.asg_tokens.specs.Pieces.{tokens, is_space};

use crate::digit_words::{WORD, amount_of};
use crate::pieces::Separators;
use crate::short_integers::behind_space;
use asg_model::ABSENT;
use std::simd::prelude::*;

// How many bytes are searched at once.
const BLOCK: usize = 64;

/// How many bytes a text has at least where it is searched: a word can be read from each place in
/// the block.
pub(crate) const SEARCHED: usize = BLOCK + WORD;

// All bits past the first one.
const PAST_FIRST: u64 = 0xffff_ffff_ffff_fffe;

// Where fewer cells are found at once, the next ones are read one by one.
const FEW: usize = 4;

/// How far the cells of a table are read: the place of the next one, and the text that it begins
/// with.
#[derive(Clone, Copy)]
pub(crate) struct Progress<'a> {
    pub(crate) place: usize,
    pub(crate) rest: &'a [u8],
}

// A cell without a second part: its first part, and the place of the separator behind it.
#[derive(Clone, Copy)]
struct PlainCell {
    first: i64,
    end: usize,
}

/// Reads plain numbers and absent cells that a text begins with into the first parts, from a place
/// on, until few are found at once: other cells may follow, and such cells too.
pub(crate) fn read_blocks<'a>(text: &'a [u8], firsts: &mut Vec<i64>, from: usize) -> Progress<'a>
    requires { from ≤ length firsts.old.items }
    ensures { AreReadOn text.now result.rest.now from result.place firsts.old.items
        firsts.new.items }
{
    let mut place = from;
    let mut rest = from_token(text);
    'runs: while rest.len() >= SEARCHED && firsts.len() - place >= BLOCK {
        let block = read_block(rest, firsts, place);
        let found = block.place - place;
        if found < FEW {
            return block;
        }
        place = block.place;
        rest = from_token(block.rest);
    }
    Progress { place, rest }
}

/// The text behind the separators that it begins with.
#[inline]
pub(crate) fn from_token<'a>(text: &'a [u8]) -> &'a [u8]
    ensures { tokens result.now ≡ tokens text.now }
{
    match behind_space(text) {
        Some(rest) => Separators::Spaces.skip(rest),
        None => text,
    }
}

// Reads the plain numbers and the absent cells that end in the first 64 bytes of a text: each byte
// has a place.
fn read_block<'a>(text: &'a [u8], firsts: &mut Vec<i64>, from: usize) -> Progress<'a>
    requires room { from + 64 ≤ length firsts.old.items }
    requires long { 72 ≤ length text.now }
    ensures { AreReadOn text.now result.rest.now from result.place firsts.old.items
        firsts.new.items }
{
    let mut ends = other_bytes(text);
    let mut place = from;
    let mut start = 0;
    'cells: while ends != 0 {
        let end = ends.trailing_zeros() as usize;
        let Some(cell) = cell_between(text, start, end) else {
            break;
        };
        firsts[place] = cell.first;
        place += 1;
        start = cell.end + 1;
        ends &= PAST_FIRST << cell.end;
    }
    Progress {
        place,
        rest: &text[start..],
    }
}

// The plain number or the absent cell that begins at `start`, from where on the bytes before `end`
// are digits; `None` tells nothing of the text.
#[inline(always)]
fn cell_between(text: &[u8], start: usize, end: usize) -> Option<PlainCell>
    requires order { start ≤ end }
    requires block { end < 64 }
    requires long { 72 ≤ length text.now }
    requires digits { (k : ℕ) → start ≤ k → k < end
        → is_ascii_digit (slice_index text.now k) ≡ true }
    ensures order { IfSome result (λ cell. start ≤ cell.end) }
    ensures block { IfSome result (λ cell. cell.end < 64) }
    ensures cell { IfSome result (λ cell.
        IsPlainCell (drop start text.now) cell.first (drop (cell.end + 1) text.now)) }
{
    if start == end {
        absent_at(text, start)
    } else {
        let first = amount_between(text, start, end)?;
        Some(PlainCell { first, end })
    }
}

// The absent cell whose token stands at a place; `None` tells nothing of the text.
#[inline(always)]
fn absent_at(text: &[u8], place: usize) -> Option<PlainCell>
    requires block { place < 64 }
    requires long { 72 ≤ length text.now }
    ensures order { IfSome result (λ cell. place ≤ cell.end) }
    ensures block { IfSome result (λ cell. cell.end < 64) }
    ensures cell { IfSome result (λ cell.
        IsPlainCell (drop place text.now) cell.first (drop (cell.end + 1) text.now)) }
{
    if text[place] != b'-' {
        return None;
    }
    let behind = place + 1;
    if behind == BLOCK {
        return None;
    }
    if !is_space(text[behind]) {
        return None;
    }
    Some(PlainCell {
        first: ABSENT,
        end: behind,
    })
}

/// Which of the first 64 bytes of the text are no digits: bit k tells it of byte k.
#[inline]
pub(crate) fn other_bytes(text: &[u8]) -> u64
    requires { 64 ≤ length text.now }
    ensures { AreDigitsFrom 0 text.now result }
{
    !(u8x64::from_slice(text) - u8x64::splat(b'0'))
        .simd_lt(u8x64::splat(10))
        .to_bitmask()
}

/// The number between two places, of at most ten digits and at most 10^9, where a separator stands
/// behind it.
#[inline(always)]
pub(crate) fn amount_between(text: &[u8], start: usize, end: usize) -> Option<i64>
    requires order { start ≤ end }
    requires long { end + 8 ≤ length text.now }
    requires digits { (k : ℕ) → start ≤ k → k < end
        → is_ascii_digit (slice_index text.now k) ≡ true }
    ensures amount { IfSome result (λ amount.
        IsShortAmount (drop start text.now) amount (drop end text.now)) }
    ensures space { IfSome result (λ amount.
        IsBehindSpace (drop end text.now) (drop (end + 1) text.now)) }
{
    if is_space(text[end]) {
        amount_of(text, start, end)
    } else {
        None
    }
}

// Whether a byte separates tokens. Mostly it is a space: the test for that stands by itself.
#[inline(always)]
fn is_space(byte: u8) -> bool
    ensures { result ≡ is_space byte }
{
    if byte == b' ' {
        return true;
    }
    is_rare_space(byte)
}

// The same, for each byte.
#[cold]
#[inline(never)]
fn is_rare_space(byte: u8) -> bool
    ensures { result ≡ is_space byte }
{
    Separators::Spaces.has(byte)
}
