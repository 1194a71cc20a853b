//! The cells of square and rect files where pairs of plain numbers stand one after the other: 64
//! bytes of the text are searched at once for the ends of their numbers.

ghost use Rattle.std.specs.Prelude.{◌≡◌, ◌+◌, ◌<◌, ◌≤◌, ℕ, true, Some, IfSome, length, drop, slice_index};
ghost use Rattle.std.specs.Char.{is_ascii_digit};
ghost use Rattle.asg_tokens.specs.CellBlocks.{ArePairsReadOn};
ghost use Rattle.asg_tokens.specs.NextCells.{IsCell};

use crate::cell_blocks::{Progress, SEARCHED, amount_between, from_token, other_bytes};
use crate::digit_words::amount_of;
use crate::pieces::Separators;
use asg_model::Cost;

// Where fewer pairs are found at once, the next cells are read one by one: two always fit.
const FEW_PAIRS: usize = 2;

/// Reads on pairs of plain numbers, into both lists of parts, until few are found at once: other
/// cells may follow, and pairs too. None is read where there aren't as many second parts as first
/// ones: the second parts have no room yet.
pub(crate) fn read_pair_blocks<'a>(
    from: Progress<'a>,
    firsts: &mut Vec<i64>,
    seconds: &mut Vec<i64>,
) -> Progress<'a>
    requires { from.place ≤ length firsts.old.items }
    ensures { ArePairsReadOn from.entry.rest.now result.rest.now from.entry.place result.place
        firsts.old.items firsts.new.items seconds.old.items seconds.new.items }
{
    let mut place = from.place;
    let mut rest = from.rest;
    'runs: while seconds.len() == firsts.len() && rest.len() >= SEARCHED {
        let block = read_pair_block(rest, firsts, seconds, place);
        let found = block.place - place;
        if found < FEW_PAIRS {
            return block;
        }
        place = block.place;
        rest = from_token(block.rest);
    }
    Progress { place, rest }
}

// Reads the pairs that end in the first 64 bytes of a text.
fn read_pair_block<'a>(
    text: &'a [u8],
    firsts: &mut Vec<i64>,
    seconds: &mut Vec<i64>,
    from: usize,
) -> Progress<'a>
    requires within { from ≤ length firsts.old.items }
    requires whole { length seconds.old.items ≡ length firsts.old.items }
    requires long { 72 ≤ length text.now }
    ensures { ArePairsReadOn text.now result.rest.now from result.place
        firsts.old.items firsts.new.items seconds.old.items seconds.new.items }
{
    let mut ends = other_bytes(text);
    let mut place = from;
    let mut start = 0;
    'pairs: while ends != 0 && place < firsts.len() {
        let colon = ends.trailing_zeros() as usize;
        let more = ends & !(1 << colon);
        if more == 0 {
            break;
        }
        let end = more.trailing_zeros() as usize;
        let Some(pair) = pair_between(text, start, colon, end) else {
            break;
        };
        firsts[place] = pair.a;
        seconds[place] = pair.b;
        place += 1;
        start = end + 1;
        ends = more & !(1 << end);
    }
    Progress {
        place,
        rest: &text[start..],
    }
}

// The pair of two plain numbers, from a place on, where a colon stands behind the first one and a
// separator behind the second one.
#[inline(always)]
fn pair_between(text: &[u8], start: usize, colon: usize, end: usize) -> Option<Cost>
    requires first { start ≤ colon }
    requires second { colon + 1 ≤ end }
    requires long { end + 8 ≤ length text.now }
    requires first_digits { (k : ℕ) → start ≤ k → k < colon
        → is_ascii_digit (slice_index text.now k) ≡ true }
    requires second_digits { (k : ℕ) → colon + 1 ≤ k → k < end
        → is_ascii_digit (slice_index text.now k) ≡ true }
    ensures { IfSome result (λ cost. (place : ℕ)
        → IsCell place (drop start text.now) (Some cost) (drop (end + 1) text.now)) }
{
    if text[colon] != b':' {
        return None;
    }
    let a = amount_of(text, start, colon)?;
    let b = amount_between(text, colon + 1, end)?;
    Some(Cost { a, b })
}
