//! The cells of square and rect files.

ghost use Rattle.std.specs.Prelude.{◌≡◌, ℕ, ◌==◌, List, ◌∷◌, [], IfOk, IfErr, IfSome, IfNone};
ghost use Rattle.std.specs.Option.{option_map};
ghost use Rattle.std.specs.List.{position_or_len};
ghost use Rattle.asg_tokens.specs.Pieces.{tokens};
ghost use Rattle.asg_tokens.specs.Tables.{is_absent, cost_of, pair_cost_of, cost_in_range, cell_of, token_faults};
ghost use Rattle.asg_tokens.specs.Faults.{fault_of};
ghost use Rattle.asg_tokens.specs.NextCells.{IsShortInteger, IsCell, IsFaultyCell, cost_of_parts};

use crate::numbers;
use crate::pieces::{Separators, first_piece};
use crate::refusals::TextRefusal;
use crate::short_integers::{behind_byte, behind_space, short_integer};
use asg_model::Cost;

/// The cell that a text begins with, its cost where it isn't absent, and the text behind it.
#[derive(Clone, Copy)]
pub(crate) struct Cell<'a> {
    pub(crate) cost: Option<Cost>,
    pub(crate) rest: &'a [u8],
}

/// The cell that a text begins with, whose token stands at this place; `None` at the end of the
/// text.
#[inline]
pub(crate) fn next_cell<'a>(text: &'a [u8], place: u64) -> Result<Option<Cell<'a>>, TextRefusal>
    ensures cell { IfOk result (λ next.
        IfSome next (λ cell. IsCell place text.now cell.cost cell.rest.now)) }
    ensures none { IfOk result (λ next. IfNone next (tokens text.now ≡ [])) }
    ensures refused { IfErr result (IsFaultyCell place text.now) }
{
    match short_cell(text) {
        Some(cell) => Ok(Some(cell)),
        None => next_spaced_cell(Separators::Spaces.skip(text), place),
    }
}

// The cell that a text begins with, in the common case of short integers or an absent cell; `None`
// tells nothing of the text.
#[inline(always)]
fn short_cell<'a>(text: &'a [u8]) -> Option<Cell<'a>>
    ensures { IfSome result (λ cell. (place : ℕ) → IsCell place text.now cell.cost cell.rest.now) }
{
    match short_integer(text) {
        Some(first) => cell_from(first.value, first.rest),
        None => short_absent_cell(text),
    }
}

// The cell that begins with this integer, of which this is the text behind it: the integer alone,
// where a separator stands there, which is taken with it, or a pair; `None` tells nothing of the
// text.
#[inline(always)]
fn cell_from<'a>(first: i64, behind: &'a [u8]) -> Option<Cell<'a>>
    ensures { IfSome result (λ cell. (text : List ℕ) (place : ℕ)
        → IsShortInteger text first behind.now → IsCell place text cell.cost cell.rest.now) }
{
    match behind_space(behind) {
        Some(rest) => Some(Cell {
            cost: Some(Cost { a: first, b: 0 }),
            rest,
        }),
        None => pair_from(first, behind),
    }
}

// The same, for a pair of this integer and another short one.
#[inline]
fn pair_from<'a>(first: i64, behind: &'a [u8]) -> Option<Cell<'a>>
    ensures { IfSome result (λ cell. (text : List ℕ) (place : ℕ)
        → IsShortInteger text first behind.now → IsCell place text cell.cost cell.rest.now) }
{
    let second = short_integer(behind_byte(behind, b':')?)?;
    let rest = behind_space(second.rest)?;
    Some(Cell {
        cost: Some(Cost {
            a: first,
            b: second.value,
        }),
        rest,
    })
}

// The absent cell that a text begins with, where a separator stands behind it, which is taken with
// it; `None` tells nothing of the text.
#[inline(always)]
fn short_absent_cell<'a>(text: &'a [u8]) -> Option<Cell<'a>>
    ensures { IfSome result (λ cell. (place : ℕ) → IsCell place text.now cell.cost cell.rest.now) }
{
    if numbers::is_negative(text) {
        let rest = behind_space(&text[1..])?;
        Some(Cell { cost: None, rest })
    } else {
        None
    }
}

// The same, for a text in front of which separators stood.
fn next_spaced_cell<'a>(text: &'a [u8], place: u64) -> Result<Option<Cell<'a>>, TextRefusal>
    ensures cell { IfOk result (λ next.
        IfSome next (λ cell. IsCell place text.now cell.cost cell.rest.now)) }
    ensures none { IfOk result (λ next. IfNone next (tokens text.now ≡ [])) }
    ensures refused { IfErr result (IsFaultyCell place text.now) }
{
    match short_cell(text) {
        Some(cell) => Ok(Some(cell)),
        None => next_plain_cell(text, place),
    }
}

// The same, for every token that may stand there.
fn next_plain_cell<'a>(text: &'a [u8], place: u64) -> Result<Option<Cell<'a>>, TextRefusal>
    ensures cell { IfOk result (λ next.
        IfSome next (λ cell. IsCell place text.now cell.cost cell.rest.now)) }
    ensures none { IfOk result (λ next. IfNone next (tokens text.now ≡ [])) }
    ensures refused { IfErr result (IsFaultyCell place text.now) }
{
    match first_piece(text, Separators::Spaces) {
        Some(token) => {
            let cost = cell_cost(token.bytes, place)?;
            Ok(Some(Cell {
                cost,
                rest: token.rest,
            }))
        }
        None => Ok(None),
    }
}

// The cost of a cell token at a place, if it isn't absent.
fn cell_cost(token: &[u8], place: u64) -> Result<Option<Cost>, TextRefusal>
    ensures cost { IfOk result (λ cost. cost ≡ cell_of token.now) }
    ensures right { IfOk result (λ cost. token_faults place token.now ≡ []) }
    ensures refused { IfErr result (λ refusal.
        IfSome (fault_of refusal) (λ fault. token_faults place token.now ≡ fault ∷ [])) }
{
    if is_absent(token) {
        return Ok(None);
    }
    match cost(token) {
        Some(Some(cost)) => Ok(Some(cost)),
        Some(None) => Err(TextRefusal::CostRange(place)),
        None => Err(TextRefusal::BadToken(place)),
    }
}

// Whether the token is that of an absent cell.
fn is_absent(token: &[u8]) -> bool
    ensures { result ≡ is_absent token.now }
{
    token == b"-".as_slice()
}

/// The cost that a token spells, or `Some(None)` where a part is out of range; `None` where it
/// spells none.
pub fn cost(token: &[u8]) -> Option<Option<Cost>>
    ensures { result ≡ option_map cost_in_range (cost_of token.now) }
{
    match numbers::integer(token) {
        Some(a) => Some(cost_of_parts(a, Some(0))),
        None => pair(token),
    }
}

// The same, for a pair of integers with a colon between them.
fn pair(token: &[u8]) -> Option<Option<Cost>>
    ensures { result ≡ option_map cost_in_range (pair_cost_of token.now) }
{
    let colon = len_before_colon(token);
    if colon == token.len() {
        return None;
    }
    let a = numbers::integer(&token[..colon])?;
    let b = numbers::integer(&token[colon + 1..])?;
    Some(cost_of_parts(a, b))
}

// How many bytes stand before the first colon.
fn len_before_colon(token: &[u8]) -> usize
    ensures { result ≡ position_or_len (λ byte. byte == 58) token.now }
{
    token.iter().take_while(|byte| **byte != b':').count()
}

// The cost of two parts, where both are in range.
fn cost_of_parts(a: Option<i64>, b: Option<i64>) -> Option<Cost>
    ensures { result ≡ cost_of_parts a b }
{
    Some(Cost { a: a?, b: b? })
}
