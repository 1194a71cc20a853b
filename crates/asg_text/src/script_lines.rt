//! What the lines of a script say.

ghost use Rattle.std.specs.Prelude.{◌≡◌};
ghost use Rattle.std.specs.Option.{option_map};
ghost use Rattle.asg_tokens.specs.Pieces.{fields};
ghost use Rattle.asg_text.specs.ScriptLines.{cost_line, cost_line_of, forbid_line_of, id_of, line_in_range, script_line_of, solve_line_of};

use asg_model::{Cost, Edit};
use asg_tokens::{Separators, first_piece, is_at_end, is_word, size};

/// A line of a script that isn't blank.
#[derive(Clone, Copy, PartialEq, Eq)]
pub enum Line {
    /// The instance is edited.
    Edit(Edit),
    /// An answer for the instance as it is then is due.
    Solve,
}

/// What a line says, or `Some(None)` where its cost is out of range; `None` where it has no form.
#[tactic(auto, unfolding(crate::specs::ScriptLines::script_line_of))]
pub(crate) fn read_line(text: &[u8]) -> Option<Option<Line>>
    ensures { result ≡ option_map line_in_range (script_line_of (fields text.now)) }
{
    let word = first_piece(text, Separators::Blanks)?;
    if is_word(word.bytes, b"cost") {
        read_cost(word.rest)
    } else if is_word(word.bytes, b"forbid") {
        read_forbid(word.rest)
    } else if is_word(word.bytes, b"drop-row") {
        let row = read_id(word.rest)?;
        Some(Some(Line::Edit(Edit::DropRow { row })))
    } else if is_word(word.bytes, b"drop-column") {
        let col = read_id(word.rest)?;
        Some(Some(Line::Edit(Edit::DropColumn { col })))
    } else if is_word(word.bytes, b"solve") {
        read_solve(word.rest)
    } else {
        None
    }
}

// The line `cost ROW COL COST`, from its second field on, or `Some(None)` where the cost is out of
// range.
fn read_cost(text: &[u8]) -> Option<Option<Line>>
    ensures { result ≡ option_map line_in_range (cost_line_of (fields text.now)) }
{
    let row = first_piece(text, Separators::Blanks)?;
    let col = first_piece(row.rest, Separators::Blanks)?;
    let cost = first_piece(col.rest, Separators::Blanks)?;
    if !is_at_end(cost.rest) {
        return None;
    }
    let row = size(row.bytes)?;
    let col = size(col.bytes)?;
    let cost = asg_tokens::cost(cost.bytes)?;
    Some(cost_line(row, col, cost))
}

// The line that gives a cell this cost, where there is one.
fn cost_line(row: u32, col: u32, cost: Option<Cost>) -> Option<Line>
    ensures { result ≡ option_map (cost_line row col) cost }
{
    let cost = cost?;
    Some(Line::Edit(Edit::Cost { row, col, cost }))
}

// The line `forbid ROW COL`, from its second field on.
fn read_forbid(text: &[u8]) -> Option<Option<Line>>
    ensures { result ≡ option_map line_in_range (forbid_line_of (fields text.now)) }
{
    let row = first_piece(text, Separators::Blanks)?;
    let col = first_piece(row.rest, Separators::Blanks)?;
    if !is_at_end(col.rest) {
        return None;
    }
    let row = size(row.bytes)?;
    let col = size(col.bytes)?;
    Some(Some(Line::Edit(Edit::Forbid { row, col })))
}

// The one id that a line names, from its second field on.
fn read_id(text: &[u8]) -> Option<u32>
    ensures { result ≡ id_of (fields text.now) }
{
    let id = first_piece(text, Separators::Blanks)?;
    if is_at_end(id.rest) {
        size(id.bytes)
    } else {
        None
    }
}

// The line `solve`, from its second field on.
fn read_solve(text: &[u8]) -> Option<Option<Line>>
    ensures { result ≡ option_map line_in_range (solve_line_of (fields text.now)) }
{
    if is_at_end(text) {
        Some(Some(Line::Solve))
    } else {
        None
    }
}
