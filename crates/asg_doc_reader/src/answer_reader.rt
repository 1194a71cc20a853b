//! Readers of answers: a value behind a word, and cells.

ghost use Rattle.std.specs.Prelude.{◌≡◌};
ghost use Rattle.asg_grammar.specs.Lines.{line_ends};
ghost use Rattle.asg_grammar.specs.Parts.{counted};
ghost use Rattle.asg_grammar.specs.Reading.{ReadsOrFails};
ghost use Rattle.asg_grammar.specs.Spellings.{Spells, SpellsOrFails};
ghost use Rattle.asg_doc.specs.declared.documents.ValueForm.TheVariants.{One, Two, Many};
ghost use Rattle.asg_doc_reader.specs.DocumentParts.{value_spelling, value_part, cell_part, answer_part};

use crate::cost_reader::costs_of;
use crate::words::form_of;
use asg_doc::{Answer, Cells, ValueForm};
use asg_grammar::{Fault, Lines, after, signed_number, signed_pair};
use asg_model::{Objective, Value};
use std::alloc::Global;

// The value of one number that a text spells behind a space.
fn one_value(text: &[u8]) -> Option<Value>
    ensures { Spells (value_spelling One) text.now result }
{
    let number = signed_number(after(b" ", text)?)?;
    Some(Value::One(number))
}

// The value of two numbers that a text spells behind a space.
fn two_value(text: &[u8]) -> Option<Value>
    ensures { Spells (value_spelling Two) text.now result }
{
    let (first, second) = signed_pair(after(b" ", text)?)?;
    Some(Value::Two(first, second))
}

// The value that a text spells by a list of costs. They alone take memory.
fn many_value(alloc: Global, text: &[u8]) -> Result<Value, Fault>
    ensures { SpellsOrFails (value_spelling Many) text.now result }
{
    let costs = costs_of(alloc, text)?;
    Ok(Value::Many(costs))
}

// The value of a form that a text spells.
fn value_of(alloc: Global, form: ValueForm, text: &[u8]) -> Result<Value, Fault>
    ensures { SpellsOrFails (value_spelling form) text.now result }
{
    match form {
        ValueForm::One => one_value(text).ok_or(Fault::Refused),
        ValueForm::Two => two_value(text).ok_or(Fault::Refused),
        ValueForm::Many => many_value(alloc, text),
    }
}

// The value of its line behind a word, of the form that the objective asks for.
fn value(
    alloc: Global,
    word: &[u8],
    objective: Objective,
    lines: &mut Lines,
) -> Result<Value, Fault>
    ensures { ReadsOrFails (value_part word.now objective) lines.old lines.new result }
{
    let (text, left) = lines.next_behind(word)?;
    let value = value_of(alloc, form_of(objective), text)?;
    *lines = left;
    Ok(value)
}

// How many cells a count has room taken for before they are read.
const READY: u32 = 1_000;

// As many cells as the count says. It has room taken for no more than these, if so many; more are
// given room as they are read.
fn cells(alloc: Global, count: u32, lines: &mut Lines) -> Result<Cells, Fault>
    ensures { ReadsOrFails (counted count cell_part) lines.old lines.new result }
{
    let mut cells = Vec::with_capacity(alloc, count.min(READY) as usize)?;
    for _ in 0..count {
        cells.push(lines.pair()?)?;
    }
    cells.shrink_to_fit();
    Ok(Cells::from_vec(cells))
}

// A value behind a word, in which no LF stands, and cells.
pub(crate) fn answer(
    alloc: Global,
    word: &[u8],
    objective: Objective,
    lines: &mut Lines,
) -> Result<Answer, Fault>
    requires { line_ends word.now ≡ 0 }
    ensures { ReadsOrFails (answer_part word.now objective) lines.old lines.new result }
{
    let value = value(alloc, word, objective, lines)?;
    let count = lines.positive(b"cells ")?;
    let cells = cells(alloc, count, lines)?;
    Ok(Answer { value, cells })
}
