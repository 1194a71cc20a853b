//! The words of documents, read.

ghost use Rattle.std.specs.Prelude.{◌≡◌};
ghost use Rattle.asg_grammar.specs.Spellings.{Spells};
ghost use Rattle.asg_doc.specs.Words.{form_of};
ghost use Rattle.asg_doc_reader.specs.WordSpellings.{command_spelling, cap_spelling, status_word};
ghost use Rattle.asg_doc_reader.specs.WordSpellings.{named_spelling, asked_spelling};
ghost use Rattle.asg_doc_reader.specs.WordSpellings.{objective_spelling, status_spelling};

use crate::heads::Status;
use asg_doc::{Command, ValueForm, word_of_command};
use asg_grammar::{after, number, wide_number};
use asg_model::limits::{MOST_CAP, MOST_RANKED};
use asg_model::{Objective, uncapped_named};

// The command that has this word; none where none has.
pub(crate) fn command_of(word: &[u8]) -> Option<Command>
    ensures { Spells command_spelling word.now result }
{
    if word == word_of_command(Command::Solve) {
        return Some(Command::Solve);
    }
    if word == word_of_command(Command::Rank) {
        return Some(Command::Rank);
    }
    if word == word_of_command(Command::Edit) {
        return Some(Command::Edit);
    }
    None
}

// The cap that a word spells, 1 to 10^12.
fn cap_of(word: &[u8]) -> Option<u64>
    ensures { Spells cap_spelling word.now result }
{
    let cap = wide_number(word)?;
    if cap == 0 {
        return None;
    }
    if cap > u128::from(MOST_CAP) {
        return None;
    }
    Some(cap as u64)
}

// How many answers a word asks for, 1 to 4,000,000.
pub(crate) fn asked_of(word: &[u8]) -> Option<u32>
    ensures { Spells asked_spelling word.now result }
{
    let count = number(word)?;
    if count == 0 {
        return None;
    }
    if count > MOST_RANKED {
        return None;
    }
    Some(count)
}

// The objective without a cap that has this word; none where none has.
fn named_objective(word: &[u8]) -> Option<Objective>
    ensures { Spells named_spelling word.now result }
{
    uncapped_named(word)
}

// The objective that has this word; none where none has.
pub(crate) fn objective_of(word: &[u8]) -> Option<Objective>
    ensures { Spells objective_spelling word.now result }
{
    if let Some(cap) = after(b"capped=", word) {
        return Some(Objective::Capped(cap_of(cap)?));
    }
    named_objective(word)
}

// The form of the objective's values.
pub(crate) fn form_of(objective: Objective) -> ValueForm
    ensures { result ≡ form_of objective }
{
    match objective {
        Objective::SumPair | Objective::TimeCost => ValueForm::Two,
        Objective::Lex => ValueForm::Many,
        _ => ValueForm::One,
    }
}

// The word of a status.
fn word_of_status(status: Status) -> &'static [u8]
    ensures { result.now ≡ status_word status }
{
    match status {
        Status::Best => b"best",
        Status::Nothing => b"none",
        Status::Ranked => b"ranked",
    }
}

// The status that has this word; none where none has.
pub(crate) fn status_of(word: &[u8]) -> Option<Status>
    ensures { Spells status_spelling word.now result }
{
    if word == word_of_status(Status::Best) {
        return Some(Status::Best);
    }
    if word == word_of_status(Status::Nothing) {
        return Some(Status::Nothing);
    }
    if word == word_of_status(Status::Ranked) {
        return Some(Status::Ranked);
    }
    None
}
