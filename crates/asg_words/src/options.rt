//! The options of the commands: which go with which, and what their values say.

ghost use Rattle.std.specs.Prelude.{◌≡◌};
ghost use Rattle.asg_words.specs.FoundRequests.{count_of, each_of, format_of, place_of, takes_options};
ghost use Rattle.asg_words.specs.FoundRequests.{wants_algebraic};

use crate::found_lists::FoundWords;
use crate::named::{Command, format_named};
use crate::numbers::small_number;
use asg_model::Place;
use asg_model::limits::{MOST_CAPACITY, MOST_RANKED, MOST_ROWS};
use asg_text::Format;

// Whether the options that stand go with the command, and those that it can't be without stand.
pub fn takes_options(command: Command, found: &FoundWords<'_, '_>) -> bool
    ensures { result ≡ takes_options command found.now }
{
    let has_count = found.count.is_some();
    let has_place = found.place.is_some();
    let has_script = found.script.is_some();
    match command {
        Command::Solve | Command::Edit => !has_count && !has_script,
        Command::Rank => has_count && !has_place && !has_script,
        Command::Check => !found.brief && !(has_count && (has_script || has_place)),
        Command::Make => {
            !found.brief
                && found.format.is_none()
                && !has_place
                && found.each.is_none()
                && !has_count
                && !has_script
        }
    }
}

// Whether the command takes algebraic objectives alone: it ranks or edits, or checks what these
// write.
pub fn wants_algebraic(command: Command, found: &FoundWords<'_, '_>) -> bool
    ensures { result ≡ wants_algebraic command found.now }
{
    match command {
        Command::Rank | Command::Edit => true,
        Command::Check => found.count.is_some() || found.script.is_some(),
        Command::Solve | Command::Make => false,
    }
}

// The format: `square` where none is named.
pub fn format(found: &FoundWords<'_, '_>) -> Option<Format>
    ensures { result ≡ format_of found.now }
{
    match found.format {
        Some(name) => format_named(name),
        None => Some(Format::Square),
    }
}

// The place rule: all rows where no number of them is given.
pub fn place(found: &FoundWords<'_, '_>) -> Option<Place>
    ensures { result ≡ place_of found.now }
{
    match found.place {
        Some(text) => Some(Place::Exactly(small_number(text, 1, MOST_ROWS as u32)?)),
        None => Some(Place::All),
    }
}

// The capacity of each column: 1 where none is given.
pub fn each(found: &FoundWords<'_, '_>) -> Option<u32>
    ensures { result ≡ each_of found.now }
{
    match found.each {
        Some(text) => small_number(text, 1, MOST_CAPACITY),
        None => Some(1),
    }
}

// The count, where one is given.
pub fn count(found: &FoundWords<'_, '_>) -> Option<Option<u32>>
    ensures { result ≡ count_of found.now }
{
    match found.count {
        Some(text) => Some(Some(small_number(text, 1, MOST_RANKED)?)),
        None => Some(None),
    }
}
