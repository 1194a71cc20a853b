//! From what is found in the words to the request.

ghost use Rattle.std.specs.Prelude.{◌≡◌};
ghost use Rattle.asg_words.specs.FoundRequests.{Answers, asked_by, request_found, words_after};

use crate::found_lists::FoundWords;
use crate::jobs::{job, made};
use crate::named::{Command, command_named};
use crate::options::takes_options;
use crate::{Request, WordsRefusal};
use std::alloc::Global;

// How many words follow the command's name.
fn words_after(command: Command) -> usize
    ensures { result ≡ words_after command }
{
    match command {
        Command::Solve | Command::Rank | Command::Make => 2,
        Command::Edit | Command::Check => 3,
    }
}

// What a command asks for.
fn asked(
    alloc: Global,
    command: Command,
    found: &FoundWords<'_, '_>,
) -> Result<Request, WordsRefusal>
    ensures { Answers (asked_by command found.now) result }
{
    match command {
        Command::Make => made(found).ok_or(WordsRefusal::Usage),
        _ => Ok(Request::Work(job(alloc, command, found)?)),
    }
}

/// The request that is made of what is found in the words.
///
/// `Usage` comes exactly where there is none.
pub fn request(alloc: Global, found: &FoundWords<'_, '_>) -> Result<Request, WordsRefusal>
    ensures { Answers (request_found found.now) result }
{
    let command = found
        .command
        .and_then(command_named)
        .ok_or(WordsRefusal::Usage)?;
    if found.count_words() == words_after(command) && takes_options(command, found) {
        asked(alloc, command, found)
    } else {
        Err(WordsRefusal::Usage)
    }
}
