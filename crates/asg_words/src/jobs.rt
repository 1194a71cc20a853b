//! What a command is to do, from what was found in the words.

ghost use Rattle.std.specs.Prelude.{◌≡◌, Some, slice_get};
ghost use Rattle.asg_words.specs.FoundRequests.{Answers, job_of, made_by, objective_of, task_of};

use crate::found_lists::FoundWords;
use crate::limits::MOST_SEED;
use crate::named::{Command, is_algebraic, objective_named};
use crate::numbers::small_number;
use crate::options::{count, each, format, place, wants_algebraic};
use crate::{FileName, Job, Request, Task, WordsRefusal};
use asg_model::Objective;
use asg_model::limits::MOST_ROWS;
use std::alloc::Global;

// The objective: the first word names one that the command takes.
fn objective(command: Command, found: &FoundWords<'_, '_>) -> Option<Objective>
    ensures { result ≡ objective_of command found.now }
{
    let objective = objective_named(found.word(0)?)?;
    if !wants_algebraic(command, found) || is_algebraic(objective) {
        Some(objective)
    } else {
        None
    }
}

// The file that the word at a place names.
fn file(alloc: Global, found: &FoundWords<'_, '_>, place: usize) -> Result<FileName, WordsRefusal>
    ensures { Answers (slice_get found.now.words place) result }
{
    let word = found.word(place).ok_or(WordsRefusal::Usage)?;
    Ok(FileName::from_word(alloc, word)?)
}

// The script, where one is given.
fn script(alloc: Global, found: &FoundWords<'_, '_>) -> Result<Option<FileName>, WordsRefusal>
    ensures { Answers (Some found.now.script) result }
{
    match found.script {
        Some(word) => Ok(Some(FileName::from_word(alloc, word)?)),
        None => Ok(None),
    }
}

// What is to be ranked: so many choices.
fn rank(found: &FoundWords<'_, '_>) -> Option<Task>
    ensures { result ≡ task_of Command.Rank found.now }
{
    Some(Task::Rank(count(found)??))
}

// What is to be checked: the answer, and with it the script or the count.
fn check(alloc: Global, found: &FoundWords<'_, '_>) -> Result<Task, WordsRefusal>
    ensures { Answers (task_of Command.Check found.now) result }
{
    let count = count(found).ok_or(WordsRefusal::Usage)?;
    let answer = file(alloc, found, 2)?;
    let script = script(alloc, found)?;
    Ok(Task::Check {
        answer,
        script,
        count,
    })
}

// What is to be done with the instance.
fn task(alloc: Global, command: Command, found: &FoundWords<'_, '_>) -> Result<Task, WordsRefusal>
    ensures { Answers (task_of command found.now) result }
{
    match command {
        Command::Solve => Ok(Task::Solve),
        Command::Rank => rank(found).ok_or(WordsRefusal::Usage),
        Command::Edit => Ok(Task::Edit(file(alloc, found, 2)?)),
        Command::Check => check(alloc, found),
        Command::Make => Err(WordsRefusal::Usage),
    }
}

// The task, and how the instance is read: the second word names its file.
pub fn job(alloc: Global, command: Command, found: &FoundWords<'_, '_>) -> Result<Job, WordsRefusal>
    ensures { Answers (job_of command found.now) result }
{
    let objective = objective(command, found).ok_or(WordsRefusal::Usage)?;
    let format = format(found).ok_or(WordsRefusal::Usage)?;
    let place = place(found).ok_or(WordsRefusal::Usage)?;
    let each = each(found).ok_or(WordsRefusal::Usage)?;
    let instance = file(alloc, found, 1)?;
    let task = task(alloc, command, found)?;
    Ok(Job {
        task,
        objective,
        instance,
        format,
        place,
        each,
        brief: found.brief,
    })
}

// The instance to be made: the words are its seed and its side.
pub fn made(found: &FoundWords<'_, '_>) -> Option<Request>
    ensures { result ≡ made_by found.now }
{
    let seed = small_number(found.word(0)?, 0, MOST_SEED)?;
    let side = small_number(found.word(1)?, 1, MOST_ROWS as u32)?;
    Some(Request::Make { seed, side })
}
