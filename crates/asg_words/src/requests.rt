//! What the words of a command line ask for.

ghost use Rattle.std.specs.Prelude.{◌≡◌};
ghost use Rattle.asg_words.specs.declared.requests.WordsRefusal.TheVariants.{NoMemory};

use crate::FileName;
use asg_model::{Objective, Place};
use asg_text::Format;
use std::alloc::AllocError;
use std::fmt;

/// What is to be done with an instance.
#[derive(Drop)]
pub enum Task {
    /// The best choice.
    Solve,
    /// The so many best choices in order, from 1 to 4,000,000.
    Rank(u32),
    /// The edits of the script of this name, and the best choice wherever it says `solve`.
    Edit(FileName),
    /// Whether the answer's documents certify. With a script each of its `solve` lines has one;
    /// with a count (1 to 4,000,000) the one document is a ranking of so many choices.
    Check {
        answer: FileName,
        script: Option<FileName>,
        count: Option<u32>,
    },
}

/// A task over an instance, and how the instance is read.
#[derive(Drop)]
pub struct Job {
    pub task: Task,
    pub objective: Objective,
    /// The file of the instance.
    pub instance: FileName,
    pub format: Format,
    pub place: Place,
    /// The capacity of each column, 1 to 1,000.
    pub each: u32,
    /// One line in place of each document.
    pub brief: bool,
}

/// What a command line asks for.
#[derive(Drop)]
pub enum Request {
    Work(Job),
    /// A generated instance: the seed is at most 1,000,000, the side 1 to 1,000.
    Make { seed: u32, side: u32 },
}

/// Why words give no request.
#[derive(Clone, Copy, PartialEq, Eq)]
pub enum WordsRefusal {
    /// The words aren't those of a request.
    Usage,
    /// Memory was wanting.
    NoMemory,
}

impl fmt::Display for WordsRefusal {
    fn fmt<W: fmt::Write>(&self, f: &mut fmt::Formatter<W>) -> fmt::Result {
        match self {
            WordsRefusal::Usage => write!(f, "the words ask for nothing that can be done"),
            WordsRefusal::NoMemory => write!(f, "out of memory"),
        }
    }
}

impl From<AllocError> for WordsRefusal {
    ghost from_gives = { λ _ refusal. refusal ≡ NoMemory };

    fn from(_: AllocError) -> Self {
        WordsRefusal::NoMemory
    }
}
