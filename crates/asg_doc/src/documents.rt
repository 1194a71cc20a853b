//! What a document says.

ghost use Rattle.std.specs.Prelude.{◌≡◌, ◌↔◌, [], length, IsTrue};

use crate::cell_lists::Cells;
use asg_model::{Objective, Value};
use asg_proof::{Ids, Proof};
use asg_rankings::Nodes;
use std::marker::Model;

/// The command that a document answers.
#[derive(Clone, Copy, PartialEq, Eq)]
pub enum Command {
    /// One best choice of an instance.
    Solve,
    /// So many best choices of an instance, in order.
    Rank,
    /// One best choice of an instance as edits have left it.
    Edit,
}

/// A choice with its value.
#[derive(Drop)]
pub struct Answer {
    pub value: Value,
    pub cells: Cells,
}

/// Answers in the order in which a document lists them.
#[derive(Drop)]
pub struct Answers {
    items: Vec<Answer>,
}

impl Model for Answers {
    ghost use Rattle.std.specs.Prelude.{List};
    ghost use Rattle.asg_doc.specs.declared.documents.Answer.{Answer as A};

    ghost Value = { List A };

    ghost view = { λ answers. answers.items.items };
}

impl Answers {
    /// The list of these answers. It takes no memory.
    pub fn from_vec(items: Vec<Answer>) -> Answers
        ensures { result ≡ items.items }
    {
        Answers { items }
    }

    /// The answers as a `Vec`. It takes no memory.
    pub fn into_vec(self) -> Vec<Answer>
        ensures { result.items ≡ self }
    {
        let Answers { items } = self;
        items
    }

    /// The answers in order.
    pub fn as_slice(&self) -> &[Answer]
        ensures { result.now ≡ self.now }
    {
        self.items.as_slice()
    }

    /// The number of answers.
    pub fn len(&self) -> usize
        ensures { result ≡ length self.now }
    {
        self.items.len()
    }

    /// Whether there is no answer.
    pub fn is_empty(&self) -> bool
        ensures { IsTrue result ↔ (self.now ≡ []) }
    {
        self.items.is_empty()
    }
}

/// What a document claims of its instance.
#[derive(Drop)]
pub enum Claim {
    /// The answer is a best choice, as the proof shows.
    Best {
        answer: Answer,
        proof: Proof,
    },
    /// No choice is valid, since the rows are a Hall set.
    Nothing {
        rows: Ids,
    },
    /// The answers are the best choices in order, as many as the count says or all that are valid,
    /// as the nodes of a search tree show.
    Ranked {
        count: u32,
        answers: Answers,
        nodes: Nodes,
    },
}

/// A document: what was asked, and what is claimed.
#[derive(Drop)]
pub struct Document {
    pub command: Command,
    pub objective: Objective,
    pub claim: Claim,
}

/// The form that the values of an objective have in a document.
#[derive(Clone, Copy, PartialEq, Eq)]
pub enum ValueForm {
    /// One signed number of 128 bits.
    One,
    /// Two of them, with a colon between.
    Two,
    /// A list of signed numbers of 64 bits, each after a space.
    Many,
}
