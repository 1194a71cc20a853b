//! Steps as they are read.

ghost use Rattle.std.specs.Prelude.{◌≡◌, ◌↔◌, ◌<◌, [], length, slice_index_or, IsTrue};
ghost use Rattle.asg_order.specs.declared.words.Word.{Word as W};
ghost use Rattle.asg_proof.specs.StepWords.{short_words, as_words, AreTold};

use crate::step_words::{short_at, told};
use asg_order::Word;
use std::marker::Model;

/// The steps of a [`WrittenPhase`](crate::WrittenPhase) as words, in order.
#[derive(Drop)]
pub struct Steps<'a> {
    // Of each step the grade and the amount of its short word.
    numbers: &'a [u32],
    long: &'a [Word],
}

impl<'a> Model for Steps<'a> {
    ghost use Rattle.std.specs.Prelude.{List};
    ghost use Rattle.asg_order.specs.declared.words.Word.{Word as W};
    ghost use Rattle.asg_proof.specs.StepWords.{AreTold, as_words, short_words};

    ghost Value = { List W };

    ghost view = { λ steps. as_words (short_words steps.numbers.now) steps.long.now };

    ghost invariant = { λ steps. AreTold (short_words steps.numbers.now) steps.long.now };
}

impl<'a> Steps<'a> {
    // The steps whose short words have these numbers, with these long words.
    pub(crate) fn of(numbers: &'a [u32], long: &'a [Word]) -> Steps<'a>
        requires { AreTold (short_words numbers.now) long.now }
        ensures { result ≡ as_words (short_words numbers.now) long.now }
    {
        Steps { numbers, long }
    }

    /// The number of steps.
    pub fn len(&self) -> usize
        ensures { result ≡ length self.now }
    {
        self.numbers.len() / 2
    }

    /// Whether there is no step.
    pub fn is_empty(&self) -> bool
        ensures { IsTrue result ↔ (self.now ≡ []) }
    {
        self.len() == 0
    }

    /// The step at a place, counted from 0.
    pub fn get(&self, place: usize) -> Word
        requires { place < length self.now }
        ensures { (d : W) → result ≡ slice_index_or self.now place d }
    {
        told(self.long, short_at(self.numbers, place))
    }
}
