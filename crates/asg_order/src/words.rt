//! Words: how the values of a monoid are written.

ghost use Rattle.std.specs.Prelude.{◌≡◌, Option};
ghost use Rattle.asg_order.specs.declared.words.Word.{Word};
ghost use Rattle.asg_order.specs.Monoid.{IsValue};

use crate::ordered::DMonoid;

/// The written form of a value: a grade and an amount. A value that has no grade is written with 0.
#[derive(Clone, Copy, PartialEq, Eq)]
pub struct Word {
    pub grade: u64,
    pub amount: u128,
}

/// A d-monoid whose values have words, no two values the same.
pub trait Written: DMonoid {
    // The word of a value.
    ghost word_of: { Self → Self.Value → Word };

    // The value that has a word, if one has it.
    ghost value_of: { Self → Word → Option Self.Value };

    /// The word of a value.
    fn to_word(&self, x: Self::Value) -> Word
        requires { IsValue (Self.monoid_of self.now) x }
        ensures { result ≡ word_of self.now x };

    /// The value that has the word; `None` exactly where no value has it.
    fn from_word(&self, w: Word) -> Option<Self::Value>
        ensures { result ≡ value_of self.now w };

    ghost use Rattle.asg_order.specs.Words.{HasWords};

    // The laws of words.
    ghost word_laws: { (m : Self) → HasWords (Self.monoid_of m) (word_of m) (value_of m) };
}
