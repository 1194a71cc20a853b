//! Lists of choices.

ghost use Rattle.std.specs.Prelude.{◌≡◌, ◌↔◌, [], length, IsTrue};

use asg_model::Choice;
use std::marker::Model;

/// Choices in order, the first one first.
#[derive(Drop)]
pub struct Choices {
    items: Vec<Choice>,
}

impl Model for Choices {
    ghost use Rattle.std.specs.Prelude.{List, Option, ℕ};

    ghost Value = { List (List (Option ℕ)) };

    ghost view = { λ choices. choices.items.items };
}

impl Choices {
    /// The list of these choices. It takes no memory.
    pub fn from_vec(items: Vec<Choice>) -> Choices
        ensures { result ≡ items.items }
    {
        Choices { items }
    }

    /// The choices as a `Vec`. It takes no memory.
    pub fn into_vec(self) -> Vec<Choice>
        ensures { result.items ≡ self }
    {
        let Choices { items } = self;
        items
    }

    /// The choices in order.
    pub fn as_slice(&self) -> &[Choice]
        ensures { result.now ≡ self.now }
    {
        self.items.as_slice()
    }

    /// The number of choices.
    pub fn len(&self) -> usize
        ensures { result ≡ length self.now }
    {
        self.items.len()
    }

    /// Whether there is no choice.
    pub fn is_empty(&self) -> bool
        ensures { IsTrue result ↔ (self.now ≡ []) }
    {
        self.items.is_empty()
    }
}
