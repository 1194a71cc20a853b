//! Lists of numbers as they were read.

ghost use Rattle.std.specs.Prelude.{◌≡◌, length};
ghost use Rattle.asg_grammar.specs.NumberLists.{AreNumbers};

use std::marker::Model;

/// A list of numbers of 32 bits.
#[derive(Drop)]
pub struct Numbers {
    items: Vec<u32>,
}

impl Model for Numbers {
    ghost use Rattle.std.specs.Prelude.{List, ℕ};
    ghost use Rattle.asg_grammar.specs.NumberLists.{AreNumbers};

    ghost Value = { List ℕ };

    ghost view = { λ numbers. numbers.items.items };

    ghost invariant = { λ numbers. AreNumbers numbers.items.items };
}

impl Numbers {
    /// The list of these numbers. It takes no memory.
    pub fn from_vec(items: Vec<u32>) -> Numbers
        ensures items { result ≡ items.items }
        ensures within { AreNumbers result }
    {
        Numbers { items }
    }

    // How many they are.
    pub(crate) fn len(&self) -> usize
        ensures { result ≡ length self.now }
    {
        self.items.len()
    }

    /// The numbers as a `Vec`. It takes no memory.
    pub fn into_vec(self) -> Vec<u32>
        ensures items { result.items ≡ self }
        ensures within { AreNumbers self }
    {
        let Numbers { items } = self;
        items
    }
}
