//! Trails.

ghost use Rattle.std.specs.Prelude.{◌≡◌};

use std::marker::Model;

/// A list of phases of a region, by its number there. A trail that was released is no trail of its
/// region any more, and its number may be given to another one.
#[derive(Clone, Copy, PartialEq, Eq)]
pub struct Trail {
    number: u32,
}

impl Model for Trail {
    ghost use Rattle.std.specs.Prelude.{ℕ};

    ghost Value = { ℕ };

    ghost view = { λ t. t.number };

    ghost inverse = { λ n. record { number = n } };
}

impl Trail {
    // The trail with this number.
    pub(crate) fn at(number: u32) -> Trail
        ensures { result ≡ number }
    {
        Trail { number }
    }

    // The number of the trail.
    pub(crate) fn number(self) -> u32
        ensures { result ≡ self }
    {
        self.number
    }
}
