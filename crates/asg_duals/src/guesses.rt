//! Guessed phases with an assignment.

ghost use Rattle.std.specs.Prelude.{◌≡◌};

use asg_proof::Phase;
use std::marker::Model;

/// Phases and a column for each row, guessed. In turn the phases lead the square that they were
/// guessed for to one in which the cells of the assignment add nothing to their index, but no
/// clause says so: whoever takes them tests them. Contracts see it as the record of these two
/// lists.
#[derive(Drop)]
pub struct Guess<V: Copy> {
    phases: Vec<Phase<V>>,
    columns: Vec<u32>,
}

impl<V: Copy> Model for Guess<V> {
    ghost use Rattle.asg_duals.specs.Guesses.{GuessOf};

    ghost Value = { GuessOf V };

    ghost view = { λ guess. record {
      phases = guess.phases.items;
      columns = guess.columns.items;
    } };
}

impl<V: Copy> Guess<V> {
    // Of these lists.
    pub(crate) fn of(phases: Vec<Phase<V>>, columns: Vec<u32>) -> Guess<V>
        ensures { result ≡ record { phases = phases.items; columns = columns.items } }
    {
        Guess { phases, columns }
    }

    /// The phases in order.
    pub fn phases(&self) -> &[Phase<V>]
        ensures { result.now ≡ self.now.phases }
    {
        self.phases.as_slice()
    }

    /// The column of each row.
    pub fn columns(&self) -> &[u32]
        ensures { result.now ≡ self.now.columns }
    {
        self.columns.as_slice()
    }
}
