//! Assignments with dual variables.

ghost use Rattle.std.specs.Prelude.{◌≡◌, ◌<◌, ℕ, IsTrue, length};
ghost use Rattle.asg_square.specs.Grid.{IsGrid};
ghost use Rattle.asg_duals.specs.Tight.{AreTight};

use asg_square::Square;
use std::marker::Model;

/// A column for each row, with a number for each row, by which it may fall, and one for each
/// column, by which it may rise. Contracts see it as the record of these three lists.
#[derive(Debug, Drop)]
pub struct Duals {
    columns: Vec<u32>,
    falls: Vec<u64>,
    rises: Vec<u64>,
}

impl Model for Duals {
    ghost use Rattle.asg_duals.specs.Tight.{DualLists};

    ghost Value = { DualLists };

    ghost view = { λ d. record {
      columns = d.columns.items;
      falls = d.falls.items;
      rises = d.rises.items;
    } };
}

impl Duals {
    /// Of these lists: a column and a fall for each row, a rise for each column. Nothing is asked of
    /// them, and nothing is tested.
    pub fn of(columns: Vec<u32>, falls: Vec<u64>, rises: Vec<u64>) -> Duals
        ensures { result ≡ record {
          columns = columns.items;
          falls = falls.items;
          rises = rises.items;
        } }
    {
        Duals {
            columns,
            falls,
            rises,
        }
    }

    /// The column of each row.
    pub fn columns(&self) -> &[u32]
        ensures { result.now ≡ self.now.columns }
    {
        self.columns.as_slice()
    }

    /// By how much each row may fall.
    pub fn falls(&self) -> &[u64]
        ensures { result.now ≡ self.now.falls }
    {
        self.falls.as_slice()
    }

    /// By how much each column may rise.
    pub fn rises(&self) -> &[u64]
        ensures { result.now ≡ self.now.rises }
    {
        self.rises.as_slice()
    }
}
