//! Choices of cells.

ghost use Rattle.std.specs.Prelude.{◌≡◌, ◌<◌, length, slice_get, slice_set, replicate, count_by, is_some, IfOk, None};

use crate::NoMemory;
use std::alloc::Global;
use std::marker::Model;

/// A choice: for each row, in order, the place of the column that it chooses, or none.
#[derive(Drop)]
pub struct Choice {
    columns: Vec<Option<u32>>,
}

impl Model for Choice {
    ghost use Rattle.std.specs.Prelude.{List, Option, ℕ, ◌<◌, ◌^◌, length};

    ghost Value = { List (Option ℕ) };

    ghost view = { λ c. c.columns.items };

    ghost invariant = { λ c. length c.columns.items < 2 ^ 32 };
}

impl Choice {
    /// A choice over so many rows in which no row chooses. The error is want of memory.
    pub fn make(alloc: Global, rows: u32) -> Result<Choice, NoMemory>
        ensures { IfOk result (λ choice. choice ≡ replicate rows None) }
    {
        let columns = vec![in alloc; None; rows as usize]?;
        Ok(Choice { columns })
    }

    /// The number of rows.
    pub fn len(&self) -> u32
        ensures { result ≡ length self.now }
    {
        self.columns.len() as u32
    }

    /// The place of the column that the row chooses; `None` where it chooses none.
    pub fn get(&self, row: u32) -> Option<u32>
        requires { row < length self.now }
        ensures { slice_get self.now row ≡ Some result }
    {
        self.columns[row as usize]
    }

    /// Lets the row choose this column, or none. All other rows stay as they are.
    pub fn set(&mut self, row: u32, col: Option<u32>)
        requires { row < length self.old }
        ensures { self.new ≡ slice_set self.old row col }
    {
        self.columns[row as usize] = col;
    }

    /// The number of rows that choose.
    pub fn placed_count(&self) -> u32
        ensures { result ≡ count_by is_some self.now }
    {
        self.columns
            .iter()
            .filter(|chosen| chosen.is_some())
            .count() as u32
    }
}
