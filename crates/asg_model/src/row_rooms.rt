//! Room for the costs of a row.

ghost use Rattle.std.specs.Prelude.{◌≡◌, ◌≢◌, ℕ, ◌<◌, ◌≤◌, All, IfSome, length, slice_index_or};
ghost use Rattle.asg_model.specs.Instances.{IsCostInRange};
ghost use Rattle.asg_model.specs.Limits.{most_columns};
ghost use Rattle.asg_model.specs.Live.{cost_at};
ghost use Rattle.asg_model.specs.Table.{absent, table_cost};

use crate::limits::MOST_COLUMNS;
use crate::parts::{ABSENT, Cost, RowParts};

/// Room for both parts of the costs of a row, of as many columns as an instance may have.
#[derive(Drop)]
pub struct RowRoom {
    pub(crate) firsts: [i64; MOST_COLUMNS],
    pub(crate) seconds: [i64; MOST_COLUMNS],
}

impl RowRoom {
    /// Room that holds no row yet.
    pub fn new() -> RowRoom {
        RowRoom {
            firsts: [ABSENT; MOST_COLUMNS],
            seconds: [0; MOST_COLUMNS],
        }
    }

    // Writes the cost of the cell in a column.
    pub(crate) fn put(&mut self, col: u32, cost: Option<Cost>)
        requires within { col < most_columns }
        requires in_range { IfSome cost IsCostInRange }
        ensures cost { table_cost self.new.seconds col (slice_index_or self.new.firsts col absent)
            ≡ cost }
        ensures others { (c : ℕ) → c ≢ col →
            table_cost self.new.seconds c (slice_index_or self.new.firsts c absent)
            ≡ table_cost self.old.seconds c (slice_index_or self.old.firsts c absent) }
    {
        let (a, b) = match cost {
            Some(cost) => (cost.a, cost.b),
            None => (ABSENT, 0),
        };
        self.firsts[col as usize] = a;
        self.seconds[col as usize] = b;
    }

    // Holds no cost.
    fn clear(&mut self)
        ensures { (c : ℕ) → slice_index_or self.new.firsts c absent ≡ absent }
    {
        self.firsts = [ABSENT; MOST_COLUMNS];
    }

    // Reads the costs of these cells of one row, where a column has several the first of them.
    pub(crate) fn read(&mut self, cells: &[((u32, u32), Cost)])
        requires within { All (λ cell. cell.0.1 < most_columns) cells.now }
        requires in_range { All (λ cell. IsCostInRange cell.1) cells.now }
        ensures { (r c : ℕ) → All (λ cell. cell.0.0 ≡ r) cells.now
            → table_cost self.new.seconds c (slice_index_or self.new.firsts c absent)
            ≡ cost_at cells.now r c }
    {
        self.clear();
        let count = cells.len();
        for done in 0..count {
            let cell = cells[count - 1 - done];
            self.put(cell.0.1, Some(cell.1));
        }
    }

    // What stands in the first columns.
    pub(crate) fn parts(&self, columns: usize) -> RowParts<'_>
        requires { columns ≤ most_columns }
        ensures whole { length result.firsts.now ≡ columns }
        ensures costs { (c : ℕ) → c < columns →
            table_cost result.seconds.now c (slice_index_or result.firsts.now c absent)
            ≡ table_cost self.now.seconds c (slice_index_or self.now.firsts c absent) }
    {
        RowParts {
            firsts: &self.firsts[..columns],
            seconds: &self.seconds[..columns],
        }
    }
}
