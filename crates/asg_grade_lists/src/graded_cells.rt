//! Squares of graded sums, by the looks at their cells that tell of a list of phases.

ghost use Rattle.std.specs.Prelude.{◌≡◌, ◌<◌, ℕ, IsTrue, Option, Some, length};
ghost use Rattle.asg_grade_lists.specs.GradeLists.{NoneLowerIn, RowsEndWell};

use crate::{end_cells, rises};
use asg_square::Square;

/// A square of graded sums, whose cells are looked at for a list of phases of one grade. Where a look
/// answers `false`, it may tell nothing.
pub trait GradedCells {
    ghost side_of: { Self → ℕ };

    ghost cells_of: { Self → ℕ → ℕ → Option (ℕ × ℕ) };

    /// How many rows there are, and columns.
    fn side(&self) -> u32
        ensures side { result ≡ side_of self.now }
        ensures within { (r k : ℕ) (x : ℕ × ℕ) → cells_of self.now r k ≡ Some x
            → (r < side_of self.now) × (k < side_of self.now) };

    /// Whether no cell of a row that enters at once is of a lower grade in a column that doesn't
    /// leave at once.
    fn rows_rise(&self, grade: u64, enters: &[u32], leaves: &[u32]) -> bool
        requires enters { length enters.now ≡ side_of self.now }
        requires leaves { length leaves.now ≡ side_of self.now }
        ensures { IsTrue result → NoneLowerIn grade (side_of self.now) (side_of self.now) enters.now
            leaves.now (cells_of self.now) };

    /// Whether each cell ends well by amounts at a grade, with a number for each row and one for each
    /// column.
    fn rows_end_well(&self, grade: u64, rows: &[u64], columns: &[u64]) -> bool
        requires rows { length rows.now ≡ side_of self.now }
        requires columns { length columns.now ≡ side_of self.now }
        ensures { IsTrue result → RowsEndWell grade (side_of self.now) (side_of self.now) rows.now
            columns.now (cells_of self.now) };
}

impl GradedCells for Square<(u64, u128)> {
    ghost use Rattle.asg_square.specs.Grid.{cell_at};

    ghost side_of = { λ square. square.side };

    ghost cells_of = { λ square. cell_at square };

    fn side(&self) -> u32 {
        self.side()
    }

    fn rows_rise(&self, grade: u64, enters: &[u32], leaves: &[u32]) -> bool {
        rises::rows_rise(self, grade, enters, leaves)
    }

    fn rows_end_well(&self, grade: u64, rows: &[u64], columns: &[u64]) -> bool {
        end_cells::rows_end_well(self, grade, rows, columns)
    }
}
