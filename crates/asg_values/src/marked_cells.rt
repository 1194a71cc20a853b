//! Marks of the columns in which a row has cells, from a list of these.

ghost use Rattle.std.specs.Prelude.{◌≡◌, ◌≤◌, ◌<◌, ℕ, false, ◌||◌, All, length, slice_index_or};
ghost use Rattle.std.specs.List.{list_any};
ghost use Rattle.asg_model.specs.Instances.{IsCostInRange};
ghost use Rattle.asg_model.specs.Limits.{most_columns};
ghost use Rattle.asg_values.specs.Marks.{is_met_at};

use crate::reach::is_between;
use asg_model::limits::MOST_COLUMNS;
use asg_model::{Column, Cost};

/// Marks the open columns of cells whose costs lie between two ends, both included.
pub(crate) fn mark_cells(
    columns: &[Column],
    cells: &[((u32, u32), Cost)],
    low: i64,
    high: i64,
    reached: &mut [bool; MOST_COLUMNS],
)
    requires few { length columns.now ≤ most_columns }
    requires within { All (λ cell. cell.0.1 < length columns.now) cells.now }
    requires in_range { All (λ cell. IsCostInRange cell.1) cells.now }
    ensures { (c : ℕ) → slice_index_or reached.new c false
        ≡ (slice_index_or reached.old c false
        || list_any (is_met_at columns.now low high c) cells.now) }
{
    for cell in cells {
        let column = cell.0.1 as usize;
        reached[column] = reached[column]
            | (columns[column].usable & is_between(cell.1.a, low, high));
    }
}
