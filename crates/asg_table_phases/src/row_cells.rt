//! Rows of an instance that keeps its cells in a list, cell by cell.

ghost use Rattle.std.specs.Prelude.{◌≤◌, ◌<◌, IsTrue, All, length, slice_index};
ghost use Rattle.asg_model.specs.Instances.{IsCostInRange};
ghost use Rattle.asg_monoids.specs.BoundedSums.{narrow_top};
ghost use Rattle.asg_table_phases.specs.TableRows.{AreLow, FitsCost};

use crate::table_rows::{is_above, is_below, is_reached};
use asg_model::{Cost, Objective};

// Whether a cost is, as it enters and with so much more, at least a number.
#[inline]
fn fits_cost(objective: Objective, cost: i64, number: u64, raise: u64) -> bool
    requires number { number ≤ narrow_top }
    requires raise { raise ≤ narrow_top }
    ensures { IsTrue result → FitsCost objective cost number raise }
{
    match objective {
        Objective::Sum => is_above(cost, number, raise),
        Objective::SumMax => is_below(cost, number, raise),
        Objective::Capped(cap) => number <= cap && is_reached(cost, number, raise),
        _ => false,
    }
}

/// Whether each cost of these cells of a row is, as it enters and with so much more, at least the
/// number of its column.
pub(crate) fn cells_fit(
    objective: Objective,
    cells: &[((u32, u32), Cost)],
    columns: &[u64],
    raise: u64,
) -> bool
    requires within { All (λ cell. cell.0.1 < length columns.now) cells.now }
    requires in_range { All (λ cell. IsCostInRange cell.1) cells.now }
    requires low { AreLow columns.now }
    requires raise { raise ≤ narrow_top }
    ensures { IsTrue result → All (λ cell. FitsCost objective cell.1.a
        (slice_index columns.now cell.0.1) raise) cells.now }
{
    for cell in cells {
        if !fits_cost(objective, cell.1.a, columns[cell.0.1 as usize], raise) {
            return false;
        }
    }
    true
}
