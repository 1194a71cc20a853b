//! The cells that dual variables make, written into a square.

ghost use Rattle.std.specs.Prelude.{◌≡◌, ◌<◌, ◌≤◌, ◌+◌, ◌^◌, ℕ, IsTrue, Some, length, slice_index};
ghost use Rattle.std.specs.Option.{option_map};
ghost use Rattle.asg_kept.specs.KeptSums.{AreZeros};
ghost use Rattle.asg_phase_totals.specs.Duals.{FitsDuals, WritesDuals, dual_value};
ghost use Rattle.asg_admit.specs.Reduced.{KeepsLabels};
ghost use Rattle.asg_square.specs.Grid.{cell_at};

use asg_phase_totals::{SumNumber, clear};
use asg_square::Square;

// Writes all cells.
pub(crate) fn write_cells<N: SumNumber>(square: &mut Square<N>, rows: &[N], columns: &[N])
    requires rows { length rows.now ≡ square.old.side }
    requires columns { length columns.now ≡ square.old.side }
    requires fits { (r k : ℕ) → FitsDuals N.width (slice_index (N.numbers rows.now) r)
        (slice_index (N.numbers columns.now) k) (N.present (cell_at square.old r k)) }
    ensures labels { KeepsLabels square.old square.new }
    ensures cells { (r k : ℕ) → r < square.old.side → k < square.old.side
        → N.present (cell_at square.new r k) ≡ option_map
        (dual_value (slice_index (N.numbers rows.now) r) (slice_index (N.numbers columns.now) k))
        (N.present (cell_at square.old r k)) }
{
    for row in 0..square.side() {
        write_row(square, row, rows[row as usize], columns);
    }
}

// Writes all cells in place, unless that was done, and takes the dual variables back to 0.
pub(crate) fn write_out<N: SumNumber>(
    square: &mut Square<N>,
    rows: &mut Vec<N>,
    columns: &mut Vec<N>,
    is_written: bool,
)
    requires rows { length rows.old.items ≡ square.old.side }
    requires columns { length columns.old.items ≡ square.old.side }
    requires fits { (r k : ℕ) → FitsDuals N.width (slice_index (N.numbers rows.old.items) r)
        (slice_index (N.numbers columns.old.items) k) (N.present (cell_at square.old r k)) }
    requires zero_rows { IsTrue is_written → AreZeros (N.numbers rows.old.items) }
    requires zero_columns { IsTrue is_written → AreZeros (N.numbers columns.old.items) }
    ensures labels { KeepsLabels square.old square.new }
    ensures cells { (r k : ℕ) → r < square.old.side → k < square.old.side
        → N.present (cell_at square.new r k) ≡ option_map
        (dual_value (slice_index (N.numbers rows.old.items) r)
        (slice_index (N.numbers columns.old.items) k)) (N.present (cell_at square.old r k)) }
    ensures row_count { length rows.new.items ≡ length rows.old.items }
    ensures column_count { length columns.new.items ≡ length columns.old.items }
    ensures zero_rows { AreZeros (N.numbers rows.new.items) }
    ensures zero_columns { AreZeros (N.numbers columns.new.items) }
{
    if is_written {
        return;
    }
    write_cells(square, rows.as_slice(), columns.as_slice());
    clear(rows);
    clear(columns);
}

// Writes the cells of a row.
fn write_row<N: SumNumber>(square: &mut Square<N>, row: u32, dual: N, columns: &[N])
    requires row { row < square.old.side }
    requires columns { length columns.now ≡ square.old.side }
    requires fits { (k : ℕ) → FitsDuals N.width (N.number dual) (slice_index (N.numbers columns.now) k)
        (N.present (cell_at square.old row k)) }
    ensures { WritesDuals N.present (N.number dual) (N.numbers columns.now) square.old square.new row }
{
    square.side();
    square.map_row(row, &|column: u32, x: N| written(dual, columns, column, x));
}

// The value of a cell, by the dual variables of its row and its column.
#[inline]
fn written<N: SumNumber>(dual: N, columns: &[N], column: u32, x: N) -> N
    requires column { column < length columns.now }
    requires reaches { slice_index (N.numbers columns.now) column ≤ N.number x + N.number dual }
    requires few { N.number x + N.number dual < N.width }
    ensures { N.number result
        ≡ dual_value (N.number dual) (slice_index (N.numbers columns.now) column) (N.number x) }
{
    x.plus(dual).minus(columns[column as usize])
}
