//! The end of a segment of a list of phases of sums: one look at the cells.

ghost use Rattle.std.specs.Prelude.{◌≡◌, ◌↔◌, ◌<◌, ◌≤◌, ◌+◌, ℕ, IsTrue, Some, false, length, slice_index};
ghost use Rattle.asg_phase_totals.specs.Duals.{FitCells};
ghost use Rattle.asg_phase_totals.specs.PhaseTotals.{EndsSegment, IsKeptOrClosed, IsLoweredBy};
ghost use Rattle.asg_square.specs.Grid.{cell_at};

use crate::dual_fits::fit_cells;
use crate::phase_totals::PhaseTotals;
use crate::sum_numbers::SumNumber;
use asg_square::Square;

// Where the phases of the segment raise some row by more than a column, the segment is at its end:
// then looks at the cells, takes its phases from the dual variables, and begins an empty one. Tells
// false where a cell ends below 0.
pub(crate) fn close_segment<N: SumNumber>(
    square: &Square<N>,
    rows: &mut Vec<N>,
    columns: &mut Vec<N>,
    segment: &mut PhaseTotals<N>,
) -> bool
    requires row_count { length rows.old.items ≡ square.now.side }
    requires column_count { length columns.old.items ≡ square.now.side }
    requires side { length segment.old.rows ≡ square.now.side }
    requires few_rows { (r : ℕ) → r < square.now.side
        → slice_index (N.numbers rows.old.items) r ≤ N.top }
    requires few_cells { (r k x : ℕ) → r < square.now.side
        → N.present (cell_at square.now r k) ≡ Some x → x ≤ N.top }
    requires rows { (r : ℕ) → r < square.now.side
        → slice_index segment.old.rows r ≤ slice_index (N.numbers rows.old.items) r }
    requires columns { (k : ℕ) → k < square.now.side
        → slice_index segment.old.columns k ≤ slice_index (N.numbers columns.old.items) k }
    ensures closed { IsTrue result → IsKeptOrClosed square.now.side
        (λ r k. N.present (cell_at square.now r k)) (N.numbers rows.old.items)
        (N.numbers columns.old.items) segment.old (N.numbers rows.new.items)
        (N.numbers columns.new.items) segment.new }
    ensures refused { result ≡ false
        → EndsSegment square.now.side (λ r k. N.present (cell_at square.now r k))
        (N.numbers rows.old.items) (N.numbers columns.old.items) segment.old → ⊥ }
    ensures row_count { length rows.new.items ≡ length rows.old.items }
    ensures column_count { length columns.new.items ≡ length columns.old.items }
    ensures side { length segment.new.rows ≡ length segment.old.rows }
{
    if segment.is_ordered() {
        return true;
    }
    if !segment_ends_well(square, rows.as_slice(), columns.as_slice(), segment) {
        return false;
    }
    lower_by(rows, segment.rows());
    lower_by(columns, segment.columns());
    segment.clear();
    true
}

// Whether no cell ends below 0 of the rows that a segment lowers: each with the dual variable of
// its row is at least that of its column.
pub(crate) fn segment_ends_well<N: SumNumber>(
    square: &Square<N>,
    rows: &[N],
    columns: &[N],
    segment: &PhaseTotals<N>,
) -> bool
    requires row_count { length rows.now ≡ square.now.side }
    requires column_count { length columns.now ≡ square.now.side }
    requires side { length segment.now.rows ≡ square.now.side }
    requires few_rows { (r : ℕ) → r < square.now.side
        → slice_index (N.numbers rows.now) r ≤ N.top }
    requires few_cells { (r k x : ℕ) → r < square.now.side
        → N.present (cell_at square.now r k) ≡ Some x → x ≤ N.top }
    ensures { IsTrue result
        ↔ EndsSegment square.now.side (λ r k. N.present (cell_at square.now r k))
        (N.numbers rows.now) (N.numbers columns.now) segment.now }
{
    let raises = segment.rows();
    for row in 0..square.side() {
        let r = row as usize;
        if !lowered_row_ends_well(square, row, rows[r], columns, raises[r], segment.sum()) {
            return false;
        }
    }
    true
}

// Whether no cell of a row ends below 0; nothing is asked where it is raised by the sum of all
// steps, and so never lowered.
fn lowered_row_ends_well<N: SumNumber>(
    square: &Square<N>,
    row: u32,
    dual: N,
    columns: &[N],
    raise: N,
    sum: N,
) -> bool
    requires row { row < square.now.side }
    requires columns { length columns.now ≡ square.now.side }
    requires few { N.number dual ≤ N.top }
    requires few_cells { (k x : ℕ) → N.present (cell_at square.now row k) ≡ Some x → x ≤ N.top }
    ensures { IsTrue result
        ↔ (N.number raise < N.number sum → FitCells square.now.side
        (λ k. N.present (cell_at square.now row k)) (N.number dual) (N.numbers columns.now)) }
{
    if !raise.is_below(sum) {
        return true;
    }
    fit_cells(square, row, dual, columns)
}

// Lessens each number by that of another list.
fn lower_by<N: SumNumber>(numbers: &mut Vec<N>, part: &[N])
    requires count { length part.now ≡ length numbers.old.items }
    requires part { (i : ℕ) → i < length numbers.old.items → slice_index (N.numbers part.now) i
        ≤ slice_index (N.numbers numbers.old.items) i }
    ensures { IsLoweredBy (N.numbers part.now) (N.numbers numbers.old.items)
        (N.numbers numbers.new.items) }
{
    for i in 0..numbers.len() {
        numbers[i] = numbers[i].minus(part[i]);
    }
}
