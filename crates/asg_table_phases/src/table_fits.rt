//! Whether no cell of the square of an instance ends below 0 after phases.

ghost use Rattle.std.specs.Prelude.{◌≡◌, ◌≤◌, ◌+◌, ℕ, IsTrue, List, length};
ghost use Rattle.asg_model.specs.declared.objectives.Objective.TheVariants.{SumPair};
ghost use Rattle.asg_phase_totals.specs.PhaseTotals.{AreTotals};
ghost use Rattle.asg_model.specs.Shapes.{square_side};
ghost use Rattle.asg_monoids.specs.BoundedSums.{bounded_sums, bounded_difference};
ghost use Rattle.asg_monoids.specs.Entered.{sum_entered};
ghost use Rattle.asg_proof.specs.Phases.{PhaseOf, AreAdmittedPhases, index_of};
ghost use Rattle.asg_square.specs.Cells.{square_cell};
ghost use Rattle.asg_table_phases.specs.TableRows.{FitCells, FitTotals, FitsRows, bound_of, most_entered};

use crate::column_tops::{free_cells_fit, put_tops};
use crate::narrow_tops::{are_within, put_narrow};
use crate::pair_rows::pair_rows_fit;
use crate::table_rows::rows_fit;
use asg_model::limits::MOST_COLUMNS;
use asg_model::{Instance, Objective};
use asg_phase_totals::laws::one_pass_law;
use asg_phase_totals::{NARROW_TOP, PhaseTotals};

// Where sums in 128 bits stop.
const WIDE_TOP: u128 = 1 << 120;

// The greatest sum of steps with which no entered cost comes to more than sums are looked at up to.
fn most_sum(objective: Objective) -> u128
    ensures { result + most_entered objective ≤ bound_of objective }
{
    match objective {
        Objective::SumPair => WIDE_TOP - (1 << 75),
        _ => u128::from(NARROW_TOP) - 2_000_000_000,
    }
}

// Whether each live cell of each row, as it enters, is with the number of its row at least the number
// for its column, in 64 bits.
fn narrow_rows_fit(
    objective: Objective,
    inst: &Instance,
    rows: &[u128],
    tops: &[u128; MOST_COLUMNS],
) -> bool
    requires { length inst.now.rows ≤ length rows.now }
    ensures { IsTrue result → FitsRows objective inst.now rows.now tops.now }
{
    if !are_within(rows, u128::from(NARROW_TOP)) {
        return false;
    }
    let mut narrow = [0; MOST_COLUMNS];
    if !put_narrow(tops, &mut narrow) {
        return false;
    }
    rows_fit(objective, inst, rows, &narrow)
}

// The same for `pair`, in 128 bits.
fn wide_rows_fit(inst: &Instance, rows: &[u128], tops: &[u128; MOST_COLUMNS]) -> bool
    requires { length inst.now.rows ≤ length rows.now }
    ensures { IsTrue result → FitsRows SumPair inst.now rows.now tops.now }
{
    if !are_within(rows, WIDE_TOP) {
        return false;
    }
    pair_rows_fit(inst, rows, tops)
}

// The same in the numbers of the objective.
fn live_cells_fit(
    objective: Objective,
    inst: &Instance,
    rows: &[u128],
    tops: &[u128; MOST_COLUMNS],
) -> bool
    requires { length inst.now.rows ≤ length rows.now }
    ensures { IsTrue result → FitsRows objective inst.now rows.now tops.now }
{
    match objective {
        Objective::SumPair => wide_rows_fit(inst, rows, tops),
        _ => narrow_rows_fit(objective, inst, rows, tops),
    }
}

// Whether each present cell of the square is with the number of its row at least that of its column.
fn cells_fit(objective: Objective, inst: &Instance, rows: &[u128], columns: &[u128]) -> bool
    requires rows { length rows.now ≡ square_side inst.now }
    requires columns { length columns.now ≡ square_side inst.now }
    ensures { IsTrue result → FitCells objective inst.now rows.now columns.now }
{
    let _rows = inst.rows();
    let _side = inst.side();
    let mut tops = [0; MOST_COLUMNS];
    let copies = put_tops(inst, columns, &mut tops);
    if !free_cells_fit(inst, rows, columns, copies) {
        return false;
    }
    live_cells_fit(objective, inst, rows, &tops)
}

// Whether no sum comes near where sums stop, and no present cell ends below 0.
fn fit_totals(objective: Objective, inst: &Instance, totals: &PhaseTotals<u128>) -> bool
    requires { length totals.now.rows ≡ square_side inst.now }
    ensures { IsTrue result → FitTotals objective inst.now totals.now }
{
    if totals.sum() > most_sum(objective) {
        return false;
    }
    cells_fit(objective, inst, totals.rows(), totals.columns())
}

/// Whether phases with these totals are admitted in turn from the square of an instance, by sums that
/// stop at 2^62, for `pair` at 2^120, or at any greater top: where no sum comes near that, and no
/// present cell, as it enters, ends below 0. The answer `false` tells nothing: it is so for an
/// objective that isn't one of sums. The time is that of one pass over the costs. It takes no memory.
pub fn fits_table(objective: Objective, inst: &Instance, totals: &PhaseTotals<u128>) -> bool
    requires side { length totals.now.rows ≡ square_side inst.now }
    ensures admitted { IsTrue result
        → (top : ℕ) (phases : List (PhaseOf ℕ)) → bound_of objective ≤ top
        → AreTotals phases totals.now
        → AreAdmittedPhases (bounded_sums top) bounded_difference (square_side inst.now) phases
        (square_cell inst.now 0 (sum_entered objective)) }
    ensures index { IsTrue result
        → (top : ℕ) (phases : List (PhaseOf ℕ))
        → bound_of objective ≤ top
        → AreTotals phases totals.now
        → index_of (bounded_sums top) phases ≡ totals.now.sum }
{
    one_pass_law();
    let _rows = inst.rows();
    fit_totals(objective, inst, totals)
}
