//! Whole lists of phases of one grade.

ghost use Rattle.std.specs.Prelude.{◌≡◌, ◌+◌, ◌≤◌, ◌^◌, ℕ, [], IfOk, IfSome, IsTrue, length};
ghost use Rattle.asg_phase_totals.specs.PhaseTotals.{AreTotals};
ghost use Rattle.asg_grade_lists.specs.GradeLists.{LeadTo};
ghost use Rattle.asg_model.specs.Limits.{most_side};
ghost use Rattle.asg_monoids.specs.BoundedSums.{narrow_top};
ghost use Rattle.asg_square.specs.Grid.{cell_at};

use crate::NoMemory;
use crate::amounts::put_others;
use crate::graded_cells::GradedCells;
use crate::rises::first_grade;
use asg_phase_totals::{NARROW_TOP, PhaseTotals};
use asg_proof::WrittenPhase;
use asg_square::Square;
use std::alloc::Global;

// Whether a sum is at most where sums in 64 bits stop.
fn is_short(sum: u64) -> bool
    ensures { IsTrue result → sum ≤ narrow_top }
{
    sum <= NARROW_TOP
}

// The index of the list, in a room for a phase, by the totals of no phases.
fn index_in_room<C: GradedCells>(
    alloc: Global,
    cells: &C,
    phases: &[WrittenPhase],
    totals: &mut PhaseTotals<u64>,
    room: &mut [u64],
) -> Result<Option<(u64, u128)>, NoMemory>
    requires few { C.side_of cells.now ≤ most_side }
    requires side { length totals.old.rows ≡ C.side_of cells.now }
    requires totals { AreTotals [] totals.old }
    requires room { length room.old ≡ C.side_of cells.now + 1 }
    ensures { IfOk result (λ found. IfSome found (λ index. (top : ℕ) → 2 ^ 63 ≤ top
        → LeadTo top (C.side_of cells.now) (C.cells_of cells.now) phases.now index)) }
{
    let _side = cells.side();
    let first = first_grade(alloc, cells, phases, room)?;
    let Some(grade) = first else {
        return Ok(None);
    };
    let mut amounts = Vec::new(alloc);
    let are_put = put_others(totals, phases, grade, &mut amounts, room)?;
    if !are_put {
        return Ok(None);
    }
    let sum = totals.sum();
    if !is_short(sum) {
        return Ok(None);
    }
    if !cells.rows_end_well(grade, totals.rows(), totals.columns()) {
        return Ok(None);
    }
    Ok(Some((grade, u128::from(sum))))
}

/// The index of phases that are admitted in turn from a square of graded sums, by sums that stop at
/// 2^63 or above, where one pass over the cells tells that they are: the first has one step to a
/// grade, the others have 1 to side steps of positive amounts at it. No cell ends below 0 after all,
/// and those after each phase but the first raise no row by more than a column, as those do that
/// lead to an assignment of least sum. Otherwise nothing is told. The error is want of memory.
pub fn graded_list_index<C: GradedCells>(
    alloc: Global,
    cells: &C,
    phases: &[WrittenPhase],
) -> Result<Option<(u64, u128)>, NoMemory>
    requires { C.side_of cells.now ≤ most_side }
    ensures { IfOk result (λ found. IfSome found (λ index. (top : ℕ) → 2 ^ 63 ≤ top
        → LeadTo top (C.side_of cells.now) (C.cells_of cells.now) phases.now index)) }
{
    let side = cells.side();
    let mut totals = PhaseTotals::none(alloc, side)?;
    let mut room = vec![in alloc; 0u64; side as usize + 1]?;
    index_in_room(alloc, cells, phases, &mut totals, room.as_mut_slice())
}

/// The same of a square whose cells are kept.
pub fn grade_list_index(
    alloc: Global,
    square: &Square<(u64, u128)>,
    phases: &[WrittenPhase],
) -> Result<Option<(u64, u128)>, NoMemory>
    ensures { IfOk result (λ found. IfSome found (λ index. (top : ℕ) → 2 ^ 63 ≤ top
        → LeadTo top square.now.side (cell_at square.now) phases.now index)) }
{
    let _side = square.side();
    graded_list_index(alloc, square, phases)
}
