//! Phases of one step to a grade.

ghost use Rattle.std.specs.Prelude.{◌≡◌, ◌+◌, ◌<◌, ◌≤◌, ◌^◌, ℕ, [], ◌∷◌, IfOk, IfSome, IsTrue, Some, false, length};
ghost use Rattle.asg_phase_totals.specs.PhaseTotals.{CountsRight};
ghost use Rattle.asg_grade_lists.specs.GradeLists.{BeginWithRise, IsRiseTo, NoneLower, NoneLowerIn};
ghost use Rattle.asg_model.specs.Limits.{most_side};
ghost use Rattle.asg_monoids.specs.Grades.{graded_word};
ghost use Rattle.asg_proof.specs.GradeAmounts.{IsRisePhase};
ghost use Rattle.asg_proof.specs.Phases.{phase_of};
ghost use Rattle.asg_square.specs.Grid.{cell_at};

use crate::NoMemory;
use crate::graded_cells::GradedCells;
use asg_phase_totals::PhaseTotals;
use asg_proof::WrittenPhase;
use asg_square::Square;
use std::alloc::Global;

// Whether a phase of one step has as many rows and columns as it asks: a step by 0 counts so too,
// before no others. The error is want of memory.
fn counts_right(
    alloc: Global,
    side: u32,
    enters: &[u32],
    leaves: &[u32],
    room: &mut [u64],
) -> Result<bool, NoMemory>
    requires side { side ≤ most_side }
    requires room { length room.old ≡ side + 1 }
    ensures right { IfOk result (λ is. IsTrue is
        → CountsRight side (phase_of (0 ∷ []) enters.now leaves.now)) }
    ensures room { length room.new ≡ length room.old }
{
    if side == 0 {
        return Ok(false);
    }
    let mut totals: PhaseTotals<u64> = PhaseTotals::none(alloc, side)?;
    Ok(totals.put_before(&[0], enters, leaves, room))
}

// Whether a value is of a lower grade, in a column that doesn't leave at once.
#[inline]
fn is_value_lower(value: (u64, u128), grade: u64, leave: u32) -> bool
    ensures { result ≡ false → 0 < leave → grade ≤ value.0 }
{
    if leave == 0 {
        return false;
    }
    value.0 < grade
}

// Whether a cell is so, which has this value where it is present.
#[inline]
fn is_lower(
    square: &Square<(u64, u128)>,
    r: u32,
    k: u32,
    value: (u64, u128),
    grade: u64,
    leave: u32,
) -> bool
    requires row { r < square.now.side }
    requires column { k < square.now.side }
    requires value { (x : ℕ × ℕ) → cell_at square.now r k ≡ Some x → value ≡ x }
    ensures { result ≡ false → (x : ℕ × ℕ) → 0 < leave → cell_at square.now r k ≡ Some x
        → grade ≤ x.0 }
{
    if !is_value_lower(value, grade, leave) {
        return false;
    }
    square.at(r, k).is_some()
}

// Whether no cell of a row is of a lower grade in a column that doesn't leave at once.
fn none_lower(square: &Square<(u64, u128)>, r: u32, grade: u64, leaves: &[u32]) -> bool
    requires row { r < square.now.side }
    requires leaves { length leaves.now ≡ square.now.side }
    ensures { IsTrue result → NoneLower grade square.now.side leaves.now (cell_at square.now r) }
{
    let values = square.row_values(r);
    'columns: for k in 0..square.side() {
        let place = k as usize;
        if is_lower(square, r, k, values[place], grade, leaves[place]) {
            return false;
        }
    }
    true
}

// Whether this is so of a row, if it enters at once.
fn row_rises(square: &Square<(u64, u128)>, r: u32, grade: u64, enter: u32, leaves: &[u32]) -> bool
    requires row { r < square.now.side }
    requires leaves { length leaves.now ≡ square.now.side }
    ensures { IsTrue result → enter ≤ 0
        → NoneLower grade square.now.side leaves.now (cell_at square.now r) }
{
    if enter > 0 {
        return true;
    }
    none_lower(square, r, grade, leaves)
}

/// Whether this is so of each row that enters at once.
pub(crate) fn rows_rise(
    square: &Square<(u64, u128)>,
    grade: u64,
    enters: &[u32],
    leaves: &[u32],
) -> bool
    requires enters { length enters.now ≡ square.now.side }
    requires leaves { length leaves.now ≡ square.now.side }
    ensures { IsTrue result → NoneLowerIn grade square.now.side square.now.side enters.now leaves.now
        (cell_at square.now) }
{
    'rows: for r in 0..square.side() {
        if !row_rises(square, r, grade, enters[r as usize], leaves) {
            return false;
        }
    }
    true
}

// Whether a step to the grade is admitted on the rows that enter at once and the columns that don't
// leave at once. The error is want of memory.
fn rises<C: GradedCells>(
    alloc: Global,
    cells: &C,
    grade: u64,
    enters: &[u32],
    leaves: &[u32],
    room: &mut [u64],
) -> Result<bool, NoMemory>
    requires side { C.side_of cells.now ≤ most_side }
    requires room { length room.old ≡ C.side_of cells.now + 1 }
    ensures rises { IfOk result (λ is. IsTrue is
        → IsRisePhase grade (C.side_of cells.now) enters.now leaves.now (C.cells_of cells.now)) }
    ensures room { length room.new ≡ length room.old }
{
    let counts = counts_right(alloc, cells.side(), enters, leaves, room)?;
    if !counts {
        return Ok(false);
    }
    Ok(cells.rows_rise(grade, enters, leaves))
}

// The grade of a phase of one step to it.
fn grade_of(phase: &WrittenPhase) -> Option<u64>
    ensures steps { IfSome result (λ g. phase.now.steps ≡ graded_word (g, 0) ∷ []) }
    ensures small { IfSome result (λ g. g < 2 ^ 64) }
{
    let words = phase.steps();
    if words.len() != 1 {
        return None;
    }
    let word = words.get(0);
    if word.amount > 0 {
        return None;
    }
    Some(word.grade)
}

// The grade of a phase that is one step to it, where it is admitted. The error is want of memory.
fn rise_grade<C: GradedCells>(
    alloc: Global,
    cells: &C,
    phase: &WrittenPhase,
    room: &mut [u64],
) -> Result<Option<u64>, NoMemory>
    requires side { C.side_of cells.now ≤ most_side }
    requires room { length room.old ≡ C.side_of cells.now + 1 }
    ensures rises { IfOk result (λ found. IfSome found (λ g.
        IsRiseTo g (C.side_of cells.now) (C.cells_of cells.now) phase.now)) }
    ensures small { IfOk result (λ found. IfSome found (λ g. g < 2 ^ 64)) }
    ensures room { length room.new ≡ length room.old }
{
    let Some(grade) = grade_of(phase) else {
        return Ok(None);
    };
    let is_rise = rises(alloc, cells, grade, phase.enters(), phase.leaves(), room)?;
    if !is_rise {
        return Ok(None);
    }
    Ok(Some(grade))
}

/// The grade of the first phase, where it is one step to it that is admitted. The error is want of
/// memory.
pub(crate) fn first_grade<C: GradedCells>(
    alloc: Global,
    cells: &C,
    phases: &[WrittenPhase],
    room: &mut [u64],
) -> Result<Option<u64>, NoMemory>
    requires side { C.side_of cells.now ≤ most_side }
    requires room { length room.old ≡ C.side_of cells.now + 1 }
    ensures rises { IfOk result (λ found. IfSome found (λ g.
        BeginWithRise g (C.side_of cells.now) (C.cells_of cells.now) phases.now)) }
    ensures small { IfOk result (λ found. IfSome found (λ g. g < 2 ^ 64)) }
    ensures room { length room.new ≡ length room.old }
{
    if phases.len() == 0 {
        return Ok(None);
    }
    rise_grade(alloc, cells, &phases[0], room)
}
