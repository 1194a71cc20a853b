//! The table of costs of an instance as its square of graded sums.

ghost use Rattle.std.specs.Prelude.{◌≡◌, ◌<◌, ◌≤◌, ◌^◌, ℕ, IfOk, IfSome, IsTrue, length};
ghost use Rattle.asg_grade_lists.specs.GradeLists.{LeadTo, NoneLowerIn, RowsEndWell};
ghost use Rattle.asg_model.specs.Limits.{most_side};
ghost use Rattle.asg_model.specs.Shapes.{square_side};
ghost use Rattle.asg_monoids.specs.Entered.{time_entered};
ghost use Rattle.asg_square.specs.Cells.{square_cell};
ghost use Rattle.asg_table_phases.specs.GradedRows.{AreShort, AreSingle, IsLimitOf, IsPlain, LiveRise, RowsEnd, RowsRise};

use crate::NoMemory;
use crate::graded_rows::{row_ends_well, row_rises};
use asg_grade_lists::{GradedCells, graded_list_index};
use asg_model::limits::MOST_COST;
use asg_model::{Instance, Place, RowRoom};
use asg_proof::WrittenPhase;
use std::alloc::Global;

// The greatest grade as which a cost enters.
const MOST_GRADE: u64 = 2_000_000_000;

// The first part that enters as a grade, where there is one.
fn limit_of(grade: u64) -> Option<i64>
    ensures { IfSome result (IsLimitOf grade) }
{
    if grade > MOST_GRADE {
        return None;
    }
    Some(grade as i64 - MOST_COST)
}

// Whether each number is at most where sums in 64 bits stop.
fn are_short(numbers: &[u64]) -> bool
    ensures { IsTrue result → AreShort numbers.now }
{
    'numbers: for place in 0..numbers.len() {
        if numbers[place] > 1 << 62 {
            return false;
        }
    }
    true
}

// Whether each column has one copy.
fn are_single(inst: &Instance) -> bool
    ensures { IsTrue result → AreSingle inst.now }
{
    let columns = inst.columns();
    'columns: for column in 0..columns.len() {
        if columns[column].cap != 1 {
            return false;
        }
    }
    true
}

// Whether all rows are placed, and each column has one copy.
fn is_plain(inst: &Instance) -> bool
    ensures { IsTrue result → IsPlain inst.now }
{
    match inst.place() {
        Place::All => are_single(inst),
        Place::Exactly(_) => false,
    }
}

// Whether a row that enters at once has no live cell with a first part below the limit in a column
// that doesn't leave at once.
fn rises(
    inst: &Instance,
    row: u32,
    enter: u32,
    leaves: &[u32],
    limit: i64,
    room: &mut RowRoom,
) -> bool
    ensures { IsTrue result → enter ≤ 0 → LiveRise inst.now leaves.now limit row }
{
    if enter > 0 {
        return true;
    }
    row_rises(inst, row, leaves, limit, room)
}

// Whether this is so of each row that enters at once.
fn all_rise(inst: &Instance, enters: &[u32], leaves: &[u32], limit: i64) -> bool
    requires { length enters.now < 2 ^ 32 }
    ensures { IsTrue result → RowsRise inst.now enters.now leaves.now limit (length enters.now) }
{
    let mut room = RowRoom::new();
    'rows: for row in 0..enters.len() as u32 {
        if !rises(inst, row, enters[row as usize], leaves, limit, &mut room) {
            return false;
        }
    }
    true
}

// Whether each live cell of each row ends well.
fn all_end_well(inst: &Instance, rows: &[u64], columns: &[u64], limit: i64) -> bool
    requires few { length rows.now < 2 ^ 32 }
    requires short { AreShort columns.now }
    ensures { IsTrue result → RowsEnd inst.now rows.now columns.now limit (length rows.now) }
{
    let mut room = RowRoom::new();
    'rows: for row in 0..rows.len() as u32 {
        if !row_ends_well(inst, row, columns, limit, rows[row as usize], &mut room) {
            return false;
        }
    }
    true
}

// Whether no cell of a row of the square that enters at once is of a lower grade in a column that
// doesn't leave at once.
fn table_rises(inst: &Instance, grade: u64, enters: &[u32], leaves: &[u32]) -> bool
    requires enters { length enters.now ≡ square_side inst.now }
    ensures { IsTrue result → NoneLowerIn grade (square_side inst.now) (square_side inst.now)
        enters.now leaves.now (square_cell inst.now (0, 0) time_entered) }
{
    let _rows = inst.rows();
    let _side = inst.side();
    if !is_plain(inst) {
        return false;
    }
    let Some(limit) = limit_of(grade) else {
        return false;
    };
    all_rise(inst, enters, leaves, limit)
}

// Whether each cell of the square ends well by amounts at a grade.
fn table_ends_well(inst: &Instance, grade: u64, rows: &[u64], columns: &[u64]) -> bool
    requires rows { length rows.now ≡ square_side inst.now }
    ensures { IsTrue result → RowsEndWell grade (square_side inst.now) (square_side inst.now) rows.now
        columns.now (square_cell inst.now (0, 0) time_entered) }
{
    let _rows = inst.rows();
    let _side = inst.side();
    if !is_plain(inst) {
        return false;
    }
    if !are_short(columns) {
        return false;
    }
    let Some(limit) = limit_of(grade) else {
        return false;
    };
    all_end_well(inst, rows, columns, limit)
}

/// The square of an instance for `time-cost`, by its table of costs. A look at it answers `false`
/// where a row is inactive, a column has more than one copy, a cell is absent, or not all rows are
/// placed.
#[derive(Drop)]
pub(crate) struct GradedTable<'a> {
    pub(crate) inst: &'a Instance,
}

impl GradedCells for GradedTable<'_> {
    ghost side_of = { λ table. square_side table.inst.now };

    ghost cells_of = { λ table. square_cell table.inst.now (0, 0) time_entered };

    fn side(&self) -> u32 {
        self.inst.side()
    }

    fn rows_rise(&self, grade: u64, enters: &[u32], leaves: &[u32]) -> bool {
        table_rises(self.inst, grade, enters, leaves)
    }

    fn rows_end_well(&self, grade: u64, rows: &[u64], columns: &[u64]) -> bool {
        table_ends_well(self.inst, grade, rows, columns)
    }
}

// Whether the square of an instance may be its table: it has as many rows as columns.
fn is_square(inst: &Instance) -> bool {
    let side = inst.side() as usize;
    inst.rows().len() == side && inst.columns().len() == side
}

/// The index of phases that are admitted in turn from the square of an instance for `time-cost`, by
/// sums that stop at 2^63 or above, where one pass over the table of costs tells that they are: they
/// are of one grade (`asg_grade_lists`), and the instance has as many rows as columns, all active and
/// with one copy each, no cell is absent, and all rows are placed. Otherwise nothing is told, as it
/// may be then, too. The error is want of memory.
pub fn graded_index(
    alloc: Global,
    inst: &Instance,
    phases: &[WrittenPhase],
) -> Result<Option<(u64, u128)>, NoMemory>
    requires side { square_side inst.now ≤ most_side }
    ensures { IfOk result (λ found. IfSome found (λ index. (top : ℕ) → 2 ^ 63 ≤ top
        → LeadTo top (square_side inst.now) (square_cell inst.now (0, 0) time_entered) phases.now
        index)) }
{
    if !is_square(inst) || !is_plain(inst) {
        return Ok(None);
    }
    graded_list_index(alloc, &GradedTable { inst }, phases)
}
