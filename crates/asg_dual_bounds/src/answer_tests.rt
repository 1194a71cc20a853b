//! Tests of answers, and their sums.

ghost use Rattle.std.specs.Prelude.{◌≡◌, ℕ, ◌<◌, ◌≤◌, ◌*◌, IsTrue, IsSome, length, slice_index};
ghost use Rattle.std.specs.Option.{unwrap_or};
ghost use Rattle.asg_model.specs.Limits.{most_rows};
ghost use Rattle.asg_model.specs.Problem.{Problem};
ghost use Rattle.asg_model.specs.Sums.{sum_below};
ghost use Rattle.asg_model.specs.declared.objectives.Objective.{Objective};
ghost use Rattle.asg_dual_bounds.specs.Numbers.{sum_at, IsAnswer};
ghost use Rattle.asg_dual_bounds.specs.Tables.{absent, number_in, number_of, table_number, IsTableOf};

use crate::number_tables::{ABSENT, NumberTable};

/// Whether a list of columns is an answer. The room has a place for each column, whatever stands
/// there; `false` also where it has fewer.
pub fn is_answer(table: &NumberTable, columns: &[u32], room: &mut [u32]) -> bool
    ensures count { length room.new ≡ length room.old }
    ensures answer { IsTrue result
        → (objective : Objective) (X : Problem)
        → IsTableOf objective X table.now → IsAnswer objective X columns.now }
{
    if columns.len() != table.rows() || room.len() < table.columns() {
        return false;
    }
    write_rows(columns, room);
    are_placed(table, columns, room)
}

/// The sum of the numbers of the cells that a list of columns gives the rows, 0 for a cell that has
/// none.
pub fn sum_of(table: &NumberTable, columns: &[u32]) -> u64
    requires { length columns.now ≡ table.now.rows }
    ensures sum { (objective : Objective) (X : Problem)
        → IsTableOf objective X table.now → result ≡ sum_at objective X columns.now }
    ensures bound { result ≤ 2147483648000 }
{
    table_sum(table, columns)
}

// The same, by the table.
fn table_sum(table: &NumberTable, columns: &[u32]) -> u64
    requires { length columns.now ≡ table.now.rows }
    ensures sum { result ≡ sum_below (table_number table.now columns.now) table.now.rows }
    ensures bound { result ≤ 2147483648000 }
{
    let mut total = 0;
    'rows: for row in 0..table.rows() {
        total += number_or_none(table, row, columns[row]);
    }
    total
}

// The number of a row and a column, 0 where there is none.
#[inline]
fn number_or_none(table: &NumberTable, row: usize, column: u32) -> u64
    requires { row < table.now.rows }
    ensures number { result ≡ unwrap_or (number_in table.now row column) 0 }
    ensures bound { result < absent }
{
    if (column as usize) < table.columns() {
        slot_or_none(table.row(row)[column as usize])
    } else {
        0
    }
}

// What stands at a place as a number, 0 where there is none.
#[inline]
fn slot_or_none(slot: u32) -> u64
    requires { slot ≤ absent }
    ensures number { result ≡ unwrap_or (number_of slot) 0 }
    ensures bound { result < absent }
{
    if slot == ABSENT { 0 } else { slot as u64 }
}

// Writes the row of each column.
fn write_rows(columns: &[u32], row_of: &mut [u32])
    requires { length columns.now ≤ most_rows }
    ensures { length row_of.new ≡ length row_of.old }
{
    'rows: for row in 0..columns.len() {
        let column = columns[row] as usize;
        if column < row_of.len() {
            row_of[column] = row as u32;
        }
    }
}

// Whether each row has a number in its column, whose row is that row.
fn are_placed(table: &NumberTable, columns: &[u32], row_of: &[u32]) -> bool
    requires rows { length columns.now ≡ table.now.rows }
    requires columns { table.now.columns ≤ length row_of.now }
    ensures own { IsTrue result → (r : ℕ) → r < table.now.rows
        → slice_index row_of.now (slice_index columns.now r) ≡ r }
    ensures there { IsTrue result → (r : ℕ) → r < table.now.rows
        → IsSome (number_in table.now r (slice_index columns.now r)) }
{
    'rows: for row in 0..table.rows() {
        if !has_number(table, row, columns[row]) {
            return false;
        }
        if !is_own(row_of, columns[row], row) {
            return false;
        }
    }
    true
}

// Whether a row has a number in a column.
#[inline]
fn has_number(table: &NumberTable, row: usize, column: u32) -> bool
    requires { row < table.now.rows }
    ensures { IsTrue result → IsSome (number_in table.now row column) }
{
    if (column as usize) < table.columns() {
        table.row(row)[column as usize] != ABSENT
    } else {
        false
    }
}

// Whether the row of a column is this one.
#[inline]
fn is_own(row_of: &[u32], column: u32, row: usize) -> bool
    ensures { IsTrue result → slice_index row_of.now column ≡ row }
{
    if (column as usize) < row_of.len() {
        row_of[column as usize] as usize == row
    } else {
        false
    }
}
