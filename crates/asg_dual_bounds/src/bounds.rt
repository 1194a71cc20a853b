//! Tests of dual variables, and their bounds.

ghost use Rattle.std.specs.Prelude.{◌≡◌, ℕ, ◌<◌, ◌≤◌, IsTrue, IfSome, ◌==◌, if◌then◌else◌, [], length, slice_index, sum};
ghost use Rattle.asg_model.specs.Problem.{Problem};
ghost use Rattle.asg_model.specs.declared.objectives.Objective.{Objective};
ghost use Rattle.asg_dual_bounds.specs.Bounds.{AreAbove, IsDualBound};
ghost use Rattle.asg_dual_bounds.specs.Parts.{Part as PartLists, child_part};
ghost use Rattle.asg_dual_bounds.specs.RowTests.{AreClipped, IsRowAbove};
ghost use Rattle.asg_dual_bounds.specs.Tables.{IsTable, IsTableOf};
ghost use Rattle.asg_dual_bounds.specs.Views.{part_of, duals_of};

use crate::lanes::{are_floored, are_raised, clip};
use crate::number_tables::NumberTable;
use crate::own_rows::is_own_row_above;
use crate::parts::{Duals, Part};
use crate::row_tests::{are_cells_above, are_rows_kept, is_row_above};

/// Whether no cell of a table is less than dual variables ask, in one look over the cells. The room
/// has a place for each column, whatever stands there.
pub fn is_above(table: &NumberTable, duals: Duals<'_>, room: &mut [u32]) -> bool
    ensures { IsTrue result
        → (objective : Objective) (X : Problem) (part : PartLists)
        → IsTableOf objective X table.now
        → AreAbove objective X part
        (duals_of duals.entry.falls.now duals.entry.rises.now duals.entry.floor) }
{
    if !are_counts(table, duals.falls.len(), duals.rises.len(), room.len()) {
        return false;
    }
    if !are_floored(duals.rises, duals.floor, room) {
        return false;
    }
    are_rows_above(table, duals.falls, duals.rises, room)
}

/// Whether no cell that the child by an answer and row `k` allows is less than the dual variables
/// `after` ask, where none that the part allows is less than `before` asks. Only rows whose falls
/// rose are looked at; no rise may have become less. The room has a place for each column, whatever
/// stands there.
pub fn is_above_child(
    table: &NumberTable,
    part: Part<'_>,
    answer: &[u32],
    k: usize,
    before: Duals<'_>,
    after: Duals<'_>,
    room: &mut [u32],
) -> bool
    ensures { IsTrue result
        → (objective : Objective) (X : Problem)
        → IsTableOf objective X table.now
        → AreAbove objective X
        (part_of part.entry.columns.now part.entry.row part.entry.banned.now)
        (duals_of before.entry.falls.now before.entry.rises.now before.entry.floor)
        → AreAbove objective X
        (child_part (part_of part.entry.columns.now part.entry.row part.entry.banned.now)
        answer.now k)
        (duals_of after.entry.falls.now after.entry.rises.now after.entry.floor) }
{
    if !are_counts(table, after.falls.len(), after.rises.len(), room.len()) {
        return false;
    }
    if !are_counts(table, before.falls.len(), before.rises.len(), room.len()) {
        return false;
    }
    if answer.len() != table.rows() {
        return false;
    }
    if k < part.row || k >= answer.len() {
        return false;
    }
    if !are_raised(before.rises, after.rises, after.floor) {
        return false;
    }
    clip(after.rises, room);
    if !are_cells_above(table, answer, k, after.falls, after.rises) {
        return false;
    }
    if !are_rows_kept(table, k + 1, before.falls, after.falls, after.rises, room) {
        return false;
    }
    let banned = banned_in(part, k);
    is_own_row_above(
        table,
        k,
        answer[k],
        banned,
        after.rises,
        after.falls[k],
        room,
    )
}

/// A bound by dual variables: the falls less the rises, and the floor for each column more than
/// there are rows. `None` where it is below 0 or not below 2^64.
pub fn dual_bound(duals: Duals<'_>) -> Option<u64>
    ensures { let n = length duals.entry.falls.now in
        let m = length duals.entry.rises.now in
        let lists = duals_of duals.entry.falls.now duals.entry.rises.now duals.entry.floor in
        IfSome result (IsDualBound m n lists) }
{
    let falls = total(duals.falls)?;
    let rises = total(duals.rises)?;
    let free = duals.rises.len().saturating_sub(duals.falls.len());
    let floors = (free as u128).checked_mul(duals.floor as u128)?;
    let most = falls.checked_add(floors)?;
    narrow(most.checked_sub(rises)?)
}

// The number, where it is below 2^64.
fn narrow(number: u128) -> Option<u64>
    ensures { IfSome result (λ n. n ≡ number) }
{
    if number <= u64::MAX as u128 {
        Some(number as u64)
    } else {
        None
    }
}

// The numbers added up, where that is below 2^64.
fn narrow_total(numbers: &[u64]) -> Option<u64>
    ensures { IfSome result (λ total. total ≡ sum numbers.now) }
{
    let mut total = 0u64;
    'numbers: for number in numbers {
        match total.checked_add(*number) {
            Some(more) => total = more,
            None => return None,
        }
    }
    Some(total)
}

// The numbers added up.
fn wide_total(numbers: &[u64]) -> Option<u128>
    ensures { IfSome result (λ total. total ≡ sum numbers.now) }
{
    let mut total = 0u128;
    'numbers: for number in numbers {
        match total.checked_add(*number as u128) {
            Some(more) => total = more,
            None => return None,
        }
    }
    Some(total)
}

// The same, in 64 bits where they do.
fn total(numbers: &[u64]) -> Option<u128>
    ensures { IfSome result (λ total. total ≡ sum numbers.now) }
{
    match narrow_total(numbers) {
        Some(total) => Some(total as u128),
        None => wide_total(numbers),
    }
}

// Whether there are so many falls, rises and places of a room as a table has rows and columns.
pub(crate) fn are_counts(table: &NumberTable, falls: usize, rises: usize, room: usize) -> bool
    ensures falls { IsTrue result → falls ≡ table.now.rows }
    ensures rises { IsTrue result → rises ≡ table.now.columns }
    ensures room { IsTrue result → room ≡ table.now.columns }
    ensures table { IsTable table.now }
{
    falls == table.rows() && rises == table.columns() && room == table.columns()
}

// What row `k` of a child doesn't take besides its own column.
#[inline]
pub(crate) fn banned_in<'a>(part: Part<'a>, k: usize) -> &'a [u32]
    ensures { result.now ≡ (if k == part.entry.row then part.entry.banned.now else []) }
{
    if k == part.row { part.banned } else { &[] }
}

// Whether no cell of a table is less than dual variables ask, row by row.
fn are_rows_above(table: &NumberTable, falls: &[u64], rises: &[u64], low: &[u32]) -> bool
    requires falls { length falls.now ≡ table.now.rows }
    requires rises { length rises.now ≡ table.now.columns }
    requires low { length low.now ≡ table.now.columns }
    requires clipped { AreClipped rises.now low.now }
    ensures { IsTrue result → (r : ℕ) → r < table.now.rows
        → IsRowAbove table.now r (slice_index falls.now r) rises.now }
{
    'rows: for row in 0..table.rows() {
        if !is_row_above(table, row, rises, low, falls[row]) {
            return false;
        }
    }
    true
}
