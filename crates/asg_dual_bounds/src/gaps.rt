//! By how much the bounds of children are above that of their part, by a look at one row and one
//! column each.

ghost use Rattle.std.specs.Prelude.{◌≡◌, ◌⊎◌, ℕ, ◌+◌, ◌<◌, ◌≤◌, IsTrue, Some, [], length, slice_index};
ghost use Rattle.asg_model.specs.Problem.{Problem};
ghost use Rattle.asg_model.specs.declared.objectives.Objective.{Objective};
ghost use Rattle.asg_dual_bounds.specs.Bounds.{AreAbove};
ghost use Rattle.asg_dual_bounds.specs.GapTests.{Bars, IsGapBelow, IsColumnGapAt, IsGapIn};
ghost use Rattle.asg_dual_bounds.specs.RowTests.{AreClipped};
ghost use Rattle.asg_dual_bounds.specs.Tables.{absent, number_in, IsTable, IsTableOf};
ghost use Rattle.asg_dual_bounds.specs.Views.{part_of, duals_of, IsChildGap};

use crate::bounds::are_counts;
use crate::column_gaps::write_column_gaps;
use crate::lanes::{clip, least_of};
use crate::number_tables::{ABSENT, NumberTable};
use crate::parts::{Duals, Part};

/// Writes, for each row from the part's on, by how much more than the part's bound is a bound of
/// the child by an answer and the row. Dual variables that are above for the part are looked at,
/// each row from the part's on twice. The room and the leasts have a place for each column, and
/// there is one gap for each row, whatever stands there. `false` where lengths don't fit, or a
/// column isn't one of the table.
pub fn child_gaps(
    table: &NumberTable,
    part: Part<'_>,
    answer: &[u32],
    duals: Duals<'_>,
    room: &mut [u32],
    leasts: &mut [u32],
    gaps: &mut [u64],
) -> bool
    ensures count { length gaps.new ≡ length gaps.old }
    ensures gaps { IsTrue result
        → (objective : Objective) (X : Problem)
        → IsTableOf objective X table.now
        → AreAbove objective X
        (part_of part.entry.columns.now part.entry.row part.entry.banned.now)
        (duals_of duals.entry.falls.now duals.entry.rises.now duals.entry.floor)
        → (k : ℕ) → part.entry.row ≤ k → k < table.now.rows
        → IsChildGap objective X
        (part_of part.entry.columns.now part.entry.row part.entry.banned.now) answer.now k
        (duals_of duals.entry.falls.now duals.entry.rises.now duals.entry.floor)
        (slice_index gaps.new k) }
{
    if !are_counts(table, duals.falls.len(), duals.rises.len(), room.len()) {
        return false;
    }
    if leasts.len() != table.columns() {
        return false;
    }
    if gaps.len() != table.rows() || part.row >= table.rows() {
        return false;
    }
    if !are_columns(answer, table.rows(), table.columns()) {
        return false;
    }
    write_column_gaps(table, answer, part.row, duals, room, leasts, gaps);
    let column_gap = gaps[part.row];
    gaps[part.row] = first_gap(
        table,
        part.banned,
        answer,
        part.row,
        duals,
        room,
        column_gap,
    );
    later_gaps(table, answer, part.row, duals, room, gaps);
    true
}

// Whether there are so many columns, all of them below a number.
fn are_columns(columns: &[u32], count: usize, below: usize) -> bool
    ensures count { IsTrue result → length columns.now ≡ count }
    ensures below { IsTrue result → (r : ℕ) → r < count → slice_index columns.now r < below }
{
    if columns.len() != count {
        return false;
    }
    'rows: for row in 0..columns.len() {
        if columns[row] as usize >= below {
            return false;
        }
    }
    true
}

// The gap of the child by the part's own row, of its column's.
fn first_gap(
    table: &NumberTable,
    banned: &[u32],
    answer: &[u32],
    k: usize,
    duals: Duals<'_>,
    room: &mut [u32],
    column_gap: u64,
) -> u64
    requires row { k < table.now.rows }
    requires answer { length answer.now ≡ table.now.rows }
    requires column { IsColumnGapAt table.now answer.now k
        (duals_of duals.falls.now duals.rises.now duals.floor) column_gap }
    requires falls { length duals.falls.now ≡ table.now.rows }
    requires rises { length duals.rises.now ≡ table.now.columns }
    requires room { length room.old ≡ table.now.columns }
    ensures count { length room.new ≡ length room.old }
    ensures gap { IsGapIn table.now answer.now k banned.now
        (duals_of duals.entry.falls.now duals.entry.rises.now duals.entry.floor) result }
{
    clip(duals.rises, room);
    bar_all(room, answer, k + 1);
    bar_all(room, banned, banned.len());
    gap_at(table, k, duals, room, column_gap)
}

// Writes the gaps of the children by later rows, of those of their columns.
fn later_gaps(
    table: &NumberTable,
    answer: &[u32],
    row: usize,
    duals: Duals<'_>,
    room: &mut [u32],
    gaps: &mut [u64],
)
    requires row { row < table.now.rows }
    requires answer { length answer.now ≡ table.now.rows }
    requires falls { length duals.falls.now ≡ table.now.rows }
    requires rises { length duals.rises.now ≡ table.now.columns }
    requires room { length room.old ≡ table.now.columns }
    requires count { length gaps.old ≡ table.now.rows }
    requires gaps { (k : ℕ) → k < table.now.rows → row < k
        → IsColumnGapAt table.now answer.now k
        (duals_of duals.falls.now duals.rises.now duals.floor) (slice_index gaps.old k) }
    ensures count { length gaps.new ≡ length gaps.old }
    ensures before { (k : ℕ) → k < row + 1
        → slice_index gaps.new k ≡ slice_index gaps.old k }
    ensures gaps { (k : ℕ) → k < table.now.rows → row < k
        → IsGapIn table.now answer.now k []
        (duals_of duals.entry.falls.now duals.entry.rises.now duals.entry.floor)
        (slice_index gaps.new k) }
{
    clip(duals.rises, room);
    bar_all(room, answer, row + 1);
    'rows: for k in row + 1..table.rows() {
        bar(room, answer[k]);
        gaps[k] = gap_at(table, k, duals, room, gaps[k]);
    }
}

// The gap of the child by row `k`, of its column's, where a room has the rises, clipped, but for
// barred columns.
fn gap_at(table: &NumberTable, k: usize, duals: Duals<'_>, low: &[u32], column_gap: u64) -> u64
    requires row { k < table.now.rows }
    requires falls { length duals.falls.now ≡ table.now.rows }
    requires low { length low.now ≡ table.now.columns }
    requires below { (c : ℕ) → c < table.now.columns → slice_index low.now c < absent }
    requires few { column_gap < 4294967296 }
    ensures table { IsTable table.now }
    ensures gap { (row_gap : ℕ) × (result ≡ row_gap + column_gap)
        × IsGapBelow table.now k (slice_index duals.entry.falls.now k) low.now row_gap }
{
    row_gap(table, k, duals.falls[k], low) + column_gap
}

// What the fall of a row may be raised by.
fn row_gap(table: &NumberTable, k: usize, fall: u64, low: &[u32]) -> u64
    requires row { k < table.now.rows }
    requires low { length low.now ≡ table.now.columns }
    requires below { (c : ℕ) → c < table.now.columns → slice_index low.now c < absent }
    ensures table { IsTable table.now }
    ensures gap { IsGapBelow table.now k fall low.now result }
    ensures bound { result < 4294967296 }
{
    (least_of(table.row(k), low) as u64).saturating_sub(fall)
}

// Gives a column what keeps it out of a row's gap.
#[inline]
pub(crate) fn bar(low: &mut [u32], column: u32)
    ensures count { length low.new ≡ length low.old }
    ensures below { (c : ℕ) → slice_index low.old c < absent → slice_index low.new c < absent }
    ensures each { (c : ℕ) → (slice_index low.new c ≡ slice_index low.old c) ⊎ (column ≡ c) }
{
    if (column as usize) < low.len() {
        low[column as usize] = ABSENT - 1;
    }
}

// Gives each of the first columns of a list that.
pub(crate) fn bar_all(low: &mut [u32], columns: &[u32], count: usize)
    requires { count ≤ length columns.now }
    ensures count { length low.new ≡ length low.old }
    ensures below { (c : ℕ) → slice_index low.old c < absent → slice_index low.new c < absent }
    ensures bars { Bars columns.now count low.old low.new }
{
    'places: for place in 0..count {
        bar(low, columns[place]);
    }
}
