//! Tests of the rows and the cells of a table.

ghost use Rattle.std.specs.Prelude.{◌≡◌, ◌≢◌, ℕ, ◌<◌, ◌≤◌, ◌+◌, IsTrue, length, slice_index};
ghost use Rattle.asg_dual_bounds.specs.Tables.{absent};
ghost use Rattle.asg_dual_bounds.specs.RowTests.{AreClipped, AreSlotsAbove, IsCellAbove, IsRowAbove, IsRowKept};

use crate::lanes::least_of;
use crate::number_tables::{ABSENT, NumberTable};

// Whether what stands at a place is no number, or with its column's rise at least the fall.
#[inline]
pub(crate) fn is_above(slot: u32, rise: u64, fall: u64) -> bool
    ensures { IsTrue result → slot ≢ absent → fall ≤ slot + rise }
{
    slot == ABSENT || rise.saturating_add(slot as u64) >= fall
}

// Whether each number is, with its column's rise, at least the fall.
fn are_above(slots: &[u32], rises: &[u64], fall: u64) -> bool
    requires { length rises.now ≡ length slots.now }
    ensures { IsTrue result → AreSlotsAbove slots.now rises.now fall }
{
    'columns: for column in 0..slots.len() {
        if !is_above(slots[column], rises[column], fall) {
            return false;
        }
    }
    true
}

// The same, mostly by a quick pass over the clipped rises.
#[inline]
fn slots_are_above(slots: &[u32], rises: &[u64], low: &[u32], fall: u64) -> bool
    requires rises { length rises.now ≡ length slots.now }
    requires low { length low.now ≡ length slots.now }
    requires slots { (c : ℕ) → c < length slots.now → slice_index slots.now c ≤ absent }
    requires clipped { AreClipped rises.now low.now }
    ensures { IsTrue result → AreSlotsAbove slots.now rises.now fall }
{
    if least_of(slots, low) as u64 >= fall {
        true
    } else {
        are_above(slots, rises, fall)
    }
}

// Whether each cell of a row is, with its column's rise, at least the fall.
pub(crate) fn is_row_above(
    table: &NumberTable,
    row: usize,
    rises: &[u64],
    low: &[u32],
    fall: u64,
) -> bool
    requires row { row < table.now.rows }
    requires rises { length rises.now ≡ table.now.columns }
    requires low { length low.now ≡ table.now.columns }
    requires clipped { AreClipped rises.now low.now }
    ensures { IsTrue result → IsRowAbove table.now row fall rises.now }
{
    slots_are_above(table.row(row), rises, low, fall)
}

// Whether a row fell by no more than before, or each of its cells is at least its fall.
#[inline]
fn is_row_kept(
    table: &NumberTable,
    row: usize,
    before: &[u64],
    falls: &[u64],
    rises: &[u64],
    low: &[u32],
) -> bool
    requires row { row < table.now.rows }
    requires before { length before.now ≡ table.now.rows }
    requires falls { length falls.now ≡ table.now.rows }
    requires rises { length rises.now ≡ table.now.columns }
    requires low { length low.now ≡ table.now.columns }
    requires clipped { AreClipped rises.now low.now }
    ensures { IsTrue result → IsRowKept table.now before.now falls.now rises.now row }
{
    falls[row] <= before[row] || is_row_above(table, row, rises, low, falls[row])
}

// Whether each row from one on did.
pub(crate) fn are_rows_kept(
    table: &NumberTable,
    first: usize,
    before: &[u64],
    falls: &[u64],
    rises: &[u64],
    low: &[u32],
) -> bool
    requires before { length before.now ≡ table.now.rows }
    requires falls { length falls.now ≡ table.now.rows }
    requires rises { length rises.now ≡ table.now.columns }
    requires low { length low.now ≡ table.now.columns }
    requires clipped { AreClipped rises.now low.now }
    ensures { IsTrue result → (r : ℕ) → r < table.now.rows → first ≤ r
        → IsRowKept table.now before.now falls.now rises.now r }
{
    'rows: for row in first..table.rows() {
        if !is_row_kept(table, row, before, falls, rises, low) {
            return false;
        }
    }
    true
}

// Whether a cell is, with its column's rise, at least the fall.
#[inline]
fn is_cell_above(table: &NumberTable, row: usize, column: u32, fall: u64, rises: &[u64]) -> bool
    requires row { row < table.now.rows }
    requires rises { length rises.now ≡ table.now.columns }
    ensures { IsTrue result → IsCellAbove table.now row column fall rises.now }
{
    let slots = table.row(row);
    if (column as usize) < slots.len() {
        is_above(slots[column as usize], rises[column as usize], fall)
    } else {
        true
    }
}

// Whether the cells of the first rows' columns are.
pub(crate) fn are_cells_above(
    table: &NumberTable,
    columns: &[u32],
    count: usize,
    falls: &[u64],
    rises: &[u64],
) -> bool
    requires count { count ≤ table.now.rows }
    requires columns { length columns.now ≡ table.now.rows }
    requires falls { length falls.now ≡ table.now.rows }
    requires rises { length rises.now ≡ table.now.columns }
    ensures { IsTrue result → (r : ℕ) → r < count
        → IsCellAbove table.now r (slice_index columns.now r) (slice_index falls.now r) rises.now }
{
    'rows: for row in 0..count {
        if !is_cell_above(table, row, columns[row], falls[row], rises) {
            return false;
        }
    }
    true
}
