//! Tests of the row that loses its column.

ghost use Rattle.std.specs.Prelude.{◌≡◌, ◌≢◌, ◌⊎◌, ℕ, ◌<◌, ◌≤◌, ◌+◌, IsTrue, Some, length, slice_index, Contains};
ghost use Rattle.asg_dual_bounds.specs.Tables.{absent, number_in, IsTable};
ghost use Rattle.asg_dual_bounds.specs.RowTests.{AreClipped, IsRowAboveBut};

use crate::gaps::{bar, bar_all};
use crate::lanes::least_of;
use crate::number_tables::NumberTable;
use crate::row_tests::is_above;

// Whether what stands in a column of a row is at least the fall with the column's rise, or the
// column is the row's own or banned.
#[inline]
fn is_above_or_banned(
    slots: &[u32],
    rises: &[u64],
    fall: u64,
    own: u32,
    banned: &[u32],
    column: usize,
) -> bool
    requires column { column < length slots.now }
    requires rises { length rises.now ≡ length slots.now }
    ensures { IsTrue result → column ≢ own → ¬ Contains banned.now column
        → slice_index slots.now column ≢ absent
        → fall ≤ slice_index slots.now column + slice_index rises.now column }
{
    is_above(slots[column], rises[column], fall) || is_banned(own, banned, column)
}

// Whether a column is a row's own or banned.
fn is_banned(own: u32, banned: &[u32], column: usize) -> bool
    ensures { IsTrue result → (column ≡ own) ⊎ Contains banned.now column }
{
    if column == own as usize {
        return true;
    }
    'columns: for other in banned {
        if *other as usize == column {
            return true;
        }
    }
    false
}

// Whether each cell of a row is, with its column's rise, at least the fall, but for one in a column
// of its own and those in banned ones.
fn is_row_above_but(
    table: &NumberTable,
    row: usize,
    own: u32,
    banned: &[u32],
    rises: &[u64],
    fall: u64,
) -> bool
    requires row { row < table.now.rows }
    requires rises { length rises.now ≡ table.now.columns }
    ensures { IsTrue result → IsRowAboveBut table.now row fall rises.now own banned.now }
{
    let slots = table.row(row);
    'columns: for column in 0..slots.len() {
        if !is_above_or_banned(slots, rises, fall, own, banned, column) {
            return false;
        }
    }
    true
}

// Whether each number of a row is, with what its column has, at least the fall.
#[inline]
fn is_low_row_above(table: &NumberTable, row: usize, low: &[u32], fall: u64) -> bool
    requires row { row < table.now.rows }
    requires low { length low.now ≡ table.now.columns }
    requires below { (c : ℕ) → c < table.now.columns → slice_index low.now c < absent }
    ensures table { IsTable table.now }
    ensures above { IsTrue result → (c x : ℕ) → number_in table.now row c ≡ Some x
        → fall ≤ x + slice_index low.now c }
{
    least_of(table.row(row), low) as u64 >= fall
}

/// The same, mostly by a quick pass over the clipped rises, of which those of these columns are
/// lost.
pub(crate) fn is_own_row_above(
    table: &NumberTable,
    row: usize,
    own: u32,
    banned: &[u32],
    rises: &[u64],
    fall: u64,
    low: &mut [u32],
) -> bool
    requires row { row < table.now.rows }
    requires rises { length rises.now ≡ table.now.columns }
    requires low { length low.old ≡ table.now.columns }
    requires clipped { AreClipped rises.now low.old }
    ensures { IsTrue result → IsRowAboveBut table.now row fall rises.now own banned.now }
{
    bar(low, own);
    bar_all(low, banned, banned.len());
    if is_low_row_above(table, row, low, fall) {
        return true;
    }
    is_row_above_but(table, row, own, banned, rises, fall)
}
