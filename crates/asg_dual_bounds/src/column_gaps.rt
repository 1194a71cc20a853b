//! By how much the rises of an answer's columns may be lessened, from the last row up.

ghost use Rattle.std.specs.Prelude.{◌≡◌, ◌⊎◌, ℕ, ◌+◌, ◌<◌, ◌≤◌, Some, length, slice_index};
ghost use Rattle.asg_dual_bounds.specs.GapTests.{IsColumnGapAt};
ghost use Rattle.asg_dual_bounds.specs.Tables.{absent, number_in};
ghost use Rattle.asg_dual_bounds.specs.Views.{duals_of};

use crate::lanes::{clip, lessen};
use crate::number_tables::NumberTable;
use crate::parts::Duals;

/// Writes, for each row from one on, by how much its column's rise may be lessened where the rows
/// after it stay. The room and the leasts have a place for each column, whatever stands there.
pub(crate) fn write_column_gaps(
    table: &NumberTable,
    answer: &[u32],
    row: usize,
    duals: Duals<'_>,
    room: &mut [u32],
    leasts: &mut [u32],
    gaps: &mut [u64],
)
    requires row { row < table.now.rows }
    requires answer { length answer.now ≡ table.now.rows }
    requires columns { (r : ℕ) → r < table.now.rows → slice_index answer.now r < table.now.columns }
    requires falls { length duals.falls.now ≡ table.now.rows }
    requires rises { length duals.rises.now ≡ table.now.columns }
    requires room { length room.old ≡ table.now.columns }
    requires leasts { length leasts.old ≡ table.now.columns }
    requires gaps { length gaps.old ≡ table.now.rows }
    ensures room { length room.new ≡ length room.old }
    ensures count { length gaps.new ≡ length gaps.old }
    ensures gaps { (k : ℕ) → k < table.now.rows → row ≤ k
        → IsColumnGapAt table.now answer.now k
        (duals_of duals.entry.falls.now duals.entry.rises.now duals.entry.floor)
        (slice_index gaps.new k) }
{
    clip(duals.rises, room);
    leasts.fill(u32::MAX);
    let rows = table.rows();
    'rows: for done in 0..rows - row {
        let k = rows - 1 - done;
        let column = answer[k] as usize;
        gaps[k] = column_gap(leasts[column], duals.rises[column], duals.floor);
        lessen_by_row(table, k, duals.falls[k], room, leasts);
    }
}

// What a column's rise may be lessened by, where the later rows leave so much of it.
#[inline]
fn column_gap(least: u32, rise: u64, floor: u64) -> u64
    ensures least { result ≤ least }
    ensures few { result < 4294967296 }
    ensures floored { (result ≡ 0) ⊎ (floor + result ≤ rise) }
{
    (least as u64).min(rise.saturating_sub(floor))
}

// Lessens what each column has to what a row leaves of its rise.
fn lessen_by_row(table: &NumberTable, k: usize, fall: u64, low: &[u32], leasts: &mut [u32])
    requires row { k < table.now.rows }
    requires low { length low.now ≡ table.now.columns }
    requires below { (c : ℕ) → c < table.now.columns → slice_index low.now c < absent }
    requires leasts { length leasts.old ≡ table.now.columns }
    ensures count { length leasts.new ≡ length leasts.old }
    ensures less { (c : ℕ) → slice_index leasts.new c ≤ slice_index leasts.old c }
    ensures row { (c x : ℕ) → number_in table.now k c ≡ Some x
        → (slice_index leasts.new c ≡ 0)
        ⊎ (fall + slice_index leasts.new c ≤ x + slice_index low.now c) }
{
    lessen(table.row(k), low, fall, leasts);
}
