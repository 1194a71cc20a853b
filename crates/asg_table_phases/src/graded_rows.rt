//! Rows of a table of costs for `time-cost`, by amounts at a grade.

ghost use Rattle.std.specs.Prelude.{◌≡◌, ◌+◌, ◌<◌, ◌≤◌, ◌≤ℤ◌, ◌+ℤ◌, pos, IsTrue, length, slice_index, slice_index_or, unsigned_abs};
ghost use Rattle.asg_model.specs.Table.{absent};
ghost use Rattle.asg_monoids.specs.BoundedSums.{narrow_top};
ghost use Rattle.asg_table_phases.specs.GradedRows.{AreShort, CostsBelow, CostsReach, FirstsRise, LiveEndWell, LiveRise};

use asg_model::{Instance, RowRoom};

// Whether a part of a cost is, without its sign, at least this.
#[inline]
fn reaches(second: i64, need: i64) -> bool
    requires { pos 0 ≤ℤ (need +ℤ pos narrow_top) }
    ensures { IsTrue result → need ≤ℤ pos (unsigned_abs second) }
{
    (need <= second) | (second <= -need)
}

// Whether a cost with the number of its row is at least that of its column, by its amount at the
// grade as which this first part enters.
#[inline]
fn parts_end_well(first: i64, second: i64, limit: i64, number: u64, raise: u64) -> bool
    requires number { number ≤ narrow_top }
    requires raise { raise ≤ narrow_top }
    ensures at { IsTrue result → first ≡ limit → number ≤ unsigned_abs second + raise }
    ensures below { IsTrue result → (first +ℤ pos 1) ≤ℤ limit → number ≤ raise }
{
    let need = number as i64 - raise as i64;
    let is_at = (first == limit) & reaches(second, need);
    (first > limit) | (need <= 0) | is_at
}

// Whether the cost of a column does so.
#[inline]
fn cost_ends_well(
    firsts: &[i64],
    seconds: &[i64],
    columns: &[u64],
    column: usize,
    limit: i64,
    raise: u64,
) -> bool
    requires first { column < length firsts.now }
    requires second { column < length seconds.now }
    requires column { column < length columns.now }
    requires short { AreShort columns.now }
    requires raise { raise ≤ narrow_top }
    ensures at { IsTrue result → slice_index_or firsts.now column absent ≡ limit
        → slice_index columns.now column
        ≤ unsigned_abs (slice_index_or seconds.now column (pos 0)) + raise }
    ensures below { IsTrue result → (slice_index_or firsts.now column absent +ℤ pos 1) ≤ℤ limit
        → slice_index columns.now column ≤ raise }
{
    parts_end_well(
        firsts[column],
        seconds[column],
        limit,
        columns[column],
        raise,
    )
}

// Whether the costs of a row do so by the numbers of their columns.
fn costs_end_well(firsts: &[i64], seconds: &[i64], columns: &[u64], limit: i64, raise: u64) -> bool
    requires seconds { length firsts.now ≤ length seconds.now }
    requires columns { length firsts.now ≤ length columns.now }
    requires short { AreShort columns.now }
    requires raise { raise ≤ narrow_top }
    ensures at { IsTrue result
        → CostsReach firsts.now seconds.now columns.now limit raise (length firsts.now) }
    ensures below { IsTrue result
        → CostsBelow firsts.now columns.now limit raise (length firsts.now) }
{
    let mut end_well = true;
    'columns: for column in 0..firsts.len() {
        end_well &= cost_ends_well(firsts, seconds, columns, column, limit, raise);
    }
    end_well
}

/// Whether a row is counted, and each of its live cells with the number of the row is at least that
/// of its column, by its amount at the grade as which a first part enters. The answer `false` tells
/// nothing, as where a cell is absent.
pub(crate) fn row_ends_well(
    inst: &Instance,
    row: u32,
    columns: &[u64],
    limit: i64,
    raise: u64,
    room: &mut RowRoom,
) -> bool
    requires short { AreShort columns.now }
    ensures { IsTrue result → LiveEndWell inst.now columns.now limit raise row }
{
    if raise > 1 << 62 {
        return false;
    }
    if !inst.is_counted(row) {
        return false;
    }
    let Some(parts) = inst.row_parts(row, room) else {
        return false;
    };
    if parts.firsts.len() > columns.len() {
        return false;
    }
    if parts.firsts.len() > parts.seconds.len() {
        return false;
    }
    costs_end_well(parts.firsts, parts.seconds, columns, limit, raise)
}

// Whether no cost of a row has a first part below the limit in a column that doesn't leave at once.
fn firsts_rise(firsts: &[i64], leaves: &[u32], limit: i64) -> bool
    requires { length firsts.now ≤ length leaves.now }
    ensures { IsTrue result → FirstsRise firsts.now leaves.now limit (length firsts.now) }
{
    let mut rise = true;
    'columns: for column in 0..firsts.len() {
        rise &= (leaves[column] == 0) | (firsts[column] >= limit);
    }
    rise
}

/// Whether a row is counted, and no live cell of it has a first part below the limit in a column that
/// doesn't leave at once. The answer `false` tells nothing.
pub(crate) fn row_rises(
    inst: &Instance,
    row: u32,
    leaves: &[u32],
    limit: i64,
    room: &mut RowRoom,
) -> bool
    ensures { IsTrue result → LiveRise inst.now leaves.now limit row }
{
    if !inst.is_counted(row) {
        return false;
    }
    let Some(parts) = inst.row_parts(row, room) else {
        return false;
    };
    if parts.firsts.len() > leaves.len() {
        return false;
    }
    firsts_rise(parts.firsts, leaves, limit)
}
