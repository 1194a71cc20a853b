//! The columns that a row reaches: marks for them, kept in an array of as many places as an
//! instance may have columns.

ghost use Rattle.std.specs.Prelude.{◌≡◌, ◌≤◌, ◌<◌, ℕ, ℤ, ◌+◌, unsigned_abs, false, ◌||◌, ◌&&◌, int_le, IsTrue, All, length, slice_index_or, slice_get};
ghost use Rattle.std.specs.Option.{option_map_or};
ghost use Rattle.asg_model.specs.Limits.{most_cost, most_columns};
ghost use Rattle.asg_model.specs.Bands.{in_band};
ghost use Rattle.asg_model.specs.CellLists.{AreRowCells};
ghost use Rattle.asg_model.specs.Live.{is_active};
ghost use Rattle.asg_model.specs.HallSet.{is_live_within, reaches};
ghost use Rattle.asg_model.specs.Table.{absent, IsEntry};
ghost use Rattle.asg_model.specs.ValueRange.{IsPartInRange};
ghost use Rattle.asg_values.specs.Marks.{lies_between, meets, AreMarked};

use crate::marked_cells::mark_cells;
use asg_model::limits::{MOST_COLUMNS, MOST_COST};
use asg_model::{Band, Column, Cost, Instance, RowRoom};

// Marks the columns in which the row that has the id has a live cell of the band. The room is for
// the costs of a row.
pub(crate) fn reach_id(
    inst: &Instance,
    band: Band,
    id: u32,
    room: &mut RowRoom,
    reached: &mut [bool; MOST_COLUMNS],
)
    ensures { (c : ℕ) → c < length inst.now.columns →
        slice_index_or reached.new c false
        ≡ (slice_index_or reached.old c false || reaches inst.now band c id) }
{
    match inst.row_place(id) {
        Some(row) => reach_row(inst, band, row, room, reached),
        None => {}
    }
}

// The same for the row at a place.
fn reach_row(
    inst: &Instance,
    band: Band,
    row: u32,
    room: &mut RowRoom,
    reached: &mut [bool; MOST_COLUMNS],
)
    ensures { (c : ℕ) → c < length inst.now.columns →
        slice_index_or reached.new c false
        ≡ (slice_index_or reached.old c false || is_live_within inst.now band row c) }
{
    if inst.is_active(row) {
        reach_active(inst, band, row, room, reached);
    }
}

// The same for an active row.
fn reach_active(
    inst: &Instance,
    band: Band,
    row: u32,
    room: &mut RowRoom,
    reached: &mut [bool; MOST_COLUMNS],
)
    requires { IsTrue (is_active inst.now row) }
    ensures { (c : ℕ) → c < length inst.now.columns →
        slice_index_or reached.new c false
        ≡ (slice_index_or reached.old c false || is_live_within inst.now band row c) }
{
    match inst.row_cells(row) {
        Some(cells) => reach_cells(inst, band, row, cells, reached),
        None => reach_parts(inst, band, row, room, reached),
    }
}

// The same for an active row, by the list of its cells.
fn reach_cells(
    inst: &Instance,
    band: Band,
    row: u32,
    cells: &[((u32, u32), Cost)],
    reached: &mut [bool; MOST_COLUMNS],
)
    requires active { IsTrue (is_active inst.now row) }
    requires cells { AreRowCells inst.now row cells.now }
    ensures { (c : ℕ) → c < length inst.now.columns →
        slice_index_or reached.new c false
        ≡ (slice_index_or reached.old c false || is_live_within inst.now band row c) }
{
    let (low, high) = ends(band);
    mark_cells(inst.columns(), cells, low, high, reached);
}

// The same for an active row, by the costs of its table.
fn reach_parts(
    inst: &Instance,
    band: Band,
    row: u32,
    room: &mut RowRoom,
    reached: &mut [bool; MOST_COLUMNS],
)
    requires { IsTrue (is_active inst.now row) }
    ensures { (c : ℕ) → c < length inst.now.columns →
        slice_index_or reached.new c false
        ≡ (slice_index_or reached.old c false || is_live_within inst.now band row c) }
{
    if let Some(parts) = inst.row_parts(row, room) {
        let (low, high) = ends(band);
        reach_costs(inst.columns(), parts.firsts, low, high, reached);
    }
}

// How many costs are looked at at once.
const PIECE: usize = 16;

// Marks the open columns whose costs lie between two ends, both included.
fn reach_costs(
    columns: &[Column],
    costs: &[i64],
    low: i64,
    high: i64,
    reached: &mut [bool; MOST_COLUMNS],
)
    requires few { length columns.now ≤ most_columns }
    requires whole { length costs.now ≡ length columns.now }
    requires entries { All IsEntry costs.now }
    ensures { AreMarked (meets columns.now costs.now low high) 0 (length columns.now)
        reached.old reached.new }
{
    for number in 0..columns.len().div_ceil(PIECE) {
        let first = number * PIECE;
        let end = (first + PIECE).min(columns.len());
        reach_piece(columns, costs, low, high, first, end, reached);
    }
}

// The same of the columns from one to another. In most pieces of a row with few live cells no cost
// lies there, which one look tells.
fn reach_piece(
    columns: &[Column],
    costs: &[i64],
    low: i64,
    high: i64,
    first: usize,
    end: usize,
    reached: &mut [bool; MOST_COLUMNS],
)
    requires few { length columns.now ≤ most_columns }
    requires whole { length costs.now ≡ length columns.now }
    requires entries { All IsEntry costs.now }
    requires order { first ≤ end }
    requires within { end ≤ length columns.now }
    ensures { AreMarked (meets columns.now costs.now low high) first end reached.old reached.new }
{
    if has_between(costs, low, high, first, end) {
        mark_piece(columns, costs, low, high, first, end, reached);
    }
}

// Whether the cost in some column from one to another lies between two ends, both included.
fn has_between(costs: &[i64], low: i64, high: i64, first: usize, end: usize) -> bool
    requires within { end ≤ length costs.now }
    requires entries { All IsEntry costs.now }
    ensures { result ≡ false
        → (c : ℕ) → first ≤ c → c < end → lies_between costs.now low high c ≡ false }
{
    let mut has = false;
    for column in first..end {
        has = has | is_between(costs[column], low, high);
    }
    has
}

// Marks those columns from one to another that are open and whose costs lie between two ends.
fn mark_piece(
    columns: &[Column],
    costs: &[i64],
    low: i64,
    high: i64,
    first: usize,
    end: usize,
    reached: &mut [bool; MOST_COLUMNS],
)
    requires few { length columns.now ≤ most_columns }
    requires whole { length costs.now ≡ length columns.now }
    requires entries { All IsEntry costs.now }
    requires order { first ≤ end }
    requires within { end ≤ length columns.now }
    ensures { AreMarked (meets columns.now costs.now low high) first end reached.old reached.new }
{
    for column in first..end {
        reached[column] = reached[column]
            | (columns[column].usable & is_between(costs[column], low, high));
    }
}

// Whether the cost lies between two ends, both included.
pub(crate) fn is_between(cost: i64, low: i64, high: i64) -> bool
    ensures { result ≡ (int_le low cost && int_le cost high) }
{
    low <= cost && cost <= high
}

// The ends of the band among the costs that an instance may have.
fn ends(band: Band) -> (i64, i64)
    ensures within { (a : ℤ) → IsPartInRange a →
        in_band band a ≡ (int_le result.0 a && int_le a result.1) }
    ensures low { unsigned_abs result.0 ≤ most_cost + 1 }
    ensures high { unsigned_abs result.1 ≤ most_cost + 1 }
{
    match band {
        Band::Whole => (-MOST_COST, MOST_COST),
        Band::Under(bound) => (-MOST_COST, bound.max(-MOST_COST).min(MOST_COST + 1) - 1),
        Band::Over(bound) => (bound.max(-MOST_COST - 1).min(MOST_COST) + 1, MOST_COST),
        Band::Between(least, most) => ends_between(least, most),
    }
}

// The ends of the band between two bounds, both included.
fn ends_between(least: i64, most: i64) -> (i64, i64)
    ensures within { (a : ℤ) → IsPartInRange a →
        (int_le least a && int_le a most) ≡ (int_le result.0 a && int_le a result.1) }
    ensures low { unsigned_abs result.0 ≤ most_cost + 1 }
    ensures high { unsigned_abs result.1 ≤ most_cost + 1 }
{
    (low_end(least), high_end(most))
}

// The least of the costs from `least` on that an instance may have, or one above them all.
fn low_end(least: i64) -> i64
    ensures within { (a : ℤ) → IsPartInRange a → int_le result a ≡ int_le least a }
    ensures near { unsigned_abs result ≤ most_cost + 1 }
{
    least.max(-MOST_COST).min(MOST_COST + 1)
}

// The greatest of the costs up to `most` that an instance may have, or one below them all.
fn high_end(most: i64) -> i64
    ensures within { (a : ℤ) → IsPartInRange a → int_le a result ≡ int_le a most }
    ensures near { unsigned_abs result ≤ most_cost + 1 }
{
    most.max(-MOST_COST - 1).min(MOST_COST)
}
