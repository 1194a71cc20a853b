//! Whether the cells of a row of a table are, with a number more, at least those of the columns.

ghost use Rattle.std.specs.Prelude.{◌≡◌, ◌<◌, ◌≤◌, ◌+◌, ◌≤ℤ◌, ◌+ℤ◌, ◌-ℤ◌, ℕ, pos, IsTrue, length, slice_index, slice_index_or};
ghost use Rattle.asg_model.specs.Limits.{most_cost};
ghost use Rattle.asg_model.specs.Table.{absent};
ghost use Rattle.asg_monoids.specs.BoundedSums.{narrow_top};
ghost use Rattle.asg_table_phases.specs.TableRows.{AreLow, AreWithin, FitsCosts, FitsRow, FitsRows};

use crate::row_cells::cells_fit;
use crate::row_pieces::pieces_fit;
use asg_model::limits::MOST_COST;
use asg_model::{Instance, Objective, RowRoom};

/// Whether a cost is, as it enters for `sum` and with so much more, at least a number.
#[inline]
pub(crate) fn is_above(cost: i64, number: u64, raise: u64) -> bool
    requires number { number ≤ narrow_top }
    requires raise { raise ≤ narrow_top }
    ensures { IsTrue result → pos number ≤ℤ (cost +ℤ pos (raise + most_cost)) }
{
    cost >= number as i64 - (raise as i64 + MOST_COST)
}

// Whether each cost is so by the number of its column.
fn are_above(costs: &[i64], columns: &[u64], raise: u64) -> bool
    requires count { length costs.now ≤ length columns.now }
    requires low { AreLow columns.now }
    requires raise { raise ≤ narrow_top }
    ensures { IsTrue result → (k : ℕ) → k < length costs.now
        → pos (slice_index columns.now k)
        ≤ℤ (slice_index_or costs.now k absent +ℤ pos (raise + most_cost)) }
{
    let mut are_above = true;
    'columns: for column in 0..costs.len() {
        are_above &= is_above(costs[column], columns[column], raise);
    }
    are_above
}

/// Whether a cost is, as it enters for `sum-max` and with so much more, at least a number.
#[inline]
pub(crate) fn is_below(cost: i64, number: u64, raise: u64) -> bool
    requires number { number ≤ narrow_top }
    requires raise { raise ≤ narrow_top }
    ensures { IsTrue result → pos number ≤ℤ (pos (raise + most_cost) -ℤ cost) }
{
    cost <= raise as i64 + MOST_COST - number as i64
}

// Whether each cost is so by the number of its column.
fn are_below(costs: &[i64], columns: &[u64], raise: u64) -> bool
    requires count { length costs.now ≤ length columns.now }
    requires low { AreLow columns.now }
    requires raise { raise ≤ narrow_top }
    ensures { IsTrue result → (k : ℕ) → k < length costs.now
        → pos (slice_index columns.now k)
        ≤ℤ (pos (raise + most_cost) -ℤ slice_index_or costs.now k absent) }
{
    let mut are_below = true;
    'columns: for column in 0..costs.len() {
        are_below &= is_below(costs[column], columns[column], raise);
    }
    are_below
}

// Whether no number is greater.
fn are_within(numbers: &[u64], most: u64) -> bool
    ensures { IsTrue result → AreWithin most numbers.now }
{
    'numbers: for place in 0..numbers.len() {
        if numbers[place] > most {
            return false;
        }
    }
    true
}

/// Whether a cost is with so much more at least a number.
#[inline]
pub(crate) fn is_reached(cost: i64, number: u64, raise: u64) -> bool
    requires number { number ≤ narrow_top }
    requires raise { raise ≤ narrow_top }
    ensures { IsTrue result → pos number ≤ℤ (cost +ℤ pos raise) }
{
    cost >= number as i64 - raise as i64
}

// Whether each cost is so by the number of its column.
fn are_reached(costs: &[i64], columns: &[u64], raise: u64) -> bool
    requires count { length costs.now ≤ length columns.now }
    requires low { AreLow columns.now }
    requires raise { raise ≤ narrow_top }
    ensures { IsTrue result → (k : ℕ) → k < length costs.now
        → pos (slice_index columns.now k) ≤ℤ (slice_index_or costs.now k absent +ℤ pos raise) }
{
    let mut are_reached = true;
    'columns: for column in 0..costs.len() {
        are_reached &= is_reached(costs[column], columns[column], raise);
    }
    are_reached
}

// Whether each cost is so, cut at a cap: no number of a column is greater than that.
fn are_reached_below(costs: &[i64], columns: &[u64], raise: u64, cap: u64) -> bool
    requires count { length costs.now ≤ length columns.now }
    requires low { AreLow columns.now }
    requires raise { raise ≤ narrow_top }
    ensures within { IsTrue result → AreWithin cap columns.now }
    ensures reached { IsTrue result → (k : ℕ) → k < length costs.now
        → pos (slice_index columns.now k) ≤ℤ (slice_index_or costs.now k absent +ℤ pos raise) }
{
    if !are_within(columns, cap) {
        return false;
    }
    are_reached(costs, columns, raise)
}

// Whether each cost of a row, as it enters, is with so much more at least the number of its column.
// None of them is absent then.
fn costs_fit(objective: Objective, costs: &[i64], columns: &[u64], raise: u64) -> bool
    requires count { length costs.now ≤ length columns.now }
    requires low { AreLow columns.now }
    requires raise { raise ≤ narrow_top }
    ensures { IsTrue result → FitsCosts objective costs.now columns.now raise 0 (length costs.now) }
{
    match objective {
        Objective::Sum => are_above(costs, columns, raise),
        Objective::SumMax => are_below(costs, columns, raise),
        Objective::Capped(cap) => are_reached_below(costs, columns, raise, cap),
        _ => false,
    }
}

// Whether each cost of a row that is there is so. Where a row was found to have absent cells, this
// one and those after it are looked at in pieces.
fn present_costs_fit(
    objective: Objective,
    costs: &[i64],
    columns: &[u64],
    raise: u64,
    in_pieces: &mut bool,
) -> bool
    requires count { length costs.now ≤ length columns.now }
    requires low { AreLow columns.now }
    requires raise { raise ≤ narrow_top }
    ensures { IsTrue result → FitsCosts objective costs.now columns.now raise 0 (length costs.now) }
{
    if *in_pieces {
        return pieces_fit(objective, costs, columns, raise);
    }
    if costs_fit(objective, costs, columns, raise) {
        return true;
    }
    *in_pieces = true;
    pieces_fit(objective, costs, columns, raise)
}

// Whether each live cell of a row, as it enters, is with so much more at least the number of its
// column.
fn row_fits(
    objective: Objective,
    inst: &Instance,
    columns: &[u64],
    raise: u64,
    row: u32,
    room: &mut RowRoom,
    in_pieces: &mut bool,
) -> bool
    requires low { AreLow columns.now }
    requires raise { raise ≤ narrow_top }
    ensures { IsTrue result → FitsRow objective inst.now columns.now raise row }
{
    if columns.len() < inst.columns().len() {
        return false;
    }
    if let Some(cells) = inst.row_cells(row) {
        return cells_fit(objective, cells, columns, raise);
    }
    let Some(parts) = inst.row_parts(row, room) else {
        return false;
    };
    present_costs_fit(objective, parts.firsts, columns, raise, in_pieces)
}

/// Whether each live cell of each row, as it enters, is with the number of its row at least that of
/// its column of the instance.
pub(crate) fn rows_fit(
    objective: Objective,
    inst: &Instance,
    rows: &[u128],
    columns: &[u64],
) -> bool
    requires count { length inst.now.rows ≤ length rows.now }
    requires rows { AreLow rows.now }
    requires columns { AreLow columns.now }
    ensures { IsTrue result → FitsRows objective inst.now rows.now columns.now }
{
    let count = inst.rows().len() as u32;
    let mut room = RowRoom::new();
    let mut in_pieces = false;
    'rows: for row in 0..count {
        let raise = rows[row as usize] as u64;
        if !row_fits(
            objective,
            inst,
            columns,
            raise,
            row,
            &mut room,
            &mut in_pieces,
        ) {
            return false;
        }
    }
    true
}
