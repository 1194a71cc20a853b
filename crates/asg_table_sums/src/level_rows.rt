//! Whether a row chooses the least of its cells, or the greatest, once the columns have risen.

ghost use Rattle.std.specs.Prelude.{◌≡◌, ◌<◌, ◌≤ℤ◌, ◌+ℤ◌, ◌-ℤ◌, ◌^◌, ℕ, pos, negsuc, IsTrue, length, slice_index_or};
ghost use Rattle.asg_model.specs.Table.{absent};
ghost use Rattle.asg_monoids.specs.Entered.{shifted};
ghost use Rattle.asg_table_sums.specs.Level.{rise_at, IsLeastCell, IsUnder, IsOver, IsRowLevel};

use asg_model::limits::MOST_COST;
use asg_model::{Choice, Instance, Objective, RowRoom};

// Whether a cost, with what its column rises by, is at least the level.
#[inline]
fn is_above(cost: i64, rise: u32, level: i64) -> bool
    requires { negsuc (2 ^ 40) ≤ℤ level }
    ensures { IsTrue result → level ≤ℤ (cost +ℤ pos rise) }
{
    cost >= level - i64::from(rise)
}

// Whether each cost, with what its column rises by, is at least the level.
fn are_above(costs: &[i64], rises: &[u32], level: i64) -> bool
    requires count { length rises.now ≡ length costs.now }
    requires level { negsuc (2 ^ 40) ≤ℤ level }
    ensures { IsTrue result → (c : ℕ) → c < length costs.now
        → level ≤ℤ (slice_index_or costs.now c absent +ℤ pos (rise_at rises.now c)) }
{
    'columns: for column in 0..costs.len() {
        if !is_above(costs[column], rises[column], level) {
            return false;
        }
    }
    true
}

// Whether what a column rises by, less its cost, is at least the level.
#[inline]
fn is_below(cost: i64, rise: u32, level: i64) -> bool
    requires low { negsuc (2 ^ 40) ≤ℤ level }
    requires high { level ≤ℤ pos (2 ^ 40) }
    ensures { IsTrue result → level ≤ℤ (pos rise -ℤ cost) }
{
    cost <= i64::from(rise) - level
}

// Whether what each column rises by, less its cost, is at least the level.
fn are_below(costs: &[i64], rises: &[u32], level: i64) -> bool
    requires count { length rises.now ≡ length costs.now }
    requires low { negsuc (2 ^ 40) ≤ℤ level }
    requires high { level ≤ℤ pos (2 ^ 40) }
    ensures { IsTrue result → (c : ℕ) → c < length costs.now
        → level ≤ℤ (pos (rise_at rises.now c) -ℤ slice_index_or costs.now c absent) }
{
    'columns: for column in 0..costs.len() {
        if !is_below(costs[column], rises[column], level) {
            return false;
        }
    }
    true
}

// Whether a cost is in range.
fn is_in_range(cost: i64) -> bool
    ensures { IsTrue result → (negsuc 999999999 ≤ℤ cost) × (cost ≤ℤ pos 1000000000) }
{
    -MOST_COST <= cost && cost <= MOST_COST
}

// Whether the cost in a column, with what that rises by, is the least of all.
fn is_least(costs: &[i64], rises: &[u32], column: u32) -> bool
    requires { length rises.now ≡ length costs.now }
    ensures { IsTrue result → (c : ℕ) → c < length costs.now
        → (slice_index_or costs.now column absent +ℤ pos (rise_at rises.now column))
        ≤ℤ (slice_index_or costs.now c absent +ℤ pos (rise_at rises.now c)) }
{
    let place = column as usize;
    if place >= costs.len() || !is_in_range(costs[place]) {
        return false;
    }
    are_above(costs, rises, costs[place] + i64::from(rises[place]))
}

// Whether what a column rises by, less its cost, is the least of all.
fn is_greatest(costs: &[i64], rises: &[u32], column: u32) -> bool
    requires { length rises.now ≡ length costs.now }
    ensures { IsTrue result → (c : ℕ) → c < length costs.now
        → (pos (rise_at rises.now column) -ℤ slice_index_or costs.now column absent)
        ≤ℤ (pos (rise_at rises.now c) -ℤ slice_index_or costs.now c absent) }
{
    let place = column as usize;
    if place >= costs.len() || !is_in_range(costs[place]) {
        return false;
    }
    are_below(costs, rises, i64::from(rises[place]) - costs[place])
}

// Whether the cost in a column, with what that rises by, is at most the top.
fn is_under(costs: &[i64], rises: &[u32], column: u32, top: i64) -> bool
    requires { length rises.now ≡ length costs.now }
    ensures { IsTrue result →
        (slice_index_or costs.now column absent +ℤ pos (rise_at rises.now column)) ≤ℤ top }
{
    let place = column as usize;
    if place >= costs.len() || !is_in_range(costs[place]) {
        return false;
    }
    costs[place] + i64::from(rises[place]) <= top
}

// Whether the cost in a column, with what that rises by, is the least of all, and at most the top.
fn is_least_and_under(costs: &[i64], rises: &[u32], column: u32, top: i64) -> bool
    requires { length rises.now ≡ length costs.now }
    ensures under { IsTrue result →
        (slice_index_or costs.now column absent +ℤ pos (rise_at rises.now column)) ≤ℤ top }
    ensures least { IsTrue result → (c : ℕ) → c < length costs.now
        → (slice_index_or costs.now column absent +ℤ pos (rise_at rises.now column))
        ≤ℤ (slice_index_or costs.now c absent +ℤ pos (rise_at rises.now c)) }
{
    is_under(costs, rises, column, top) && is_least(costs, rises, column)
}

// Whether what a column rises by, less its cost, is at most the top.
fn is_under_turned(costs: &[i64], rises: &[u32], column: u32, top: i64) -> bool
    requires { length rises.now ≡ length costs.now }
    ensures { IsTrue result →
        (pos (rise_at rises.now column) -ℤ slice_index_or costs.now column absent) ≤ℤ top }
{
    let place = column as usize;
    if place >= costs.len() || !is_in_range(costs[place]) {
        return false;
    }
    i64::from(rises[place]) - costs[place] <= top
}

// Whether what a column rises by, less its cost, is the least of all, and at most the top.
fn is_greatest_and_under(costs: &[i64], rises: &[u32], column: u32, top: i64) -> bool
    requires { length rises.now ≡ length costs.now }
    ensures under { IsTrue result →
        (pos (rise_at rises.now column) -ℤ slice_index_or costs.now column absent) ≤ℤ top }
    ensures least { IsTrue result → (c : ℕ) → c < length costs.now
        → (pos (rise_at rises.now column) -ℤ slice_index_or costs.now column absent)
        ≤ℤ (pos (rise_at rises.now c) -ℤ slice_index_or costs.now c absent) }
{
    is_under_turned(costs, rises, column, top) && is_greatest(costs, rises, column)
}

// Whether the cell of a row in a column is the least once the columns have risen, and at most the
// top.
fn is_least_cell(
    objective: Objective,
    inst: &Instance,
    rises: &[u32],
    row: u32,
    column: u32,
    top: i64,
    room: &mut RowRoom,
) -> bool
    requires { negsuc 999999999 ≤ℤ top }
    ensures least { IsTrue result → IsLeastCell objective inst.now rises.now row column }
    ensures under { IsTrue result → IsUnder objective inst.now rises.now (shifted top) row column }
{
    let _rows = inst.rows();
    let Some(parts) = inst.row_parts(row, room) else {
        return false;
    };
    if rises.len() != parts.firsts.len() {
        return false;
    }
    match objective {
        Objective::Sum => is_least_and_under(parts.firsts, rises, column, top),
        Objective::SumMax => is_greatest_and_under(parts.firsts, rises, column, top),
        _ => false,
    }
}

// Whether no cell of a row is below the top once the columns have risen.
fn is_row_over(
    objective: Objective,
    inst: &Instance,
    rises: &[u32],
    row: u32,
    top: i64,
    room: &mut RowRoom,
) -> bool
    requires low { negsuc 999999999 ≤ℤ top }
    requires high { top ≤ℤ pos (2 ^ 40) }
    ensures { IsTrue result → IsOver objective inst.now rises.now (shifted top) row }
{
    let _rows = inst.rows();
    let Some(parts) = inst.row_parts(row, room) else {
        return false;
    };
    if rises.len() != parts.firsts.len() {
        return false;
    }
    match objective {
        Objective::Sum => are_above(parts.firsts, rises, top),
        Objective::SumMax => are_below(parts.firsts, rises, top),
        _ => false,
    }
}

// Whether a row chooses the least of its cells once the columns have risen, which is at most the
// top, or chooses none, and no cell of it is below the top.
pub(crate) fn is_row_level(
    objective: Objective,
    inst: &Instance,
    choice: &Choice,
    rises: &[u32],
    row: u32,
    top: i64,
    room: &mut RowRoom,
) -> bool
    requires row { row < length choice.now }
    requires low { negsuc 999999999 ≤ℤ top }
    requires high { top ≤ℤ pos (2 ^ 40) }
    ensures { IsTrue result → IsRowLevel objective inst.now choice.now rises.now (shifted top) row }
{
    match choice.get(row) {
        Some(column) => is_least_cell(objective, inst, rises, row, column, top, room),
        None => is_row_over(objective, inst, rises, row, top, room),
    }
}
