//! The test of a row, cell by cell.

ghost use Rattle.std.specs.Prelude.{◌≡◌, ◌≤◌, ◌<◌, ◌+◌, ℕ, Some, IsTrue, IfSome, length, slice_index, slice_index_or};
ghost use Rattle.asg_model.specs.declared.parts.Cost.{Cost};
ghost use Rattle.asg_model.specs.Limits.{most_columns};
ghost use Rattle.asg_model.specs.Table.{absent, table_cost};
ghost use Rattle.asg_monoids.specs.Entered.{sum_entered};
ghost use Rattle.asg_sum_edits.specs.SumDuals.{AreAbove, AreFirstsAbove, AreSmall, IsRowAbove, first_entered, most_amount};

use asg_model::limits::MOST_COST;
use asg_model::{Cost, Instance, Objective, RowParts, RowRoom};

/// The greatest rises and falls that tests are made for; guesses have no greater ones.
pub(crate) const MOST_AMOUNT: u64 = 1 << 62;

/// The number as which a cost enters for `sum` or `sum-max`; 0 for a cost that no instance has.
#[inline]
pub(crate) fn number(objective: Objective, cost: Cost) -> u64
    ensures { result ≤ sum_entered objective cost }
{
    if cost.a < -MOST_COST || cost.a > MOST_COST {
        return 0;
    }
    match objective {
        Objective::Sum => (cost.a + MOST_COST) as u64,
        Objective::SumMax => (MOST_COST - cost.a) as u64,
        _ => 0,
    }
}

// Whether a cost with this first part and its column's rise is at least the fall, for `sum` or
// `sum-max`.
#[inline]
fn first_is_above(objective: Objective, first: i64, rise: u64, fall: u64) -> bool
    requires rise { rise ≤ most_amount }
    requires fall { fall ≤ most_amount }
    ensures { IsTrue result → fall ≤ first_entered objective first + rise }
{
    match objective {
        Objective::Sum => first >= fall as i64 - MOST_COST - rise as i64,
        Objective::SumMax => first <= MOST_COST - fall as i64 + rise as i64,
        _ => false,
    }
}

// Whether each cost with one of these first parts and its column's rise is at least the fall.
#[inline]
fn firsts_are_above(objective: Objective, firsts: &[i64], fall: u64, rises: &[u64]) -> bool
    requires count { length firsts.now ≡ length rises.now }
    requires fall { fall ≤ most_amount }
    requires rises { AreSmall rises.now }
    ensures { IsTrue result → AreFirstsAbove objective firsts.now fall rises.now }
{
    let mut are_above = true;
    'columns: for column in 0..rises.len() {
        are_above &= first_is_above(objective, firsts[column], rises[column], fall);
    }
    are_above
}

// The same, in a loop for each objective; there is a first part for each column.
fn are_whole_above(objective: Objective, firsts: &[i64], fall: u64, rises: &[u64]) -> bool
    requires { AreSmall rises.now }
    ensures { IsTrue result → AreFirstsAbove objective firsts.now fall rises.now }
{
    if firsts.len() != rises.len() || fall > MOST_AMOUNT {
        return false;
    }
    match objective {
        Objective::Sum => firsts_are_above(Objective::Sum, firsts, fall, rises),
        Objective::SumMax => firsts_are_above(Objective::SumMax, firsts, fall, rises),
        _ => false,
    }
}

// Whether a cost, where there is one, with its column's rise is at least the fall.
#[inline]
fn is_above(objective: Objective, cost: Option<Cost>, rise: u64, fall: u64) -> bool
    ensures { IsTrue result → IfSome cost (λ cost. fall ≤ sum_entered objective cost + rise) }
{
    match cost {
        Some(cost) => number(objective, cost).saturating_add(rise) >= fall,
        None => true,
    }
}

// Whether each cost of a row with its column's rise is at least the fall, cell by cell.
fn cells_are_above(objective: Objective, parts: &RowParts<'_>, fall: u64, rises: &[u64]) -> bool
    requires { length rises.now ≤ most_columns }
    ensures { IsTrue result → (c : ℕ) (cost : Cost) → c < length rises.now
        → table_cost parts.now.seconds.now c (slice_index_or parts.now.firsts.now c absent)
        ≡ Some cost
        → fall ≤ sum_entered objective cost + slice_index rises.now c }
{
    'columns: for column in 0..rises.len() as u32 {
        let rise = rises[column as usize];
        if !is_above(objective, parts.cost(column), rise, fall) {
            return false;
        }
    }
    true
}

// The same, at once where each column has a cell.
fn parts_are_above(objective: Objective, parts: &RowParts<'_>, fall: u64, rises: &[u64]) -> bool
    requires few { length rises.now ≤ most_columns }
    requires small { AreSmall rises.now }
    ensures { IsTrue result → (c : ℕ) (cost : Cost) → c < length rises.now
        → table_cost parts.now.seconds.now c (slice_index_or parts.now.firsts.now c absent)
        ≡ Some cost
        → fall ≤ sum_entered objective cost + slice_index rises.now c }
{
    if are_whole_above(objective, parts.firsts, fall, rises) {
        true
    } else {
        cells_are_above(objective, parts, fall, rises)
    }
}

// Whether each live cost of a row with its column's rise is at least the fall.
fn row_is_above(
    objective: Objective,
    inst: &Instance,
    room: &mut RowRoom,
    row: u32,
    fall: u64,
    rises: &[u64],
) -> bool
    requires over { length rises.now ≡ length inst.now.columns }
    requires small { AreSmall rises.now }
    ensures { IsTrue result → IsRowAbove objective inst.now row fall rises.now }
{
    let _rows = inst.rows();
    match inst.row_parts(row, room) {
        Some(parts) => parts_are_above(objective, &parts, fall, rises),
        None => false,
    }
}

// The same of a row that held with the fall before.
fn row_is_held(
    objective: Objective,
    inst: &Instance,
    room: &mut RowRoom,
    row: u32,
    before: u64,
    fall: u64,
    rises: &[u64],
) -> bool
    requires over { length rises.now ≡ length inst.now.columns }
    requires small { AreSmall rises.now }
    requires held { IsRowAbove objective inst.now row before rises.now }
    ensures { IsTrue result → IsRowAbove objective inst.now row fall rises.now }
{
    if fall <= before {
        return true;
    }
    row_is_above(objective, inst, room, row, fall, rises)
}

// Whether each live cost with its column's rise is at least its row's fall, where it was so with
// other falls: rows whose fall is no greater than before aren't looked at.
pub(crate) fn rows_are_held(
    objective: Objective,
    inst: &Instance,
    room: &mut RowRoom,
    before: &[u64],
    falls: &[u64],
    rises: &[u64],
) -> bool
    requires over_rows { length before.now ≡ length inst.now.rows }
    requires over { length falls.now ≡ length inst.now.rows }
    requires over_columns { length rises.now ≡ length inst.now.columns }
    requires small { AreSmall rises.now }
    requires held { AreAbove objective inst.now before.now rises.now }
    ensures { IsTrue result → AreAbove objective inst.now falls.now rises.now }
{
    let _rows = inst.rows();
    'rows: for row in 0..falls.len() as u32 {
        let was = before[row as usize];
        let fall = falls[row as usize];
        if !row_is_held(objective, inst, room, row, was, fall, rises) {
            return false;
        }
    }
    true
}
