//! Rows of a table some of whose cells are absent, in pieces.

ghost use Rattle.std.specs.Prelude.{◌≡◌, ◌≢◌, ◌<◌, ◌≤◌, ◌+◌, ◌≤ℤ◌, ◌+ℤ◌, ◌-ℤ◌, ℕ, pos, IsTrue, length, slice_index, slice_index_or};
ghost use Rattle.asg_model.specs.Limits.{most_cost};
ghost use Rattle.asg_model.specs.Table.{absent};
ghost use Rattle.asg_monoids.specs.BoundedSums.{narrow_top};
ghost use Rattle.asg_table_phases.specs.TableRows.{AreLow, FitsCosts};

use crate::table_rows::{is_above, is_below, is_reached};
use asg_model::{ABSENT, Objective};

// So many cells of a row are a piece.
const PIECE: usize = 16;

// Whether a piece that begins here has absent cells alone.
#[inline]
fn are_absent(costs: &[i64], from: usize) -> bool
    requires { from + 16 ≤ length costs.now }
    ensures { IsTrue result → (k : ℕ) → from ≤ k → k < from + 16
        → slice_index_or costs.now k absent ≡ absent }
{
    let mut are_absent = true;
    'cells: for place in 0..PIECE {
        are_absent &= costs[from + place] == ABSENT;
    }
    are_absent
}

// Whether each cost from one place on and before another that is there is, as it enters for `sum`
// and with so much more, at least the number of its column.
fn present_above(costs: &[i64], columns: &[u64], raise: u64, from: usize, to: usize) -> bool
    requires costs { to ≤ length costs.now }
    requires columns { to ≤ length columns.now }
    requires low { AreLow columns.now }
    requires raise { raise ≤ narrow_top }
    ensures { IsTrue result → (k : ℕ) → from ≤ k → k < to
        → slice_index_or costs.now k absent ≢ absent → pos (slice_index columns.now k)
        ≤ℤ (slice_index_or costs.now k absent +ℤ pos (raise + most_cost)) }
{
    let mut are_above = true;
    'columns: for column in from..to {
        let cost = costs[column];
        are_above &= (cost == ABSENT) | is_above(cost, columns[column], raise);
    }
    are_above
}

// The same for `sum-max`.
fn present_below(costs: &[i64], columns: &[u64], raise: u64, from: usize, to: usize) -> bool
    requires costs { to ≤ length costs.now }
    requires columns { to ≤ length columns.now }
    requires low { AreLow columns.now }
    requires raise { raise ≤ narrow_top }
    ensures { IsTrue result → (k : ℕ) → from ≤ k → k < to
        → slice_index_or costs.now k absent ≢ absent → pos (slice_index columns.now k)
        ≤ℤ (pos (raise + most_cost) -ℤ slice_index_or costs.now k absent) }
{
    let mut are_below = true;
    'columns: for column in from..to {
        let cost = costs[column];
        are_below &= (cost == ABSENT) | is_below(cost, columns[column], raise);
    }
    are_below
}

// The same for `capped`: the number of its column is at most the cap, too.
fn present_reached(
    costs: &[i64],
    columns: &[u64],
    raise: u64,
    cap: u64,
    from: usize,
    to: usize,
) -> bool
    requires costs { to ≤ length costs.now }
    requires columns { to ≤ length columns.now }
    requires low { AreLow columns.now }
    requires raise { raise ≤ narrow_top }
    ensures { IsTrue result → (k : ℕ) → from ≤ k → k < to
        → slice_index_or costs.now k absent ≢ absent → (slice_index columns.now k ≤ cap)
        × (pos (slice_index columns.now k) ≤ℤ (slice_index_or costs.now k absent +ℤ pos raise)) }
{
    let mut are_reached = true;
    'columns: for column in from..to {
        let cost = costs[column];
        let number = columns[column];
        let fits = (number <= cap) & is_reached(cost, number, raise);
        are_reached &= (cost == ABSENT) | fits;
    }
    are_reached
}

// Whether each cost from one place on and before another that is there is, as it enters and with so
// much more, at least the number of its column.
fn present_fit(
    objective: Objective,
    costs: &[i64],
    columns: &[u64],
    raise: u64,
    from: usize,
    to: usize,
) -> bool
    requires costs { to ≤ length costs.now }
    requires columns { to ≤ length columns.now }
    requires low { AreLow columns.now }
    requires raise { raise ≤ narrow_top }
    ensures { IsTrue result → FitsCosts objective costs.now columns.now raise from to }
{
    match objective {
        Objective::Sum => present_above(costs, columns, raise, from, to),
        Objective::SumMax => present_below(costs, columns, raise, from, to),
        Objective::Capped(cap) => present_reached(costs, columns, raise, cap, from, to),
        _ => false,
    }
}

// The same of a piece that begins here.
#[inline]
fn piece_fits(objective: Objective, costs: &[i64], columns: &[u64], raise: u64, from: usize) -> bool
    requires costs { from + 16 ≤ length costs.now }
    requires columns { from + 16 ≤ length columns.now }
    requires low { AreLow columns.now }
    requires raise { raise ≤ narrow_top }
    ensures { IsTrue result → FitsCosts objective costs.now columns.now raise from (from + 16) }
{
    if are_absent(costs, from) {
        return true;
    }
    present_fit(objective, costs, columns, raise, from, from + PIECE)
}

/// Whether each cost of a row that is there is, as it enters and with so much more, at least the
/// number of its column. Pieces all whose cells are absent cost little.
pub(crate) fn pieces_fit(objective: Objective, costs: &[i64], columns: &[u64], raise: u64) -> bool
    requires count { length costs.now ≤ length columns.now }
    requires low { AreLow columns.now }
    requires raise { raise ≤ narrow_top }
    ensures { IsTrue result → FitsCosts objective costs.now columns.now raise 0 (length costs.now) }
{
    let pieces = costs.len() / PIECE;
    'pieces: for number in 0..pieces {
        if !piece_fits(objective, costs, columns, raise, number * PIECE) {
            return false;
        }
    }
    present_fit(
        objective,
        costs,
        columns,
        raise,
        pieces * PIECE,
        costs.len(),
    )
}
