//! Whole phases that are known to be admitted.

ghost use Rattle.std.specs.Prelude.{◌≡◌, ◌<◌, ◌≤◌, ℕ, Some, length, All, slice_index};
ghost use Rattle.std.specs.Option.{option_map};
ghost use Rattle.asg_admit.specs.Reduced.{IsReduced, IsPhaseTo, phase_of};
ghost use Rattle.asg_admit.specs.Settled.{AreProducts, IsAcross, settled};
ghost use Rattle.asg_settling.specs.LeftColumns.{ArePassed};
ghost use Rattle.asg_admit.specs.Settling.{IsWritten, SettlesRow, SettlesPhase, SettlesWaiting, SettlesEntered, HasValueAt};
ghost use Rattle.asg_order.specs.Monoid.{IsValue};
ghost use Rattle.asg_proof.specs.Phases.{IsAdmittedPhase};
ghost use Rattle.asg_proof.specs.Steps.{HasValues};
ghost use Rattle.asg_square.specs.Grid.{cell_at};

use crate::joined_steps::settle_square;
use crate::left_columns::find_left;
use asg_admit::{Reduced, cut, settled_value, spread};
use asg_model::limits::MOST_SIDE;
use asg_order::laws::differences;
use asg_order::{DMonoid, fold};
use asg_square::Square;

// A place for each column, and one after all of them.
const PLACES: usize = MOST_SIDE as usize + 1;

/// Applies a phase that is admitted from the square, and multiplies the index by all of its steps.
/// Step t is on the rows whose enter is at most t and the columns whose leave is greater than t, so
/// a mark above the number of steps, as of a row that never enters, means just that. `room` has
/// more places than there are steps, and what is in it before and afterwards means nothing. It
/// takes no memory.
///
/// A row that enters and a column that leaves change by the product of the steps between, not step
/// by step, row by row, and where a row never enters only the cells of columns that leave before
/// the end are visited; many steps are first joined, those from one mark to the next into one. So
/// the time is that of the steps, and of the side times the number of rows that enter and columns
/// that leave before the end.
pub fn settle<M: DMonoid>(
    m: &M,
    reduced: &mut Reduced<M::Value>,
    steps: &[M::Value],
    enters: &[u32],
    leaves: &[u32],
    room: &mut [M::Value],
)
    requires reduced { IsReduced (M.monoid_of m.now) reduced.old }
    requires admitted { let phase = phase_of steps.now enters.now leaves.now in
        IsAdmittedPhase (M.monoid_of m.now) (M.difference m.now) reduced.old.now.side phase
        (cell_at reduced.old.now) }
    requires room { length steps.now < length room.old }
    ensures phase { let phase = phase_of steps.now enters.now leaves.now in
        IsPhaseTo (M.monoid_of m.now) (M.difference m.now) phase reduced.old reduced.new }
    ensures room { length room.new ≡ length room.old }
{
    differences(m);
    reduced.now.side();
    reduced.index = m.op(reduced.index, fold(m, steps));
    settle_square(m, &mut reduced.now, steps, enters, leaves, room);
    reduced.now.side();
}

// Settles all rows, those that never enter first.
pub(crate) fn settle_rows<M: DMonoid>(
    m: &M,
    square: &mut Square<M::Value>,
    steps: &[M::Value],
    enters: &[u32],
    leaves: &[u32],
    room: &mut [M::Value],
)
    requires room { length steps.now < length room.old }
    requires values { All (IsValue (M.monoid_of m.now)) steps.now }
    requires enters { length enters.now ≡ square.old.side }
    requires leaves { length leaves.now ≡ square.old.side }
    requires cells { HasValues (M.monoid_of m.now) square.old.side (cell_at square.old) }
    ensures settled { let phase = phase_of steps.now enters.now leaves.now in
        SettlesPhase (M.monoid_of m.now) (M.difference m.now) phase square.old square.new }
    ensures room { length room.new ≡ length room.old }
{
    settle_waiting(m, square, steps, enters, leaves, room);
    settle_entered(m, square, steps, enters, leaves, room);
}

// Settles the rows that never enter: there only the cells of columns that leave change.
fn settle_waiting<M: DMonoid>(
    m: &M,
    square: &mut Square<M::Value>,
    steps: &[M::Value],
    enters: &[u32],
    leaves: &[u32],
    room: &mut [M::Value],
)
    requires room { length steps.now < length room.old }
    requires values { All (IsValue (M.monoid_of m.now)) steps.now }
    requires enters { length enters.now ≡ square.old.side }
    requires leaves { length leaves.now ≡ square.old.side }
    requires cells { HasValues (M.monoid_of m.now) square.old.side (cell_at square.old) }
    ensures settled { let phase = phase_of steps.now enters.now leaves.now in
        SettlesWaiting (M.monoid_of m.now) (M.difference m.now) phase square.old square.new }
    ensures room { length room.new ≡ length room.old }
{
    differences(m);
    let end = steps.len();
    let side = square.side();
    let mut next = [0; PLACES];
    find_left(leaves, end, &mut next);
    spread(m, steps, end, room);
    for row in 0..side {
        if enters[row as usize] as usize >= end {
            settle_waiting_row(m, square, steps, leaves, room, &next, row);
        }
    }
}

// Settles a row that never enters, by the products of the steps from each place to the end and by
// the columns that leave.
fn settle_waiting_row<M: DMonoid>(
    m: &M,
    square: &mut Square<M::Value>,
    steps: &[M::Value],
    leaves: &[u32],
    room: &[M::Value],
    next: &[u32],
    row: u32,
)
    requires room { length steps.now < length room.now }
    requires products { AreProducts (M.monoid_of m.now) steps.now (length steps.now) room.now }
    requires values { All (IsValue (M.monoid_of m.now)) steps.now }
    requires leaves { length leaves.now ≡ square.old.side }
    requires places { length leaves.now < length next.now }
    requires next { ArePassed leaves.now (length steps.now) next.now }
    requires row { row < square.old.side }
    requires cells { (k : ℕ) → k < square.old.side
        → HasValueAt (M.monoid_of m.now) square.old row k }
    ensures { SettlesRow (M.monoid_of m.now) (M.difference m.now) steps.now (length steps.now)
        leaves.now square.old square.new row }
{
    differences(m);
    let end = steps.len();
    let side = square.side();
    let mut column = next[0];
    while column < side {
        let leave = cut(leaves[column as usize], end);
        settle_cell(m, square, steps, room[leave], row, column, end, leave);
        column = next[column as usize + 1];
    }
}

// Settles the rows that enter.
fn settle_entered<M: DMonoid>(
    m: &M,
    square: &mut Square<M::Value>,
    steps: &[M::Value],
    enters: &[u32],
    leaves: &[u32],
    room: &mut [M::Value],
)
    requires room { length steps.now < length room.old }
    requires values { All (IsValue (M.monoid_of m.now)) steps.now }
    requires enters { length enters.now ≡ square.old.side }
    requires leaves { length leaves.now ≡ square.old.side }
    requires cells { (r k : ℕ) → r < square.old.side → k < square.old.side
        → slice_index enters.now r < length steps.now
        → HasValueAt (M.monoid_of m.now) square.old r k }
    ensures settled { let phase = phase_of steps.now enters.now leaves.now in
        SettlesEntered (M.monoid_of m.now) (M.difference m.now) phase square.old square.new }
    ensures room { length room.new ≡ length room.old }
{
    for row in 0..square.side() {
        let enter = enters[row as usize] as usize;
        if enter < steps.len() {
            settle_row(m, square, steps, leaves, room, row, enter);
        }
    }
}

// Settles a row that enters at this step.
fn settle_row<M: DMonoid>(
    m: &M,
    square: &mut Square<M::Value>,
    steps: &[M::Value],
    leaves: &[u32],
    room: &mut [M::Value],
    row: u32,
    enter: usize,
)
    requires room { length steps.now < length room.old }
    requires values { All (IsValue (M.monoid_of m.now)) steps.now }
    requires leaves { length leaves.now ≡ square.old.side }
    requires row { row < square.old.side }
    requires enter { enter ≤ length steps.now }
    requires cells { (k : ℕ) → k < square.old.side
        → HasValueAt (M.monoid_of m.now) square.old row k }
    ensures row { SettlesRow (M.monoid_of m.now) (M.difference m.now) steps.now enter leaves.now
        square.old square.new row }
    ensures room { length room.new ≡ length room.old }
{
    spread(m, steps, enter, room);
    map_settled(m, square, steps, leaves, room, row, enter);
}

// Settles a row that enters at this step, by the products of the steps between it and each place.
fn map_settled<M: DMonoid>(
    m: &M,
    square: &mut Square<M::Value>,
    steps: &[M::Value],
    leaves: &[u32],
    room: &[M::Value],
    row: u32,
    enter: usize,
)
    requires room { length steps.now < length room.now }
    requires products { AreProducts (M.monoid_of m.now) steps.now enter room.now }
    requires values { All (IsValue (M.monoid_of m.now)) steps.now }
    requires leaves { length leaves.now ≡ square.old.side }
    requires row { row < square.old.side }
    requires enter { enter ≤ length steps.now }
    requires cells { (k : ℕ) → k < square.old.side
        → HasValueAt (M.monoid_of m.now) square.old row k }
    ensures { SettlesRow (M.monoid_of m.now) (M.difference m.now) steps.now enter leaves.now
        square.old square.new row }
{
    square.map_row(
        row,
        &|column: u32, x: M::Value| { settled_in_row(m, steps, leaves, room, enter, column, x) },
    );
}

// A value of a row that enters at this step after the steps.
#[inline]
fn settled_in_row<M: DMonoid>(
    m: &M,
    steps: &[M::Value],
    leaves: &[u32],
    room: &[M::Value],
    enter: usize,
    column: u32,
    x: M::Value,
) -> M::Value
    requires room { length steps.now < length room.now }
    requires products { AreProducts (M.monoid_of m.now) steps.now enter room.now }
    requires values { All (IsValue (M.monoid_of m.now)) steps.now }
    requires enter { enter ≤ length steps.now }
    requires column { column < length leaves.now }
    requires value { IsValue (M.monoid_of m.now) x }
    ensures { result ≡ settled (M.monoid_of m.now) (M.difference m.now) steps.now enter
        (slice_index leaves.now column) x }
{
    differences(m);
    let leave = cut(leaves[column as usize], steps.len());
    settled_value(m, steps, room[leave], enter, leave, x)
}

// Settles one cell, by the product of the steps between its marks.
#[inline]
fn settle_cell<M: DMonoid>(
    m: &M,
    square: &mut Square<M::Value>,
    steps: &[M::Value],
    product: M::Value,
    row: u32,
    column: u32,
    enter: usize,
    leave: usize,
)
    requires product { IsAcross (M.monoid_of m.now) steps.now enter leave product }
    requires values { All (IsValue (M.monoid_of m.now)) steps.now }
    requires row { row < square.old.side }
    requires column { column < square.old.side }
    requires enter { enter ≤ length steps.now }
    requires leave { leave ≤ length steps.now }
    requires value { HasValueAt (M.monoid_of m.now) square.old row column }
    ensures { IsWritten square.old square.new row column
        (option_map (settled (M.monoid_of m.now) (M.difference m.now) steps.now enter leave)
        (cell_at square.old row column)) }
{
    differences(m);
    square.side();
    if enter == leave {
        return;
    }
    if let Some(x) = square.at(row, column) {
        let value = settled_value(m, steps, product, enter, leave, x);
        square.replace(row, column, value);
    }
}
