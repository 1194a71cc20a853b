//! Long phases, with the steps from one mark to the next joined into one.

ghost use Rattle.std.specs.Prelude.{◌≡◌, ◌<◌, ◌≤◌, ◌^◌, ℕ, All, IsTrue, length};
ghost use Rattle.asg_settling.specs.JoinedSteps.{IsJoined, PlacesFrom};
ghost use Rattle.asg_admit.specs.Reduced.{phase_of};
ghost use Rattle.asg_admit.specs.Settling.{SettlesPhase};
ghost use Rattle.asg_order.specs.Monoid.{IsValue};
ghost use Rattle.asg_proof.specs.Steps.{HasValues};
ghost use Rattle.asg_square.specs.Grid.{cell_at};

use crate::settling::settle_rows;
use asg_admit::{next_mark, product_of};
use asg_model::limits::MOST_SIDE;
use asg_order::DMonoid;
use asg_order::laws::differences;
use asg_square::Square;

// A place for each row and each column.
const PLACES: usize = MOST_SIDE as usize;

// Settles all rows. Where there are many more steps than columns, those from one mark to the next
// are joined first.
pub(crate) fn settle_square<M: DMonoid>(
    m: &M,
    square: &mut Square<M::Value>,
    steps: &[M::Value],
    enters: &[u32],
    leaves: &[u32],
    room: &mut [M::Value],
)
    requires room { length steps.now < length room.old }
    requires values { All (IsValue (M.monoid_of m.now)) steps.now }
    requires enters { length enters.now ≡ square.old.side }
    requires leaves { length leaves.now ≡ square.old.side }
    requires cells { HasValues (M.monoid_of m.now) square.old.side (cell_at square.old) }
    ensures settled { let phase = phase_of steps.now enters.now leaves.now in
        SettlesPhase (M.monoid_of m.now) (M.difference m.now) phase square.old square.new }
    ensures room { length room.new ≡ length room.old }
{
    if is_long(steps.len(), leaves.len()) {
        settle_joined(m, square, steps, enters, leaves, room);
        return;
    }
    settle_rows(m, square, steps, enters, leaves, room);
}

// Whether so many steps are joined on a square of this side.
fn is_long(steps: usize, side: usize) -> bool
    ensures { IsTrue result → steps < 2 ^ 32 }
{
    if steps > u32::MAX as usize {
        return false;
    }
    steps / 4 > side
}

// Settles all rows by the joined steps, or, where they and as many places don't fit into the room,
// by the steps.
fn settle_joined<M: DMonoid>(
    m: &M,
    square: &mut Square<M::Value>,
    steps: &[M::Value],
    enters: &[u32],
    leaves: &[u32],
    room: &mut [M::Value],
)
    requires room { length steps.now < length room.old }
    requires few { length steps.now < 2 ^ 32 }
    requires values { All (IsValue (M.monoid_of m.now)) steps.now }
    requires enters { length enters.now ≡ square.old.side }
    requires leaves { length leaves.now ≡ square.old.side }
    requires cells { HasValues (M.monoid_of m.now) square.old.side (cell_at square.old) }
    ensures settled { let phase = phase_of steps.now enters.now leaves.now in
        SettlesPhase (M.monoid_of m.now) (M.difference m.now) phase square.old square.new }
    ensures room { length room.new ≡ length room.old }
{
    square.side();
    let mut row_places = [0; PLACES];
    let mut column_places = [0; PLACES];
    let rows = &mut row_places[..enters.len()];
    let columns = &mut column_places[..leaves.len()];
    settle_by_joints(m, square, steps, enters, leaves, room, rows, columns);
}

// The same with a place for each mark.
fn settle_by_joints<M: DMonoid>(
    m: &M,
    square: &mut Square<M::Value>,
    steps: &[M::Value],
    enters: &[u32],
    leaves: &[u32],
    room: &mut [M::Value],
    rows: &mut [u32],
    columns: &mut [u32],
)
    requires room { length steps.now < length room.old }
    requires few { length steps.now < 2 ^ 32 }
    requires values { All (IsValue (M.monoid_of m.now)) steps.now }
    requires enters { length enters.now ≡ square.old.side }
    requires leaves { length leaves.now ≡ square.old.side }
    requires rows { length rows.old ≡ square.old.side }
    requires columns { length columns.old ≡ square.old.side }
    requires cells { HasValues (M.monoid_of m.now) square.old.side (cell_at square.old) }
    ensures settled { let phase = phase_of steps.now enters.now leaves.now in
        SettlesPhase (M.monoid_of m.now) (M.difference m.now) phase square.old square.new }
    ensures room { length room.new ≡ length room.old }
{
    differences(m);
    let count = join_steps(m, steps, enters, leaves, room, rows, columns);
    if room.len() - count <= count {
        settle_rows(m, square, steps, enters, leaves, room);
        return;
    }
    let (joints, rest) = room.split_at_mut(count);
    settle_rows(m, square, joints, rows, columns, rest);
}

// Joins the steps from each mark to the next, numbers the marks, and gives how many joined steps
// there are.
fn join_steps<M: DMonoid>(
    m: &M,
    steps: &[M::Value],
    enters: &[u32],
    leaves: &[u32],
    room: &mut [M::Value],
    rows: &mut [u32],
    columns: &mut [u32],
) -> usize
    requires room { length steps.now < length room.old }
    requires few { length steps.now < 2 ^ 32 }
    requires values { All (IsValue (M.monoid_of m.now)) steps.now }
    requires rows { length enters.now ≤ length rows.old }
    requires columns { length leaves.now ≤ length columns.old }
    ensures room { length room.new ≡ length room.old }
    ensures rows { length rows.new ≡ length rows.old }
    ensures columns { length columns.new ≡ length columns.old }
    ensures few { result ≤ length steps.now }
    ensures joined { IsJoined (M.monoid_of m.now) steps.now enters.now leaves.now
        (length steps.now) room.new result rows.new columns.new }
{
    place_marks(enters, 0, 0, rows);
    place_marks(leaves, 0, 0, columns);
    let mut from = 0;
    let mut count = 0;
    'runs: while from < steps.len() {
        let to = next_mark(leaves, from, next_mark(enters, from, steps.len()));
        room[count] = product_of(m, steps, from, to);
        count += 1;
        from = to;
        place_marks(enters, to, count as u32, rows);
        place_marks(leaves, to, count as u32, columns);
    }
    count
}

// Gives the marks from a step on this place.
fn place_marks(marks: &[u32], from: usize, place: u32, places: &mut [u32])
    requires { length marks.now ≤ length places.old }
    ensures { PlacesFrom marks.now from place places.old places.new }
{
    for i in 0..marks.len() {
        places[i] = later_place(marks[i], from, place, places[i]);
    }
}

// The place, where the mark is not before the step, else the one that it had.
#[inline]
fn later_place(mark: u32, from: usize, place: u32, had: u32) -> u32
    ensures here { from ≤ mark → result ≡ place }
    ensures others { mark < from → result ≡ had }
{
    if mark as usize >= from { place } else { had }
}
