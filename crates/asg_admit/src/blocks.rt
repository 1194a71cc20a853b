//! Whether a phase is admitted, by blocks of steps: those from one mark to the next, which are on
//! the same rows and columns.
//!
//! What a run of steps asks of a cell it asks the more of a lesser one, so the least cell of the
//! rows and columns of a block decides for all of them. The least cell of each column is kept from
//! block to block. So each step is looked at once, each cell once, and each column once a block.

ghost use Rattle.std.specs.Prelude.{◌≡◌, ◌↔◌, ◌⊎◌, ◌<◌, ◌≤◌, ℕ, Some, false, length, replicate, All, IsTrue, slice_index};
ghost use Rattle.asg_admit.specs.Admission.{AllowsAt, AllowsRows};
ghost use Rattle.asg_admit.specs.LeastCells.{AreHeldValues, HasNoneBetween, HoldsLeast, IsLeastStaying, MergesRow, MergesRows, held_at, lesser_of, place_of};
ghost use Rattle.asg_admit.specs.Reduced.{phase_of};
ghost use Rattle.asg_admit.specs.Settling.{HasValueAt};
ghost use Rattle.asg_model.specs.Limits.{most_side};
ghost use Rattle.asg_order.specs.Monoid.{IsValue};
ghost use Rattle.asg_proof.specs.Steps.{HasValues};
ghost use Rattle.asg_square.specs.Grid.{cell_at};

use crate::admission::stored_cell;
use crate::held_cells::{column_place, count_places, held_value, lessen, lesser, merge_cell};
use crate::products::product_of;
use crate::replayed_cells::lessened;
use asg_model::limits::MOST_SIDE;
use asg_order::DMonoid;
use asg_order::laws::differences;
use asg_square::Square;

// A place for each column.
const PLACES: usize = MOST_SIDE as usize;

/// Whether each cell of each row allows the steps. `room` has more places than there are steps, and
/// what is in it before and afterwards means nothing.
pub fn blocks_allow<M: DMonoid>(
    m: &M,
    square: &Square<M::Value>,
    steps: &[M::Value],
    enters: &[u32],
    leaves: &[u32],
    room: &mut [M::Value],
) -> bool
    requires room { length steps.now < length room.old }
    requires values { All (IsValue (M.monoid_of m.now)) steps.now }
    requires enters { length enters.now ≡ square.now.side }
    requires leaves { length leaves.now ≡ square.now.side }
    requires cells { HasValues (M.monoid_of m.now) square.now.side (cell_at square.now) }
    ensures allowed { let phase = phase_of steps.now enters.now leaves.now in
        IsTrue result ↔ AllowsRows (M.monoid_of m.now) (M.difference m.now) phase square.now }
    ensures room { length room.new ≡ length room.old }
{
    differences(m);
    square.side();
    let mut held = no_marks();
    let mut from = 0;
    'runs: while from < steps.len() {
        let to = next_mark(leaves, from, next_mark(enters, from, steps.len()));
        if !block_allows(m, square, steps, enters, leaves, room, &mut held, from, to) {
            return false;
        }
        from = to;
    }
    true
}

// A mark for each place, none set.
fn no_marks() -> [bool; PLACES]
    ensures { result ≡ replicate most_side false }
{
    [false; PLACES]
}

/// The least mark after a step, at most this next one.
pub fn next_mark(marks: &[u32], from: usize, next: usize) -> usize
    requires { from < next }
    ensures after { from < result }
    ensures within { result ≤ next }
    ensures none { HasNoneBetween marks.now from result }
{
    let mut least = next;
    for i in 0..marks.len() {
        least = nearer_mark(marks[i], from, least);
    }
    least
}

// The mark, if it is after the step and before the next one, which otherwise stays.
#[inline]
fn nearer_mark(mark: u32, from: usize, next: usize) -> usize
    requires { from < next }
    ensures after { from < result }
    ensures within { result ≤ next }
    ensures apart { (mark ≤ from) ⊎ (result ≤ mark) }
{
    let mark = mark as usize;
    if mark <= from {
        return next;
    }
    mark.min(next)
}

// Whether the steps from a mark to the next are allowed by each cell of the rows that have entered
// and the columns that stay. Then what is held is lessened by these steps.
fn block_allows<M: DMonoid>(
    m: &M,
    square: &Square<M::Value>,
    steps: &[M::Value],
    enters: &[u32],
    leaves: &[u32],
    room: &mut [M::Value],
    held: &mut [bool],
    from: usize,
    to: usize,
) -> bool
    requires room { length steps.now < length room.old }
    requires held { square.now.side ≤ length held.old }
    requires values { All (IsValue (M.monoid_of m.now)) steps.now }
    requires enters { length enters.now ≡ square.now.side }
    requires leaves { length leaves.now ≡ square.now.side }
    requires cells { HasValues (M.monoid_of m.now) square.now.side (cell_at square.now) }
    requires order { from < to }
    requires end { to ≤ length steps.now }
    requires entering { HasNoneBetween enters.now from to }
    requires leaving { HasNoneBetween leaves.now from to }
    requires holds { let phase = phase_of steps.now enters.now leaves.now in
        let place = place_of (length steps.now) leaves.now in
        HoldsLeast (M.monoid_of m.now) (M.difference m.now) phase square.now place from from
        (held_at (M.monoid_of m.now) room.old held.old) }
    ensures room { length room.new ≡ length room.old }
    ensures held { length held.new ≡ length held.old }
    ensures allowed { let phase = phase_of steps.now enters.now leaves.now in
        let place = place_of (length steps.now) leaves.now in
        IsTrue result
        → HoldsLeast (M.monoid_of m.now) (M.difference m.now) phase square.now place to to
        (held_at (M.monoid_of m.now) room.new held.new) }
    ensures refused { let phase = phase_of steps.now enters.now leaves.now in result ≡ false
        → ¬ AllowsRows (M.monoid_of m.now) (M.difference m.now) phase square.now }
{
    differences(m);
    let end = steps.len();
    merge_entering(m, square, enters, leaves, end, room, held, from);
    let least = least_staying(m, leaves, end, room, held, from);
    if !run_allowed(m, least, steps, from, to) {
        return false;
    }
    let product = product_of(m, steps, from, to);
    lessen(m, room, held, count_places(end, leaves.len()), product);
    true
}

// Merges the cells of the rows that enter at a step into the least ones of the columns.
fn merge_entering<M: DMonoid>(
    m: &M,
    square: &Square<M::Value>,
    enters: &[u32],
    leaves: &[u32],
    end: usize,
    room: &mut [M::Value],
    held: &mut [bool],
    from: usize,
)
    requires room { end < length room.old }
    requires held { square.now.side ≤ length held.old }
    requires enters { length enters.now ≡ square.now.side }
    requires leaves { length leaves.now ≡ square.now.side }
    requires cells { HasValues (M.monoid_of m.now) square.now.side (cell_at square.now) }
    requires values { AreHeldValues (M.monoid_of m.now)
        (held_at (M.monoid_of m.now) room.old held.old) }
    ensures room { length room.new ≡ length room.old }
    ensures held { length held.new ≡ length held.old }
    ensures merged { let monoid = M.monoid_of m.now in
        MergesRows monoid square.now enters.now from (place_of end leaves.now)
        square.now.side (held_at monoid room.old held.old) (held_at monoid room.new held.new) }
{
    for row in 0..square.side() {
        if enters[row as usize] as usize == from {
            merge_row(m, square, leaves, end, room, held, row);
        }
    }
}

// Merges the cells of a row.
fn merge_row<M: DMonoid>(
    m: &M,
    square: &Square<M::Value>,
    leaves: &[u32],
    end: usize,
    room: &mut [M::Value],
    held: &mut [bool],
    row: u32,
)
    requires room { end < length room.old }
    requires held { square.now.side ≤ length held.old }
    requires leaves { length leaves.now ≡ square.now.side }
    requires row { row < square.now.side }
    requires cells { (k : ℕ) → k < square.now.side
        → HasValueAt (M.monoid_of m.now) square.now row k }
    requires values { AreHeldValues (M.monoid_of m.now)
        (held_at (M.monoid_of m.now) room.old held.old) }
    ensures room { length room.new ≡ length room.old }
    ensures held { length held.new ≡ length held.old }
    ensures merged { let monoid = M.monoid_of m.now in
        MergesRow monoid (cell_at square.now row) (place_of end leaves.now)
        square.now.side (held_at monoid room.old held.old) (held_at monoid room.new held.new) }
{
    square.side();
    let words = square.row_words(row);
    let values = square.row_values(row);
    for column in 0..leaves.len() {
        let cell = stored_cell(values, words, column);
        let place = column_place(column, leaves[column], end, leaves.len());
        merge_cell(m, room, held, place, cell);
    }
}

// The least of the held cells of the columns that stay after a step.
fn least_staying<M: DMonoid>(
    m: &M,
    leaves: &[u32],
    end: usize,
    room: &[M::Value],
    held: &[bool],
    from: usize,
) -> Option<M::Value>
    requires room { end < length room.now }
    requires held { length leaves.now ≤ length held.now }
    requires values { AreHeldValues (M.monoid_of m.now)
        (held_at (M.monoid_of m.now) room.now held.now) }
    ensures { let monoid = M.monoid_of m.now in
        let place = place_of end leaves.now in
        IsLeastStaying monoid (λ k. held_at monoid room.now held.now (place k)) leaves.now from
        (length leaves.now) result }
{
    let mut least = None;
    for column in 0..leaves.len() {
        let place = column_place(column, leaves[column], end, leaves.len());
        least = lesser_staying(
            m,
            least,
            held_value(m, room, held, place),
            leaves[column],
            from,
        );
    }
    least
}

// The lesser of two cells, where the column of the other one stays after a step, else the one.
#[inline]
fn lesser_staying<M: DMonoid>(
    m: &M,
    one: Option<M::Value>,
    other: Option<M::Value>,
    leave: u32,
    from: usize,
) -> Option<M::Value>
    requires one { (x : M.Value) → one ≡ Some x → IsValue (M.monoid_of m.now) x }
    requires other { (x : M.Value) → other ≡ Some x → IsValue (M.monoid_of m.now) x }
    ensures stays { from < leave → result ≡ lesser_of (M.monoid_of m.now) one other }
    ensures leaves { leave ≤ from → result ≡ one }
{
    if leave as usize <= from {
        return one;
    }
    lesser(m, one, other)
}

// Whether a cell, if it is present, allows the steps from one place up to and without another.
fn run_allowed<M: DMonoid>(
    m: &M,
    cell: Option<M::Value>,
    steps: &[M::Value],
    from: usize,
    to: usize,
) -> bool
    requires values { All (IsValue (M.monoid_of m.now)) steps.now }
    requires cell { (x : M.Value) → cell ≡ Some x → IsValue (M.monoid_of m.now) x }
    requires order { from ≤ to }
    requires end { to ≤ length steps.now }
    ensures { IsTrue result
        ↔ AllowsAt (M.monoid_of m.now) (M.difference m.now) steps.now from to cell }
{
    match cell {
        Some(x) => lessened(m, x, steps, from, to).is_some(),
        None => true,
    }
}
