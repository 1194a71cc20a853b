//! Values that are held at places, the least so far at each.

ghost use Rattle.std.specs.Prelude.{◌≡◌, ◌≢◌, ◌<◌, ◌≤◌, ◌+◌, ℕ, Some, length, nat_lt, min, if◌then◌else◌};
ghost use Rattle.std.specs.Option.{option_map};
ghost use Rattle.asg_admit.specs.LeastCells.{AreHeldValues, held_at, lesser_of, place_at};
ghost use Rattle.asg_order.specs.Monoid.{IsValue};

use crate::replayed_cells::cut;
use asg_order::DMonoid;

// The place of a column. Columns that leave at the same step share one where there are fewer steps
// than columns, so that there are never more places than columns, nor past the number of steps.
#[inline]
pub(crate) fn column_place(column: usize, leave: u32, end: usize, side: usize) -> usize
    ensures { result ≡ place_at side end leave column }
{
    if end < side { cut(leave, end) } else { column }
}

// How many places there are.
pub(crate) fn count_places(end: usize, side: usize) -> usize
    ensures columns { result ≤ side }
    ensures steps { result ≤ end + 1 }
    ensures all { (leave k : ℕ) → k < side → place_at side end leave k < result }
{
    if end < side { end + 1 } else { side }
}

// The value that is held at a place.
#[inline]
pub(crate) fn held_value<M: DMonoid>(
    m: &M,
    room: &[M::Value],
    held: &[bool],
    place: usize,
) -> Option<M::Value>
    requires room { place < length room.now }
    requires held { place < length held.now }
    ensures { result ≡ held_at (M.monoid_of m.now) room.now held.now place }
{
    if held[place] { Some(room[place]) } else { None }
}

// The lesser of two values, either of which may be missing.
#[inline]
pub(crate) fn lesser<M: DMonoid>(
    m: &M,
    one: Option<M::Value>,
    other: Option<M::Value>,
) -> Option<M::Value>
    requires one { (x : M.Value) → one ≡ Some x → IsValue (M.monoid_of m.now) x }
    requires other { (x : M.Value) → other ≡ Some x → IsValue (M.monoid_of m.now) x }
    ensures { result ≡ lesser_of (M.monoid_of m.now) one other }
{
    match one {
        Some(x) => match other {
            Some(y) => Some(lesser_value(m, x, y)),
            None => Some(x),
        },
        None => other,
    }
}

// The lesser of two values.
#[inline]
fn lesser_value<M: DMonoid>(m: &M, x: M::Value, y: M::Value) -> M::Value
    requires left { IsValue (M.monoid_of m.now) x }
    requires right { IsValue (M.monoid_of m.now) y }
    ensures { let monoid = M.monoid_of m.now in
        result ≡ (if monoid.is_le x y then x else y) }
{
    if m.le(x, y) { x } else { y }
}

// Holds the lesser of a cell and of what is held at a place.
#[inline]
pub(crate) fn merge_cell<M: DMonoid>(
    m: &M,
    room: &mut [M::Value],
    held: &mut [bool],
    place: usize,
    cell: Option<M::Value>,
)
    requires room { place < length room.old }
    requires held { place < length held.old }
    requires values { AreHeldValues (M.monoid_of m.now)
        (held_at (M.monoid_of m.now) room.old held.old) }
    requires cell { (x : M.Value) → cell ≡ Some x → IsValue (M.monoid_of m.now) x }
    ensures room { length room.new ≡ length room.old }
    ensures held { length held.new ≡ length held.old }
    ensures here { let monoid = M.monoid_of m.now in held_at monoid room.new held.new place
        ≡ lesser_of monoid (held_at monoid room.old held.old place) cell }
    ensures others { let monoid = M.monoid_of m.now in (s : ℕ) → s ≢ place
        → held_at monoid room.new held.new s ≡ held_at monoid room.old held.old s }
{
    match lesser(m, held_value(m, room, held, place), cell) {
        Some(x) => {
            room[place] = x;
            held[place] = true;
        }
        None => {}
    }
}

// Lessens what is held at the first so many places.
pub(crate) fn lessen<M: DMonoid>(
    m: &M,
    room: &mut [M::Value],
    held: &[bool],
    count: usize,
    product: M::Value,
)
    requires room { count ≤ length room.old }
    requires held { count ≤ length held.now }
    requires values { AreHeldValues (M.monoid_of m.now)
        (held_at (M.monoid_of m.now) room.old held.now) }
    requires product { IsValue (M.monoid_of m.now) product }
    ensures room { length room.new ≡ length room.old }
    ensures lessened { let monoid = M.monoid_of m.now in (s : ℕ) → s < count
        → held_at monoid room.new held.now s
        ≡ option_map (λ y. M.difference m.now y product) (held_at monoid room.old held.now s) }
    ensures others { let monoid = M.monoid_of m.now in (s : ℕ) → count ≤ s
        → held_at monoid room.new held.now s ≡ held_at monoid room.old held.now s }
{
    for place in 0..count {
        lessen_at(m, room, held, place, product);
    }
}

// Lessens what is held at a place.
#[inline]
fn lessen_at<M: DMonoid>(
    m: &M,
    room: &mut [M::Value],
    held: &[bool],
    place: usize,
    product: M::Value,
)
    requires room { place < length room.old }
    requires held { place < length held.now }
    requires value { (y : M.Value) → held_at (M.monoid_of m.now) room.old held.now place ≡ Some y
        → IsValue (M.monoid_of m.now) y }
    requires product { IsValue (M.monoid_of m.now) product }
    ensures room { length room.new ≡ length room.old }
    ensures here { let monoid = M.monoid_of m.now in held_at monoid room.new held.now place
        ≡ option_map (λ y. M.difference m.now y product)
        (held_at monoid room.old held.now place) }
    ensures others { let monoid = M.monoid_of m.now in (s : ℕ) → s ≢ place
        → held_at monoid room.new held.now s ≡ held_at monoid room.old held.now s }
{
    match held_value(m, room, held, place) {
        Some(y) => room[place] = m.diff(y, product),
        None => {}
    }
}
