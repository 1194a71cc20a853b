//! The leads of columns: of each column that wasn't reached the least key by the rows that were
//! seen, and the place of the row that it comes from.

ghost use Rattle.std.specs.Prelude.{◌≡◌, [], ◌<◌, false, length, slice_index_or, IsSome, IsTrue};
ghost use Rattle.asg_order.specs.Monoid.{IsValue, IsLe};
ghost use Rattle.asg_square.specs.Grid.{cell_at};
ghost use Rattle.asg_growth.specs.Leads.{leads_of, TakesKey, KeepsKey};
ghost use Rattle.asg_growth.specs.Scanned.{values_of};

use asg_kept::RowSquare;
use asg_order::DMonoid;

// Whether a key is to be taken by a column: where the column has none, or a greater one.
#[inline]
fn is_lower<M: DMonoid>(m: &M, keys: &[M::Value], column: u32, has_key: bool, key: M::Value) -> bool
    requires column { column < length keys.now }
    requires key { IsValue (M.monoid_of m.now) key }
    requires old { IsTrue has_key → IsValue (M.monoid_of m.now)
        (slice_index_or keys.now column (M.monoid_of m.now).unit) }
    ensures yes { IsTrue result → IsTrue has_key
        → IsLe (M.monoid_of m.now) key (slice_index_or keys.now column (M.monoid_of m.now).unit) }
    ensures has { result ≡ false → IsTrue has_key }
    ensures no { result ≡ false
        → IsLe (M.monoid_of m.now) (slice_index_or keys.now column (M.monoid_of m.now).unit) key }
{
    if !has_key {
        return true;
    }
    !m.le(keys[column as usize], key)
}

// Offers a column the product of a sum and its cell in a row, from the row's place. Whether the
// column took it as its key.
#[inline]
pub(crate) fn offer_key<M: DMonoid, S: RowSquare<M>>(
    m: &M,
    square: &S,
    row: u32,
    sum: M::Value,
    keys: &mut [M::Value],
    places: &mut [u32],
    place: u32,
    column: u32,
    has_key: bool,
) -> bool
    requires sum { IsValue (M.monoid_of m.now) sum }
    requires row { row < (S.as_reduced square.now).now.side }
    requires column { column < (S.as_reduced square.now).now.side }
    requires present { IsSome (cell_at (S.as_reduced square.now).now row column) }
    requires value { let monoid = M.monoid_of m.now in IsValue monoid
        (slice_index_or (values_of monoid (S.as_reduced square.now).now row) column monoid.unit) }
    requires old { IsTrue has_key → IsValue (M.monoid_of m.now)
        (slice_index_or keys.old column (M.monoid_of m.now).unit) }
    requires keys { column < length keys.old }
    requires places { column < length places.old }
    ensures taken { let monoid = M.monoid_of m.now in
        let values = values_of monoid (S.as_reduced square.now).now row in
        IsTrue result → TakesKey monoid
        (monoid.product sum (slice_index_or values column monoid.unit)) place
        column has_key (leads_of keys.old [] places.old) (leads_of keys.new [] places.new) }
    ensures kept { let monoid = M.monoid_of m.now in
        let values = values_of monoid (S.as_reduced square.now).now row in
        result ≡ false → KeepsKey monoid
        (monoid.product sum (slice_index_or values column monoid.unit)) column
        has_key (leads_of keys.old [] places.old) (leads_of keys.new [] places.new) }
{
    let key = m.op(sum, square.value(row, column));
    if !is_lower(m, keys, column, has_key, key) {
        return false;
    }
    keys[column as usize] = key;
    places[column as usize] = place;
    true
}
