//! A row of the tree offers keys to the columns that weren't reached, word by word.

ghost use Rattle.std.specs.Prelude.{◌≡◌, ℕ, [], ◌+◌, ◌*◌, ◌%◌, ◌<◌, ◌≤◌};
ghost use Rattle.std.specs.Prelude.{IsSome, IsTrue, Some, length, slice_index, slice_index_or};
ghost use Rattle.asg_admit.specs.Reduced.{IsReduced};
ghost use Rattle.asg_model.specs.Limits.{most_side};
ghost use Rattle.asg_order.specs.Monoid.{IsValue};
ghost use Rattle.asg_match.specs.ColumnSet.{HasBit, HasColumn, IsColumnSet, word_count};
ghost use Rattle.asg_square.specs.Grid.{cell_at};
ghost use Rattle.asg_growth.specs.Leads.{leads_of, lead_at, OffersRow, Relaxes, Picks};
ghost use Rattle.asg_growth.specs.Nearest.{IsWithin, AreNearest, HasKey, IsAnswered};
ghost use Rattle.asg_growth.specs.Scanned.{AreValued, IsBoth, IsSoon, values_of};

use crate::leads::offer_key;
use crate::nearest::{nearer, nearest_of};
use asg_kept::RowSquare;
use asg_match::Matching;
use asg_order::DMonoid;

// Offers a column its key, from the row at a place. The nearest column of its word then, where it
// was the given one before.
#[inline]
fn offer<M: DMonoid, S: RowSquare<M>>(
    m: &M,
    square: &S,
    matching: &Matching,
    row: u32,
    sum: M::Value,
    keys: &mut [M::Value],
    places: &mut [u32],
    place: u32,
    column: u32,
    has_key: bool,
    nearest: Option<u32>,
) -> Option<u32>
    requires sum { IsValue (M.monoid_of m.now) sum }
    requires row { row < (S.as_reduced square.now).now.side }
    requires column { column < (S.as_reduced square.now).now.side }
    requires present { IsSome (cell_at (S.as_reduced square.now).now row column) }
    requires value { let monoid = M.monoid_of m.now in IsValue monoid
        (slice_index_or (values_of monoid (S.as_reduced square.now).now row) column monoid.unit) }
    requires old { IsTrue has_key → IsValue (M.monoid_of m.now)
        (slice_index_or keys.old column (M.monoid_of m.now).unit) }
    requires matching { column < length matching.now }
    requires keys { column < length keys.old }
    requires places { column < length places.old }
    requires nearest { (k : ℕ) → nearest ≡ Some k → HasKey (M.monoid_of m.now) keys.old k }
    ensures { let monoid = M.monoid_of m.now in
        let values = values_of monoid (S.as_reduced square.now).now row in
        IsAnswered monoid (monoid.product sum (slice_index_or values column monoid.unit)) place
        column has_key (leads_of keys.old [] places.old) (leads_of keys.new [] places.new) nearest
        result }
{
    if !offer_key(m, square, row, sum, keys, places, place, column, has_key) {
        return nearest;
    }
    nearer(m, matching, keys, nearest, column)
}

// As many columns of a word at most are offered their keys one by one, without a pass over the
// whole word.
const FEW: u32 = 12;

// Columns of a word that are to be offered a key: those that weren't reached and at which the row
// has a cell, without some whose key is at most the product of the sum and this cell.
#[inline]
fn candidates<M: DMonoid, S: RowSquare<M>>(
    m: &M,
    square: &S,
    row: u32,
    sum: M::Value,
    unseen: &[u64],
    keys: &[M::Value],
    keyed: &[u64],
    number: u32,
) -> u64
    requires sum { IsValue (M.monoid_of m.now) sum }
    requires reduced { IsReduced (M.monoid_of m.now) (S.as_reduced square.now) }
    requires row { row < (S.as_reduced square.now).now.side }
    requires unseen { IsColumnSet (S.as_reduced square.now).now.side unseen.now }
    requires leads { AreValued (M.monoid_of m.now) (leads_of keys.now keyed.now []) unseen.now }
    requires words { number < length unseen.now }
    requires keyed { length keyed.now ≡ length unseen.now }
    requires keys { length keys.now ≡ (S.as_reduced square.now).now.side }
    ensures unseen { (k : ℕ) → HasBit result k → HasBit (slice_index unseen.now number) k }
    ensures present { (k : ℕ) → k < 64 → HasBit result k
        → IsSome (cell_at (S.as_reduced square.now).now row (64 * number + k)) }
    ensures others { let monoid = M.monoid_of m.now in let now = (S.as_reduced square.now).now in
        (k : ℕ) → IsBoth number (cell_at now row) unseen.now k → (HasBit result (k % 64) → ⊥)
        → IsSoon monoid (values_of monoid now row) sum (leads_of keys.now keyed.now []) k }
{
    let offered = unseen[number as usize] & square.row_word(row, number);
    let known = keyed[number as usize];
    if 64 * (number as usize + 1) > keys.len() {
        return offered;
    }
    if (offered & known).count_ones() <= FEW {
        return offered;
    }
    offered & (square.lesser(m, row, sum, keys, number) | !known)
}

// Offers each column of a word that wasn't reached and at which the row has a cell its key, from the
// row's place. The nearest column of the word then, where it was the given one before.
#[inline]
fn scan_word<M: DMonoid, S: RowSquare<M>>(
    m: &M,
    square: &S,
    matching: &Matching,
    row: u32,
    sum: M::Value,
    unseen: &[u64],
    keys: &mut [M::Value],
    keyed: &mut [u64],
    places: &mut [u32],
    place: u32,
    number: u32,
    nearest: Option<u32>,
) -> Option<u32>
    requires sum { IsValue (M.monoid_of m.now) sum }
    requires reduced { IsReduced (M.monoid_of m.now) (S.as_reduced square.now) }
    requires small { (S.as_reduced square.now).now.side ≤ most_side }
    requires row { row < (S.as_reduced square.now).now.side }
    requires unseen { IsColumnSet (S.as_reduced square.now).now.side unseen.now }
    requires leads { AreValued (M.monoid_of m.now) (leads_of keys.old keyed.old places.old)
        unseen.now }
    requires matching { length matching.now ≡ (S.as_reduced square.now).now.side }
    requires words { number < length unseen.now }
    requires keyed { length keyed.old ≡ length unseen.now }
    requires keys { length keys.old ≡ (S.as_reduced square.now).now.side }
    requires places { length places.old ≡ (S.as_reduced square.now).now.side }
    requires nearest { Picks (M.monoid_of m.now)
        (lead_at (M.monoid_of m.now) (leads_of keys.old keyed.old places.old))
        (IsWithin number unseen.now) nearest }
    ensures relaxes { let monoid = M.monoid_of m.now in let now = (S.as_reduced square.now).now in
        Relaxes monoid (values_of monoid now row) sum place
        (IsBoth number (cell_at now row) unseen.now) (leads_of keys.old keyed.old places.old)
        (leads_of keys.new keyed.new places.new) }
    ensures leads { AreValued (M.monoid_of m.now) (leads_of keys.new keyed.new places.new)
        unseen.now }
    ensures picks { Picks (M.monoid_of m.now)
        (lead_at (M.monoid_of m.now) (leads_of keys.new keyed.new places.new))
        (IsWithin number unseen.now) result }
{
    let mut rest = candidates(m, square, row, sum, unseen, keys, keyed, number);
    let mut word = keyed[number as usize];
    let mut nearest = nearest;
    'columns: while rest != 0 {
        let k = rest.trailing_zeros();
        let has_key = word >> k & 1 == 1;
        nearest = offer(
            m,
            square,
            matching,
            row,
            sum,
            keys,
            places,
            place,
            64 * number + k,
            has_key,
            nearest,
        );
        word |= 1 << k;
        rest &= !(1 << k);
    }
    keyed[number as usize] = word;
    nearest
}

/// Offers each column of a set at which a row of a square has a cell the product of a sum and this
/// cell, from the row's place. The column of the set with the least key, if one has a key; of equal
/// ones one that no row has.
pub(crate) fn offer_row<M: DMonoid, S: RowSquare<M>>(
    m: &M,
    square: &S,
    matching: &Matching,
    row: u32,
    sum: M::Value,
    unseen: &[u64],
    keys: &mut [M::Value],
    keyed: &mut [u64],
    places: &mut [u32],
    nearest: &mut [Option<u32>],
    place: u32,
) -> Option<u32>
    requires reduced { IsReduced (M.monoid_of m.now) (S.as_reduced square.now) }
    requires small { (S.as_reduced square.now).now.side ≤ most_side }
    requires row { row < (S.as_reduced square.now).now.side }
    requires sum { IsValue (M.monoid_of m.now) sum }
    requires unseen { IsColumnSet (S.as_reduced square.now).now.side unseen.now }
    requires words { length unseen.now ≡ word_count (S.as_reduced square.now).now.side }
    requires matching { length matching.now ≡ (S.as_reduced square.now).now.side }
    requires keyed { length keyed.old ≡ length unseen.now }
    requires keys { length keys.old ≡ (S.as_reduced square.now).now.side }
    requires places { length places.old ≡ (S.as_reduced square.now).now.side }
    requires leads { AreValued (M.monoid_of m.now) (leads_of keys.old keyed.old places.old)
        unseen.now }
    requires nearest { AreNearest (M.monoid_of m.now)
        (leads_of keys.old keyed.old places.old) unseen.now nearest.old }
    ensures offers { let now = (S.as_reduced square.now).now in
        OffersRow (M.monoid_of m.now) (cell_at now row) now.side sum place unseen.now
        (leads_of keys.old keyed.old places.old) (leads_of keys.new keyed.new places.new) }
    ensures nearest { AreNearest (M.monoid_of m.now)
        (leads_of keys.new keyed.new places.new) unseen.now nearest.new }
    ensures picks { Picks (M.monoid_of m.now)
        (lead_at (M.monoid_of m.now) (leads_of keys.new keyed.new places.new))
        (HasColumn unseen.now) result }
{
    square.side();
    let mut best = None;
    for number in 0..unseen.len() as u32 {
        let former = nearest[number as usize];
        let found = scan_word(
            m, square, matching, row, sum, unseen, keys, keyed, places, place, number, former,
        );
        nearest[number as usize] = found;
        best = nearest_of(m, matching, keys, best, found);
    }
    best
}
