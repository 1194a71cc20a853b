//! A tree that grows while the square isn't touched.

ghost use Rattle.std.specs.Prelude.{◌≡◌, ◌+◌, ◌<◌, ◌≤◌, IfSome, IfNone};
ghost use Rattle.std.specs.Prelude.{vec_len, vec_capacity, slice_index, slice_index_or};
ghost use Rattle.asg_model.specs.Limits.{most_side};
ghost use Rattle.asg_match.specs.ColumnSet.{HasColumn, IsColumnSet};
ghost use Rattle.asg_match.specs.Matching.{IsFree};
ghost use Rattle.asg_order.specs.Monoid.{IsValue};
ghost use Rattle.asg_growth.specs.Leads.{lead_at, Picks};
ghost use Rattle.asg_growth.specs.Underway.{Advances};
ghost use Rattle.asg_growth.specs.Growths.{Searches, IsReady, HasNoLead, Ends};
ghost use Rattle.asg_growth.specs.Growths.{Enters, CanRenew, Renews, Climbs, leads_in};

use crate::nearest::nearest_in_word;
use crate::scanning::offer_row;
use asg_kept::RowSquare;
use asg_match::{Branches, Matching, remove};
use asg_order::DMonoid;

/// A tree, the keys of the columns that it didn't reach, of each word of columns the nearest one,
/// and the phase so far.
#[derive(Drop)]
pub struct Growth<V: Copy> {
    /// The rows of the tree, the columns that it didn't reach, and of each column the row before it.
    pub tree: Branches,
    /// For each row of the tree the sum of steps at which it entered.
    pub sums: Vec<V>,
    /// The key of each column that has one.
    pub keys: Vec<V>,
    /// Which columns have a key, as bits.
    pub keyed: Vec<u64>,
    /// Of each word of columns the nearest one.
    pub nearest: Vec<Option<u32>>,
    /// The step at which each row entered.
    pub enters: Vec<u32>,
    /// The step at which each column left.
    pub leaves: Vec<u32>,
    /// The steps so far.
    pub steps: Vec<V>,
    /// Room for a value for each step, and one more.
    pub room: Vec<V>,
}

/// How a round ended.
#[derive(Clone, Copy)]
pub enum Round {
    /// No column can be reached.
    Stuck,
    /// A column that no row has.
    Exit(u32),
    /// One more row.
    More,
}

// A row enters at a sum, by a column.
fn enter<V: Copy>(growth: &mut Growth<V>, next: u32, column: u32, sum: V)
    requires room { vec_len growth.old.tree.rows < vec_capacity growth.old.tree.rows }
    requires sums_room { vec_len growth.old.sums < vec_capacity growth.old.sums }
    requires unseen { IsColumnSet (vec_len growth.old.tree.parents) growth.old.tree.unseen.items }
    requires column { column < vec_len growth.old.tree.parents }
    requires leaves { column < vec_len growth.old.leaves }
    requires enters { next < vec_len growth.old.enters }
    requires steps { vec_len growth.old.steps ≤ most_side }
    ensures { Enters growth.old growth.new next column sum }
{
    let now = growth.steps.len() as u32;
    let side = growth.tree.parents.len();
    remove(&mut growth.tree.unseen, side, column as usize);
    growth.leaves[column as usize] = now;
    growth.enters[next as usize] = now;
    growth.tree.rows.push_reserved(next);
    growth.sums.push_reserved(sum);
}

// Finds the nearest column of the word of a column anew.
fn renew<M: DMonoid>(m: &M, matching: &Matching, growth: &mut Growth<M::Value>, column: u32)
    requires { CanRenew (M.monoid_of m.now) matching.now growth.old column }
    ensures { Renews (M.monoid_of m.now) growth.old growth.new column }
{
    let number = column / 64;
    let found = nearest_in_word(
        m,
        matching,
        &growth.keys,
        &growth.keyed,
        &growth.tree.unseen,
        number,
    );
    growth.nearest[number as usize] = found;
}

// Takes the sum up to a key, by a step where the key is greater.
#[inline]
fn advance<M: DMonoid>(m: &M, steps: &mut Vec<M::Value>, sum: M::Value, key: M::Value) -> M::Value
    requires sum { IsValue (M.monoid_of m.now) sum }
    requires key { IsValue (M.monoid_of m.now) key }
    requires room { vec_len steps.old < vec_capacity steps.old }
    ensures advances { Advances (M.monoid_of m.now) (M.difference m.now) key steps.old.items sum
        steps.new.items result }
    ensures room { vec_capacity steps.new ≡ vec_capacity steps.old }
{
    if m.le(key, sum) {
        return sum;
    }
    steps.push_reserved(m.diff(key, sum));
    key
}

// Takes the sum up to the key of a column.
fn climb<M: DMonoid>(m: &M, growth: &mut Growth<M::Value>, sum: &mut M::Value, column: u32)
    requires column { column < vec_len growth.old.keys }
    requires key { IsValue (M.monoid_of m.now)
        (slice_index_or growth.old.keys.items column (M.monoid_of m.now).unit) }
    requires sum { IsValue (M.monoid_of m.now) sum.old }
    requires room { vec_len growth.old.steps < vec_capacity growth.old.steps }
    ensures { Climbs (M.monoid_of m.now) (M.difference m.now) growth.old growth.new sum.old sum.new
        column }
{
    let key = growth.keys[column as usize];
    *sum = advance(m, &mut growth.steps, *sum, key);
}

// Looks at each column that wasn't reached from the row that entered last. The column with the
// least key of those that weren't reached, if one has a key.
fn look<M: DMonoid, S: RowSquare<M>>(
    m: &M,
    reduced: &S,
    matching: &Matching,
    growth: &mut Growth<M::Value>,
    sum: M::Value,
    place: u32,
) -> Option<u32>
    requires search { Searches (M.monoid_of m.now) (M.difference m.now) (S.as_reduced reduced.now)
        matching.now growth.old sum place }
    requires last { vec_len growth.old.tree.rows ≡ place + 1 }
    ensures search { Searches (M.monoid_of m.now) (M.difference m.now) (S.as_reduced reduced.now)
        matching.now growth.new sum (place + 1) }
    ensures rows { growth.new.tree.rows ≡ growth.old.tree.rows }
    ensures steps { vec_len growth.new.steps ≤ place }
    ensures found { Picks (M.monoid_of m.now) (lead_at (M.monoid_of m.now) (leads_in growth.new))
        (HasColumn growth.new.tree.unseen.items) result }
{
    let row = growth.tree.rows[place as usize];
    let entered = growth.sums[place as usize];
    offer_row(
        m,
        reduced,
        matching,
        row,
        entered,
        &growth.tree.unseen,
        &mut growth.keys,
        &mut growth.keyed,
        &mut growth.tree.parents,
        &mut growth.nearest,
        place,
    )
}

// Looks from the row that entered last, and takes the sum up to the least key of a column that
// wasn't reached. None where no such column has a key.
fn reach<M: DMonoid, S: RowSquare<M>>(
    m: &M,
    reduced: &S,
    matching: &Matching,
    growth: &mut Growth<M::Value>,
    sum: &mut M::Value,
    place: u32,
) -> Option<u32>
    requires search { Searches (M.monoid_of m.now) (M.difference m.now) (S.as_reduced reduced.now)
        matching.now growth.old sum.old place }
    requires last { vec_len growth.old.tree.rows ≡ place + 1 }
    ensures search { Searches (M.monoid_of m.now) (M.difference m.now) (S.as_reduced reduced.now)
        matching.now growth.new sum.new (place + 1) }
    ensures rows { growth.new.tree.rows ≡ growth.old.tree.rows }
    ensures found { IfSome result (IsReady (M.monoid_of m.now) growth.new sum.new) }
    ensures none { IfNone result (HasNoLead (M.monoid_of m.now) growth.new) }
{
    let found = look(m, reduced, matching, growth, *sum, place);
    if let Some(column) = found {
        climb(m, growth, sum, column);
    }
    found
}

/// One round of growth: a row enters, or a column that no row has is reached, or none can be.
pub fn advance_round<M: DMonoid, S: RowSquare<M>>(
    m: &M,
    reduced: &S,
    matching: &Matching,
    growth: &mut Growth<M::Value>,
    sum: &mut M::Value,
    place: u32,
) -> Round
    requires search { Searches (M.monoid_of m.now) (M.difference m.now) (S.as_reduced reduced.now)
        matching.now growth.old sum.old place }
    requires last { vec_len growth.old.tree.rows ≡ place + 1 }
    ensures search { Searches (M.monoid_of m.now) (M.difference m.now) (S.as_reduced reduced.now)
        matching.now growth.new sum.new (place + 1) }
    ensures first { slice_index growth.new.tree.rows.items 0
        ≡ slice_index growth.old.tree.rows.items 0 }
    ensures ends { Ends (M.monoid_of m.now) matching.now growth.new sum.new place result }
{
    match reach(m, reduced, matching, growth, sum, place) {
        None => Round::Stuck,
        Some(column) => match matching.row_of(column) {
            None => Round::Exit(column),
            Some(next) => {
                enter(growth, next, column, *sum);
                renew(m, matching, growth, column);
                Round::More
            }
        },
    }
}

/// Grows the tree up to the first column that no row has. `None` where its rows have too few
/// columns.
pub fn grow<M: DMonoid, S: RowSquare<M>>(
    m: &M,
    reduced: &S,
    matching: &Matching,
    growth: &mut Growth<M::Value>,
    sum: &mut M::Value,
) -> Option<u32>
    requires search { Searches (M.monoid_of m.now) (M.difference m.now) (S.as_reduced reduced.now)
        matching.now growth.old sum.old 0 }
    requires root { vec_len growth.old.tree.rows ≡ 1 }
    ensures search { Searches (M.monoid_of m.now) (M.difference m.now) (S.as_reduced reduced.now)
        matching.now growth.new sum.new (vec_len growth.new.tree.rows) }
    ensures first { slice_index growth.new.tree.rows.items 0
        ≡ slice_index growth.old.tree.rows.items 0 }
    ensures exit { IfSome result (IsReady (M.monoid_of m.now) growth.new sum.new) }
    ensures free { IfSome result (IsFree matching.now) }
    ensures stuck { IfNone result (HasNoLead (M.monoid_of m.now) growth.new) }
{
    for place in 0..reduced.side() {
        match advance_round(m, reduced, matching, growth, sum, place) {
            Round::Stuck => return None,
            Round::Exit(column) => return Some(column),
            Round::More => {}
        }
    }
    None
}
