//! Rows get the columns of a list at which their cells are absorbed.

ghost use Rattle.std.specs.Prelude.{◌≡◌, ◌<◌, None, length, IsTrue};
ghost use Rattle.asg_match.specs.Matching.{column_at, IsFree, AllAllowed};
ghost use Rattle.asg_admit.specs.Reduced.{IsReduced};
ghost use Rattle.asg_order.specs.Monoid.{IsValue};
ghost use Rattle.asg_square.specs.Grid.{cell_at};
ghost use Rattle.asg_growth.specs.Growing.{IsAbsorbed};
ghost use Rattle.asg_algebra.specs.Solved.{KeepsRows};

use asg_kept::{RowSquare, cell_of};
use asg_match::Matching;
use asg_order::DMonoid;

// Whether an index absorbs a value: their product is the index.
fn absorbs<M: DMonoid>(m: &M, index: M::Value, value: M::Value) -> bool
    requires index { IsValue (M.monoid_of m.now) index }
    requires value { IsValue (M.monoid_of m.now) value }
    ensures { IsTrue result → (M.monoid_of m.now).product index value ≡ index }
{
    m.le(m.op(index, value), index)
}

// Whether there is a cell, and the index absorbs it.
fn is_absorbed<M: DMonoid, S: RowSquare<M>>(m: &M, square: &S, row: u32, column: u32) -> bool
    requires reduced { IsReduced (M.monoid_of m.now) (S.as_reduced square.now) }
    requires row { row < (S.as_reduced square.now).now.side }
    requires column { column < (S.as_reduced square.now).now.side }
    ensures { let reduced = S.as_reduced square.now in IsTrue result
        → IsAbsorbed (M.monoid_of m.now) reduced.index (cell_at reduced.now) row column }
{
    match cell_of(square, row, column) {
        Some(value) => absorbs(m, square.index(), value),
        None => false,
    }
}

// Whether neither a row nor a column is matched.
fn are_free(matching: &Matching, row: u32, column: u32) -> bool
    requires row { row < length matching.now }
    requires column { column < length matching.now }
    ensures row { IsTrue result → column_at matching.now row ≡ None }
    ensures column { IsTrue result → IsFree matching.now column }
{
    matching.column_of(row).is_none() && matching.row_of(column).is_none()
}

// Gives a row a column, where both are free and the cell is absorbed.
fn match_absorbed<M: DMonoid, S: RowSquare<M>>(
    m: &M,
    square: &S,
    matching: &mut Matching,
    row: u32,
    column: u32,
)
    requires reduced { IsReduced (M.monoid_of m.now) (S.as_reduced square.now) }
    requires side { length matching.old ≡ (S.as_reduced square.now).now.side }
    requires row { row < length matching.old }
    requires absorbed { let reduced = S.as_reduced square.now in AllAllowed
        (IsAbsorbed (M.monoid_of m.now) reduced.index (cell_at reduced.now)) matching.old }
    ensures { KeepsRows (M.monoid_of m.now) (S.as_reduced square.now) matching.old matching.new }
{
    if column >= matching.side() {
        return;
    }
    if are_free(matching, row, column) && is_absorbed(m, square, row, column) {
        matching.set(row, column);
    }
}

/// Gives rows the columns of a list, each where both are free and the cell is absorbed.
pub(crate) fn match_columns<M: DMonoid, S: RowSquare<M>>(
    m: &M,
    square: &S,
    matching: &mut Matching,
    columns: &[u32],
)
    requires reduced { IsReduced (M.monoid_of m.now) (S.as_reduced square.now) }
    requires side { length matching.old ≡ (S.as_reduced square.now).now.side }
    requires absorbed { let reduced = S.as_reduced square.now in AllAllowed
        (IsAbsorbed (M.monoid_of m.now) reduced.index (cell_at reduced.now)) matching.old }
    ensures { KeepsRows (M.monoid_of m.now) (S.as_reduced square.now) matching.old matching.new }
{
    'rows: for row in 0..matching.side() {
        if (row as usize) < columns.len() {
            match_absorbed(m, square, matching, row, columns[row as usize]);
        }
    }
}
