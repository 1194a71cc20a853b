//! Phases of one step that lowers one line of a square: a row, or a column.

ghost use Rattle.std.specs.Prelude.{◌≡◌, ◌<◌, ◌≤◌, ◌∷◌, [], IsTrue, Some, IfSome, length, vec_len, slice_set, replicate};
ghost use Rattle.asg_order.specs.Monoid.{IsValue};
ghost use Rattle.asg_pool.specs.Forest.{IsLive};
ghost use Rattle.asg_proof.specs.Phases.{IsAdmittedPhase};
ghost use Rattle.asg_proof.specs.Steps.{HasValues};
ghost use Rattle.asg_square.specs.Grid.{cell_at};
ghost use Rattle.asg_growth.specs.Growths.{IsRoomy};
ghost use Rattle.asg_algebra.specs.Benches.{IsBench};
ghost use Rattle.asg_algebra.specs.Solved.{ArePushed};
ghost use Rattle.asg_algebra.specs.LineSteps.{IsAtMostCell, LowersRow, LowersColumn, WritesLine, AreCounted, steps_in};

use asg_admit::{entered, staying};
use asg_growth::{Growth, refill};
use asg_kept::{RowSquare, cell_of};
use asg_match::Matching;
use asg_order::DMonoid;
use asg_pool::{Region, Trail};

// Whether a step is at most a cell, where it is present.
#[inline]
fn is_at_most<M: DMonoid, S: RowSquare<M>>(
    m: &M,
    square: &S,
    step: M::Value,
    row: u32,
    column: u32,
) -> bool
    requires step { IsValue (M.monoid_of m.now) step }
    requires values { let now = (S.as_reduced square.now).now in
        HasValues (M.monoid_of m.now) now.side (cell_at now) }
    requires row { row < (S.as_reduced square.now).now.side }
    requires column { column < (S.as_reduced square.now).now.side }
    ensures { IsTrue result → IsAtMostCell (M.monoid_of m.now) step
        (cell_at (S.as_reduced square.now).now row column) }
{
    match cell_of(square, row, column) {
        Some(value) => m.le(step, value),
        None => true,
    }
}

// Whether a step is at most each present cell of a row.
fn lowers_row<M: DMonoid, S: RowSquare<M>>(m: &M, square: &S, step: M::Value, row: u32) -> bool
    requires step { IsValue (M.monoid_of m.now) step }
    requires values { let now = (S.as_reduced square.now).now in
        HasValues (M.monoid_of m.now) now.side (cell_at now) }
    requires row { row < (S.as_reduced square.now).now.side }
    ensures { IsTrue result
        → LowersRow (M.monoid_of m.now) step (S.as_reduced square.now).now row }
{
    for column in 0..square.side() {
        if !is_at_most(m, square, step, row, column) {
            return false;
        }
    }
    true
}

// Whether a step is at most each present cell of a column.
fn lowers_column<M: DMonoid, S: RowSquare<M>>(
    m: &M,
    square: &S,
    step: M::Value,
    column: u32,
) -> bool
    requires step { IsValue (M.monoid_of m.now) step }
    requires values { let now = (S.as_reduced square.now).now in
        HasValues (M.monoid_of m.now) now.side (cell_at now) }
    requires column { column < (S.as_reduced square.now).now.side }
    ensures { IsTrue result
        → LowersColumn (M.monoid_of m.now) step (S.as_reduced square.now).now column }
{
    for row in 0..square.side() {
        if !is_at_most(m, square, step, row, column) {
            return false;
        }
    }
    true
}

// The first column that no row has, if one is free.
fn free_column(matching: &Matching) -> Option<u32>
    ensures { IfSome result (λ k. k < length matching.now) }
{
    for column in 0..matching.side() {
        if matching.row_of(column).is_none() {
            return Some(column);
        }
    }
    None
}

// Writes lists that are the same number everywhere but at one place of the first one.
fn mark_line(marked: &mut Vec<u32>, others: &mut Vec<u32>, all: u32, place: u32, mark: u32)
    requires { place < vec_len marked.old }
    ensures marked { marked.new.items
        ≡ slice_set (replicate (vec_len marked.old) all) place mark }
    ensures marked_len { vec_len marked.new ≡ vec_len marked.old }
    ensures others { others.new.items ≡ replicate (vec_len others.old) all }
    ensures others_len { vec_len others.new ≡ vec_len others.old }
{
    marked.fill(all);
    marked[place as usize] = mark;
    others.fill(all);
}

// Writes the phase of one step that lowers a row: the row enters before it, and no column leaves.
fn write_row<V: Copy>(growth: &mut Growth<V>, step: V, row: u32)
    requires roomy { IsRoomy (vec_len growth.old.enters) growth.old }
    requires row { row < vec_len growth.old.enters }
    ensures { let side = vec_len growth.old.enters in WritesLine growth.old growth.new step
        (slice_set (replicate side 1) row 0) (replicate side 1) }
{
    refill(&mut growth.steps, step, 1);
    mark_line(&mut growth.enters, &mut growth.leaves, 1, row, 0);
}

// Writes the phase of one step that lowers a column: all rows enter before it, and the other columns
// leave.
fn write_column<V: Copy>(growth: &mut Growth<V>, step: V, column: u32)
    requires roomy { IsRoomy (vec_len growth.old.enters) growth.old }
    requires column { column < vec_len growth.old.enters }
    ensures { let side = vec_len growth.old.enters in WritesLine growth.old growth.new step
        (replicate side 0) (slice_set (replicate side 0) column 1) }
{
    refill(&mut growth.steps, step, 1);
    mark_line(&mut growth.leaves, &mut growth.enters, 0, column, 1);
}

// Whether one more rows enter before the first step and columns stay at it than the side.
fn is_counted(enters: &[u32], leaves: &[u32]) -> bool
    ensures { IsTrue result → AreCounted enters.now leaves.now }
{
    let rows = enters.len();
    if entered(enters, 0) + staying(leaves, 0) != rows + 1 {
        return false;
    }
    true
}

// Writes the phase of one step that lowers a row, where it is admitted, and tells whether it is.
fn row_phase<M: DMonoid, S: RowSquare<M>>(
    m: &M,
    square: &S,
    growth: &mut Growth<M::Value>,
    step: M::Value,
    row: u32,
) -> bool
    requires step { IsValue (M.monoid_of m.now) step }
    requires values { let now = (S.as_reduced square.now).now in
        HasValues (M.monoid_of m.now) now.side (cell_at now) }
    requires bench { IsBench (S.as_reduced square.now).now.side growth.old }
    requires row { row < (S.as_reduced square.now).now.side }
    ensures admitted { let now = (S.as_reduced square.now).now in
        IsTrue result → IsAdmittedPhase (M.monoid_of m.now) (M.difference m.now) now.side
        (steps_in growth.new) (cell_at now) }
    ensures steps { IsTrue result → growth.new.steps.items ≡ step ∷ [] }
    ensures bench { IsBench (S.as_reduced square.now).now.side growth.new }
{
    if lowers_row(m, square, step, row) {
        write_row(growth, step, row);
        return is_counted(&growth.enters, &growth.leaves);
    }
    false
}

// The same of a column.
fn column_phase<M: DMonoid, S: RowSquare<M>>(
    m: &M,
    square: &S,
    growth: &mut Growth<M::Value>,
    step: M::Value,
    column: u32,
) -> bool
    requires step { IsValue (M.monoid_of m.now) step }
    requires values { let now = (S.as_reduced square.now).now in
        HasValues (M.monoid_of m.now) now.side (cell_at now) }
    requires bench { IsBench (S.as_reduced square.now).now.side growth.old }
    requires column { column < (S.as_reduced square.now).now.side }
    ensures admitted { let now = (S.as_reduced square.now).now in
        IsTrue result → IsAdmittedPhase (M.monoid_of m.now) (M.difference m.now) now.side
        (steps_in growth.new) (cell_at now) }
    ensures steps { IsTrue result → growth.new.steps.items ≡ step ∷ [] }
    ensures bench { IsBench (S.as_reduced square.now).now.side growth.new }
{
    if lowers_column(m, square, step, column) {
        write_column(growth, step, column);
        return is_counted(&growth.enters, &growth.leaves);
    }
    false
}

/// Writes a phase of one step that lowers the root's row, or else the first column that no row has,
/// where it is admitted, and tells whether it is.
pub(crate) fn line_phase<M: DMonoid, S: RowSquare<M>>(
    m: &M,
    square: &S,
    matching: &Matching,
    growth: &mut Growth<M::Value>,
    step: M::Value,
    root: u32,
) -> bool
    requires step { IsValue (M.monoid_of m.now) step }
    requires values { let now = (S.as_reduced square.now).now in
        HasValues (M.monoid_of m.now) now.side (cell_at now) }
    requires matching { length matching.now ≡ (S.as_reduced square.now).now.side }
    requires bench { IsBench (S.as_reduced square.now).now.side growth.old }
    requires root { root < (S.as_reduced square.now).now.side }
    ensures admitted { let now = (S.as_reduced square.now).now in
        IsTrue result → IsAdmittedPhase (M.monoid_of m.now) (M.difference m.now) now.side
        (steps_in growth.new) (cell_at now) }
    ensures steps { IsTrue result → growth.new.steps.items ≡ step ∷ [] }
    ensures bench { IsBench (S.as_reduced square.now).now.side growth.new }
{
    if row_phase(m, square, growth, step, root) {
        return true;
    }
    match free_column(matching) {
        Some(column) => column_phase(m, square, growth, step, column),
        None => false,
    }
}

/// Pushes the phase that was written, of one step, on a trail.
pub(crate) fn push_line<V: Copy>(
    growth: &Growth<V>,
    region: &mut Region<V>,
    trail: Option<Trail>,
) -> Trail
    requires one { length growth.now.steps.items ≡ 1 }
    requires some { 1 ≤ region.old.side }
    requires enters { vec_len growth.now.enters ≡ region.old.side }
    requires leaves { vec_len growth.now.leaves ≡ region.old.side }
    requires spare { 1 ≤ region.old.spare }
    requires live { IfSome trail (IsLive region.old) }
    ensures { ArePushed (steps_in growth.now ∷ []) region.old region.new trail (Some result) }
{
    region.push(trail, &growth.steps, &growth.enters, &growth.leaves)
}
