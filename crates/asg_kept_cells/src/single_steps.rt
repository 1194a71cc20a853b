//! Whether a phase is admitted from the kept cells of a square. Where it has one step, at which few
//! columns stay, only the cells of these are visited.

ghost use Rattle.std.specs.Prelude.{◌≡◌, ◌↔◌, ◌<◌, All, IsTrue, length};
ghost use Rattle.asg_order.specs.Monoid.{IsValue};
ghost use Rattle.asg_proof.specs.Phases.{IsAdmittedPhase, phase_of};
ghost use Rattle.asg_proof.specs.Steps.{HasValues};
ghost use Rattle.asg_square.specs.Grid.{cell_at};
ghost use Rattle.asg_square.specs.Masked.{masked_grid};
ghost use Rattle.asg_kept_cells.specs.Kept.{HasSize};
ghost use Rattle.asg_kept_cells.specs.SingleSteps.{AllowsColumn, AllowsColumns, IsAtMostCell};

use crate::chosen_cells::kept_cell;
use asg_admit::{admits_within, entered, staying};
use asg_bit_rows::BitRows;
use asg_order::DMonoid;
use asg_square::Square;

// Of so many columns one may stay for the cells to be visited by columns.
const SPARSE: usize = 4;

// Whether a step is at most a kept cell, where its row enters at the first step.
#[inline]
fn cell_allows<M: DMonoid>(
    m: &M,
    square: &Square<M::Value>,
    kept: &BitRows,
    c: M::Value,
    enter: u32,
    row: u32,
    column: u32,
) -> bool
    requires step { IsValue (M.monoid_of m.now) c }
    requires values { HasValues (M.monoid_of m.now) square.now.side
        (cell_at (masked_grid square.now kept.now.words)) }
    requires size { HasSize square.now.side kept.now }
    requires row { row < square.now.side }
    requires column { column < square.now.side }
    ensures { IsTrue result ↔ (enter ≡ 0 → IsAtMostCell (M.monoid_of m.now) c
        (cell_at (masked_grid square.now kept.now.words) row column)) }
{
    if 0 < enter {
        return true;
    }
    match kept_cell(square, kept, row, column) {
        Some(x) => m.le(c, x),
        None => true,
    }
}

// Whether a step is at most the kept cells of a column, where it stays at the first step, in the
// rows that enter there.
fn column_allows<M: DMonoid>(
    m: &M,
    square: &Square<M::Value>,
    kept: &BitRows,
    c: M::Value,
    enters: &[u32],
    leave: u32,
    column: u32,
) -> bool
    requires step { IsValue (M.monoid_of m.now) c }
    requires values { HasValues (M.monoid_of m.now) square.now.side
        (cell_at (masked_grid square.now kept.now.words)) }
    requires size { HasSize square.now.side kept.now }
    requires enters { length enters.now ≡ square.now.side }
    requires column { column < square.now.side }
    ensures { IsTrue result ↔ (0 < leave → AllowsColumn (M.monoid_of m.now) c enters.now
        (masked_grid square.now kept.now.words) column) }
{
    if leave == 0 {
        return true;
    }
    for row in 0..square.side() {
        if !cell_allows(m, square, kept, c, enters[row as usize], row, column) {
            return false;
        }
    }
    true
}

// Whether a step is at most the kept cells of all columns that stay at the first step, in the rows
// that enter there.
fn columns_allow<M: DMonoid>(
    m: &M,
    square: &Square<M::Value>,
    kept: &BitRows,
    c: M::Value,
    enters: &[u32],
    leaves: &[u32],
) -> bool
    requires step { IsValue (M.monoid_of m.now) c }
    requires values { HasValues (M.monoid_of m.now) square.now.side
        (cell_at (masked_grid square.now kept.now.words)) }
    requires size { HasSize square.now.side kept.now }
    requires enters { length enters.now ≡ square.now.side }
    requires leaves { length leaves.now ≡ square.now.side }
    ensures { IsTrue result ↔ AllowsColumns (M.monoid_of m.now) c enters.now leaves.now
        (masked_grid square.now kept.now.words) }
{
    for column in 0..square.side() {
        if !column_allows(m, square, kept, c, enters, leaves[column as usize], column) {
            return false;
        }
    }
    true
}

// Whether a phase of one step is admitted from the kept cells of a square.
fn admits_step<M: DMonoid>(
    m: &M,
    square: &Square<M::Value>,
    kept: &BitRows,
    steps: &[M::Value],
    enters: &[u32],
    leaves: &[u32],
) -> bool
    requires values { HasValues (M.monoid_of m.now) square.now.side
        (cell_at (masked_grid square.now kept.now.words)) }
    requires size { HasSize square.now.side kept.now }
    requires steps { All (IsValue (M.monoid_of m.now)) steps.now }
    requires one { length steps.now ≡ 1 }
    ensures { IsTrue result ↔ IsAdmittedPhase (M.monoid_of m.now) (M.difference m.now)
        square.now.side (phase_of steps.now enters.now leaves.now)
        (cell_at (masked_grid square.now kept.now.words)) }
{
    let side = square.side() as usize;
    if enters.len() != side {
        return false;
    }
    if leaves.len() != side {
        return false;
    }
    if entered(enters, 0) + staying(leaves, 0) != side + 1 {
        return false;
    }
    columns_allow(m, square, kept, steps[0], enters, leaves)
}

// Whether a phase is admitted from the kept cells of a square, row by row.
fn admits_rows<M: DMonoid>(
    m: &M,
    square: &Square<M::Value>,
    kept: &BitRows,
    steps: &[M::Value],
    enters: &[u32],
    leaves: &[u32],
) -> bool
    requires values { HasValues (M.monoid_of m.now) square.now.side
        (cell_at (masked_grid square.now kept.now.words)) }
    ensures { IsTrue result ↔ IsAdmittedPhase (M.monoid_of m.now) (M.difference m.now)
        square.now.side (phase_of steps.now enters.now leaves.now)
        (cell_at (masked_grid square.now kept.now.words)) }
{
    let words = kept.words();
    admits_within(m, square, words, steps, enters, leaves)
}

/// Whether a phase of values is admitted from the kept cells of a square. It takes no memory.
pub(crate) fn admits_kept<M: DMonoid>(
    m: &M,
    square: &Square<M::Value>,
    kept: &BitRows,
    steps: &[M::Value],
    enters: &[u32],
    leaves: &[u32],
) -> bool
    requires values { HasValues (M.monoid_of m.now) square.now.side
        (cell_at (masked_grid square.now kept.now.words)) }
    requires size { HasSize square.now.side kept.now }
    requires steps { All (IsValue (M.monoid_of m.now)) steps.now }
    ensures { IsTrue result ↔ IsAdmittedPhase (M.monoid_of m.now) (M.difference m.now)
        square.now.side (phase_of steps.now enters.now leaves.now)
        (cell_at (masked_grid square.now kept.now.words)) }
{
    if steps.len() != 1 {
        return admits_rows(m, square, kept, steps, enters, leaves);
    }
    if staying(leaves, 0) > leaves.len() / SPARSE {
        return admits_rows(m, square, kept, steps, enters, leaves);
    }
    admits_step(m, square, kept, steps, enters, leaves)
}
