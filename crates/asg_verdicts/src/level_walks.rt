//! Walks over levels: which cells of a square are left after each.

ghost use Rattle.std.specs.Prelude.{◌≡◌, ◌<◌, ◌≤◌, ◌&&◌, not, ℕ, Bool, Some, None, IfOk, is_some};
ghost use Rattle.asg_model.specs.declared.bands.Band.TheVariants.{Whole};
ghost use Rattle.asg_model.specs.Instances.{IsInstance};
ghost use Rattle.asg_model.specs.Limits.{most_side};
ghost use Rattle.asg_model.specs.Shapes.{square_side};
ghost use Rattle.asg_bit_rows.specs.BitTable.{has_bit};
ghost use Rattle.asg_square.specs.Grid.{HasPresenceOf, cell_at};
ghost use Rattle.asg_square.specs.Presence.{has_cell};
ghost use Rattle.asg_admit.specs.Reduced.{IsReduced};
ghost use Rattle.asg_proof.specs.Levels.{level_sums, level_square, without};
ghost use Rattle.asg_proof.specs.Levels.{is_after, is_between, is_zero};
ghost use Rattle.asg_verdicts.specs.LevelWalks.{IsBehind, IsCostSquare, IsLeft, IsSized};
ghost use Rattle.asg_verdicts.specs.LevelWalks.{passes_cost, level_value};

use crate::NoMemory;
use asg_admit::Reduced;
use asg_bit_rows::BitRows;
use asg_model::{Cost, Instance};
use asg_square::Square;
use std::alloc::Global;

// What a free cell holds in a square of costs: no cost is as little.
const FREE_COST: i64 = i64::MIN;

/// What is left after levels, and the cost of the last of them.
#[derive(Drop)]
pub(crate) struct Walk {
    pub(crate) left: BitRows,
    pub(crate) before: Option<i64>,
}

/// The square of the costs of an instance. The error is want of memory.
pub(crate) fn cost_square(alloc: Global, inst: &Instance) -> Result<Square<i64>, NoMemory>
    requires { square_side inst.now ≤ most_side }
    ensures square { IfOk result (IsCostSquare inst.now) }
    ensures present { IfOk result (HasPresenceOf inst.now) }
{
    let _rows = inst.rows();
    let enter = |cost: Cost| -> i64
        ensures { result ≡ cost.a }
    { cost.a };
    Square::of(alloc, inst, FREE_COST, &enter)
}

// Marks the present cells of a row.
fn mark_row(left: &mut BitRows, square: &Square<i64>, row: u32)
    requires row_below { row < square.now.side }
    requires rows { left.old.rows ≡ square.now.side }
    requires columns { left.old.columns ≡ square.now.side }
    ensures rows { left.new.rows ≡ square.now.side }
    ensures columns { left.new.columns ≡ square.now.side }
    ensures row { (c : ℕ) → c < square.now.side
        → has_bit left.new row c ≡ is_some (cell_at square.now row c) }
    ensures others { (r c : ℕ) → (r ≡ row → ⊥) → has_bit left.new r c ≡ has_bit left.old r c }
{
    for column in 0..square.side() {
        left.put(row, column, square.at(row, column).is_some());
    }
}

/// The walk before the first level: all present cells are left. The error is want of memory.
pub(crate) fn first_walk(
    alloc: Global,
    inst: &Instance,
    square: &Square<i64>,
) -> Result<Walk, NoMemory>
    requires few { square_side inst.now ≤ most_side }
    requires square { IsCostSquare inst.now square.now }
    requires present { HasPresenceOf inst.now square.now }
    ensures { IfOk result (IsBehind inst.now None (has_cell inst.now Whole)) }
{
    let _rows = inst.rows();
    let side = square.side();
    let mut left = BitRows::make(alloc, side, side)?;
    for row in 0..side {
        mark_row(&mut left, square, row);
    }
    Ok(Walk { left, before: None })
}

/// Whether a cost comes after that of the level before, if there is one: whether it is less.
pub(crate) fn is_after(before: Option<i64>, cost: i64) -> bool
    ensures { result ≡ is_after before cost }
{
    match before {
        Some(before) => cost < before,
        None => true,
    }
}

// Whether a cell has a cost between that of the level before, if there is one, and another.
fn is_between(cell: Option<i64>, before: Option<i64>, next: i64) -> bool
    ensures { result ≡ passes_cost (is_between before next) cell }
{
    match cell {
        Some(cost) => cost != FREE_COST && is_after(before, cost) && next < cost,
        None => false,
    }
}

// Whether a cell that may be left stays so: not where its cost lies between two levels.
pub(crate) fn stays(is_left: bool, cell: Option<i64>, before: Option<i64>, next: i64) -> bool
    ensures { result ≡ (is_left && not (passes_cost (is_between before next) cell)) }
{
    is_left && !is_between(cell, before, next)
}

// Takes the cells of a row away whose costs lie between two levels.
fn leave_row(left: &mut BitRows, square: &Square<i64>, before: Option<i64>, next: i64, row: u32)
    requires row_below { row < square.now.side }
    requires rows { left.old.rows ≡ square.now.side }
    requires columns { left.old.columns ≡ square.now.side }
    ensures rows { left.new.rows ≡ square.now.side }
    ensures columns { left.new.columns ≡ square.now.side }
    ensures row { (c : ℕ) → c < square.now.side → has_bit left.new row c
        ≡ (has_bit left.old row c && not (passes_cost (is_between before next)
        (cell_at square.now row c))) }
    ensures others { (r c : ℕ) → (r ≡ row → ⊥) → has_bit left.new r c ≡ has_bit left.old r c }
{
    for column in 0..square.side() {
        let is_left = stays(left.has(row, column), square.at(row, column), before, next);
        left.put(row, column, is_left);
    }
}

/// Takes the cells away whose costs lie between that of the level before, if there is one, and the
/// next.
pub(crate) fn leave_between(walk: &mut Walk, inst: &Instance, square: &Square<i64>, next: i64)
    requires instance { IsInstance inst.now }
    requires square { IsCostSquare inst.now square.now }
    requires sized { IsSized (square_side inst.now) walk.old }
    ensures sized { IsSized (square_side inst.now) walk.new }
    ensures before { walk.new.before ≡ walk.old.before }
    ensures left { (left : ℕ → ℕ → Bool) → IsLeft (square_side inst.now) left walk.old.left
        → IsLeft (square_side inst.now)
        (without inst.now (is_between walk.old.before next) left) walk.new.left }
{
    let _ = inst;
    for row in 0..square.side() {
        leave_row(&mut walk.left, square, walk.before, next, row);
    }
}

// What a cell of the square of a level holds.
pub(crate) fn level_cell(is_left: bool, cell: Option<i64>, cost: i64) -> Option<u128>
    ensures { result ≡ level_value is_left cost cell }
{
    if !is_left {
        return None;
    }
    match cell {
        Some(found) => Some(u128::from(found != FREE_COST && found == cost)),
        None => None,
    }
}

// Sets the cells of a row of the square of a level.
fn set_row(now: &mut Square<u128>, square: &Square<i64>, left: &BitRows, cost: i64, row: u32)
    requires row_below { row < square.now.side }
    requires side { now.old.side ≡ square.now.side }
    requires rows { left.now.rows ≡ square.now.side }
    requires columns { left.now.columns ≡ square.now.side }
    ensures same { record now.new { cells = now.old.cells } ≡ now.old }
    ensures row { (c : ℕ) → c < square.now.side → cell_at now.new row c
        ≡ level_value (has_bit left.now row c) cost (cell_at square.now row c) }
    ensures others { (r c : ℕ) → (r ≡ row → ⊥) → cell_at now.new r c ≡ cell_at now.old r c }
{
    for column in 0..square.side() {
        let _grid = now.side();
        let is_left = left.has(row, column);
        now.set(
            row,
            column,
            level_cell(is_left, square.at(row, column), cost),
        );
    }
}

/// The square of a level, before any step. The error is want of memory.
pub(crate) fn level_start(
    alloc: Global,
    inst: &Instance,
    square: &Square<i64>,
    walk: &Walk,
    cost: i64,
) -> Result<Reduced<u128>, NoMemory>
    requires few { square_side inst.now ≤ most_side }
    requires square { IsCostSquare inst.now square.now }
    requires sized { IsSized (square_side inst.now) walk.now }
    ensures reduced { IfOk result (IsReduced level_sums) }
    ensures index { IfOk result (λ start. start.index ≡ 0) }
    ensures side { IfOk result (λ start. start.now.side ≡ square_side inst.now) }
    ensures cells { IfOk result (λ start. (left : ℕ → ℕ → Bool)
        → IsLeft (square_side inst.now) left walk.now.left
        → (r c : ℕ) → cell_at start.now r c ≡ level_square inst.now left cost r c) }
{
    let _rows = inst.rows();
    let zero = |_: Cost| -> u128
        ensures { result ≡ 0 }
    { 0 };
    let mut now = Square::of(alloc, inst, 0, &zero)?;
    for row in 0..square.side() {
        set_row(&mut now, square, &walk.left, cost, row);
    }
    let _grid = now.side();
    Ok(Reduced { now, index: 0 })
}

// Keeps the cells of a row that are 0.
fn keep_row(left: &mut BitRows, now: &Square<u128>, row: u32)
    requires row_below { row < now.now.side }
    requires rows { left.old.rows ≡ now.now.side }
    requires columns { left.old.columns ≡ now.now.side }
    ensures rows { left.new.rows ≡ now.now.side }
    ensures columns { left.new.columns ≡ now.now.side }
    ensures row { (c : ℕ) → c < now.now.side
        → has_bit left.new row c ≡ is_zero (cell_at now.now row c) }
    ensures others { (r c : ℕ) → (r ≡ row → ⊥) → has_bit left.new r c ≡ has_bit left.old r c }
{
    for column in 0..now.side() {
        left.put(row, column, now.at(row, column) == Some(0));
    }
}

/// Keeps the cells that are 0 after the phases of a level of this cost.
pub(crate) fn keep_zeros(walk: &mut Walk, now: &Square<u128>, cost: i64)
    requires sized { IsSized now.now.side walk.old }
    ensures sized { IsSized now.now.side walk.new }
    ensures left { IsLeft now.now.side (λ r c. is_zero (cell_at now.now r c)) walk.new.left }
    ensures before { walk.new.before ≡ Some cost }
{
    for row in 0..now.side() {
        keep_row(&mut walk.left, now, row);
    }
    walk.before = Some(cost);
}
