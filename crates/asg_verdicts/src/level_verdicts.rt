//! What stands against an assignment with levels for a choice of an instance.

ghost use Rattle.std.specs.Prelude.{◌≡◌, ◌↔◌, ◌≤◌, ◌<◌, None, Some, List, Option, ℕ, ℤ, Bool};
ghost use Rattle.std.specs.Prelude.{IsTrue, IfOk, IfSome, false, length, sum_by, slice_index};
ghost use Rattle.asg_model.specs.declared.bands.Band.TheVariants.{Whole};
ghost use Rattle.asg_model.specs.Instances.{IsInstance};
ghost use Rattle.asg_model.specs.Limits.{most_side};
ghost use Rattle.asg_model.specs.Shapes.{square_side};
ghost use Rattle.asg_bit_rows.specs.BitTable.{has_bit};
ghost use Rattle.asg_square.specs.Cells.{choice_of};
ghost use Rattle.asg_square.specs.Presence.{has_cell};
ghost use Rattle.asg_proof.specs.declared.levels.Level.{Level as L};
ghost use Rattle.asg_admit.specs.Reduced.{IsReduced};
ghost use Rattle.asg_proof.specs.Levels.{IsLevel, left_after, left_last, level_sums};
ghost use Rattle.asg_verdicts.specs.LevelReasons.{AreColumns, HoldInAll, IsColumnList, LevelsStand};
ghost use Rattle.asg_verdicts.specs.LevelWalks.{HasPassed, IsBehind, IsCostSquare, IsLeft, IsSized};
ghost use Rattle.asg_verdicts.specs.LevelWalks.{IsDue, IsRefused, LeadsTo, StopsAt};
ghost use Rattle.asg_verdicts.specs.Verdicts.{Tells, level_reasons};

use crate::level_choices::{chosen_by, count_of, is_same_choice};
use crate::level_units::take_units;
use crate::level_walks::{
    Walk, cost_square, first_walk, is_after, keep_zeros, leave_between, level_start,
};
use crate::{NoMemory, Reason, Verdict};
use asg_admit::Reduced;
use asg_bit_rows::BitRows;
use asg_model::{Choice, Instance};
use asg_monoids::Bounded;
use asg_proof::Level;
use asg_replays::first_bad;
use asg_square::Square;
use asg_square::laws::square_law;
use std::alloc::Global;

/// The verdict on an assignment with levels for a choice, by the reasons against levels. The error
/// is want of memory.
pub fn levels_verdict(
    alloc: Global,
    inst: &Instance,
    choice: &Choice,
    perm: &[u32],
    levels: &[Level],
) -> Result<Verdict, NoMemory>
    requires instance { IsInstance inst.now }
    requires side { square_side inst.now ≤ most_side }
    requires rows { length choice.now ≡ length inst.now.rows }
    ensures { IfOk result (Tells (LevelsStand inst.now choice.now perm.now levels.now)
        level_reasons) }
{
    if !is_column_list(alloc, inst.side(), perm)? {
        return Ok(Reason::BadLevel.verdict());
    }
    let square = cost_square(alloc, inst)?;
    let chosen = chosen_by(alloc, inst, &square, perm)?;
    let mut walk = first_walk(alloc, inst, &square)?;
    walked_verdict(
        alloc, inst, choice, &square, &mut walk, &chosen, perm, levels,
    )
}

// The verdict of a walk that stands before the first level. The error is want of memory.
fn walked_verdict(
    alloc: Global,
    inst: &Instance,
    choice: &Choice,
    square: &Square<i64>,
    walk: &mut Walk,
    chosen: &Choice,
    perm: &[u32],
    levels: &[Level],
) -> Result<Verdict, NoMemory>
    requires instance { IsInstance inst.now }
    requires side { square_side inst.now ≤ most_side }
    requires rows { length choice.now ≡ length inst.now.rows }
    requires columns { IsColumnList inst.now perm.now }
    requires square { IsCostSquare inst.now square.now }
    requires chosen { chosen.now ≡ choice_of inst.now perm.now }
    requires first { HasPassed inst.now perm.now levels.now 0 walk.old }
    ensures { IfOk result (Tells (LevelsStand inst.now choice.now perm.now levels.now)
        level_reasons) }
{
    if let Some(place) = first_none(alloc, inst, square, walk, chosen, perm, levels)? {
        return Ok(Reason::BadLevel.verdict_at_part(place));
    }
    leave_between(walk, inst, square, i64::MIN);
    if hold_in_all(inst, walk, chosen, choice, perm, levels) {
        return Ok(Verdict::Yes);
    }
    Ok(Reason::BadLevel.verdict())
}

// Whether a column is below the side and wasn't seen.
fn is_fresh(seen: &BitRows, side: u32, column: u32) -> bool
    requires rows { seen.now.rows ≡ 1 }
    requires columns { seen.now.columns ≡ side }
    ensures { IsTrue result ↔ ((column < side) × (has_bit seen.now 0 column ≡ false)) }
{
    column < side && !seen.has(0, column)
}

// Whether a list has as many columns as the side, all below it and different. The error is want of
// memory.
fn is_column_list(alloc: Global, side: u32, columns: &[u32]) -> Result<bool, NoMemory>
    requires { side ≤ most_side }
    ensures { IfOk result (λ is. IsTrue is ↔ AreColumns side columns.now) }
{
    if columns.len() != side as usize {
        return Ok(false);
    }
    let mut seen = BitRows::make(alloc, 1, side)?;
    for place in 0..columns.len() {
        let column = columns[place];
        if !is_fresh(&seen, side, column) {
            return Ok(false);
        }
        seen.put(0, column, true);
    }
    Ok(true)
}

// Whether the cost of a level comes after that of the level before, if there is one, and the level
// counts as many cells as are chosen at its cost, at least one.
fn is_due(inst: &Instance, before: Option<i64>, chosen: &Choice, level: &Level) -> bool
    requires { length chosen.now ≡ length inst.now.rows }
    ensures { IsTrue result ↔ IsDue inst.now chosen.now before level.now }
{
    if !is_after(before, level.cost) {
        return false;
    }
    if level.count == 0 {
        return false;
    }
    count_of(inst, chosen, level.cost) == level.count
}

// Applies the phases of a level to its square, and tells whether they are admitted in turn and have
// its count as their index. The error is want of memory.
fn are_counted(alloc: Global, reduced: &mut Reduced<u128>, level: &Level) -> Result<bool, NoMemory>
    requires reduced { IsReduced level_sums reduced.old }
    ensures applied { IfOk result (λ is. IsTrue is
        → LeadsTo level.now.phases reduced.old level.now.count reduced.new) }
    ensures refused { IfOk result (λ is. is ≡ false
        → IsRefused level.now.phases reduced.old level.now.count) }
{
    let sums = Bounded { top: 1 << 120 };
    match first_bad(alloc, &sums, reduced, level.phases.as_slice())? {
        Some(_place) => Ok(false),
        None => Ok(reduced.index == u128::from(level.count)),
    }
}

// Takes a level: tells whether it is one after those that the walk stands behind, and then stands
// behind it. The error is want of memory.
fn take_level(
    alloc: Global,
    inst: &Instance,
    square: &Square<i64>,
    walk: &mut Walk,
    chosen: &Choice,
    level: &Level,
) -> Result<bool, NoMemory>
    requires instance { IsInstance inst.now }
    requires side { square_side inst.now ≤ most_side }
    requires square { IsCostSquare inst.now square.now }
    requires sized { IsSized (square_side inst.now) walk.old }
    requires rows { length chosen.now ≡ length inst.now.rows }
    ensures sized { IfOk result (λ is. IsTrue is → IsSized (square_side inst.now) walk.new) }
    ensures level { IfOk result (λ is. (perm : List ℕ) (before : Option ℤ) (left : ℕ → ℕ → Bool)
        → choice_of inst.now perm ≡ chosen.now → IsBehind inst.now before left walk.old
        → (IsTrue is ↔ IsLevel inst.now perm before left level.now)) }
    ensures behind { IfOk result (λ is. (before : Option ℤ) (left : ℕ → ℕ → Bool)
        → IsBehind inst.now before left walk.old → IsTrue is
        → IsBehind inst.now (Some level.now.cost) (left_after inst.now before left level.now)
        walk.new) }
{
    if !is_due(inst, walk.before, chosen, level) {
        return Ok(false);
    }
    if take_units(alloc, inst, square, walk, level)? {
        return Ok(true);
    }
    leave_between(walk, inst, square, level.cost);
    let mut reduced = level_start(alloc, inst, square, walk, level.cost)?;
    if !are_counted(alloc, &mut reduced, level)? {
        return Ok(false);
    }
    keep_zeros(walk, &reduced.now, level.cost);
    Ok(true)
}

// The place of the first level that is none after those before it; without one the walk stands
// behind all. The error is want of memory.
fn first_none(
    alloc: Global,
    inst: &Instance,
    square: &Square<i64>,
    walk: &mut Walk,
    chosen: &Choice,
    perm: &[u32],
    levels: &[Level],
) -> Result<Option<usize>, NoMemory>
    requires instance { IsInstance inst.now }
    requires side { square_side inst.now ≤ most_side }
    requires square { IsCostSquare inst.now square.now }
    requires chosen { chosen.now ≡ choice_of inst.now perm.now }
    requires first { HasPassed inst.now perm.now levels.now 0 walk.old }
    ensures within { IfOk result (λ found. IfSome found (λ place. place < length levels.now)) }
    ensures stops { IfOk result (StopsAt inst.now perm.now levels.now walk.new) }
{
    let _ = perm;
    for place in 0..levels.len() {
        if !take_level(alloc, inst, square, walk, chosen, &levels[place])? {
            return Ok(Some(place));
        }
    }
    Ok(None)
}

// Whether the columns are those of cells that are left.
fn are_left(walk: &Walk, perm: &[u32]) -> bool
    requires few { length perm.now ≤ most_side }
    requires sized { IsSized (length perm.now) walk.now }
    requires columns { AreColumns (length perm.now) perm.now }
    ensures { IsTrue result ↔ ((r : ℕ) → r < length perm.now
        → IsTrue (has_bit walk.now.left r (slice_index perm.now r))) }
{
    for row in 0..perm.len() {
        if !walk.left.has(row as u32, perm[row]) {
            return false;
        }
    }
    true
}

// How many cells the levels count.
fn total(levels: &[Level]) -> u128
    ensures { result ≡ sum_by (λ (level : L). level.count) levels.now }
{
    let mut total = 0;
    for place in 0..levels.len() {
        total += u128::from(levels[place].count);
    }
    total
}

// Whether levels, behind which the walk stands without any lesser cost, hold in all for a choice.
fn hold_in_all(
    inst: &Instance,
    walk: &Walk,
    chosen: &Choice,
    choice: &Choice,
    perm: &[u32],
    levels: &[Level],
) -> bool
    requires few { square_side inst.now ≤ most_side }
    requires columns { IsColumnList inst.now perm.now }
    requires chosen { chosen.now ≡ choice_of inst.now perm.now }
    requires left { IsLeft (square_side inst.now)
        (left_last inst.now None (has_cell inst.now Whole) levels.now) walk.now.left }
    requires rows { length choice.now ≡ length inst.now.rows }
    ensures { IsTrue result ↔ HoldInAll inst.now choice.now perm.now levels.now }
{
    square_law::<u64>();
    square_law::<bool>();
    if !are_left(walk, perm) {
        return false;
    }
    if !is_same_choice(chosen, choice) {
        return false;
    }
    total(levels) == u128::from(inst.placed())
}
