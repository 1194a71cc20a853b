//! Phases that stay admitted where a cell of the instance is edited.

ghost use Rattle.std.specs.Prelude.{◌≡◌, ◌<◌, ◌≤◌, ◌∷◌, ℕ, List, Option, Some, IfOk, IfSome};
ghost use Rattle.std.specs.Prelude.{IsTrue, length};
ghost use Rattle.asg_model.specs.declared.parts.Cost.{Cost as C};
ghost use Rattle.asg_model.specs.Edits.{edited, with_cell_of};
ghost use Rattle.asg_model.specs.Problem.{Problem};
ghost use Rattle.asg_model.specs.Refused.{PassesNegative};
ghost use Rattle.asg_order.specs.declared.words.Word.{Word as W};
ghost use Rattle.asg_order.specs.Entering.{LiesWithin};
ghost use Rattle.asg_order.specs.Monoid.{IsValue};
ghost use Rattle.asg_proof.specs.Phases.{PhaseOf};
ghost use Rattle.asg_square.specs.Labels.{first_copy};
ghost use Rattle.asg_verdicts.specs.PhaseReasons.{AreAdmitted};
ghost use Rattle.asg_check.specs.KnownPhases.{AllowAtPlaces, AllowsWords, AreKnown};

use crate::NoMemory;
use asg_admit::replay_cell;
use asg_model::{Edit, Instance, Objective};
use asg_monoids::{PeakKind, SumKind, TimeKind};
use asg_order::{Kind, Written};
use asg_proof::WrittenPhase;
use asg_replays::read_steps;
use std::alloc::Global;

// What a phase makes of the value of the cell at a place, where it allows it. Its steps are read
// into the list of values. The error is want of memory.
fn through<M: Written>(
    m: &M,
    phase: &WrittenPhase,
    row: u32,
    column: u32,
    x: M::Value,
    values: &mut Vec<M::Value>,
) -> Result<Option<M::Value>, NoMemory>
    requires { IsValue (M.monoid_of m.now) x }
    ensures allowed { IfOk result (λ found. IfSome found (λ y. (rest : List (PhaseOf W))
        → AllowsWords (M.monoid_of m.now) (M.difference m.now) (M.word_of m.now) rest row column
        (Some y)
        → AllowsWords (M.monoid_of m.now) (M.difference m.now) (M.word_of m.now)
        (phase.now ∷ rest) row column (Some x))) }
    ensures is_value { IfOk result (λ found. IfSome found (IsValue (M.monoid_of m.now))) }
{
    if !read_steps(m, phase.steps(), values)? {
        return Ok(None);
    }
    let (enters, leaves) = (phase.enters(), phase.leaves());
    if row as usize >= enters.len() {
        return Ok(None);
    }
    if column as usize >= leaves.len() {
        return Ok(None);
    }
    let (enter, leave) = (enters[row as usize], leaves[column as usize]);
    Ok(replay_cell(m, x, values.as_slice(), enter, leave))
}

// Whether the cell at a place, of this value, allows phases, one after the other. The error is want
// of memory.
fn cell_allows<M: Written>(
    alloc: Global,
    m: &M,
    phases: &[WrittenPhase],
    row: u32,
    column: u32,
    x: M::Value,
) -> Result<bool, NoMemory>
    requires { IsValue (M.monoid_of m.now) x }
    ensures { IfOk result (λ is. IsTrue is → AllowsWords (M.monoid_of m.now) (M.difference m.now)
        (M.word_of m.now) phases.now row column (Some x)) }
{
    let mut values = Vec::new(alloc);
    let mut now = x;
    'phases: for place in 0..phases.len() {
        match through(m, &phases[place], row, column, now, &mut values)? {
            Some(y) => now = y,
            None => return Ok(false),
        }
    }
    Ok(true)
}

// Whether the cells of a row from one column on and before another do so, all of this value.
fn cells_allow<M: Written>(
    alloc: Global,
    m: &M,
    phases: &[WrittenPhase],
    row: u32,
    from: u32,
    to: u32,
    x: M::Value,
) -> Result<bool, NoMemory>
    requires { IsValue (M.monoid_of m.now) x }
    ensures { IfOk result (λ is. IsTrue is → (k : ℕ) → from ≤ k → k < to
        → AllowsWords (M.monoid_of m.now) (M.difference m.now) (M.word_of m.now) phases.now row k
        (Some x)) }
{
    'columns: for column in from..to {
        if !cell_allows(alloc, m, phases, row, column, x)? {
            return Ok(false);
        }
    }
    Ok(true)
}

// Where the copies of the column at this place begin.
fn first_copy(inst: &Instance, d: u32) -> u32
    ensures first { result ≡ first_copy inst.now d }
    ensures bound { result ≤ 1000000 }
{
    let columns = inst.columns();
    let mut first = 0;
    for place in 0..columns.len() {
        if place >= d as usize {
            return first;
        }
        first += columns[place].cap;
    }
    first
}

// Whether the cells of the square that stand for the row and the column at these places allow
// phases. The answer `false` tells nothing. The error is want of memory.
fn allow_at<K: Kind>(
    alloc: Global,
    kind: &K,
    inst: &Instance,
    row: u32,
    column: u32,
    phases: &[WrittenPhase],
) -> Result<bool, NoMemory>
    requires near { LiesWithin (K.reach kind.now) inst.now }
    requires passes { PassesNegative (K.objective kind.now) inst.now }
    requires column { column < length inst.now.columns }
    ensures { IfOk result (λ is. IsTrue is → AllowAtPlaces (K.M.monoid_of (K.monoid kind.now))
        (K.M.difference (K.monoid kind.now)) (K.M.word_of (K.monoid kind.now))
        (K.entered kind.now) inst.now phases.now row column) }
{
    if !inst.is_counted(row) {
        return Ok(false);
    }
    let Some(cost) = inst.live(row, column) else {
        return Ok(true);
    };
    let columns = inst.columns();
    let from = first_copy(inst, column);
    let to = from + columns[column as usize].cap;
    let x = kind.enter(cost);
    cells_allow(alloc, kind.monoid(), phases, row, from, to, x)
}

// Whether phases are admitted still where the cell of the row and the column with these ids got
// another cost, or none. The answer `false` tells nothing. The error is want of memory.
fn stay_over<K: Kind>(
    alloc: Global,
    kind: &K,
    inst: &Instance,
    row: u32,
    col: u32,
    phases: &[WrittenPhase],
) -> Result<bool, NoMemory>
    requires near { LiesWithin (K.reach kind.now) inst.now }
    requires passes { PassesNegative (K.objective kind.now) inst.now }
    ensures { IfOk result (λ is. IsTrue is → (X : Problem) (cell : Option C)
        → inst.now ≡ with_cell_of X row col cell
        → AreAdmitted (K.M.monoid_of (K.monoid kind.now)) (K.M.difference (K.monoid kind.now))
        (K.M.word_of (K.monoid kind.now)) (K.entered kind.now) X phases.now
        → AreAdmitted (K.M.monoid_of (K.monoid kind.now)) (K.M.difference (K.monoid kind.now))
        (K.M.word_of (K.monoid kind.now)) (K.entered kind.now) inst.now phases.now) }
{
    let Some(r) = inst.row_place(row) else {
        return Ok(false);
    };
    let Some(q) = inst.column_place(col) else {
        return Ok(false);
    };
    allow_at(alloc, kind, inst, r, q, phases)
}

// The same for the monoid of an objective.
fn stay_for(
    alloc: Global,
    objective: Objective,
    inst: &Instance,
    row: u32,
    col: u32,
    phases: &[WrittenPhase],
) -> Result<bool, NoMemory>
    requires passes { PassesNegative objective inst.now }
    ensures { IfOk result (λ is. IsTrue is → (X : Problem) (cell : Option C)
        → inst.now ≡ with_cell_of X row col cell
        → AreKnown objective X phases.now → AreKnown objective inst.now phases.now) }
{
    let _ = inst.rows();
    match objective {
        Objective::Sum | Objective::SumMax | Objective::SumPair | Objective::Capped(_) => {
            stay_over(alloc, &SumKind::of(objective), inst, row, col, phases)
        }
        Objective::Bottleneck | Objective::BottleneckMax => {
            stay_over(alloc, &PeakKind::of(objective), inst, row, col, phases)
        }
        Objective::TimeCost => stay_over(alloc, &TimeKind::new(), inst, row, col, phases),
        Objective::Balanced | Objective::Lex => Ok(false),
    }
}

/// Whether phases that are known to be admitted from the square of an instance are known to be so
/// after an edit, which gave this instance: where it changed a cell, the cells of the square that
/// stand for it are replayed alone. The answer `false` tells nothing. The error is want of memory.
pub fn stay_known(
    alloc: Global,
    objective: Objective,
    inst: &Instance,
    edit: Edit,
    phases: &[WrittenPhase],
) -> Result<bool, NoMemory>
    requires passes { PassesNegative objective inst.now }
    ensures { IfOk result (λ is. IsTrue is → (X : Problem) → inst.now ≡ edited X edit
        → AreKnown objective X phases.now → AreKnown objective inst.now phases.now) }
{
    match edit {
        Edit::Cost { row, col, .. } => stay_for(alloc, objective, inst, row, col, phases),
        Edit::Forbid { row, col } => stay_for(alloc, objective, inst, row, col, phases),
        _ => Ok(false),
    }
}
