//! The costs of a square, gone through from the greatest down.

ghost use Rattle.std.specs.Prelude.{◌≡◌, ◌<◌, ◌≤◌, ℕ, All, IfOk, length};
ghost use Rattle.asg_model.specs.Limits.{most_side};
ghost use Rattle.asg_model.specs.Shapes.{square_side};
ghost use Rattle.asg_proof.specs.LevelLists.{AreLevelParts};
ghost use Rattle.asg_proof.specs.Levels.{AreProvedLevels, IsLeftAssignment};
ghost use Rattle.asg_proof.specs.Phases.{ArePhases};
ghost use Rattle.asg_proof.specs.PromisedProofs.{IsUnitLevel};
ghost use Rattle.asg_square.specs.Grid.{IsSquareOf};
ghost use Rattle.asg_live_cells.specs.Grades.{cost_of, free_grade, grade_of};
ghost use Rattle.asg_live_cells.specs.LiveCells.{AreEntriesUnder};
ghost use Rattle.asg_lex.specs.RunStates.{IsRun, IsDone, AddsLevel};

use crate::NoMemory;
use crate::groups::take_group;
use crate::level_work::Work;
use asg_live_cells::{LiveCells, cost};
use asg_match::{Matching, Tree};
use asg_model::Instance;
use asg_proof::{Level, Phases};
use asg_square::laws::square_law;
use std::alloc::Global;

/// What is kept from cost to cost: the marked cells with a perfect matching by them, and the levels
/// so far.
#[derive(Drop)]
pub(crate) struct Run {
    pub(crate) work: Work,
    pub(crate) matching: Matching,
    pub(crate) tree: Tree,
    pub(crate) levels: Vec<Level>,
}

// Adds a level of this grade with the phases of the work, which has none afterwards. The error is
// want of memory.
fn add_level(
    alloc: Global,
    work: &mut Work,
    levels: &mut Vec<Level>,
    grade: u32,
) -> Result<(), NoMemory>
    requires phases { ArePhases work.old.phases.items }
    requires few { length work.old.phases.items ≤ most_side }
    requires parts { AreLevelParts levels.old.items }
    ensures level { IfOk result (λ _. AddsLevel work.old work.new levels.old.items
        levels.new.items (cost_of grade)) }
    ensures parts { IfOk result (λ _. AreLevelParts levels.new.items) }
{
    let phases = std::mem::replace(&mut work.phases, Vec::new(alloc));
    let count = phases.len() as u32;
    let phases = Phases::from_vec(phases)?;
    levels.push(Level {
        cost: cost(grade),
        count,
        phases,
    })?;
    Ok(())
}

// Goes through the greatest cost of the entries before a place, and gives the place of its first
// entry. The error is want of memory.
fn take_cost(
    alloc: Global,
    inst: &Instance,
    cells: &LiveCells<'_>,
    run: &mut Run,
    to: usize,
) -> Result<usize, NoMemory>
    requires few { square_side inst.now ≤ most_side }
    requires square { IsSquareOf inst.now free_grade grade_of cells.now.square.now }
    requires entries { AreEntriesUnder cells.now.square.now cells.now.limit cells.now.entries.now }
    requires run { (bound : ℕ)
        × IsRun inst.now cells.now.limit cells.now.entries.now bound to run.old }
    requires some { 0 < to }
    ensures run { IfOk result (λ from. (bound : ℕ)
        × IsRun inst.now cells.now.limit cells.now.entries.now bound from run.new) }
    ensures less { IfOk result (λ from. from < to) }
{
    square_law::<bool>();
    let _rows = inst.rows();
    let grade = cells.entries[to - 1].grade;
    let from = cells.place_of(grade);
    let entries = cells.entries;
    if !take_group(
        alloc,
        &mut run.work,
        &mut run.matching,
        &mut run.tree,
        entries,
        from,
        to,
    )? {
        return Ok(from);
    }
    add_level(alloc, &mut run.work, &mut run.levels, grade)?;
    Ok(from)
}

/// Goes through all costs from the greatest down. The error is want of memory.
pub(crate) fn take_all(
    alloc: Global,
    inst: &Instance,
    cells: &LiveCells<'_>,
    run: &mut Run,
) -> Result<(), NoMemory>
    requires few { square_side inst.now ≤ most_side }
    requires square { IsSquareOf inst.now free_grade grade_of cells.now.square.now }
    requires entries { AreEntriesUnder cells.now.square.now cells.now.limit cells.now.entries.now }
    requires run { (bound : ℕ) × IsRun inst.now cells.now.limit cells.now.entries.now bound
        (length cells.now.entries.now) run.old }
    ensures run { IfOk result (λ _. IsDone inst.now cells.now.limit cells.now.entries.now run.new) }
{
    let mut to = cells.entries.len();
    'costs: while to > 0 {
        to = take_cost(alloc, inst, cells, run, to)?;
    }
    Ok(())
}

// What is left after all costs: the columns of the matching are a perfect assignment by it.
fn write_columns(inst: &Instance, cells: &LiveCells<'_>, run: &Run, perm: &mut [u32])
    requires square { IsSquareOf inst.now free_grade grade_of cells.now.square.now }
    requires entries { AreEntriesUnder cells.now.square.now cells.now.limit cells.now.entries.now }
    requires done { IsDone inst.now cells.now.limit cells.now.entries.now run.now }
    requires count { length perm.old ≡ square_side inst.now }
    ensures count { length perm.new ≡ square_side inst.now }
    ensures left { IsLeftAssignment inst.now perm.new run.now.levels.items }
    ensures proved { AreProvedLevels inst.now run.now.levels.items }
{
    square_law::<bool>();
    let _rows = inst.rows();
    run.matching.copy_columns(perm);
}

/// The columns of a perfect assignment by what is left after all costs. The error is want of
/// memory.
pub(crate) fn left_columns(
    alloc: Global,
    inst: &Instance,
    cells: &LiveCells<'_>,
    run: &Run,
) -> Result<Vec<u32>, NoMemory>
    requires square { IsSquareOf inst.now free_grade grade_of cells.now.square.now }
    requires entries { AreEntriesUnder cells.now.square.now cells.now.limit cells.now.entries.now }
    requires done { IsDone inst.now cells.now.limit cells.now.entries.now run.now }
    ensures left { IfOk result (λ perm. IsLeftAssignment inst.now perm.items run.now.levels.items) }
    ensures proved { IfOk result (λ _. AreProvedLevels inst.now run.now.levels.items) }
    ensures parts { IfOk result (λ _. AreLevelParts run.now.levels.items) }
    ensures units { IfOk result
        (λ _. All (IsUnitLevel (square_side inst.now)) run.now.levels.items) }
    ensures count { IfOk result (λ perm. length perm.items ≡ square_side inst.now) }
{
    let side = run.matching.side();
    let mut perm = vec![in alloc; 0; side as usize]?;
    write_columns(inst, cells, run, perm.as_mut_slice());
    Ok(perm)
}
