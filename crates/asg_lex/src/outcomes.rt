//! The outcome of the lexicographic objective: a best choice with its proof, or a Hall set.

ghost use Rattle.std.specs.Prelude.{◌≡◌, ◌<◌, ◌≤◌, All, IfOk, IfErr, length};
ghost use Rattle.asg_model.specs.declared.objectives.Objective.TheVariants.{Lex};
ghost use Rattle.asg_model.specs.Limits.{most_side};
ghost use Rattle.asg_model.specs.Shapes.{square_side};
ghost use Rattle.asg_model.specs.ValidChoice.{IsValid};
ghost use Rattle.asg_proof.specs.LevelLists.{AreLevelParts};
ghost use Rattle.asg_proof.specs.LevelRows.{most_level_rows, HasFewRows};
ghost use Rattle.asg_proof.specs.Levels.{AreProvedLevels, IsLeftAssignment};
ghost use Rattle.asg_proof.specs.Outcomes.{IsOutcome};
ghost use Rattle.asg_proof.specs.PromisedProofs.{GivesFewLevels, IsUnitLevel};
ghost use Rattle.asg_square.specs.Grid.{IsSquareOf};
ghost use Rattle.asg_live_cells.specs.Grades.{free_grade, grade_of};
ghost use Rattle.asg_live_cells.specs.LiveCells.{AreEntriesUnder};
ghost use Rattle.asg_lex.specs.Refusals.{IsRefusal};
ghost use Rattle.asg_lex.specs.RunStates.{IsDone};
ghost use Rattle.asg_live_cells.specs.Marks.{IsMarked};
ghost use Rattle.asg_live_cells.specs.UnderWords.{MarksUnder};
ghost use Rattle.asg_match.specs.Matching.{IsPerfect};
ghost use Rattle.asg_lex.specs.Starts.{IsStart};

use crate::NoMemory;
use crate::choice_limits::limit_of;
use crate::guesses::guessed_start;
use crate::runs::{Run, left_columns, take_all};
use crate::starts::{Start, first_run, known_start};
use asg_live_cells::{LiveCells, Marks, graded_square, in_order};
use asg_match::Matching;
use asg_model::{Choice, Instance, Objective};
use asg_proof::laws::levels_law;
use asg_proof::{Columns, Levels, Outcome, Proof};
use asg_square::Square;
use asg_square::laws::{grid_law, square_law};
use asg_thresh::bottleneck;
use std::alloc::Global;

/// The greatest number of rows.
pub const MOST_ROWS: u32 = 200;

/// Why no outcome is given.
#[derive(Clone, Copy, PartialEq, Eq)]
pub enum LexRefusal {
    /// The instance has so many rows, more than 200.
    LexTooLarge(u32),
    /// There was not enough memory.
    NoMemory,
}

impl From<NoMemory> for LexRefusal {
    ghost use Rattle.std.specs.Prelude.{◌≡◌};
    ghost use Rattle.asg_lex.specs.declared.outcomes.LexRefusal.TheVariants.{NoMemory};

    ghost from_gives = { λ _ refusal. refusal ≡ NoMemory };

    fn from(_: NoMemory) -> LexRefusal {
        LexRefusal::NoMemory
    }
}

// The run after all costs. The error is want of memory.
fn finished_run(
    alloc: Global,
    inst: &Instance,
    cells: &LiveCells<'_>,
    marks: Marks,
    matching: Matching,
) -> Result<Run, NoMemory>
    requires few { square_side inst.now ≤ most_side }
    requires square { IsSquareOf inst.now free_grade grade_of cells.now.square.now }
    requires some { 0 < cells.now.limit }
    requires entries { AreEntriesUnder cells.now.square.now cells.now.limit cells.now.entries.now }
    requires side { marks.side ≡ cells.now.square.now.side }
    requires marked { MarksUnder cells.now.square.now cells.now.limit marks.bits }
    requires perfect { IsPerfect (IsMarked marks.bits marks.side) cells.now.square.now.side matching }
    ensures { IfOk result (IsDone inst.now cells.now.limit cells.now.entries.now) }
{
    let mut run = first_run(alloc, inst, cells, marks, matching)?;
    take_all(alloc, inst, cells, &mut run)?;
    Ok(run)
}

// The levels of a run, of which nothing else is kept.
fn levels_of(run: Run) -> Levels
    requires { AreLevelParts run.levels.items }
    ensures { result ≡ run.levels.items }
{
    Levels::from_vec(run.levels)
}

// The choice of a perfect assignment by what is left after proved levels, which is a best one, with
// these levels. The error is want of memory.
fn best_of(
    alloc: Global,
    inst: &Instance,
    square: &Square<u32>,
    perm: Vec<u32>,
    levels: Levels,
) -> Result<Outcome, NoMemory>
    requires few_rows { HasFewRows inst.now }
    requires square { IsSquareOf inst.now free_grade grade_of square.now }
    requires left { IsLeftAssignment inst.now perm.items levels }
    requires proved { AreProvedLevels inst.now levels }
    requires units { All (IsUnitLevel (square_side inst.now)) levels }
    requires count { length perm.items ≡ square_side inst.now }
    ensures outcome { IfOk result (IsOutcome Lex inst.now) }
    ensures levels { IfOk result (GivesFewLevels (square_side inst.now) most_level_rows) }
{
    square_law::<bool>();
    square_law::<u32>();
    grid_law::<u32>();
    levels_law();
    let _rows = inst.rows();
    let choice = square.choice_of(alloc, perm.as_slice())?;
    Ok(Outcome::Best {
        choice,
        proof: Proof::Levels {
            perm: Columns::from_vec(perm),
            levels,
        },
    })
}

// The best choice of the levels. The error is want of memory.
fn best(
    alloc: Global,
    inst: &Instance,
    cells: &LiveCells<'_>,
    marks: Marks,
    matching: Matching,
) -> Result<Outcome, NoMemory>
    requires few { square_side inst.now ≤ most_side }
    requires few_rows { HasFewRows inst.now }
    requires square { IsSquareOf inst.now free_grade grade_of cells.now.square.now }
    requires some { 0 < cells.now.limit }
    requires entries { AreEntriesUnder cells.now.square.now cells.now.limit cells.now.entries.now }
    requires side { marks.side ≡ cells.now.square.now.side }
    requires marked { MarksUnder cells.now.square.now cells.now.limit marks.bits }
    requires perfect { IsPerfect (IsMarked marks.bits marks.side) cells.now.square.now.side matching }
    ensures outcome { IfOk result (IsOutcome Lex inst.now) }
    ensures levels { IfOk result (GivesFewLevels (square_side inst.now) most_level_rows) }
{
    let run = finished_run(alloc, inst, cells, marks, matching)?;
    let perm = left_columns(alloc, inst, cells, &run)?;
    best_of(alloc, inst, cells.square, perm, levels_of(run))
}

// The outcome by a walk from a start. The error is want of memory.
fn outcome_from(
    alloc: Global,
    inst: &Instance,
    square: &Square<u32>,
    start: Start,
) -> Result<Outcome, NoMemory>
    requires few { square_side inst.now ≤ most_side }
    requires few_rows { HasFewRows inst.now }
    requires square { IsSquareOf inst.now free_grade grade_of square.now }
    requires start { IsStart square.now start }
    ensures outcome { IfOk result (IsOutcome Lex inst.now) }
    ensures levels { IfOk result (GivesFewLevels (square_side inst.now) most_level_rows) }
{
    let Start {
        limit,
        marks,
        matching,
    } = start;
    let entries = in_order(alloc, square, limit)?;
    let cells = LiveCells {
        square,
        limit,
        entries: entries.as_slice(),
    };
    best(alloc, inst, &cells, marks, matching)
}

// The outcome, where a choice is valid: the walk starts at the greatest cost that it has. The error
// is want of memory.
fn outcome_under(
    alloc: Global,
    inst: &Instance,
    square: &Square<u32>,
    choice: &Choice,
) -> Result<Outcome, NoMemory>
    requires few { square_side inst.now ≤ most_side }
    requires few_rows { HasFewRows inst.now }
    requires square { IsSquareOf inst.now free_grade grade_of square.now }
    requires valid { IsValid inst.now choice.now }
    ensures outcome { IfOk result (IsOutcome Lex inst.now) }
    ensures levels { IfOk result (GivesFewLevels (square_side inst.now) most_level_rows) }
{
    let limit = limit_of(inst, choice);
    let start = known_start(alloc, inst, square, limit)?;
    outcome_from(alloc, inst, square, start)
}

// The outcome by that of the bottleneck problem. The error is want of memory.
fn outcome_unguessed(
    alloc: Global,
    inst: &Instance,
    square: &Square<u32>,
) -> Result<Outcome, NoMemory>
    requires few { square_side inst.now ≤ most_side }
    requires few_rows { HasFewRows inst.now }
    requires square { IsSquareOf inst.now free_grade grade_of square.now }
    ensures outcome { IfOk result (IsOutcome Lex inst.now) }
    ensures levels { IfOk result (GivesFewLevels (square_side inst.now) most_level_rows) }
{
    match bottleneck(alloc, Objective::Bottleneck, inst)? {
        Outcome::Nothing { rows } => Ok(Outcome::Nothing { rows }),
        Outcome::Best { choice, .. } => outcome_under(alloc, inst, square, &choice),
    }
}

// The outcome of an instance with few rows. The error is want of memory.
fn outcome(alloc: Global, inst: &Instance) -> Result<Outcome, NoMemory>
    requires few { square_side inst.now ≤ most_side }
    requires few_rows { HasFewRows inst.now }
    ensures outcome { IfOk result (IsOutcome Lex inst.now) }
    ensures levels { IfOk result (GivesFewLevels (square_side inst.now) most_level_rows) }
{
    let square = graded_square(alloc, inst)?;
    match guessed_start(alloc, &square)? {
        Some(start) => outcome_from(alloc, inst, &square, start),
        None => outcome_unguessed(alloc, inst, &square),
    }
}

/// A best choice for the lexicographic objective, whose dearest cost is as small as possible, then
/// the next, and so on, with levels that prove it: at most 200 phases in all, each of one step by
/// 1. Where no choice is valid, a Hall set of the whole instance. The side of the instance's square
/// is at most 2,000. The errors: the instance has more than 200 rows, or want of memory.
///
/// The walk goes down from a limit near the value of the bottleneck problem (the lexicographic
/// bottleneck problem, [Burkard and Rendl 1991]). The cells of a cost leave where a perfect matching is left
/// without them; else as many of them are needed as there are steps by 1 over stuck alternating
/// trees until a perfect matching by cells of 0 is found, where those of the cost began at 1. There
/// are as many such steps as rows choose. Each of them, and each row whose cell leaves, takes a
/// tree over rows of bits.
pub fn lexicographic(alloc: Global, inst: &Instance) -> Result<Outcome, LexRefusal>
    requires { square_side inst.now ≤ most_side }
    ensures outcome { IfOk result (IsOutcome Lex inst.now) }
    ensures levels { IfOk result (GivesFewLevels (square_side inst.now) most_level_rows) }
    ensures few { IfOk result (λ _. HasFewRows inst.now) }
    ensures refusal { IfErr result (IsRefusal inst.now) }
{
    let rows = inst.rows().len();
    if rows > MOST_ROWS as usize {
        return Err(LexRefusal::LexTooLarge(rows as u32));
    }
    Ok(outcome(alloc, inst)?)
}
