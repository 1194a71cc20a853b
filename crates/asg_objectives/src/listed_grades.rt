//! The outcome of `time-cost` by phases of one grade that were guessed, tested as one list.

ghost use Rattle.std.specs.Prelude.{◌≡◌, ◌<◌, ◌^◌, IfOk, IfSome, IsTrue};
ghost use Rattle.asg_model.specs.declared.objectives.Objective.TheVariants.{TimeCost};
ghost use Rattle.asg_model.specs.Refused.{PassesNegative};
ghost use Rattle.asg_model.specs.Shapes.{square_side};
ghost use Rattle.asg_model.specs.ValidChoice.{IsValid};
ghost use Rattle.asg_monoids.specs.BoundedSums.{bounded_sums};
ghost use Rattle.asg_monoids.specs.Entered.{time_entered};
ghost use Rattle.asg_monoids.specs.Grades.{graded};
ghost use Rattle.asg_order.specs.Bridge.{choice_fold};
ghost use Rattle.asg_proof.specs.Outcomes.{IsOutcome};
ghost use Rattle.asg_proof.specs.Phases.{IsPhase};
ghost use Rattle.asg_proof.specs.PromisedProofs.{GivesFewPhases};
ghost use Rattle.asg_square.specs.Grid.{IsSquareOf};

use crate::NoMemory;
use asg_duals::Guess;
use asg_grade_lists::grade_list_index;
use asg_model::{Choice, Instance};
use asg_monoids::TimeKind;
use asg_order::Word;
use asg_proof::{Outcome, Phase, Phases, Proof, StepWords, WrittenPhase};
use asg_replays::chosen_fold;
use asg_square::Square;
use asg_values::is_valid;
use std::alloc::Global;

// Lets the row of the instance that a row of its square stands for choose the column of which a
// column of the square is a copy.
fn put_column<V: Copy>(square: &Square<V>, choice: &mut Choice, row: u32, column: u32)
    requires { row < square.now.side }
{
    if column >= square.side() {
        return;
    }
    if let Some(place) = square.row_label(row) {
        if place < choice.len() {
            choice.set(place, square.column_label(column));
        }
    }
}

/// The choice of these columns for the rows of a square. No clause says that it is valid. The error
/// is want of memory.
pub(crate) fn choice_by_columns<V: Copy>(
    alloc: Global,
    square: &Square<V>,
    columns: &[u32],
) -> Result<Choice, NoMemory> {
    let mut choice = Choice::make(alloc, square.rows())?;
    for row in 0..square.side() {
        if (row as usize) < columns.len() {
            put_column(square, &mut choice, row, columns[row as usize]);
        }
    }
    Ok(choice)
}

// The words of the steps of a phase. The error is want of memory.
fn words_of(alloc: Global, steps: &[(u64, u128)]) -> Result<StepWords, NoMemory> {
    let mut words = StepWords::none(alloc);
    for t in 0..steps.len() {
        let step = steps[t];
        words.push(Word {
            grade: step.0,
            amount: step.1,
        })?;
    }
    Ok(words)
}

// A phase as documents have it. No clause says that it is the same. The error is want of memory.
fn written(alloc: Global, phase: &Phase<(u64, u128)>) -> Result<WrittenPhase, NoMemory>
    ensures { IfOk result IsPhase }
{
    let words = words_of(alloc, phase.steps())?;
    let enters = Vec::from_slice(alloc, phase.enters())?;
    let leaves = Vec::from_slice(alloc, phase.leaves())?;
    WrittenPhase::of(words, enters, leaves)
}

// Phases as documents have them. The error is want of memory.
fn all_written(alloc: Global, phases: &[Phase<(u64, u128)>]) -> Result<Phases, NoMemory> {
    let mut list = Vec::with_capacity(alloc, phases.len())?;
    'phases: for k in 0..phases.len() {
        let phase = written(alloc, &phases[k])?;
        list.push(phase)?;
    }
    Phases::from_vec(list)
}

// Whether two values are the same.
fn are_same(a: (u64, u128), b: (u64, u128)) -> bool
    ensures grade { IsTrue result → a.0 ≡ b.0 }
    ensures amount { IsTrue result → a.1 ≡ b.1 }
{
    if a.0 != b.0 {
        return false;
    }
    a.1 == b.1
}

/// Whether a choice is valid, and its fold for `time-cost` is this index.
pub(crate) fn has_fold(inst: &Instance, choice: &Choice, index: (u64, u128)) -> bool
    requires { PassesNegative TimeCost inst.now }
    ensures valid { IsTrue result → IsValid inst.now choice.now }
    ensures fold { IsTrue result
        → choice_fold (graded (bounded_sums (2 ^ 120))) time_entered inst.now choice.now ≡ index }
{
    let _rows = inst.rows();
    if !is_valid(inst, choice) {
        return false;
    }
    let kind = TimeKind::new();
    let fold = chosen_fold(&kind, inst, choice);
    are_same(fold, index)
}

// The outcome by phases and columns for the square of the instance, where they pass the tests.
fn tested_outcome(
    alloc: Global,
    inst: &Instance,
    square: &Square<(u64, u128)>,
    phases: Phases,
    columns: &[u32],
) -> Result<Option<Outcome>, NoMemory>
    requires passes { PassesNegative TimeCost inst.now }
    requires square { IsSquareOf inst.now (0, 0) time_entered square.now }
    ensures outcome { IfOk result (λ found. IfSome found (IsOutcome TimeCost inst.now)) }
    ensures phases { IfOk result (λ found. IfSome found (GivesFewPhases (square_side inst.now))) }
{
    if phases.len() > square.side() as usize {
        return Ok(None);
    }
    let listed = grade_list_index(alloc, square, phases.as_slice())?;
    let Some(index) = listed else {
        return Ok(None);
    };
    let choice = choice_by_columns(alloc, square, columns)?;
    if !has_fold(inst, &choice, index) {
        return Ok(None);
    }
    Ok(Some(Outcome::Best {
        choice,
        proof: Proof::Phases(phases),
    }))
}

/// The outcome of `time-cost` by a guess for the square of the instance: where its phases are
/// admitted as one list (`asg_grade_lists`), and its columns give a valid choice whose fold is
/// their index; otherwise, and where there is no guess, `None`. The error is want of memory.
pub(crate) fn listed_outcome(
    alloc: Global,
    inst: &Instance,
    square: &Square<(u64, u128)>,
    guess: &Option<Guess<(u64, u128)>>,
) -> Result<Option<Outcome>, NoMemory>
    requires passes { PassesNegative TimeCost inst.now }
    requires square { IsSquareOf inst.now (0, 0) time_entered square.now }
    ensures outcome { IfOk result (λ found. IfSome found (IsOutcome TimeCost inst.now)) }
    ensures phases { IfOk result (λ found. IfSome found (GivesFewPhases (square_side inst.now))) }
{
    let Some(guess) = guess else {
        return Ok(None);
    };
    let phases = all_written(alloc, guess.phases())?;
    tested_outcome(alloc, inst, square, phases, guess.columns())
}
