//! The outcome of an algebraic objective: a best choice with its phases, or a Hall set.

ghost use Rattle.std.specs.Prelude.{◌≤◌, IsTrue, IfOk};
ghost use Rattle.asg_model.specs.declared.objectives.Objective.TheVariants.{SumPair, TimeCost};
ghost use Rattle.asg_model.specs.Limits.{most_side};
ghost use Rattle.asg_model.specs.Objectives.{is_algebraic, is_bottleneck};
ghost use Rattle.asg_model.specs.Refused.{PassesNegative};
ghost use Rattle.asg_model.specs.Shapes.{square_side};
ghost use Rattle.asg_monoids.specs.Entered.{is_sum_objective};
ghost use Rattle.asg_monoids.specs.NarrowObjectives.{is_narrow_objective};
ghost use Rattle.asg_proof.specs.Outcomes.{IsOutcome};
ghost use Rattle.asg_proof.specs.PromisedProofs.{GivesFewPhases};

use crate::NoMemory;
use crate::entered_squares::{algebraic, guessed_algebraic};
use crate::listed_grades::listed_outcome;
use crate::narrow_squares::by_narrow_sums;
use crate::table_grades::outcome_by_grades;
use crate::table_pairs::pair_outcome;
use asg_algebra::entered_square;
use asg_duals::{Guess, capped_guess, grade_guess, pair_guess, peak_guess};
use asg_model::{Instance, Objective};
use asg_monoids::laws::narrow_sums;
use asg_monoids::{NarrowKind, PeakKind, SumKind, TimeKind};
use asg_proof::Outcome;
use asg_square::Square;
use std::alloc::Global;

// A guess for the square of an instance whose live costs entered for `pair` or `capped`.
fn wide_guess(
    alloc: Global,
    objective: Objective,
    square: &Square<u128>,
) -> Result<Option<Guess<u128>>, NoMemory> {
    match objective {
        Objective::SumPair => pair_guess(alloc, square),
        Objective::Capped(cap) => capped_guess(alloc, square, cap as u128),
        _ => Ok(None),
    }
}

// The outcome of an objective whose costs enter sums, by sums in 128 bits.
fn by_sums(alloc: Global, objective: Objective, inst: &Instance) -> Result<Outcome, NoMemory>
    requires objective { IsTrue (is_sum_objective objective) }
    requires side { square_side inst.now ≤ most_side }
    requires passes { PassesNegative objective inst.now }
    ensures outcome { IfOk result (IsOutcome objective inst.now) }
    ensures phases { IfOk result (GivesFewPhases (square_side inst.now)) }
{
    let kind = SumKind::of(objective);
    let square = entered_square(alloc, &kind, inst)?;
    let guess = wide_guess(alloc, objective, &square)?;
    guessed_algebraic(alloc, &kind, inst, square, guess)
}

// The outcome of `pair`: by phases that are guessed over the costs as they stand, and else by sums in
// 128 bits.
fn by_pairs(alloc: Global, inst: &Instance) -> Result<Outcome, NoMemory>
    requires side { square_side inst.now ≤ most_side }
    requires passes { PassesNegative SumPair inst.now }
    ensures outcome { IfOk result (IsOutcome SumPair inst.now) }
    ensures phases { IfOk result (GivesFewPhases (square_side inst.now)) }
{
    if let Some(found) = pair_outcome(alloc, inst)? {
        return Ok(found);
    }
    by_sums(alloc, Objective::SumPair, inst)
}

// The outcome of `sum` or `sum-max` by the engine, by sums in 64 bits, which stay far below their
// top.
fn by_engine(alloc: Global, objective: Objective, inst: &Instance) -> Result<Outcome, NoMemory>
    requires objective { IsTrue (is_narrow_objective objective) }
    requires side { square_side inst.now ≤ most_side }
    requires passes { PassesNegative objective inst.now }
    ensures outcome { IfOk result (IsOutcome objective inst.now) }
    ensures phases { IfOk result (GivesFewPhases (square_side inst.now)) }
{
    narrow_sums();
    let _rows = inst.rows();
    algebraic(alloc, &NarrowKind::of(objective), inst)
}

// The outcome of `sum`, `sum-max` or `capped`: by sums in 64 bits, but for `capped` only where a
// guess serves, and else in 128.
fn by_small_sums(alloc: Global, objective: Objective, inst: &Instance) -> Result<Outcome, NoMemory>
    requires objective { IsTrue (is_sum_objective objective) }
    requires side { square_side inst.now ≤ most_side }
    requires passes { PassesNegative objective inst.now }
    ensures outcome { IfOk result (IsOutcome objective inst.now) }
    ensures phases { IfOk result (GivesFewPhases (square_side inst.now)) }
{
    if let Some(found) = by_narrow_sums(alloc, objective, inst)? {
        return Ok(found);
    }
    match objective {
        Objective::Sum | Objective::SumMax => by_engine(alloc, objective, inst),
        _ => by_sums(alloc, objective, inst),
    }
}

// The outcome of an objective whose costs enter maxima.
fn by_maxima(alloc: Global, objective: Objective, inst: &Instance) -> Result<Outcome, NoMemory>
    requires objective { IsTrue (is_bottleneck objective) }
    requires side { square_side inst.now ≤ most_side }
    requires passes { PassesNegative objective inst.now }
    ensures outcome { IfOk result (IsOutcome objective inst.now) }
    ensures phases { IfOk result (GivesFewPhases (square_side inst.now)) }
{
    let kind = PeakKind::of(objective);
    let square = entered_square(alloc, &kind, inst)?;
    match peak_guess(alloc, &square) {
        Ok(guess) => guessed_algebraic(alloc, &kind, inst, square, guess),
        Err(error) => {
            drop(square);
            Err(error)
        }
    }
}

// The outcome of `time-cost` by its square.
fn by_graded_square(alloc: Global, inst: &Instance) -> Result<Outcome, NoMemory>
    requires side { square_side inst.now ≤ most_side }
    requires passes { PassesNegative TimeCost inst.now }
    ensures outcome { IfOk result (IsOutcome TimeCost inst.now) }
    ensures phases { IfOk result (GivesFewPhases (square_side inst.now)) }
{
    let kind = TimeKind::new();
    let square = entered_square(alloc, &kind, inst)?;
    match grade_guess(alloc, &square) {
        Ok(guess) => match listed_outcome(alloc, inst, &square, &guess) {
            Ok(None) => guessed_algebraic(alloc, &kind, inst, square, guess),
            Ok(Some(outcome)) => {
                drop(square);
                drop(guess);
                Ok(outcome)
            }
            Err(error) => {
                drop(square);
                drop(guess);
                Err(error)
            }
        },
        Err(error) => {
            drop(square);
            Err(error)
        }
    }
}

// The outcome of `time-cost`: by its table of costs where this serves.
fn by_grades(alloc: Global, inst: &Instance) -> Result<Outcome, NoMemory>
    requires side { square_side inst.now ≤ most_side }
    requires passes { PassesNegative TimeCost inst.now }
    ensures outcome { IfOk result (IsOutcome TimeCost inst.now) }
    ensures phases { IfOk result (GivesFewPhases (square_side inst.now)) }
{
    if let Some(found) = outcome_by_grades(alloc, inst)? {
        return Ok(found);
    }
    by_graded_square(alloc, inst)
}

/// A best choice for an algebraic objective, with phases that prove it: at most as many as the side
/// of the instance's square, each of 1 to side steps. Where no choice is valid, a Hall set of the
/// whole instance. The objective is any but `Balanced` and `Lex`, it refuses no live cost of the
/// instance (`asg_values::negative`), and the side is at most 2,000. The error is want of memory.
/// Few phases are guessed first and tested (`asg_duals`); where no guess passes the tests, the
/// method and its time are those of [`algebraic`]. The sums that are guessed for `sum`, `sum-max` and
/// `capped` are taken in 64 bits.
///
/// [`algebraic`]: crate::algebraic
pub fn algebraic_assignment(
    alloc: Global,
    objective: Objective,
    inst: &Instance,
) -> Result<Outcome, NoMemory>
    requires objective { IsTrue (is_algebraic objective) }
    requires side { square_side inst.now ≤ most_side }
    requires passes { PassesNegative objective inst.now }
    ensures outcome { IfOk result (IsOutcome objective inst.now) }
    ensures phases { IfOk result (GivesFewPhases (square_side inst.now)) }
{
    match objective {
        Objective::Sum | Objective::SumMax | Objective::Capped(_) => {
            by_small_sums(alloc, objective, inst)
        }
        Objective::SumPair => by_pairs(alloc, inst),
        Objective::Bottleneck | Objective::BottleneckMax => by_maxima(alloc, objective, inst),
        Objective::TimeCost => by_grades(alloc, inst),
        Objective::Balanced | Objective::Lex => unreachable!(),
    }
}
