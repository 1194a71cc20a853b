//! Squares that are solved by guessed phases and columns, where these pass the tests.

ghost use Rattle.std.specs.Prelude.{◌≡◌, ◌≤◌, length, IfOk, IfSome};
ghost use Rattle.asg_proof.specs.PromisedProofs.{GivesFewPhases};
ghost use Rattle.asg_proof.specs.Steps.{HasValues};
ghost use Rattle.asg_square.specs.Grid.{Grid, cell_at};
ghost use Rattle.asg_objectives.specs.SolvedFrom.{IsAssignedFrom};
ghost use Rattle.asg_objectives.specs.SolvedSquares.{IsSquareOutcome};
ghost use Rattle.asg_algebra.specs.Workplaces.{IsFresh};

use crate::NoMemory;
use crate::solved_squares::best;
use asg_admit::Reduced;
use asg_algebra::laws::fold_law;
use asg_algebra::{AssignedSquare, Solved, Workplace, assign_given};
use asg_kept::Keeps;
use asg_model::Instance;
use asg_proof::{Outcome, Phase};
use asg_square::Square;
use asg_square::laws::{grid_law, square_law};
use std::alloc::Global;

// Solves a square in a workplace by phases and columns that were guessed; `None` where they don't
// solve it. It has the square from then on.
fn solve_guessed<M: Keeps>(
    alloc: Global,
    m: &M,
    square: Square<M::Value>,
    workplace: &mut Workplace<M::Value>,
    phases: &[Phase<M::Value>],
    columns: &[u32],
) -> Result<Option<AssignedSquare<M::Value>>, NoMemory>
    requires values { HasValues (M.monoid_of m.now) square.side (cell_at square) }
    requires few { length phases.now ≤ square.side }
    requires fresh { IsFresh square.side workplace.old }
    requires spare { workplace.old.region.spare ≡ length phases.now }
    ensures { IfOk result (λ found. IfSome found (λ solved.
        IsAssignedFrom (M.monoid_of m.now) (M.difference m.now) square solved workplace.new)) }
{
    let reduced = Reduced {
        now: square,
        index: m.unit(),
    };
    assign_given(
        alloc,
        m,
        reduced,
        &mut workplace.matching,
        &mut workplace.region,
        phases,
        columns,
    )
}

// The outcome of the square of an instance that was solved in a workplace; `None` where not every
// row has a column.
fn found_outcome<M: Keeps>(
    alloc: Global,
    m: &M,
    inst: &Instance,
    solved: AssignedSquare<M::Value>,
    workplace: Workplace<M::Value>,
) -> Result<Option<Outcome>, NoMemory>
    requires { (Q : Grid M.Value)
        × IsAssignedFrom (M.monoid_of m.now) (M.difference m.now) Q solved workplace }
    ensures outcome { (Q : Grid M.Value)
        → IsAssignedFrom (M.monoid_of m.now) (M.difference m.now) Q solved workplace
        → IfOk result (λ found. IfSome found (IsSquareOutcome (M.monoid_of m.now)
        (M.difference m.now) (M.word_of m.now) inst.now Q)) }
    ensures phases { (Q : Grid M.Value)
        → IsAssignedFrom (M.monoid_of m.now) (M.difference m.now) Q solved workplace
        → IfOk result (λ found. IfSome found (GivesFewPhases Q.side)) }
{
    fold_law(m);
    square_law::<M::Value>();
    grid_law::<M::Value>();
    let _rows = inst.rows();
    let AssignedSquare { square, ended } = solved;
    match ended {
        Solved::Perfect(last) => {
            let found = best(alloc, m, square, workplace, last)?;
            Ok(Some(found))
        }
        Solved::Short(_) => {
            drop(square);
            drop(workplace);
            Ok(None)
        }
    }
}

// The outcome of the square of an instance in a workplace, by phases and columns that were guessed.
fn guessed_outcome_in<M: Keeps>(
    alloc: Global,
    m: &M,
    inst: &Instance,
    square: Square<M::Value>,
    workplace: Workplace<M::Value>,
    phases: &[Phase<M::Value>],
    columns: &[u32],
) -> Result<Option<Outcome>, NoMemory>
    requires values { HasValues (M.monoid_of m.now) square.side (cell_at square) }
    requires few { length phases.now ≤ square.side }
    requires fresh { IsFresh square.side workplace }
    requires spare { workplace.region.spare ≡ length phases.now }
    ensures outcome { IfOk result (λ found. IfSome found (IsSquareOutcome (M.monoid_of m.now)
        (M.difference m.now) (M.word_of m.now) inst.now square)) }
    ensures phases { IfOk result (λ found. IfSome found (GivesFewPhases square.side)) }
{
    let mut workplace = workplace;
    match solve_guessed(alloc, m, square, &mut workplace, phases, columns) {
        Ok(Some(solved)) => found_outcome(alloc, m, inst, solved, workplace),
        Ok(None) => {
            drop(workplace);
            Ok(None)
        }
        Err(error) => {
            drop(workplace);
            Err(error)
        }
    }
}

/// The outcome of the square of an instance, whose present cells are values and whose free cells
/// are units, by phases and columns that were guessed; `None` where they don't pass the tests or
/// don't solve it. The error is want of memory.
pub(crate) fn guessed_outcome<M: Keeps>(
    alloc: Global,
    m: &M,
    inst: &Instance,
    square: Square<M::Value>,
    phases: &[Phase<M::Value>],
    columns: &[u32],
) -> Result<Option<Outcome>, NoMemory>
    requires values { HasValues (M.monoid_of m.now) square.side (cell_at square) }
    ensures outcome { IfOk result (λ found. IfSome found (IsSquareOutcome (M.monoid_of m.now)
        (M.difference m.now) (M.word_of m.now) inst.now square)) }
    ensures phases { IfOk result (λ found. IfSome found (GivesFewPhases square.side)) }
{
    let side = square.side();
    if phases.len() > side as usize {
        drop(square);
        return Ok(None);
    }
    match Workplace::make(alloc, side, phases.len() as u32) {
        Ok(workplace) => { guessed_outcome_in(alloc, m, inst, square, workplace, phases, columns) }
        Err(error) => {
            drop(square);
            Err(error)
        }
    }
}
