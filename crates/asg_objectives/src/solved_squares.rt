//! What the square of an instance comes to: a choice with its phases, or a Hall set.

ghost use Rattle.std.specs.Prelude.{◌≡◌, ℕ, ◌<◌, length, map, slice_index, IfOk, IfSome};
ghost use Rattle.asg_match.specs.Deficient.{IsDeficient};
ghost use Rattle.asg_match.specs.HallSets.{GivesHallSets};
ghost use Rattle.asg_match.specs.Matching.{Matches, IsMatched, IsPerfect};
ghost use Rattle.asg_pool.specs.Forest.{IsLive, phases_to};
ghost use Rattle.asg_proof.specs.Phases.{worded};
ghost use Rattle.asg_proof.specs.Steps.{HasValues};
ghost use Rattle.asg_square.specs.Cells.{IsPresent};
ghost use Rattle.asg_square.specs.Grid.{Grid, cell_at, HasLabelsOf};
ghost use Rattle.asg_proof.specs.PromisedProofs.{GivesFewPhases};
ghost use Rattle.asg_admit.specs.PhaseValues.{AreOfValues};
ghost use Rattle.asg_objectives.specs.SolvedSquares.{IsChoiceBy, IsBestBy};
ghost use Rattle.asg_objectives.specs.SolvedSquares.{IsNothingBy, IsSquareOutcome};
ghost use Rattle.asg_objectives.specs.SolvedFrom.{IsSolvedFrom};
ghost use Rattle.asg_algebra.specs.Workplaces.{IsFresh};

use crate::NoMemory;
use crate::present_cells::PresentCells;
use crate::trail_phases::trail_phases;
use asg_admit::Reduced;
use asg_algebra::laws::fold_law;
use asg_algebra::{Solved, SolvedSquare, Workplace, solve_square};
use asg_kept::Keeps;
use asg_match::{Matching, Pairing, hall_list, perfect_or_hall};
use asg_model::{Choice, Instance};
use asg_order::Written;
use asg_pool::{Region, Trail};
use asg_proof::{Ids, Outcome, Proof};
use asg_square::Square;
use asg_square::laws::{grid_law, square_law};
use std::alloc::Global;

// The column of a row that has one.
fn column_in(matching: &Matching, r: u32) -> u32
    requires below { r < length matching.now }
    requires matched { IsMatched matching.now r }
    ensures { Matches matching.now r result }
{
    match matching.column_of(r) {
        Some(column) => column,
        None => unreachable!(),
    }
}

// The columns of the rows, all of which have one.
fn columns_of(alloc: Global, matching: &Matching) -> Result<Vec<u32>, NoMemory>
    requires { (r : ℕ) → r < length matching.now → IsMatched matching.now r }
    ensures count { IfOk result (λ columns. length columns.items ≡ length matching.now) }
    ensures columns { IfOk result (λ columns. (r : ℕ) → r < length matching.now
        → Matches matching.now r (slice_index columns.items r)) }
{
    let mut columns = Vec::with_capacity(alloc, matching.side() as usize)?;
    for r in 0..matching.side() {
        columns.push(column_in(matching, r))?;
    }
    Ok(columns)
}

// The choice of a perfect assignment by present cells of a square, which is let go of.
fn choice_by<V: Copy>(
    alloc: Global,
    square: Square<V>,
    matching: &Matching,
) -> Result<Choice, NoMemory>
    requires { IsPerfect (IsPresent (cell_at square)) square.side matching.now }
    ensures { IfOk result (IsChoiceBy square matching.now) }
{
    let _side = matching.side();
    let columns = columns_of(alloc, matching)?;
    square.choice_of(alloc, columns.as_slice())
}

// The best choice and the phases that led to it. The square is let go of before they are written,
// and their marks are moved out of the region.
fn best_by<M: Written>(
    alloc: Global,
    m: &M,
    square: Square<M::Value>,
    matching: &Matching,
    region: Region<M::Value>,
    last: Option<Trail>,
) -> Result<Outcome, NoMemory>
    requires perfect { IsPerfect (IsPresent (cell_at square)) square.side matching.now }
    requires live { IfSome last (IsLive region) }
    requires values { AreOfValues (M.monoid_of m.now) (phases_to region last) }
    ensures { let words = map (worded (M.word_of m.now)) (phases_to region last) in
        IfOk result (IsBestBy square matching.now words) }
{
    match choice_by(alloc, square, matching) {
        Ok(choice) => {
            let phases = trail_phases(alloc, m, region, last)?;
            let proof = Proof::Phases(phases);
            Ok(Outcome::Best { choice, proof })
        }
        Err(error) => {
            drop(region);
            Err(error)
        }
    }
}

/// The same of a workplace.
pub(crate) fn best<M: Written>(
    alloc: Global,
    m: &M,
    square: Square<M::Value>,
    workplace: Workplace<M::Value>,
    last: Option<Trail>,
) -> Result<Outcome, NoMemory>
    requires perfect { IsPerfect (IsPresent (cell_at square)) square.side workplace.matching }
    requires live { IfSome last (IsLive workplace.region) }
    requires values { AreOfValues (M.monoid_of m.now) (phases_to workplace.region last) }
    ensures { let words = map (worded (M.word_of m.now)) (phases_to workplace.region last) in
        IfOk result (IsBestBy square workplace.matching words) }
{
    let Workplace {
        matching,
        bench,
        region,
    } = workplace;
    drop(bench);
    let outcome = best_by(alloc, m, square, &matching, region, last);
    drop(matching);
    outcome
}

// The Hall set of rows that have fewer present cells than they are.
fn nothing<V: Copy>(
    alloc: Global,
    inst: &Instance,
    square: &Square<V>,
    rows: &[u32],
) -> Result<Outcome, NoMemory>
    requires labels { HasLabelsOf inst.now square.now }
    requires short { IsDeficient (IsPresent (cell_at square.now)) square.now.side rows.now }
    ensures { IfOk result (IsNothingBy inst.now square.now) }
{
    let _side = square.side();
    let cells = PresentCells { square };
    let ids = hall_list(alloc, square, inst, &cells, rows)?;
    Ok(Outcome::Nothing {
        rows: Ids::from_vec(ids),
    })
}

/// The Hall set of rows that have fewer present cells than they are, where there are such rows.
pub(crate) fn shortage<V: Copy>(
    alloc: Global,
    inst: &Instance,
    square: &Square<V>,
) -> Result<Option<Outcome>, NoMemory>
    requires { HasLabelsOf inst.now square.now }
    ensures { IfOk result (λ found. IfSome found (IsNothingBy inst.now square.now)) }
{
    let side = square.side();
    let cells = PresentCells { square };
    match perfect_or_hall(alloc, side, &cells)? {
        Pairing::Perfect(_) => Ok(None),
        Pairing::Short(rows) => Ok(Some(nothing(alloc, inst, square, rows.as_slice())?)),
    }
}

// Solves a square in a workplace. It has the square from then on.
fn solve_in<M: Keeps>(
    alloc: Global,
    m: &M,
    square: Square<M::Value>,
    workplace: &mut Workplace<M::Value>,
) -> Result<SolvedSquare<M::Value>, NoMemory>
    requires values { HasValues (M.monoid_of m.now) square.side (cell_at square) }
    requires fresh { IsFresh square.side workplace.old }
    requires spare { workplace.old.region.spare ≡ square.side }
    ensures { IfOk result (λ found. IsSolvedFrom (M.monoid_of m.now) (M.difference m.now) square
        found workplace.new) }
{
    let reduced = Reduced {
        now: square,
        index: m.unit(),
    };
    solve_square(
        alloc,
        m,
        reduced,
        &mut workplace.matching,
        &mut workplace.bench,
        &mut workplace.region,
        None,
    )
}

/// The outcome of the square of an instance that was solved in a workplace.
pub(crate) fn outcome_of<M: Keeps>(
    alloc: Global,
    m: &M,
    inst: &Instance,
    found: SolvedSquare<M::Value>,
    workplace: Workplace<M::Value>,
) -> Result<Outcome, NoMemory>
    requires { (Q : Grid M.Value) × HasLabelsOf inst.now Q
        × IsSolvedFrom (M.monoid_of m.now) (M.difference m.now) Q found workplace }
    ensures outcome { (Q : Grid M.Value)
        → IsSolvedFrom (M.monoid_of m.now) (M.difference m.now) Q found workplace
        → IfOk result (IsSquareOutcome (M.monoid_of m.now) (M.difference m.now) (M.word_of m.now)
        inst.now Q) }
    ensures phases { (Q : Grid M.Value)
        → IsSolvedFrom (M.monoid_of m.now) (M.difference m.now) Q found workplace
        → IfOk result (GivesFewPhases Q.side) }
{
    fold_law(m);
    square_law::<M::Value>();
    grid_law::<M::Value>();
    let _rows = inst.rows();
    let SolvedSquare { reduced, ended } = found;
    match ended {
        Solved::Perfect(last) => best(alloc, m, reduced.now, workplace, last),
        Solved::Short(_) => {
            let outcome = nothing(alloc, inst, &reduced.now, workplace.bench.violator());
            drop(reduced);
            drop(workplace);
            outcome
        }
    }
}

// The outcome of the square of an instance that is solved in a workplace.
fn outcome_in<M: Keeps>(
    alloc: Global,
    m: &M,
    inst: &Instance,
    square: Square<M::Value>,
    workplace: Workplace<M::Value>,
) -> Result<Outcome, NoMemory>
    requires labels { HasLabelsOf inst.now square }
    requires values { HasValues (M.monoid_of m.now) square.side (cell_at square) }
    requires fresh { IsFresh square.side workplace }
    requires spare { workplace.region.spare ≡ square.side }
    ensures outcome { IfOk result (IsSquareOutcome (M.monoid_of m.now) (M.difference m.now)
        (M.word_of m.now) inst.now square) }
    ensures phases { IfOk result (GivesFewPhases square.side) }
{
    let mut workplace = workplace;
    match solve_in(alloc, m, square, &mut workplace) {
        Ok(found) => outcome_of(alloc, m, inst, found, workplace),
        Err(error) => {
            drop(workplace);
            Err(error)
        }
    }
}

/// Solves the square of an instance, whose present cells are values and whose free cells are units:
/// a valid choice with phases that prove its fold, or a Hall set of the whole instance. Whether
/// some rows have too few present cells is told first. The error is want of memory.
pub(crate) fn outcome<M: Keeps>(
    alloc: Global,
    m: &M,
    inst: &Instance,
    square: Square<M::Value>,
) -> Result<Outcome, NoMemory>
    requires labels { HasLabelsOf inst.now square }
    requires values { HasValues (M.monoid_of m.now) square.side (cell_at square) }
    ensures outcome { IfOk result (IsSquareOutcome (M.monoid_of m.now) (M.difference m.now)
        (M.word_of m.now) inst.now square) }
    ensures phases { IfOk result (GivesFewPhases square.side) }
{
    square_law::<M::Value>();
    match shortage(alloc, inst, &square) {
        Ok(None) => {
            let side = square.side();
            match Workplace::make(alloc, side, side) {
                Ok(workplace) => outcome_in(alloc, m, inst, square, workplace),
                Err(error) => {
                    drop(square);
                    Err(error)
                }
            }
        }
        Ok(Some(found)) => {
            drop(square);
            Ok(found)
        }
        Err(error) => {
            drop(square);
            Err(error)
        }
    }
}
