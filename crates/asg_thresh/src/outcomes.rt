//! The outcome of a bottleneck objective: a best choice with its proof, or a Hall set.

ghost use Rattle.std.specs.Prelude.{◌≡◌, ◌*◌, ◌≤◌, IfOk, length, unsigned_abs};
ghost use Rattle.asg_match.specs.HallSets.{GivesHallSets};
ghost use Rattle.asg_model.specs.Limits.{most_cost, most_side};
ghost use Rattle.asg_proof.specs.Outcomes.{IsOutcome};
ghost use Rattle.asg_cell_tables.specs.CellTable.{AreAllValuesOf};
ghost use Rattle.asg_square.specs.Grid.{HasLabelsOf};
ghost use Rattle.asg_model.specs.Shapes.{square_side};
ghost use Rattle.asg_thresh.specs.Grades.{grade_of, no_grade, IsGradedSquareOf, IsUnder};
ghost use Rattle.asg_model.specs.Objectives.{IsBottleneck};
ghost use Rattle.asg_proof.specs.PromisedProofs.{HasThresholdProof};
ghost use Rattle.asg_thresh.specs.Thresholds.{IsLeast};

use crate::NoMemory;
use crate::cells_under::CellsUnder;
use crate::grades::{FREE_GRADE, NO_GRADE, grade, grade_absent};
use crate::guesses::guessed_outcome;
use crate::thresholds::{Threshold, least_threshold};
use asg_match::hall_list;
use asg_model::{Cost, Instance, Objective};
use asg_proof::{Ids, Outcome, Proof};
use asg_square::Square;
use asg_square::laws::{grid_law, square_law};
use asg_values::laws::{bottleneck_law, bottleneck_max_law};
use std::alloc::Global;

// The ids of a Hall set of each instance of these rows, columns and place rule whose square has
// exactly the cells of a grade under the limit.
fn hall_ids(
    alloc: Global,
    inst: &Instance,
    square: &Square<u32>,
    grades: &[u32],
    found: &Threshold,
) -> Result<Ids, NoMemory>
    requires labels { HasLabelsOf inst.now square.now }
    requires few { square.now.side ≤ most_side }
    requires count { length grades.now ≡ square.now.side * square.now.side }
    requires least { IsLeast grades.now square.now.side found.now.limit
        found.now.perm.items found.now.rows.items }
    ensures { IfOk result (GivesHallSets inst.now
        (IsUnder grades.now square.now.side found.now.limit)) }
{
    let cells = CellsUnder {
        grades,
        side: square.side(),
        limit: found.limit,
    };
    let ids = hall_list(alloc, square, inst, &cells, found.rows.as_slice())?;
    Ok(Ids::from_vec(ids))
}

// The outcome that a least threshold shows.
fn outcome(
    alloc: Global,
    objective: Objective,
    inst: &Instance,
    square: &Square<u32>,
    grades: &[u32],
    found: &Threshold,
) -> Result<Outcome, NoMemory>
    requires objective { IsBottleneck objective }
    requires square { IsGradedSquareOf inst.now objective square.now }
    requires few { square.now.side ≤ most_side }
    requires count { length grades.now ≡ square.now.side * square.now.side }
    requires grades { AreAllValuesOf square.now.cells grades.now }
    requires limit { found.now.limit ≤ no_grade }
    requires least { IsLeast grades.now square.now.side found.now.limit
        found.now.perm.items found.now.rows.items }
    ensures outcome { IfOk result (IsOutcome objective inst.now) }
    ensures threshold { IfOk result HasThresholdProof }
{
    square_law::<u32>();
    grid_law::<u32>();
    bottleneck_law();
    bottleneck_max_law();
    let _rows = inst.rows();
    let rows = hall_ids(alloc, inst, square, grades, found)?;
    if found.limit == NO_GRADE {
        return Ok(Outcome::Nothing { rows });
    }
    let choice = square.choice_of(alloc, found.perm.as_slice())?;
    Ok(Outcome::Best {
        choice,
        proof: Proof::Below(rows),
    })
}

// The outcome that the square of an instance with the grades of all its cells shows.
fn graded_outcome(
    alloc: Global,
    objective: Objective,
    inst: &Instance,
    square: &Square<u32>,
) -> Result<Outcome, NoMemory>
    requires objective { IsBottleneck objective }
    requires square { IsGradedSquareOf inst.now objective square.now }
    requires side { square_side inst.now ≤ most_side }
    ensures outcome { IfOk result (IsOutcome objective inst.now) }
    ensures threshold { IfOk result HasThresholdProof }
{
    let _rows = inst.rows();
    let grades = square.values();
    let side = square.side();
    let found = least_threshold(alloc, grades, side)?;
    outcome(alloc, objective, inst, square, grades, &found)
}

// The square of an instance with the grades of all its cells, absent ones among them.
fn graded_square(
    alloc: Global,
    objective: Objective,
    inst: &Instance,
) -> Result<Square<u32>, NoMemory>
    requires { square_side inst.now ≤ most_side }
    ensures { IfOk result (IsGradedSquareOf inst.now objective) }
{
    let _rows = inst.rows();
    let enter = |cost: Cost| -> u32
        requires { unsigned_abs cost.a ≤ most_cost }
        ensures { result ≡ grade_of objective cost }
    { grade(objective, cost) };
    let mut square = Square::of(alloc, inst, FREE_GRADE, &enter)?;
    grade_absent(&mut square);
    Ok(square)
}

/// A best choice for a bottleneck objective [Fulkerson, Glicksberg and Gross 1953], with the rows
/// that prove it: a Hall set of the cells whose costs are strictly better than its value. Where no
/// choice is valid, a Hall set of the whole instance. The objective is `Bottleneck` or
/// `BottleneckMax`, and the side of the instance's square is at most 2,000. The error is want of
/// memory. The time grows with the cube of the side for each of a few dozen limits at most (the
/// threshold method, [Garfinkel 1971]).
pub fn bottleneck(alloc: Global, objective: Objective, inst: &Instance) -> Result<Outcome, NoMemory>
    requires objective { IsBottleneck objective }
    requires side { square_side inst.now ≤ most_side }
    ensures outcome { IfOk result (IsOutcome objective inst.now) }
    ensures threshold { IfOk result HasThresholdProof }
{
    if let Some(found) = guessed_outcome(alloc, objective, inst)? {
        return Ok(found);
    }
    let square = graded_square(alloc, objective, inst)?;
    graded_outcome(alloc, objective, inst, &square)
}
