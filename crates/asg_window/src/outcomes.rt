//! The outcome of the balanced objective: a best choice with its proof, or a Hall set.

ghost use Rattle.std.specs.Prelude.{◌≡◌, ◌<◌, ◌≤◌, pos, IfOk, IfErr, length};
ghost use Rattle.asg_match.specs.Deficient.{IsDeficient};
ghost use Rattle.asg_model.specs.declared.objectives.Objective.TheVariants.{Balanced};
ghost use Rattle.asg_model.specs.Limits.{most_side};
ghost use Rattle.asg_model.specs.Shapes.{square_side};
ghost use Rattle.asg_proof.specs.Outcomes.{IsOutcome};
ghost use Rattle.asg_proof.specs.Windows.{AreWindows, ProvesSpread};
ghost use Rattle.asg_square.specs.Grid.{IsSquareOf};
ghost use Rattle.asg_model.specs.DifferentCosts.{HasFewCosts, most_costs};
ghost use Rattle.asg_window.specs.Refusals.{IsRefusal};
ghost use Rattle.asg_window.specs.Bands.{IsWithin};
ghost use Rattle.asg_window.specs.Gaps.{IsLeast};
ghost use Rattle.asg_live_cells.specs.Grades.{free_grade, grade_of};
ghost use Rattle.asg_window.specs.Grades.{no_bound};
ghost use Rattle.asg_live_cells.specs.LiveCells.{AreEntries};
ghost use Rattle.asg_window.specs.DistinctGrades.{AreGradesOf};
ghost use Rattle.asg_proof.specs.PromisedProofs.{HasFewWindows};

use crate::NoMemory;
use crate::cells_within::CellsWithin;
use crate::distinct::distinct_grades;
use crate::gaps::{Least, Swept, sweep};
use crate::grades::NO_BOUND;
use crate::windows::{hall_ids, windows_of};
use asg_live_cells::{LiveCells, graded_square, in_order};
use asg_model::Instance;
use asg_proof::{Outcome, Proof, Window, Windows};
use asg_square::Square;
use asg_square::laws::{grid_law, square_law};
use std::alloc::Global;

/// The greatest number of different costs of live cells.
pub const MOST_COSTS: u32 = 20_000;

/// Why no outcome is given.
#[derive(Clone, Copy, PartialEq, Eq)]
pub enum BalancedRefusal {
    /// The live cells have so many different costs, more than 20,000.
    TooManyCosts(u32),
    /// There was not enough memory.
    NoMemory,
}

impl From<NoMemory> for BalancedRefusal {
    ghost use Rattle.std.specs.Prelude.{◌≡◌};
    ghost use Rattle.asg_window.specs.declared.outcomes.BalancedRefusal.TheVariants.{NoMemory};

    ghost from_gives = { λ _ refusal. refusal ≡ NoMemory };

    fn from(_: NoMemory) -> BalancedRefusal {
        BalancedRefusal::NoMemory
    }
}

// The windows of a least spread: none where it is 0.
fn needed_windows(
    alloc: Global,
    inst: &Instance,
    cells: &LiveCells<'_>,
    grades: &[u32],
    least: &Least,
) -> Result<Vec<Window>, NoMemory>
    requires square { IsSquareOf inst.now free_grade grade_of cells.now.square.now }
    requires entries { AreEntries cells.now.square.now cells.now.entries.now }
    requires grades { AreGradesOf cells.now.entries.now grades.now }
    requires least { IsLeast cells.now.square.now least.now }
    ensures kept { IfOk result (λ v. AreWindows v.items) }
    ensures proof { IfOk result (λ v. ProvesSpread inst.now (pos least.now.spread) v.items) }
    ensures few { IfOk result (λ v. length v.items ≤ length grades.now) }
{
    let _rows = inst.rows();
    if least.spread == 0 {
        return Ok(Vec::new(alloc));
    }
    let gaps = least.gaps.as_slice();
    let windows = windows_of(alloc, inst, cells.square, gaps, grades, least.spread)?;
    Ok(windows)
}

// The best choice of an assignment of the least spread, with its windows.
fn best(
    alloc: Global,
    inst: &Instance,
    cells: &LiveCells<'_>,
    grades: &[u32],
    least: &Least,
) -> Result<Outcome, NoMemory>
    requires square { IsSquareOf inst.now free_grade grade_of cells.now.square.now }
    requires entries { AreEntries cells.now.square.now cells.now.entries.now }
    requires grades { AreGradesOf cells.now.entries.now grades.now }
    requires least { IsLeast cells.now.square.now least.now }
    ensures outcome { IfOk result (IsOutcome Balanced inst.now) }
    ensures windows { IfOk result (HasFewWindows (length grades.now)) }
{
    square_law::<u32>();
    grid_law::<u32>();
    let _rows = inst.rows();
    let windows = needed_windows(alloc, inst, cells, grades, least)?;
    let choice = cells.square.choice_of(alloc, least.perm.as_slice())?;
    Ok(Outcome::Best {
        choice,
        proof: Proof::Windows(Windows::from_vec(windows)),
    })
}

// The Hall set of rows that are deficient in the whole square.
fn nothing(
    alloc: Global,
    inst: &Instance,
    square: &Square<u32>,
    rows: &[u32],
) -> Result<Outcome, NoMemory>
    requires square { IsSquareOf inst.now free_grade grade_of square.now }
    requires short { IsDeficient (IsWithin square.now 1 no_bound) square.now.side rows.now }
    ensures outcome { IfOk result (IsOutcome Balanced inst.now) }
    ensures windows { IfOk result (HasFewWindows 0) }
{
    let _rows = inst.rows();
    let cells = CellsWithin {
        square,
        low: 1,
        high: NO_BOUND,
    };
    let rows = hall_ids(alloc, inst, &cells, rows)?;
    Ok(Outcome::Nothing { rows })
}

// The outcome that a sweep shows.
fn outcome(
    alloc: Global,
    inst: &Instance,
    cells: &LiveCells<'_>,
    grades: &[u32],
) -> Result<Outcome, NoMemory>
    requires square { IsSquareOf inst.now free_grade grade_of cells.now.square.now }
    requires entries { AreEntries cells.now.square.now cells.now.entries.now }
    requires grades { AreGradesOf cells.now.entries.now grades.now }
    ensures outcome { IfOk result (IsOutcome Balanced inst.now) }
    ensures windows { IfOk result (HasFewWindows (length grades.now)) }
{
    match sweep(alloc, cells)? {
        Swept::Short(rows) => nothing(alloc, inst, cells.square, rows.as_slice()),
        Swept::Found(least) => best(alloc, inst, cells, grades, &least),
    }
}

// The outcome of a square's live cells, where they have few different costs.
fn graded_outcome(
    alloc: Global,
    inst: &Instance,
    cells: &LiveCells<'_>,
) -> Result<Outcome, BalancedRefusal>
    requires square { IsSquareOf inst.now free_grade grade_of cells.now.square.now }
    requires entries { AreEntries cells.now.square.now cells.now.entries.now }
    ensures outcome { IfOk result (IsOutcome Balanced inst.now) }
    ensures windows { IfOk result (HasFewWindows most_costs) }
    ensures few { IfOk result (λ _. HasFewCosts inst.now) }
    ensures refusal { IfErr result (IsRefusal inst.now) }
{
    let _rows = inst.rows();
    let grades = distinct_grades(alloc, cells.entries)?;
    if grades.len() > MOST_COSTS as usize {
        return Err(BalancedRefusal::TooManyCosts(grades.len() as u32));
    }
    Ok(outcome(alloc, inst, cells, grades.as_slice())?)
}

/// A best choice for the balanced objective, the least difference between the greatest and the
/// least chosen cost, with at most 20,000 windows that prove it: where the value d is above 0, each
/// cost v of a live cell has a window that holds the costs from v to v + d - 1 and whose rows are a
/// Hall set of the cells of its costs. Where no choice is valid, a Hall set of the whole instance.
/// The side of the instance's square is at most 2,000. The errors: the live cells have more than
/// 20,000 different costs, or want of memory. A band of costs moves over the cells in their order,
/// and keeps its matching (the method of two moving ends, [Martello et al. 1984]).
pub fn balanced(alloc: Global, inst: &Instance) -> Result<Outcome, BalancedRefusal>
    requires { square_side inst.now ≤ most_side }
    ensures outcome { IfOk result (IsOutcome Balanced inst.now) }
    ensures windows { IfOk result (HasFewWindows most_costs) }
    ensures few { IfOk result (λ _. HasFewCosts inst.now) }
    ensures refusal { IfErr result (IsRefusal inst.now) }
{
    let _rows = inst.rows();
    let square = graded_square(alloc, inst)?;
    let entries = in_order(alloc, &square, NO_BOUND)?;
    let cells = LiveCells {
        square: &square,
        limit: NO_BOUND,
        entries: entries.as_slice(),
    };
    graded_outcome(alloc, inst, &cells)
}
