//! Grades: whole numbers in place of costs.

ghost use Rattle.std.specs.Prelude.{◌≡◌, ◌≤◌, IfOk, unsigned_abs, FitsSigned};
ghost use Rattle.std.specs.Int.{w64};
ghost use Rattle.asg_model.specs.Limits.{most_cost, most_side};
ghost use Rattle.asg_model.specs.Shapes.{square_side};
ghost use Rattle.asg_square.specs.Grid.{IsSquareOf};
ghost use Rattle.asg_live_cells.specs.Grades.{free_grade, grade_of, cost_of};

use crate::NoMemory;
use asg_model::limits::MOST_COST;
use asg_model::{Cost, Instance};
use asg_square::Square;
use std::alloc::Global;

// The grade of a free cell, under those of all costs.
const FREE_GRADE: u32 = 0;

/// The grade of a cost: 1 for the least that there may be, and one more for each step up.
pub fn grade(cost: Cost) -> u32
    requires { unsigned_abs cost.a ≤ most_cost }
    ensures { result ≡ grade_of cost }
{
    (cost.a + (MOST_COST + 1)) as u32
}

/// The cost that a grade stands for.
pub fn cost(grade: u32) -> i64
    ensures value { result ≡ cost_of grade }
    ensures fits { FitsSigned w64 result }
{
    i64::from(grade) - (MOST_COST + 1)
}

/// The square of an instance whose live costs enter as grades. The error is want of memory.
pub fn graded_square(alloc: Global, inst: &Instance) -> Result<Square<u32>, NoMemory>
    requires { square_side inst.now ≤ most_side }
    ensures { IfOk result (IsSquareOf inst.now free_grade grade_of) }
{
    let _rows = inst.rows();
    let enter = |cost: Cost| -> u32
        requires { unsigned_abs cost.a ≤ most_cost }
        ensures { result ≡ grade_of cost }
    { grade(cost) };
    Square::of(alloc, inst, FREE_GRADE, &enter)
}
