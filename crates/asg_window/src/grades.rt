//! Bounds of grades.

ghost use Rattle.std.specs.Prelude.{◌≡◌, ◌-ℤ◌, pos, FitsSigned};
ghost use Rattle.std.specs.Int.{w64};
ghost use Rattle.asg_live_cells.specs.Grades.{cost_of};

use asg_model::limits::MOST_COST;

/// A number past each sum of two grades.
pub(crate) const NO_BOUND: u32 = u32::MAX;

/// The cost that is one less than that which a grade stands for.
pub(crate) fn cost_under(grade: u32) -> i64
    ensures value { result ≡ cost_of grade -ℤ pos 1 }
    ensures fits { FitsSigned w64 result }
{
    i64::from(grade) - (MOST_COST + 2)
}
