//! The squares of instances whose live costs enter sums in 64 bits, for guesses.

ghost use Rattle.std.specs.Prelude.{◌≤◌, IfOk};
ghost use Rattle.asg_model.specs.Limits.{most_side};
ghost use Rattle.asg_model.specs.Shapes.{square_side};
ghost use Rattle.asg_square.specs.Grid.{HasLabelsOf, HasPresenceOf};

use crate::NoMemory;
use asg_model::limits::MOST_COST;
use asg_model::{Cost, Instance, Objective};
use asg_square::Square;
use std::alloc::Global;

/// The number as which the first part of a cost enters for `sum`, `sum-max` or `capped`. No clause
/// says so: what is guessed by it is tested.
#[inline]
pub fn entered(objective: Objective, part: i64) -> u64 {
    match objective {
        Objective::SumMax => MOST_COST.wrapping_sub(part).cast_unsigned(),
        Objective::Capped(cap) => part.unsigned_abs().min(cap),
        _ => MOST_COST.wrapping_add(part).cast_unsigned(),
    }
}

/// The square of an instance whose live costs enter for `sum`, `sum-max` or `capped`: it has the
/// labels and the present cells of that of the instance; no clause says what its cells hold. Each
/// objective has a loop of its own over the cells, in which it is known. The error is want of memory.
pub fn sum_square(
    alloc: Global,
    objective: Objective,
    inst: &Instance,
) -> Result<Square<u64>, NoMemory>
    requires { square_side inst.now ≤ most_side }
    ensures labels { IfOk result (HasLabelsOf inst.now) }
    ensures present { IfOk result (HasPresenceOf inst.now) }
{
    match objective {
        Objective::SumMax => {
            let enter = |cost: Cost| -> u64 { entered(Objective::SumMax, cost.a) };
            Square::of(alloc, inst, 0, &enter)
        }
        Objective::Capped(cap) => {
            let enter = |cost: Cost| -> u64 { entered(Objective::Capped(cap), cost.a) };
            Square::of(alloc, inst, 0, &enter)
        }
        _ => {
            let enter = |cost: Cost| -> u64 { entered(Objective::Sum, cost.a) };
            Square::of(alloc, inst, 0, &enter)
        }
    }
}
