//! The costs of `sum` and `sum-max` as numbers of 64 bits.

ghost use Rattle.std.specs.Prelude.{◌≡◌, IsTrue};
ghost use Rattle.asg_monoids.specs.Entered.{cost_reach, sum_entered};
ghost use Rattle.asg_monoids.specs.NarrowObjectives.{is_narrow_objective};
ghost use Rattle.asg_order.specs.Entering.{MayEnter};

use crate::laws::narrow_sums;
use crate::sum_kinds::SumKind;
use asg_model::{Cost, Objective};
use asg_order::Kind;

/// The number as which a cost enters for `sum` or `sum-max`, in 64 bits.
pub fn narrow_entry(objective: Objective, cost: Cost) -> u64
    requires objective { IsTrue (is_narrow_objective objective) }
    requires may { MayEnter objective cost_reach cost }
    ensures { result ≡ sum_entered objective cost }
{
    narrow_sums();
    SumKind::of(objective).enter(cost) as u64
}
