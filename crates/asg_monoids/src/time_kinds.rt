//! The kind of `time-cost`.

ghost use Rattle.std.specs.Prelude.{◌≡◌, ◌^◌};

use crate::grades::Graded;
use crate::shifts::shifted;
use crate::sums::Bounded;
use asg_model::{Cost, Objective};
use asg_order::Kind;

/// The kind of `time-cost`: the first part of each cost enters as the grade, the second as an
/// amount.
#[derive(Clone, Copy)]
pub struct TimeKind {
    monoid: Graded<Bounded>,
    ghost stops: { monoid.inner.top ≡ 2 ^ 120 },
}

impl TimeKind {
    /// The kind of `time-cost`. The sums stop at 2^120, which none reaches.
    pub fn new() -> TimeKind
        ensures { (⟦<TimeKind as Kind>⟧.monoid result).inner.top ≡ 2 ^ 120 }
    {
        TimeKind {
            monoid: Graded {
                inner: Bounded { top: 1 << 120 },
            },
        }
    }
}

impl Kind for TimeKind {
    ghost use Rattle.asg_model.specs.declared.objectives.Objective.TheVariants.{TimeCost};
    ghost use Rattle.asg_monoids.specs.Entered.{cost_reach, time_entered};
    ghost use Rattle.asg_monoids.specs.laws.TimeOrders.{times_keep_order_at, times_enter_values_at};

    type M = Graded<Bounded>;

    ghost monoid = { λ k. k.monoid };

    ghost objective = { λ _. TimeCost };

    ghost reach = { λ _. cost_reach };

    ghost entered = { λ _. time_entered };

    fn monoid(&self) -> &Graded<Bounded> {
        &self.monoid
    }

    fn objective(&self) -> Objective {
        Objective::TimeCost
    }

    fn enter(&self, cost: Cost) -> (u64, u128) {
        (shifted(cost.a), cost.b as u128)
    }

    ghost enters_value = { λ k cost may. times_enter_values_at k.monoid.inner.top cost k.stops may };

    ghost keeps_order = { λ k. times_keep_order_at k.monoid.inner.top k.stops };
}
