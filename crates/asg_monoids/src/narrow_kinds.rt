//! The kind of `sum` and `sum-max` in 64 bits.

ghost use Rattle.std.specs.Prelude.{◌≡◌, IsTrue};
ghost use Rattle.asg_monoids.specs.NarrowObjectives.{is_narrow_objective};

use crate::{NarrowSums, narrow_entry};
use asg_model::{Cost, Objective};
use asg_order::Kind;

/// The kind of `sum` and `sum-max` in 64 bits: each cost enters a sum that stops at 2^62, which no
/// sum of an instance reaches. The numbers are those that enter the sums of
/// [`SumKind`](crate::SumKind).
#[derive(Clone, Copy)]
pub struct NarrowKind {
    objective: Objective,
    monoid: NarrowSums,
    ghost is_narrow: { IsTrue (is_narrow_objective objective) },
}

impl NarrowKind {
    /// The kind of the objective, which is `sum` or `sum-max`.
    pub fn of(objective: Objective) -> NarrowKind
        requires { IsTrue (is_narrow_objective objective) }
        ensures { ⟦<NarrowKind as Kind>⟧.objective result ≡ objective }
    {
        NarrowKind {
            objective,
            monoid: NarrowSums,
        }
    }
}

impl Kind for NarrowKind {
    ghost use Rattle.asg_monoids.specs.Entered.{cost_reach, sum_entered};
    ghost use Rattle.asg_monoids.specs.laws.NarrowOrders.{narrow_keep_order, narrow_enter_values};

    type M = NarrowSums;

    ghost monoid = { λ k. k.monoid };

    ghost objective = { λ k. k.objective };

    ghost reach = { λ _. cost_reach };

    ghost entered = { λ k. sum_entered k.objective };

    fn monoid(&self) -> &NarrowSums {
        &self.monoid
    }

    fn objective(&self) -> Objective {
        self.objective
    }

    fn enter(&self, cost: Cost) -> u64 {
        narrow_entry(self.objective, cost)
    }

    ghost enters_value = { λ k cost may. narrow_enter_values k.objective cost k.is_narrow may };

    ghost keeps_order = { λ k. narrow_keep_order k.objective k.is_narrow };
}
