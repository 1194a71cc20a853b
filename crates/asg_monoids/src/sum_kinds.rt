//! The kind of the objectives whose costs enter sums.

ghost use Rattle.std.specs.Prelude.{◌≡◌, IsTrue};
ghost use Rattle.asg_model.specs.declared.objectives.Objective.{Objective};
ghost use Rattle.asg_monoids.specs.Entered.{is_sum_objective, top_of};
ghost use Rattle.std.specs.Prelude.{min, pos, false, int_lt, unsigned_abs};
ghost use Rattle.asg_model.specs.declared.objectives.Objective.TheVariants.{SumPair};
ghost use Rattle.asg_order.specs.Entering.{IsWithin};
ghost use Rattle.asg_monoids.specs.Entered.{cost_reach, sum_entered};

use crate::shifts::{shifted, turned};
use crate::sums::Bounded;
use asg_model::{Cost, Objective};
use asg_order::Kind;

/// The kind of `sum`, `sum-max`, `pair` and `capped`: each cost enters a bounded sum.
#[derive(Clone, Copy)]
pub struct SumKind {
    objective: Objective,
    monoid: Bounded,
    ghost is_sum: { IsTrue (is_sum_objective objective) },
    ghost stops: { monoid.top ≡ top_of objective },
}

impl SumKind {
    /// The kind of the objective, which is `sum`, `sum-max`, `pair` or `capped`. The sums stop at
    /// the cap, or at 2^120, which none of the others reaches.
    pub fn of(objective: Objective) -> SumKind
        requires { IsTrue (is_sum_objective objective) }
        ensures objective { ⟦<SumKind as Kind>⟧.objective result ≡ objective }
        ensures stops { (⟦<SumKind as Kind>⟧.monoid result).top ≡ top_of objective }
    {
        SumKind {
            objective,
            monoid: Bounded {
                top: top_of(objective),
            },
        }
    }
}

// Where the sums of the objective stop.
fn top_of(objective: Objective) -> u128
    ensures { result ≡ top_of objective }
{
    match objective {
        Objective::Capped(cap) => cap as u128,
        _ => 1 << 120,
    }
}

impl Kind for SumKind {
    ghost use Rattle.asg_monoids.specs.Entered.{cost_reach, sum_entered};
    ghost use Rattle.asg_monoids.specs.laws.SumOrders.{sums_keep_order_at, sums_enter_values_at};

    type M = Bounded;

    ghost monoid = { λ k. k.monoid };

    ghost objective = { λ k. k.objective };

    ghost reach = { λ _. cost_reach };

    ghost entered = { λ k. sum_entered k.objective };

    fn monoid(&self) -> &Bounded {
        &self.monoid
    }

    fn objective(&self) -> Objective {
        self.objective
    }

    fn enter(&self, cost: Cost) -> u128 {
        match self.objective {
            Objective::Sum => shifted(cost.a) as u128,
            Objective::SumMax => turned(cost.a) as u128,
            Objective::SumPair => paired(cost),
            Objective::Capped(cap) => capped(cost.a, cap),
            _ => unreachable!(),
        }
    }

    ghost enters_value = { λ k cost may. sums_enter_values_at k.objective k.monoid.top cost k.is_sum k.stops may };

    ghost keeps_order = { λ k. sums_keep_order_at k.objective k.monoid.top k.is_sum k.stops };
}

// Both parts in one number, of which the first decides.
fn paired(cost: Cost) -> u128
    requires { IsWithin cost_reach cost }
    ensures { result ≡ sum_entered SumPair cost }
{
    shifted(cost.a) as u128 * (1 << 42) + shifted(cost.b) as u128
}

// A part from 0 on, cut at the cap.
fn capped(part: i64, cap: u64) -> u128
    requires { int_lt part (pos 0) ≡ false }
    ensures { result ≡ min (unsigned_abs part) cap }
{
    (part as u128).min(cap as u128)
}
