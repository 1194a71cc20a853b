//! The kind of the objectives whose costs enter maxima.

ghost use Rattle.std.specs.Prelude.{◌≡◌, IsTrue};
ghost use Rattle.asg_model.specs.Objectives.{is_bottleneck};

use crate::maxima::Greatest;
use crate::shifts::{shifted, turned};
use asg_model::{Cost, Objective};
use asg_order::Kind;

/// The kind of `bottleneck` and `bottleneck-max`: each cost enters a maximum.
#[derive(Clone, Copy)]
pub struct PeakKind {
    objective: Objective,
    monoid: Greatest,
    ghost is_peak: { IsTrue (is_bottleneck objective) },
}

impl PeakKind {
    /// The kind of the objective, which is `bottleneck` or `bottleneck-max`.
    pub fn of(objective: Objective) -> PeakKind
        requires { IsTrue (is_bottleneck objective) }
        ensures { ⟦<PeakKind as Kind>⟧.objective result ≡ objective }
    {
        PeakKind {
            objective,
            monoid: Greatest,
        }
    }
}

impl Kind for PeakKind {
    ghost use Rattle.asg_monoids.specs.Entered.{cost_reach, peak_entered};
    ghost use Rattle.asg_monoids.specs.laws.PeakOrders.{peaks_keep_order, peaks_enter_values};

    type M = Greatest;

    ghost monoid = { λ k. k.monoid };

    ghost objective = { λ k. k.objective };

    ghost reach = { λ _. cost_reach };

    ghost entered = { λ k. peak_entered k.objective };

    fn monoid(&self) -> &Greatest {
        &self.monoid
    }

    fn objective(&self) -> Objective {
        self.objective
    }

    fn enter(&self, cost: Cost) -> u64 {
        match self.objective {
            Objective::Bottleneck => shifted(cost.a),
            Objective::BottleneckMax => turned(cost.a),
            _ => unreachable!(),
        }
    }

    ghost enters_value = { λ k cost may. peaks_enter_values k.objective cost k.is_peak may };

    ghost keeps_order = { λ k. peaks_keep_order k.objective k.is_peak };
}
