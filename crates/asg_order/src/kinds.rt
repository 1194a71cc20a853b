//! Kinds: how the costs of an objective enter a monoid.

ghost use Rattle.std.specs.Prelude.{◌≡◌, ℕ};
ghost use Rattle.asg_model.specs.declared.objectives.Objective.{Objective};
ghost use Rattle.asg_model.specs.declared.parts.Cost.{Cost};
ghost use Rattle.asg_order.specs.Monoid.{IsValue};
ghost use Rattle.asg_order.specs.Entering.{MayEnter};

use crate::ordered::Ordered;
use crate::words::Written;
use asg_model::{Cost, Objective};

/// An algebraic objective with its monoid: each cost enters as a value, and of two valid choices
/// the one is better exactly where the product of its entered values is strictly less. This holds
/// over each instance whose live costs lie within the reach and aren't refused by the objective:
/// `capped` refuses a negative first part, `time-cost` a negative second part.
pub trait Kind {
    type M: Written;

    // The monoid.
    ghost monoid: { Self → Self.M };

    // The objective.
    ghost objective: { Self → Objective };

    // The reach: how far from 0 a part of a cost that enters may lie.
    ghost reach: { Self → ℕ };

    // The value as which a cost enters.
    ghost entered: { Self → Cost → Self.M.Value };

    /// The monoid.
    fn monoid(&self) -> &Self::M
        ensures { result.now ≡ monoid self.now };

    /// The objective.
    fn objective(&self) -> Objective
        ensures { result ≡ objective self.now };

    /// The value as which the cost enters. Each part of the cost lies within the reach, and the
    /// objective doesn't refuse the cost.
    fn enter(&self, cost: Cost) -> <Self::M as Ordered>::Value
        requires { MayEnter (objective self.now) (reach self.now) cost }
        ensures entered { result ≡ entered self.now cost }
        ensures is_value { IsValue (Self.M.monoid_of (monoid self.now)) result };

    ghost use Rattle.asg_order.specs.Bridge.{KeepsOrder, Bridges};
    ghost use Rattle.asg_order.specs.laws.ChosenCosts.{Bridges-from_KeepsOrder};

    // A cost that may enter does so as a value.
    ghost enters_value: { (k : Self) (cost : Cost) → MayEnter (objective k) (reach k) cost
        → IsValue (Self.M.monoid_of (monoid k)) (entered k cost) };

    // Entering keeps the order of values.
    ghost keeps_order: { (k : Self) →
        KeepsOrder (Self.M.monoid_of (monoid k)) (entered k) (objective k) (reach k) };

    // The bridge between better choices and lesser folds.
    ghost bridge: { (k : Self) →
        Bridges (Self.M.monoid_of (monoid k)) (entered k) (objective k) (reach k) } = { λ k.
            Bridges-from_KeepsOrder (Self.M.monoid_of (monoid k)) (entered k) (objective k)
            (reach k) (keeps_order k) };
}
