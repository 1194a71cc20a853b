//! The law of dual variables: the contract of a function that does nothing.

ghost use Rattle.std.specs.Prelude.{◌≡◌, ◌≤◌, ◌+◌, ℕ, IsTrue, List, Option, length, sum};
ghost use Rattle.asg_model.specs.declared.objectives.Objective.{Objective};
ghost use Rattle.asg_model.specs.Best.{IsBest};
ghost use Rattle.asg_model.specs.Instances.{IsInstance};
ghost use Rattle.asg_model.specs.Problem.{Problem};
ghost use Rattle.asg_model.specs.ValidChoice.{IsValid};
ghost use Rattle.asg_monoids.specs.NarrowObjectives.{is_narrow_objective};
ghost use Rattle.asg_sum_edits.specs.SumDuals.{AreAbove, IsOneToOne, chosen_sum};

/// Where no live cost with its column's rise is less than its row's fall, a valid choice of a
/// one-to-one instance that comes to no more than the falls without the rises is best.
pub fn least_law()
    ensures { (objective : Objective) (X : Problem) (falls rises : List ℕ) (f : List (Option ℕ)) →
        IsTrue (is_narrow_objective objective) → IsInstance X → IsOneToOne X →
        length falls ≡ length X.rows → AreAbove objective X falls rises → IsValid X f →
        chosen_sum objective X f + sum rises ≤ sum falls → IsBest objective X f }
{}
