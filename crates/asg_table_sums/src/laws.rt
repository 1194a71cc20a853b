//! The law of level choices.

ghost use Rattle.std.specs.Prelude.{◌≡◌, ℕ, List, Option, true};
ghost use Rattle.asg_model.specs.declared.objectives.Objective.{Objective};
ghost use Rattle.asg_model.specs.Best.{IsBest};
ghost use Rattle.asg_model.specs.Instances.{IsInstance};
ghost use Rattle.asg_model.specs.Problem.{Problem};
ghost use Rattle.asg_monoids.specs.NarrowObjectives.{is_narrow_objective};
ghost use Rattle.asg_table_sums.specs.Level.{IsLevel};

/// The law of level choices [Burkard, Dell'Amico and Martello 2009]: a choice that is level under
/// rises of columns is best for `sum` or `sum-max`.
pub fn level_law()
    ensures { (objective : Objective) (X : Problem) (f : List (Option ℕ)) (rises : List ℕ)
        (level : ℕ) → is_narrow_objective objective ≡ true → IsInstance X
        → IsLevel objective X f rises level
        → IsBest objective X f }
{}
