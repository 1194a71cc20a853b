//! Laws of Hall sets, values and choices: each is the contract of a function that does nothing.

ghost use Rattle.std.specs.Prelude.{◌≡◌, ◌≢◌, ◌+◌, ◌<◌, ℕ, ℤ, IsTrue, Option, List, length, All, AllPairs, IsPermutation};
ghost use Rattle.asg_model.specs.Problem.{Problem};
ghost use Rattle.asg_model.specs.declared.bands.Band.{Band};
ghost use Rattle.asg_model.specs.declared.bands.Band.TheVariants.{Whole, Under, Over};
ghost use Rattle.asg_model.specs.declared.objectives.Objective.TheVariants.{Bottleneck, BottleneckMax, Balanced};
ghost use Rattle.asg_model.specs.declared.objectives.Value.TheVariants.{One};
ghost use Rattle.asg_model.specs.ValidChoice.{IsValid};
ghost use Rattle.asg_model.specs.Instances.{IsInstance};
ghost use Rattle.asg_model.specs.Spreads.{HasSpread};
ghost use Rattle.asg_model.specs.Counts.{slack};
ghost use Rattle.asg_model.specs.HallSet.{reached_capacity, is_counted_id, IsHall, LiesIn};
ghost use Rattle.asg_model.specs.Values.{choice_value};
ghost use Rattle.asg_model.specs.Better.{IsBetter};
ghost use Rattle.asg_model.specs.Best.{IsBest};
ghost use Rattle.asg_model.specs.Descending.{descending, IsDescending};

/// The law of sorted lists: `descending` rearranges the numbers of a list so that none is above one
/// that stands before it, and no other rearrangement does.
pub fn descending_law()
    ensures rearranged { (xs : List ℤ) → IsPermutation xs (descending xs) }
    ensures down { (xs : List ℤ) → IsDescending (descending xs) }
    ensures only { (xs ys : List ℤ) → IsPermutation xs ys → IsDescending ys → ys ≡ descending xs }
{}

/// Whether a choice is valid, and whether rows are a Hall set under a band, is decided: each holds
/// or it doesn't.
pub fn decision_law()
    ensures valid { (X : Problem) (f : List (Option ℕ)) → Dec (IsValid X f) }
    ensures hall { (X : Problem) (band : Band) (ids : List ℕ) → Dec (IsHall X band ids) }
{}

/// The law of Hall sets of rows: different counted rows are a Hall set where they are more than the
/// columns which they reach can hold and as many rows as may stay out; and the rows of a Hall set
/// are counted and different.
pub fn hall_rows_law()
    ensures made { (X : Problem) (band : Band) (ids : List ℕ) →
        AllPairs ◌≢◌ ids → All (λ id. IsTrue (is_counted_id X id)) ids →
        reached_capacity X band ids + slack X < length ids → IsHall X band ids }
    ensures different { (X : Problem) (band : Band) (ids : List ℕ) →
        IsHall X band ids → AllPairs ◌≢◌ ids }
    ensures counted { (X : Problem) (band : Band) (ids : List ℕ) →
        IsHall X band ids → All (λ id. IsTrue (is_counted_id X id)) ids }
    ensures short { (X : Problem) (band : Band) (ids : List ℕ) →
        IsHall X band ids → reached_capacity X band ids + slack X < length ids }
{}

/// The Hall law: an instance with a Hall set under a band has no valid choice whose cells all lie
/// in the band ([Hall 1935]; also where rows stay out, [Ore 1955]).
pub fn hall_law()
    ensures { (X : Problem) (band : Band) (ids : List ℕ) (f : List (Option ℕ)) →
        IsHall X band ids → IsValid X f → LiesIn X band f → ⊥ }
{}

/// An instance with a Hall set under no bound has no valid choice.
pub fn infeasible_law()
    ensures { (X : Problem) (ids : List ℕ) (f : List (Option ℕ)) →
        IsHall X Whole ids → IsValid X f → ⊥ }
{}

/// Where the cells below a cost have a Hall set, no valid choice has a better bottleneck value than
/// it.
pub fn bottleneck_law()
    ensures { (X : Problem) (b : ℤ) (ids : List ℕ) (f : List (Option ℕ)) →
        IsHall X (Under b) ids → IsValid X f →
        ¬ IsBetter Bottleneck (choice_value Bottleneck X f) (One b) }
{}

/// Where the cells above a cost have a Hall set, no valid choice has a better greatest bottleneck
/// value than it.
pub fn bottleneck_max_law()
    ensures { (X : Problem) (b : ℤ) (ids : List ℕ) (f : List (Option ℕ)) →
        IsHall X (Over b) ids → IsValid X f →
        ¬ IsBetter BottleneckMax (choice_value BottleneckMax X f) (One b) }
{}

/// A valid choice whose bottleneck value is `b` is best where the cells below `b` have a Hall set.
pub fn best_bottleneck_law()
    ensures { (X : Problem) (b : ℤ) (ids : List ℕ) (f : List (Option ℕ)) →
        IsValid X f → choice_value Bottleneck X f ≡ One b → IsHall X (Under b) ids →
        IsBest Bottleneck X f }
{}

/// A valid choice whose least cost is `b` is best for the greatest bottleneck where the cells above
/// `b` have a Hall set.
pub fn best_bottleneck_max_law()
    ensures { (X : Problem) (b : ℤ) (ids : List ℕ) (f : List (Option ℕ)) →
        IsValid X f → choice_value BottleneckMax X f ≡ One b → IsHall X (Over b) ids →
        IsBest BottleneckMax X f }
{}

/// The spread law: the costs of a valid choice of an instance lie between that of a cell which it
/// chooses and as much more as its value for `balanced`.
pub fn spread_law()
    ensures { (X : Problem) (f : List (Option ℕ)) (d : ℤ) →
        IsInstance X → IsValid X f → choice_value Balanced X f ≡ One d → HasSpread X f d }
{}
