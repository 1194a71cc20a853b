//! Laws of bounds by dual variables: each is the contract of a function with an empty body.

ghost use Rattle.std.specs.Prelude.{◌≡◌, ◌≢◌, ◌⊎◌, ◌↔◌, ℕ, ◌+◌, ◌<◌, ◌≤◌, true, List, Option, length, map};
ghost use Rattle.asg_model.specs.Instances.{IsInstance};
ghost use Rattle.asg_model.specs.Problem.{Problem};
ghost use Rattle.asg_model.specs.ValidChoice.{IsValid};
ghost use Rattle.asg_model.specs.declared.objectives.Objective.{Objective};
ghost use Rattle.asg_rankings.specs.Ranked.{IsBetterChoice, IsRanking};
ghost use Rattle.asg_dual_bounds.specs.Plain.{IsPlain};
ghost use Rattle.asg_monoids.specs.NarrowObjectives.{is_narrow_objective};
ghost use Rattle.asg_dual_bounds.specs.Numbers.{choice_of, sum_at, IsAnswer};
ghost use Rattle.asg_dual_bounds.specs.Parts.{Part, whole_part, IsIn, child_part};
ghost use Rattle.asg_dual_bounds.specs.Bounds.{Duals, AreAbove, IsDualBound, IsRowGap, IsColumnGap};
ghost use Rattle.asg_dual_bounds.specs.SumRankings.{IsSumRanking};

/// The law of answers: those of a plain instance are its valid choices, and there are no others.
pub fn answers_law()
    ensures valid { (objective : Objective) (X : Problem) (columns : List ℕ)
        → IsPlain X → IsAnswer objective X columns → IsValid X (choice_of columns) }
    ensures every { (objective : Objective) (X : Problem) (f : List (Option ℕ))
        → IsPlain X → IsValid X f
        → (columns : List ℕ) × (f ≡ choice_of columns) × IsAnswer objective X columns }
{}

/// The law of dual bounds: where no cell that a part allows is less than the dual variables ask,
/// their bound is at most the sum of each answer in the part.
pub fn dual_bound_law()
    ensures { (objective : Objective) (X : Problem) (part : Part) (duals : Duals) (b : ℕ)
        (columns : List ℕ)
        → AreAbove objective X part duals
        → IsDualBound (length X.columns) (length X.rows) duals b
        → IsAnswer objective X columns → IsIn part columns → b ≤ sum_at objective X columns }
{}

/// The law of a child's bound: that of the part, and what the row's fall may be raised by and the
/// rise of its column lessened by.
pub fn child_bound_law()
    ensures { (objective : Objective) (X : Problem) (part : Part) (duals : Duals) (b : ℕ)
        (answer columns : List ℕ) (k row_gap column_gap : ℕ)
        → AreAbove objective X part duals
        → IsDualBound (length X.columns) (length X.rows) duals b
        → IsAnswer objective X answer → IsIn part answer → part.row ≤ k → k < length X.rows
        → IsRowGap objective X part answer k duals row_gap
        → IsColumnGap objective X answer k duals column_gap
        → IsAnswer objective X columns → IsIn (child_part part answer k) columns
        → b + row_gap + column_gap ≤ sum_at objective X columns }
{}

/// The law of splitting: the lists of columns in a part other than one of them are those of the
/// part's children by it, each in exactly one child.
pub fn split_law()
    ensures root { (columns : List ℕ) → IsIn whole_part columns }
    ensures within { (part : Part) (g f : List ℕ) (r : ℕ)
        → length f ≡ length g → IsIn part g → part.row ≤ r → r < length g
        → IsIn (child_part part g r) f → IsIn part f }
    ensures other { (part : Part) (g : List ℕ) (r : ℕ)
        → r < length g → ¬ IsIn (child_part part g r) g }
    ensures covered { (part : Part) (g f : List ℕ)
        → length f ≡ length g → IsIn part g → IsIn part f → f ≢ g
        → (r : ℕ) × (part.row ≤ r) × (r < length g) × IsIn (child_part part g r) f }
    ensures once { (part : Part) (g f : List ℕ) (r s : ℕ)
        → length f ≡ length g → r < length g → s < length g
        → IsIn (child_part part g r) f → IsIn (child_part part g s) f → r ≡ s }
{}

/// The law of sums: of two answers of a plain instance the better one has the lesser sum.
pub fn sums_law()
    ensures { (objective : Objective) (X : Problem) (f g : List ℕ)
        → is_narrow_objective objective ≡ true → IsInstance X
        → IsAnswer objective X f → IsAnswer objective X g
        → IsBetterChoice objective X (choice_of f) (choice_of g)
        ↔ (sum_at objective X f < sum_at objective X g) }
{}

/// The law of rankings by sums: answers whose sums ascend, and which no other answer's sum is less
/// than, are a ranking of the valid choices.
pub fn listed_law()
    ensures { (objective : Objective) (X : Problem) (count : ℕ) (answers : List (List ℕ))
        → is_narrow_objective objective ≡ true → IsInstance X → IsPlain X
        → IsSumRanking objective X count answers
        → IsRanking objective X count (map choice_of answers) }
{}
