//! Laws over the definitions: each is the contract of a function that only calls laws.

ghost use Rattle.std.specs.Prelude.{◌≡◌, ◌↔◌, ◌≤◌, ◌<◌, ◌<ℤ◌, ℕ, ℤ, Bool, List, Option, count_by, sum_by};
ghost use Rattle.std.specs.Ordering.{int_eq};
ghost use Rattle.asg_model.specs.Better.{IsLessList};
ghost use Rattle.asg_model.specs.Descending.{descending};
ghost use Rattle.asg_model.specs.declared.objectives.Objective.{Objective};
ghost use Rattle.asg_model.specs.declared.parts.Cost.{Cost};
ghost use Rattle.asg_model.specs.Best.{IsBest};
ghost use Rattle.asg_model.specs.Counts.{placed};
ghost use Rattle.asg_model.specs.Instances.{IsInstance};
ghost use Rattle.asg_model.specs.Problem.{Problem};
ghost use Rattle.asg_model.specs.Refused.{PassesNegative};
ghost use Rattle.asg_model.specs.Shapes.{square_side};
ghost use Rattle.asg_model.specs.ValidChoice.{IsValid};
ghost use Rattle.asg_monoids.specs.BoundedSums.{bounded_sums, bounded_difference};
ghost use Rattle.asg_order.specs.declared.words.Word.{Word};
ghost use Rattle.asg_order.specs.Bridge.{choice_fold};
ghost use Rattle.asg_order.specs.Differences.{HasDifferences};
ghost use Rattle.asg_order.specs.Monoid.{IsLe, IsLess, IsOrderedMonoid, IsValue, Monoid};
ghost use Rattle.asg_proof.specs.declared.outcomes.Outcome.TheVariants.{Best, Nothing};
ghost use Rattle.asg_model.specs.declared.objectives.Objective.TheVariants.{Lex};
ghost use Rattle.asg_proof.specs.declared.levels.Level.{Level};
ghost use Rattle.asg_proof.specs.Levels.{ProvesLevels, AreLevels, AreProvedLevels, IsLeftAssignment};
ghost use Rattle.asg_proof.specs.declared.outcomes.Proof.{Proof};
ghost use Rattle.asg_proof.specs.FoldProofs.{ProvesFold};
ghost use Rattle.asg_proof.specs.Outcomes.{IsOutcome};
ghost use Rattle.asg_proof.specs.PhaseProofs.{ProvesIndex, EntersValues, IsRaised};
ghost use Rattle.asg_proof.specs.Phases.{PhaseOf, AreAdmittedPhases, after_phases, index_of};
ghost use Rattle.asg_proof.specs.Proves.{Proves};
ghost use Rattle.asg_proof.specs.Steps.{stepped, IsAdmittedStep, HasSide, HasValues, AreRaised, assignment_fold};
ghost use Rattle.asg_square.specs.Cells.{square_cell, IsAssignment};

mod grades;
mod sums;

use asg_order::DMonoid;
use asg_order::laws::differences;
use asg_square::laws::square_law;
use asg_values::laws::{
    bottleneck_law, bottleneck_max_law, descending_law, hall_law, infeasible_law, spread_law,
};
pub use grades::grade_law;
pub use sums::{cut_law, kept_tops_law, lesser_tops_law};

/// A valid choice of an instance that a proof proves is best, where the objective refuses no cost
/// of the instance: `capped` and `time-cost` refuse negative parts, the others nothing.
pub fn best_law()
    ensures { (objective : Objective) (X : Problem) (choice : List (Option ℕ)) (proof : Proof) →
        IsInstance X → PassesNegative objective X →
        IsValid X choice → Proves objective X choice proof → IsBest objective X choice }
{
    bottleneck_law();
    bottleneck_max_law();
    hall_law();
    spread_law();
    levels_law();
    square_law::<u64>();
    square_law::<(u64, u128)>();
}

/// An outcome tells the truth: its choice is best, where the objective refuses no cost of the
/// instance, or no choice is valid.
pub fn outcome_law()
    ensures best { (objective : Objective) (X : Problem) (choice : List (Option ℕ))
        (proof : Proof) → IsInstance X → PassesNegative objective X →
        IsOutcome objective X (Best choice proof) → IsBest objective X choice }
    ensures nothing { (objective : Objective) (X : Problem) (rows : List ℕ)
        (choice : List (Option ℕ)) →
        IsOutcome objective X (Nothing rows) → IsValid X choice → ⊥ }
{
    best_law();
    infeasible_law();
}

/// The step law: an admitted step by c takes c from the product of each perfect assignment of the
/// square, and leaves the same assignments, of values. It holds without cancellation.
pub fn step_law<M: DMonoid>(m: &M)
    ensures takes { let monoid = M.monoid_of m.now in
        (side : ℕ) (entered staying : ℕ → Bool) (c : M.Value) (square : ℕ → ℕ → Option M.Value)
        (p : List ℕ)
        → HasSide side square
        → HasValues monoid side square
        → IsAdmittedStep monoid side entered staying c square
        → IsAssignment square side p
        → assignment_fold monoid side square p
        ≡ monoid.product c (assignment_fold monoid side
        (stepped monoid (M.difference m.now) entered staying c square) p) }
    ensures assignments { let monoid = M.monoid_of m.now in
        (side : ℕ) (entered staying : ℕ → Bool) (c : M.Value) (square : ℕ → ℕ → Option M.Value)
        (p : List ℕ)
        → IsAssignment square side p
        ↔ IsAssignment (stepped monoid (M.difference m.now) entered staying c square) side p }
    ensures side { let monoid = M.monoid_of m.now in
        (side : ℕ) (entered staying : ℕ → Bool) (c : M.Value) (square : ℕ → ℕ → Option M.Value)
        → HasSide side square
        → HasSide side (stepped monoid (M.difference m.now) entered staying c square) }
    ensures values { let monoid = M.monoid_of m.now in
        (side : ℕ) (entered staying : ℕ → Bool) (c : M.Value) (square : ℕ → ℕ → Option M.Value)
        → IsValue monoid c
        → HasValues monoid side square
        → HasValues monoid side (stepped monoid (M.difference m.now) entered staying c square) }
{}

/// The phases law: admitted phases take their index from the product of each perfect assignment of
/// the square, so that the index is at most it, and leave the same assignments, of values.
pub fn phases_law<M: DMonoid>(m: &M)
    ensures takes { let monoid = M.monoid_of m.now in
        (side : ℕ) (phases : List (PhaseOf M.Value)) (square : ℕ → ℕ → Option M.Value) (p : List ℕ)
        → HasSide side square
        → HasValues monoid side square
        → AreAdmittedPhases monoid (M.difference m.now) side phases square
        → IsAssignment square side p
        → assignment_fold monoid side square p
        ≡ monoid.product (index_of monoid phases) (assignment_fold monoid side
        (after_phases monoid (M.difference m.now) phases square) p) }
    ensures bound { let monoid = M.monoid_of m.now in
        (side : ℕ) (phases : List (PhaseOf M.Value)) (square : ℕ → ℕ → Option M.Value) (p : List ℕ)
        → HasSide side square
        → HasValues monoid side square
        → AreAdmittedPhases monoid (M.difference m.now) side phases square
        → IsAssignment square side p
        → IsLe monoid (index_of monoid phases) (assignment_fold monoid side square p) }
    ensures index { let monoid = M.monoid_of m.now in
        (side : ℕ) (phases : List (PhaseOf M.Value)) (square : ℕ → ℕ → Option M.Value)
        → AreAdmittedPhases monoid (M.difference m.now) side phases square
        → IsValue monoid (index_of monoid phases) }
    ensures assignments { let monoid = M.monoid_of m.now in
        (side : ℕ) (phases : List (PhaseOf M.Value)) (square : ℕ → ℕ → Option M.Value) (p : List ℕ)
        → IsAssignment square side p
        ↔ IsAssignment (after_phases monoid (M.difference m.now) phases square) side p }
    ensures side { let monoid = M.monoid_of m.now in
        (side : ℕ) (phases : List (PhaseOf M.Value)) (square : ℕ → ℕ → Option M.Value)
        → HasSide side square
        → HasSide side (after_phases monoid (M.difference m.now) phases square) }
    ensures values { let monoid = M.monoid_of m.now in
        (side : ℕ) (phases : List (PhaseOf M.Value)) (square : ℕ → ℕ → Option M.Value)
        → HasValues monoid side square
        → AreAdmittedPhases monoid (M.difference m.now) side phases square
        → HasValues monoid side (after_phases monoid (M.difference m.now) phases square) }
{}

/// The index law: in each ordered monoid with differences the index that phases prove for an
/// instance is at most the product of the entered costs of each valid choice.
pub fn index_law<V: Copy>()
    ensures { (M : Monoid V) (difference : V → V → V) (enter : Cost → V) (X : Problem)
        (phases : List (PhaseOf V)) (z : V) (f : List (Option ℕ))
        → IsOrderedMonoid M
        → HasDifferences M difference
        → IsInstance X
        → EntersValues M enter X
        → ProvesIndex M difference enter X phases z
        → IsValid X f
        → IsLe M z (choice_fold M enter X f) }
{
    square_law::<V>();
}

/// The lower-bound law: the index that phases prove for an instance is at most the product of the
/// entered costs of each valid choice. So of a choice whose product is the index none has a lesser
/// one.
pub fn lower_bound_law<M: DMonoid>(m: &M)
    ensures bound { let monoid = M.monoid_of m.now in
        (enter : Cost → M.Value) (X : Problem) (phases : List (PhaseOf M.Value)) (z : M.Value)
        (f : List (Option ℕ))
        → IsInstance X
        → EntersValues monoid enter X
        → ProvesIndex monoid (M.difference m.now) enter X phases z
        → IsValid X f
        → IsLe monoid z (choice_fold monoid enter X f) }
    ensures least { let monoid = M.monoid_of m.now in
        (enter : Cost → M.Value) (X : Problem) (phases : List (PhaseOf M.Value))
        (f g : List (Option ℕ))
        → IsInstance X
        → EntersValues monoid enter X
        → ProvesIndex monoid (M.difference m.now) enter X phases (choice_fold monoid enter X f)
        → IsValid X g
        → IsLess monoid (choice_fold monoid enter X g) (choice_fold monoid enter X f)
        → ⊥ }
{
    square_law::<M::Value>();
}

/// The raised-cells law: phases that are admitted from a square are admitted from it also where
/// cells were raised or removed, and then the cells after them are raised or removed. So where live
/// cells of an instance were raised or removed, phases prove what they proved.
pub fn raised_law<M: DMonoid>(m: &M)
    ensures admitted { let monoid = M.monoid_of m.now in
        (side : ℕ) (phases : List (PhaseOf M.Value)) (before after : ℕ → ℕ → Option M.Value)
        → HasValues monoid side before
        → HasValues monoid side after
        → AreRaised monoid side before after
        → AreAdmittedPhases monoid (M.difference m.now) side phases before
        → AreAdmittedPhases monoid (M.difference m.now) side phases after }
    ensures raised { let monoid = M.monoid_of m.now in
        (side : ℕ) (phases : List (PhaseOf M.Value)) (before after : ℕ → ℕ → Option M.Value)
        → HasValues monoid side before
        → HasValues monoid side after
        → AreRaised monoid side before after
        → AreAdmittedPhases monoid (M.difference m.now) side phases before
        → AreRaised monoid side (after_phases monoid (M.difference m.now) phases before)
        (after_phases monoid (M.difference m.now) phases after) }
    ensures squares { let monoid = M.monoid_of m.now in
        (enter : Cost → M.Value) (X Y : Problem)
        → EntersValues monoid enter Y
        → IsRaised monoid enter X Y
        → AreRaised monoid (square_side X) (square_cell X monoid.unit enter)
        (square_cell Y monoid.unit enter) }
    ensures instances { let monoid = M.monoid_of m.now in
        (enter : Cost → M.Value) (X Y : Problem) (phases : List (PhaseOf M.Value)) (z : M.Value)
        → EntersValues monoid enter X
        → EntersValues monoid enter Y
        → IsRaised monoid enter X Y
        → ProvesIndex monoid (M.difference m.now) enter X phases z
        → ProvesIndex monoid (M.difference m.now) enter Y phases z }
{
    differences(m);
}

/// The tops law: phases that are admitted in turn where sums stop at a top are admitted where they
/// stop at a greater one, from the same square; and an index below the lesser top stays. So what
/// they prove of an instance by the lesser top they prove by the greater one.
pub fn tops_law()
    ensures admitted { (low high side : ℕ) (phases : List (PhaseOf ℕ)) (square : ℕ → ℕ → Option ℕ)
        → low ≤ high
        → AreAdmittedPhases (bounded_sums low) bounded_difference side phases square
        → AreAdmittedPhases (bounded_sums high) bounded_difference side phases square }
    ensures index { (low high : ℕ) (phases : List (PhaseOf ℕ))
        → low ≤ high
        → index_of (bounded_sums low) phases < low
        → index_of (bounded_sums high) phases ≡ index_of (bounded_sums low) phases }
    ensures folds { (low high : ℕ) (word_of : ℕ → Word) (enter : Cost → ℕ) (X : Problem)
        (choice : List (Option ℕ)) (words : List (PhaseOf Word))
        → low ≤ high
        → choice_fold (bounded_sums low) enter X choice < low
        → choice_fold (bounded_sums high) enter X choice
        ≡ choice_fold (bounded_sums low) enter X choice
        → ProvesFold (bounded_sums low) bounded_difference word_of enter X choice words
        → ProvesFold (bounded_sums high) bounded_difference word_of enter X choice words }
{}

/// The law of lesser lists: where one sorted list is less than another, it has fewer of some
/// number, and equally many of each greater one.
pub fn lesser_list_law()
    ensures { (xs ys : List ℤ) → IsLessList (descending xs) (descending ys)
        → (z : ℤ) × (count_by (λ x. int_eq x z) xs < count_by (λ x. int_eq x z) ys)
        × ((w : ℤ) → z <ℤ w → count_by (λ x. int_eq x w) xs ≡ count_by (λ x. int_eq x w) ys) }
{
    descending_law();
}

/// The levels law: a valid choice of an instance that levels prove is best for `lex`.
pub fn levels_law()
    ensures best { (X : Problem) (choice : List (Option ℕ)) (perm : List ℕ) (levels : List Level) →
        IsInstance X → IsValid X choice → ProvesLevels X choice perm levels → IsBest Lex X choice }
    ensures hold { (X : Problem) (perm : List ℕ) (levels : List Level) → IsInstance X →
        AreProvedLevels X levels → IsLeftAssignment X perm levels → AreLevels X perm levels }
    ensures total { (X : Problem) (perm : List ℕ) (levels : List Level) → IsInstance X →
        AreLevels X perm levels → IsLeftAssignment X perm levels
        → sum_by (λ level. level.count) levels ≡ placed X }
{
    descending_law();
    square_law::<u64>();
    square_law::<bool>();
}
