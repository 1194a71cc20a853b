//! Laws over the definitions: each is the contract of a function that only calls laws.

ghost use Rattle.std.specs.Prelude.{◌≡◌, ◌≤◌, ◌<◌, ◌∷◌, ℕ, suc, List, length, take, Option};
ghost use Rattle.std.specs.List.Sorted.{IsPermutation};
ghost use Rattle.asg_admit.specs.Admission.{AreCounted};
ghost use Rattle.asg_admit.specs.KeptCells.{AllowsPhases, AllowsOrStays, SomeRefuses, cell_after_phases};
ghost use Rattle.asg_proof.specs.KeptPhases.{AreKept};
ghost use Rattle.asg_proof.specs.Phases.{PhaseOf, AreAdmittedPhases, after_phases};
ghost use Rattle.asg_proof.specs.Steps.{HasValues, AreRaised};

use asg_order::DMonoid;
use asg_proof::laws::raised_law;

/// The exchange law: where the columns leave at the steps at which the rows enter, but that one row
/// enters at once in place of which one column never leaves, at each step the rows that have
/// entered and the columns that stay are one more than the side.
pub fn exchange_law()
    ensures { (enters leaves : List ℕ) (n : ℕ) → IsPermutation (0 ∷ leaves) (n ∷ enters)
        → AreCounted enters leaves n }
{}

/// The kept-phases law. Phases that are admitted from a square are admitted from another exactly as
/// far as its cells that differ allow them, one cell at a time; and a cell after phases is told by
/// itself. Where cells were raised or removed all are kept.
pub fn kept_law<M: DMonoid>(m: &M)
    ensures cells { let monoid = M.monoid_of m.now in
        (phases : List (PhaseOf M.Value)) (square : ℕ → ℕ → Option M.Value) (r k : ℕ)
        → after_phases monoid (M.difference m.now) phases square r k
        ≡ cell_after_phases monoid (M.difference m.now) phases r k (square r k) }
    ensures allowed { let monoid = M.monoid_of m.now in
        (side : ℕ) (phases : List (PhaseOf M.Value)) (square : ℕ → ℕ → Option M.Value) (r k : ℕ)
        → r < side → k < side
        → AreAdmittedPhases monoid (M.difference m.now) side phases square
        → AllowsPhases monoid (M.difference m.now) phases r k (square r k) }
    ensures admitted { let monoid = M.monoid_of m.now in
        (side : ℕ) (phases : List (PhaseOf M.Value)) (before after : ℕ → ℕ → Option M.Value)
        → AreAdmittedPhases monoid (M.difference m.now) side phases before
        → AllowsOrStays monoid (M.difference m.now) side phases before after
        → AreAdmittedPhases monoid (M.difference m.now) side phases after }
    ensures kept { let monoid = M.monoid_of m.now in
        (side : ℕ) (phases : List (PhaseOf M.Value)) (before after : ℕ → ℕ → Option M.Value) (n : ℕ)
        → AreAdmittedPhases monoid (M.difference m.now) side phases before
        → n ≤ length phases
        → AllowsOrStays monoid (M.difference m.now) side (take n phases) before after
        → (n < length phases
        → SomeRefuses monoid (M.difference m.now) side (take (suc n) phases) after)
        → AreKept monoid (M.difference m.now) side phases after n }
    ensures all { let monoid = M.monoid_of m.now in
        (side : ℕ) (phases : List (PhaseOf M.Value)) (before after : ℕ → ℕ → Option M.Value)
        → HasValues monoid side before
        → HasValues monoid side after
        → AreRaised monoid side before after
        → AreAdmittedPhases monoid (M.difference m.now) side phases before
        → AreKept monoid (M.difference m.now) side phases after (length phases) }
    ensures one { let monoid = M.monoid_of m.now in
        (side : ℕ) (phases : List (PhaseOf M.Value)) (square : ℕ → ℕ → Option M.Value) (n i : ℕ)
        → AreKept monoid (M.difference m.now) side phases square n
        → AreKept monoid (M.difference m.now) side phases square i
        → i ≡ n }
{
    raised_law(m);
}
