//! What follows from the engine's answers. A call does nothing: it tells its caller the law.

ghost use Rattle.std.specs.Prelude.{◌≡◌, ◌≢◌, ℕ, ◌<◌, Bool, true, List, Option, None, length};
ghost use Rattle.std.specs.Prelude.{slice_index, slice_set, if◌then◌else◌};
ghost use Rattle.asg_admit.specs.declared.reduced.Reduced.{Reduced};
ghost use Rattle.asg_match.specs.Matching.{Matches, IsPerfect};
ghost use Rattle.asg_proof.specs.Phases.{PhaseOf, AreAdmittedPhases, after_phases, index_of};
ghost use Rattle.asg_proof.specs.Steps.{HasSide, HasValues, assignment_fold};
ghost use Rattle.asg_square.specs.Cells.{IsAssignment};
ghost use Rattle.asg_square.specs.Masked.{keeps};
ghost use Rattle.asg_growth.specs.Growing.{IsAbsorbed};
ghost use Rattle.asg_kept.specs.Masked.{masked_reduced};
ghost use Rattle.asg_growth.specs.Rest.{IsRest, IsRestOf};

use asg_order::DMonoid;
use asg_proof::laws::phases_law;

/// The fold law: where admitted phases lead from a square to one in which a matching gives every
/// row a cell that their index absorbs, the matching's columns are a perfect assignment of the
/// square at first, and its product there is the index. By the phases law no assignment has a
/// lesser one.
pub fn fold_law<M: DMonoid>(m: &M)
    ensures { let monoid = M.monoid_of m.now in
        (side : ℕ) (phases : List (PhaseOf M.Value)) (square after : ℕ → ℕ → Option M.Value)
        (matching : List (Option ℕ)) (p : List ℕ)
        → HasSide side square
        → HasValues monoid side square
        → AreAdmittedPhases monoid (M.difference m.now) side phases square
        → ((r k : ℕ) → after r k ≡ after_phases monoid (M.difference m.now) phases square r k)
        → IsPerfect (IsAbsorbed monoid (index_of monoid phases) after) side matching
        → length p ≡ side
        → ((r : ℕ) → r < side → Matches matching r (slice_index p r))
        → IsAssignment square side p
        × (assignment_fold monoid side square p ≡ index_of monoid phases) }
{
    phases_law(m);
}

/// The law of branches: where a matching stands in absorbed cells, it does so without the column of
/// a row on the square without some cells, if its other cells are kept. `masked` says it of rows of
/// bits.
pub fn branch_law<M: DMonoid>(m: &M)
    ensures rest { let monoid = M.monoid_of m.now in
        (side : ℕ) (square : ℕ → ℕ → Option M.Value) (index : M.Value) (matching : List (Option ℕ))
        (root : ℕ) (keep : ℕ → ℕ → Bool)
        → root < length matching
        → IsRest monoid side square index matching
        → ((r k : ℕ) → r ≢ root → Matches matching r k → keep r k ≡ true)
        → IsRest monoid side (λ r k. if keep r k then square r k else None) index
        (slice_set matching root None) }
    ensures masked { let monoid = M.monoid_of m.now in
        (reduced : Reduced M.Value) (words : List ℕ) (matching : List (Option ℕ)) (root : ℕ)
        → root < length matching
        → IsRestOf monoid reduced matching
        → ((r k : ℕ) → r ≢ root → Matches matching r k
        → keeps reduced.now.side words r k ≡ true)
        → IsRestOf monoid (masked_reduced reduced words) (slice_set matching root None) }
{}
