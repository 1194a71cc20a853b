//! Laws of steps by 1 and of levels.

ghost use Rattle.std.specs.Prelude.{◌≡◌, ◌≢◌, ◌<◌, ℕ, ℤ, Bool, Some, List, Option, length, All};
ghost use Rattle.std.specs.Prelude.{AllPairs, true};
ghost use Rattle.asg_match.specs.Augmentation.{IsStuck};
ghost use Rattle.asg_match.specs.Matching.{IsMatching};
ghost use Rattle.asg_model.specs.Problem.{Problem};
ghost use Rattle.asg_monoids.specs.BoundedSums.{bounded_difference};
ghost use Rattle.asg_proof.specs.declared.levels.Level.{Level};
ghost use Rattle.asg_proof.specs.Levels.{level_sums, left_last, without, is_after};
ghost use Rattle.asg_proof.specs.Phases.{IsAdmittedPhase};
ghost use Rattle.asg_bit_rows.specs.BitTable.{BitTable, has_bit};
ghost use Rattle.asg_proof.specs.Levels.{last_cost, left_so_far};
ghost use Rattle.asg_levels.specs.UnitSteps.{unit_phase};
ghost use Rattle.asg_lex.specs.UnitPhases.{SplitsTree};

/// The law of stuck trees: where the cells that are 0 are allowed, and a tree can't grow by allowed
/// cells, the step by 1 over its rows and all columns but theirs is admitted.
pub fn stuck_law()
    ensures { (marks : BitTable) (side : ℕ) (m : List (Option ℕ)) (root : ℕ)
        (rows enters leaves : List ℕ) (square : ℕ → ℕ → Option ℕ) → IsMatching m
        → length m ≡ side → IsStuck (λ r c. has_bit marks r c ≡ true) m root rows
        → All (λ r. r < side) rows
        → AllPairs ◌≢◌ rows → SplitsTree side m rows enters leaves
        → ((r c : ℕ) → square r c ≡ Some 0 → has_bit marks r c ≡ true)
        → IsAdmittedPhase level_sums bounded_difference side (unit_phase enters leaves) square }
{}

/// What is left in the end, by what is left after the last level.
pub fn last_law()
    ensures { (X : Problem) (before : Option ℤ) (left : ℕ → ℕ → Bool) (levels : List Level) →
        left_last X before left levels
        ≡ without X (is_after (last_cost before levels)) (left_so_far X before left levels) }
{}
