//! The law by which lists of phases are tested in one pass.

ghost use Rattle.std.specs.Prelude.{◌≡◌, ◌≤◌, ◌<◌, ℕ, List, Option};
ghost use Rattle.std.specs.Option.{option_map};
ghost use Rattle.asg_monoids.specs.BoundedSums.{bounded_sums, bounded_difference};
ghost use Rattle.asg_phase_totals.specs.PhaseTotals.{CountAndRaise, EndAtLeast0, StayBelow, cell_after_all, sum_of_steps};
ghost use Rattle.asg_proof.specs.Phases.{PhaseOf, AreAdmittedPhases, after_phases, index_of};

/// The one-pass law: phases of sums that stay below the top are admitted in turn from a square
/// where each counts right, no cell ends below 0 after all of them, and those after each raise no
/// row's dual variable by more than a column's. Then each cell is at least what it ends as all
/// along: what the rows still fall by is at least what the columns still rise by.
pub fn one_pass_law()
    ensures admitted { (top side : ℕ) (phases : List (PhaseOf ℕ)) (square : ℕ → ℕ → Option ℕ)
        → sum_of_steps phases ≤ top
        → StayBelow top side phases square
        → EndAtLeast0 side phases square
        → CountAndRaise side phases
        → AreAdmittedPhases (bounded_sums top) bounded_difference side phases square }
    ensures cells { (top side : ℕ) (phases : List (PhaseOf ℕ)) (square : ℕ → ℕ → Option ℕ)
        (r k : ℕ)
        → r < side
        → k < side
        → StayBelow top side phases square
        → EndAtLeast0 side phases square
        → CountAndRaise side phases
        → after_phases (bounded_sums top) bounded_difference phases square r k
        ≡ option_map (cell_after_all phases r k) (square r k) }
    ensures index { (top : ℕ) (phases : List (PhaseOf ℕ))
        → sum_of_steps phases ≤ top
        → index_of (bounded_sums top) phases ≡ sum_of_steps phases }
{}
