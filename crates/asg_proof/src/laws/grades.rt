//! The law of phases of one grade.

ghost use Rattle.std.specs.Prelude.{◌≡◌, ◌≤◌, ◌<◌, ◌^◌, ◌∷◌, ℕ, All, List, map, Option, Some};
ghost use Rattle.asg_model.specs.Problem.{Problem};
ghost use Rattle.asg_model.specs.Shapes.{square_side};
ghost use Rattle.asg_monoids.specs.BoundedSums.{bounded_sums, bounded_difference};
ghost use Rattle.asg_monoids.specs.Entered.{time_entered};
ghost use Rattle.asg_monoids.specs.Grades.{graded, graded_difference, graded_word};
ghost use Rattle.asg_order.specs.Bridge.{choice_fold};
ghost use Rattle.asg_proof.specs.FoldProofs.{ProvesTime};
ghost use Rattle.asg_proof.specs.GradeAmounts.{AreAmounts, IsRisePhase, HasPositiveSteps, graded_phase, of_grade, rise_phase};
ghost use Rattle.asg_proof.specs.Phases.{PhaseOf, AreAdmittedPhases, after_phases, index_of, worded};
ghost use Rattle.asg_square.specs.Cells.{square_cell};

/// The grade law: phases of one grade on a square of graded sums are phases of their amounts on the
/// plain square of the amounts at that grade, where a cell of a higher grade is absent and one of a
/// lower grade is 0. Each is admitted where the other is, phases of positive amounts, and then the
/// squares after them agree again. One step to the grade may come first; then the index is that of
/// the amounts, at the grade.
pub fn grade_law()
    ensures phases { (top g side : ℕ) (phases : List (PhaseOf ℕ)) (square : ℕ → ℕ → Option (ℕ × ℕ))
        (plain : ℕ → ℕ → Option ℕ)
        → AreAmounts g square plain
        → g < 2 ^ 64
        → All HasPositiveSteps phases
        → AreAdmittedPhases (bounded_sums top) bounded_difference side phases plain
        → AreAdmittedPhases (graded (bounded_sums top))
        (graded_difference (bounded_sums top) bounded_difference) side
        (map (graded_phase g) phases) square }
    ensures back { (top g side : ℕ) (phases : List (PhaseOf ℕ)) (square : ℕ → ℕ → Option (ℕ × ℕ))
        (plain : ℕ → ℕ → Option ℕ)
        → AreAmounts g square plain
        → AreAdmittedPhases (graded (bounded_sums top))
        (graded_difference (bounded_sums top) bounded_difference) side
        (map (graded_phase g) phases) square
        → AreAdmittedPhases (bounded_sums top) bounded_difference side phases plain }
    ensures amounts { (top g side : ℕ) (phases : List (PhaseOf ℕ))
        (square : ℕ → ℕ → Option (ℕ × ℕ)) (plain : ℕ → ℕ → Option ℕ)
        → AreAmounts g square plain
        → AreAdmittedPhases (bounded_sums top) bounded_difference side phases plain
        → AreAmounts g
        (after_phases (graded (bounded_sums top))
        (graded_difference (bounded_sums top) bounded_difference)
        (map (graded_phase g) phases) square)
        (after_phases (bounded_sums top) bounded_difference phases plain) }
    ensures joined { (top g side : ℕ) (enters leaves : List ℕ) (square : ℕ → ℕ → Option (ℕ × ℕ))
        (plain : ℕ → ℕ → Option ℕ) (phases : List (PhaseOf ℕ))
        → AreAmounts g square plain
        → ((r k y : ℕ) → plain r k ≡ Some y → y ≤ top)
        → g < 2 ^ 64
        → IsRisePhase g side enters leaves square
        → All HasPositiveSteps phases
        → AreAdmittedPhases (bounded_sums top) bounded_difference side phases plain
        → AreAdmittedPhases (graded (bounded_sums top))
        (graded_difference (bounded_sums top) bounded_difference) side
        (rise_phase g enters leaves ∷ map (graded_phase g) phases) square }
    ensures index { (top g : ℕ) (enters leaves : List ℕ) (phases : List (PhaseOf ℕ))
        → index_of (graded (bounded_sums top))
        (rise_phase g enters leaves ∷ map (graded_phase g) phases)
        ≡ of_grade g (index_of (bounded_sums top) phases) }
    ensures folds { (g : ℕ) (enters leaves : List ℕ) (X : Problem) (choice : List (Option ℕ))
        (phases : List (PhaseOf ℕ)) (plain : ℕ → ℕ → Option ℕ)
        → AreAmounts g (square_cell X (0, 0) time_entered) plain
        → ((r k y : ℕ) → plain r k ≡ Some y → y ≤ 2 ^ 120)
        → g < 2 ^ 64
        → IsRisePhase g (square_side X) enters leaves (square_cell X (0, 0) time_entered)
        → All HasPositiveSteps phases
        → AreAdmittedPhases (bounded_sums (2 ^ 120)) bounded_difference (square_side X) phases plain
        → of_grade g (index_of (bounded_sums (2 ^ 120)) phases)
        ≡ choice_fold (graded (bounded_sums (2 ^ 120))) time_entered X choice
        → ProvesTime X choice
        (map (worded graded_word) (rise_phase g enters leaves ∷ map (graded_phase g) phases)) }
{}
