//! Laws of phases of sums that stop at a top.

ghost use Rattle.std.specs.Prelude.{◌≡◌, ◌≤◌, ◌<◌, ℕ, List, [], ◌∷◌, ◌++◌, length, map, slice_index, Option};
ghost use Rattle.asg_model.specs.declared.parts.Cost.{Cost};
ghost use Rattle.asg_model.specs.Problem.{Problem};
ghost use Rattle.asg_model.specs.Shapes.{square_side};
ghost use Rattle.asg_monoids.specs.BoundedSums.{bounded_sums, bounded_difference};
ghost use Rattle.asg_order.specs.declared.words.Word.{Word};
ghost use Rattle.asg_order.specs.Bridge.{choice_fold};
ghost use Rattle.asg_proof.specs.FoldProofs.{ProvesFold};
ghost use Rattle.asg_proof.specs.KeptPhases.{AreKept};
ghost use Rattle.asg_proof.specs.KeptTops.{total_of, StaysBelow};
ghost use Rattle.asg_proof.specs.Phases.{PhaseOf, AreAdmittedPhases, cut_phase, index_of, worded};
ghost use Rattle.asg_square.specs.Cells.{square_cell};

use crate::laws::tops_law;

/// The lesser tops law: phases that are admitted in turn where sums stop at a top, and whose index
/// is at most a lesser top, are admitted where sums stop at the lesser one, from the same square;
/// and their index is the same. So phases of plain sums serve where sums stop.
pub fn lesser_tops_law()
    ensures admitted { (low high side : ℕ) (phases : List (PhaseOf ℕ)) (square : ℕ → ℕ → Option ℕ)
        → low < high
        → index_of (bounded_sums high) phases ≤ low
        → AreAdmittedPhases (bounded_sums high) bounded_difference side phases square
        → AreAdmittedPhases (bounded_sums low) bounded_difference side phases square }
    ensures index { (low high : ℕ) (phases : List (PhaseOf ℕ))
        → low < high
        → index_of (bounded_sums high) phases ≤ low
        → index_of (bounded_sums low) phases ≡ index_of (bounded_sums high) phases }
    ensures folds { (low high : ℕ) (word_of : ℕ → Word) (enter : Cost → ℕ) (X : Problem)
        (choice : List (Option ℕ)) (phases : List (PhaseOf ℕ))
        → low < high
        → index_of (bounded_sums high) phases ≤ low
        → index_of (bounded_sums high) phases ≡ choice_fold (bounded_sums low) enter X choice
        → AreAdmittedPhases (bounded_sums high) bounded_difference (square_side X) phases
        (square_cell X 0 enter)
        → ProvesFold (bounded_sums low) bounded_difference word_of enter X choice
        (map (worded word_of) phases) }
{}

/// The cut law: phases of sums that are admitted in turn are so where they end within one of them,
/// whose last step left may be lessened.
pub fn cut_law()
    ensures { (top side : ℕ) (before after : List (PhaseOf ℕ)) (phase : PhaseOf ℕ) (n c : ℕ)
        (square : ℕ → ℕ → Option ℕ)
        → n < length phase.steps
        → c ≤ slice_index phase.steps n
        → AreAdmittedPhases (bounded_sums top) bounded_difference side (before ++ phase ∷ after)
        square
        → AreAdmittedPhases (bounded_sums top) bounded_difference side
        (before ++ cut_phase phase n c ∷ []) square }
{}

/// The kept-tops law: where all steps together, and each cell with them, stay below the lesser of two
/// tops, as many phases are kept by the greater top as by the lesser one.
pub fn kept_tops_law()
    ensures { (low high side : ℕ) (phases : List (PhaseOf ℕ)) (square : ℕ → ℕ → Option ℕ) (n : ℕ)
        → low ≤ high
        → StaysBelow low square (total_of phases)
        → AreKept (bounded_sums low) bounded_difference side phases square n
        → AreKept (bounded_sums high) bounded_difference side phases square n }
{
    tops_law();
}
