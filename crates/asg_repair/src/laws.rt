//! Laws of sessions: each is the contract of a function that only calls laws.

ghost use Rattle.std.specs.Prelude.{◌≡◌, ◌<◌, ℕ, List, Option, length, slice_index};
ghost use Rattle.asg_admit.specs.declared.reduced.Reduced.{Reduced};
ghost use Rattle.asg_growth.specs.Growing.{IsAbsorbed};
ghost use Rattle.asg_match.specs.HallSets.{GivesHallSets};
ghost use Rattle.asg_match.specs.Matching.{IsPerfect, Matches};
ghost use Rattle.asg_model.specs.declared.bands.Band.TheVariants.{Whole};
ghost use Rattle.asg_model.specs.HallSet.{IsHall};
ghost use Rattle.asg_model.specs.ValidChoice.{IsValid};
ghost use Rattle.asg_order.specs.Bridge.{choice_fold};
ghost use Rattle.asg_proof.specs.PhaseProofs.{EntersValues, ProvesIndex};
ghost use Rattle.asg_square.specs.Grid.{cell_at, grid_choice, IsValidWithin};
ghost use Rattle.asg_kept_phases.specs.Led.{IsLed};
ghost use Rattle.asg_proof.specs.Phases.{PhaseOf};
ghost use Rattle.asg_model.specs.declared.parts.Cost.{Cost};
ghost use Rattle.asg_model.specs.Instances.{IsInstance};
ghost use Rattle.asg_model.specs.Problem.{Problem};
ghost use Rattle.asg_square.specs.Cells.{IsPresent};

use asg_algebra::laws::fold_law;
use asg_order::DMonoid;
use asg_square::laws::{grid_law, square_law};

/// The led law: where phases lead from the square of an instance to one in which a matching gives
/// every row an absorbed cell, the choice of its columns is valid and its fold is the index; and
/// rows that are deficient there give a Hall set of the whole instance.
pub fn led_law<M: DMonoid>(m: &M)
    ensures best { let monoid = M.monoid_of m.now in
        (enter : Cost → M.Value) (X : Problem) (phases : List (PhaseOf M.Value))
        (reduced : Reduced M.Value) (matching choice : List (Option ℕ)) (p : List ℕ)
        → IsInstance X
        → EntersValues monoid enter X
        → IsLed monoid (M.difference m.now) enter X phases reduced
        → IsPerfect (IsAbsorbed monoid reduced.index (cell_at reduced.now)) reduced.now.side
        matching
        → length p ≡ length matching
        → ((r : ℕ) → r < length matching → Matches matching r (slice_index p r))
        → choice ≡ grid_choice reduced.now p
        → IsValidWithin reduced.now choice
        → IsValid X choice × ProvesIndex monoid (M.difference m.now) enter X phases
        (choice_fold monoid enter X choice) }
    ensures nothing { let monoid = M.monoid_of m.now in
        (enter : Cost → M.Value) (X : Problem) (phases : List (PhaseOf M.Value))
        (reduced : Reduced M.Value) (ids : List ℕ)
        → IsLed monoid (M.difference m.now) enter X phases reduced
        → GivesHallSets X (IsPresent (cell_at reduced.now)) ids
        → IsHall X Whole ids }
{
    fold_law(m);
    square_law::<M::Value>();
    grid_law::<M::Value>();
}
