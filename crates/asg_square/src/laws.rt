//! Laws of squares: each is the contract of a function that does nothing.

ghost use Rattle.std.specs.Prelude.{◌≡◌, ◌<◌, ◌↔◌, ℕ, Bool, Option, Some, List, is_some, slice_index, IfSome};
ghost use Rattle.asg_model.specs.declared.bands.Band.TheVariants.{Whole};
ghost use Rattle.asg_model.specs.declared.parts.Cost.{Cost};
ghost use Rattle.asg_model.specs.declared.parts.Place.TheVariants.{All as PlaceAll};
ghost use Rattle.asg_model.specs.HallSet.{IsHall};
ghost use Rattle.asg_model.specs.Problem.{Problem};
ghost use Rattle.asg_model.specs.Instances.{IsInstance};
ghost use Rattle.asg_model.specs.Live.{live_at};
ghost use Rattle.asg_model.specs.Values.{costs_of};
ghost use Rattle.asg_model.specs.ValidChoice.{IsValid};
ghost use Rattle.asg_order.specs.Monoid.{Monoid, IsValue, IsOrderedMonoid, fold_of};
ghost use Rattle.asg_order.specs.Bridge.{costs_fold};
ghost use Rattle.asg_model.specs.Shapes.{square_side};
ghost use Rattle.asg_square.specs.Cells.{square_cell, IsAssignment, IsSquareChoice, choice_of, assignment_values, entered_or_free};
ghost use Rattle.asg_square.specs.Grid.{Grid, IsSquareOf, IsWithinSquareOf, CoversSquareOf, IsPerm, grid_choice};
ghost use Rattle.asg_square.specs.HallColumns.{TellsCells, OutnumberColumns};
ghost use Rattle.asg_square.specs.Presence.{has_cell};

/// The square law: the choices of the perfect assignments of an instance's square are exactly the
/// valid choices. The values of such an assignment are, row by row, the entered costs of the rows
/// that choose and the free value of all others, so that both folds are equal where the free value
/// is the unit.
pub fn square_law<V: Copy>()
    ensures choices { (X : Problem) (free : V) (enter : Cost → V) (f : List (Option ℕ)) → IsInstance X →
        IsValid X f ↔ IsSquareChoice X free enter f }
    ensures values { (X : Problem) (free : V) (enter : Cost → V) (p : List ℕ) (r : ℕ) →
        IsAssignment (square_cell X free enter) (square_side X) p → r < square_side X →
        square_cell X free enter r (slice_index p r) ≡ Some (entered_or_free X free enter (choice_of X p) r) }
    ensures folds { (M : Monoid V) (X : Problem) (enter : Cost → V) (p : List ℕ) →
        IsOrderedMonoid M → IsInstance X → ((r c : ℕ) → IfSome (live_at X r c) (λ cost. IsValue M (enter cost))) →
        IsAssignment (square_cell X M.unit enter) (square_side X) p →
        fold_of M (assignment_values (square_cell X M.unit enter) (square_side X) p)
        ≡ costs_fold M enter (costs_of X (choice_of X p)) }
    ensures presence { (X : Problem) (free : V) (enter : Cost → V) (r c : ℕ) →
        is_some (square_cell X free enter r c) ≡ has_cell X Whole r c }
{}

/// A square that is that of an instance has cells exactly where the instance's has some, so its
/// perfect assignments are those of the definition, with the same choices.
pub fn grid_law<V: Copy>()
    ensures within { (X : Problem) (free : V) (enter : Cost → V) (Q : Grid V) →
        IsSquareOf X free enter Q → IsWithinSquareOf X Q }
    ensures covers { (X : Problem) (free : V) (enter : Cost → V) (Q : Grid V) →
        IsSquareOf X free enter Q → CoversSquareOf X Q }
    ensures perms { (X : Problem) (free : V) (enter : Cost → V) (Q : Grid V) (p : List ℕ) → IsSquareOf X free enter Q →
        IsPerm Q p ↔ IsAssignment (square_cell X free enter) (square_side X) p }
    ensures choice { (X : Problem) (Q : Grid V) (p : List ℕ) → IsInstance X →
        IsWithinSquareOf X Q → IsPerm Q p → grid_choice Q p ≡ choice_of X p }
{}

/// The law of Hall sets on the square: where all rows are placed, rows by id are a Hall set of the
/// instance exactly where they differ, are counted, and are more than the columns of its square in
/// which some of them have a cell. So a Hall set is told from the square alone.
pub fn square_hall_law()
    ensures { (X : Problem) (has : ℕ → ℕ → Bool) (ids : List ℕ) → X.place ≡ PlaceAll → TellsCells X has
        → IsHall X Whole ids ↔ OutnumberColumns X has ids }
{}
