//! Laws of edited squares.

ghost use Rattle.std.specs.Prelude.{◌≡◌, ℕ};
ghost use Rattle.asg_model.specs.declared.edits.Edit.{Edit};
ghost use Rattle.asg_model.specs.declared.parts.Cost.{Cost};
ghost use Rattle.asg_model.specs.Edits.{edited};
ghost use Rattle.asg_model.specs.Instances.{IsInstance};
ghost use Rattle.asg_model.specs.Problem.{Problem};
ghost use Rattle.asg_square.specs.Cells.{square_cell};
ghost use Rattle.asg_kept_phases.specs.Edited.{Touches, NamesPlaces};

/// The untouched-cells law: an edit changes cells of the square only where its row and the copies
/// of its column stand.
pub fn untouched_law()
    ensures { (X : Problem) (edit : Edit) (free : ℕ) (enter : Cost → ℕ) (r k : ℕ)
        → IsInstance X
        → NamesPlaces X edit
        → (Touches X edit r k → ⊥)
        → square_cell (edited X edit) free enter r k ≡ square_cell X free enter r k }
{}
