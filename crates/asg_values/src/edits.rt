//! Laws of edited instances: each is the contract of a function with an empty body.

ghost use Rattle.std.specs.Prelude.{◌≡◌, ◌≢◌, ℕ, None};
ghost use Rattle.asg_model.specs.declared.edits.Edit.{Edit};
ghost use Rattle.asg_model.specs.declared.edits.Edit.TheVariants.{DropColumn};
ghost use Rattle.asg_model.specs.declared.objectives.Objective.{Objective};
ghost use Rattle.asg_model.specs.Edits.{edited, refusal_of};
ghost use Rattle.asg_model.specs.Instances.{IsInstance};
ghost use Rattle.asg_model.specs.Problem.{Problem};
ghost use Rattle.asg_model.specs.Refused.{PassesNegative};
ghost use Rattle.asg_model.specs.Shapes.{square_side};

/// An edit keeps the side of the square and the place rule. Where it isn't refused, an objective
/// that refused no live cost of the instance refuses none after it, and if it closes a column, that
/// was open.
pub fn edited_law()
    ensures side { (X : Problem) (edit : Edit) → square_side (edited X edit) ≡ square_side X }
    ensures place { (X : Problem) (edit : Edit) → (edited X edit).place ≡ X.place }
    ensures passes { (objective : Objective) (X : Problem) (edit : Edit) →
        IsInstance X → PassesNegative objective X → refusal_of objective X edit ≡ None →
        PassesNegative objective (edited X edit) }
    ensures closes { (objective : Objective) (X : Problem) (col : ℕ) →
        refusal_of objective X (DropColumn col) ≡ None →
        (edited X (DropColumn col)).columns ≢ X.columns }
{}
