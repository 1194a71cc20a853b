//! Laws over the definitions: each is the contract of a function that at most calls laws.

ghost use Rattle.std.specs.Prelude.{◌≡◌, ◌↔◌, ℕ, ℤ};
ghost use Rattle.asg_model.specs.declared.objectives.Objective.{Objective};
ghost use Rattle.asg_model.specs.Instances.{IsInstance};
ghost use Rattle.asg_model.specs.Problem.{Problem};
ghost use Rattle.asg_model.specs.Refused.{PassesNegative};
ghost use Rattle.asg_doc.specs.declared.documents.Document.{Document};
ghost use Rattle.asg_check.specs.declared.document_forms.Form.{Form};
ghost use Rattle.asg_verdicts.specs.declared.verdicts.Reason.{Reason};
ghost use Rattle.asg_check.specs.Certifies.{Certifies};
ghost use Rattle.asg_check.specs.DocumentForm.{MayBeAsked};
ghost use Rattle.asg_check.specs.Reasons.{IsFirstReason, Stands};
ghost use Rattle.asg_verdicts.specs.Spots.{Spot};
ghost use Rattle.asg_check.specs.TrueClaim.{ClaimsTruly};

use asg_proof::laws::best_law;
use asg_rankings::laws::proved_ranking_law;
use asg_values::laws::{decision_law, infeasible_law};

/// The soundness law: a document that certifies claims what is true of the instance, where the
/// objective refuses no cost of it and the form may be asked.
pub fn soundness_law()
    ensures { (objective : Objective) (X : Problem) (form : Form) (document : Document) →
        IsInstance X → PassesNegative objective X → MayBeAsked form objective X →
        Certifies objective X form document → ClaimsTruly objective X document }
{
    infeasible_law();
    best_law();
    proved_ranking_law();
}

/// A document certifies exactly where no reason stands against it.
pub fn reasons_law()
    ensures { (objective : Objective) (X : Problem) (form : Form) (document : Document) →
        IsInstance X → Certifies objective X form document ↔
        ((reason : Reason) (spot : Spot) → ¬ Stands objective X form document reason spot) }
{
    decision_law();
}

/// The first reason against a document is one, with one number and one place. A document over an
/// instance has one exactly where it doesn't certify.
pub fn one_reason()
    ensures none { (objective : Objective) (X : Problem) (form : Form) (document : Document)
        (number : ℕ) (place : ℤ) → IsInstance X → Certifies objective X form document →
        ¬ IsFirstReason objective X form document number place }
    ensures some { (objective : Objective) (X : Problem) (form : Form) (document : Document) →
        IsInstance X → ¬ Certifies objective X form document →
        (number : ℕ) × (place : ℤ) × IsFirstReason objective X form document number place }
    ensures one { (objective : Objective) (X : Problem) (form : Form) (document : Document)
        (number other : ℕ) (place elsewhere : ℤ) →
        IsFirstReason objective X form document number place →
        IsFirstReason objective X form document other elsewhere →
        (number ≡ other) × (place ≡ elsewhere) }
{
    decision_law();
}
