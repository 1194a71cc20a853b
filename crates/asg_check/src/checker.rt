//! Whether a document certifies.

ghost use Rattle.std.specs.Prelude.{◌≡◌, ◌↔◌, ◌≤◌, ℕ, ℤ, IfOk};
ghost use Rattle.asg_model.specs.Limits.{most_side};
ghost use Rattle.asg_model.specs.Refused.{PassesNegative};
ghost use Rattle.asg_model.specs.Shapes.{square_side};
ghost use Rattle.asg_check.specs.Certifies.{Certifies};
ghost use Rattle.asg_check.specs.DocumentForm.{MayBeAsked};
ghost use Rattle.asg_check.specs.KnownPhases.{AreKnown, phases_of_claim};
ghost use Rattle.asg_verdicts.specs.Verdicts.{Tells, reasons_in_order};
ghost use Rattle.asg_check.specs.Reasons.{IsFirstReason, Stands};
ghost use Rattle.asg_check.specs.TrueClaim.{ClaimsTruly};

use crate::NoMemory;
use crate::claims::claim_verdict;
use crate::document_forms::{Form, has_form};
use crate::laws::soundness_law;
use asg_doc::Document;
use asg_model::{Instance, Objective};
use asg_proof::WrittenPhase;
use asg_values::laws::decision_law;
use asg_verdicts::{Reason, Verdict};
use std::alloc::Global;

/// Whether the document certifies for the objective, the instance and the form: `Yes` exactly where
/// it does, and then what it claims of the instance is true. Else `No`, with the number of the
/// first reason of these, tested in this order, each over all answers: 1, the document is of another
/// objective; 2, its command isn't that of the form, it has a ranking where none of its count is
/// asked, one best choice where a ranking is, or no answer or more than the count, or its proof is
/// of a kind that the objective doesn't take; 3, an answer's cells aren't those of a valid choice,
/// in the order of the rows; 4, an answer's value isn't that of its cells; 12, a ranked answer has
/// the cells of an earlier one; 13, a ranked answer is better than the one before it; 5, its rows
/// aren't a Hall set, of the instance, of the costs that are strictly better than the value, or of
/// the band of a window, which is tested also where the value is 0; 8, the value d is above 0, and
/// for the cost v of a live cell no window holds the costs from v to v + d - 1; 6, a phase is bad: a
/// list hasn't the length of the side of the instance's square, a step is no value of the
/// objective's monoid, or it isn't admitted after the phases before it; 7, the product of all steps
/// isn't that of the entered costs of the cells; 9, a level is none after those before it, or they
/// don't hold in all, and where the assignment isn't a list of different columns, that alone; 10, a
/// node isn't as it must be for its parent, its trail, its mark and the answers, or where none is,
/// some answer has no node; 11, a node is open whose trail's index is less than the product of the
/// last answer, or while fewer answers are listed than were asked for. The place is the number of
/// the first answer, from 1, for 3, 4, 12 and 13 of a ranking, that of the first bad phase for 6, of
/// the first window which is no Hall set for 5, the least such v for 8, the number of the first
/// level which is none for 9, of the first such node for 10 and 11, and 0 else.
///
/// The side of the square is at most 2,000, the objective refuses no cost of the instance
/// ([`asg_values::negative`]), and a ranking is asked for an algebraic objective alone, of an
/// instance that places all rows. The error is want of memory.
pub fn check(
    alloc: Global,
    objective: Objective,
    inst: &Instance,
    form: Form,
    doc: &Document,
) -> Result<Verdict, NoMemory>
    requires side { square_side inst.now ≤ most_side }
    requires passes { PassesNegative objective inst.now }
    requires asked { MayBeAsked form objective inst.now }
    ensures exact { IfOk result (λ verdict. (verdict ≡ Verdict.Yes) ↔
        Certifies objective inst.now form doc.now) }
    ensures reason { IfOk result (λ verdict. (number : ℕ) (place : ℤ) →
        (verdict ≡ Verdict.No number place) ↔
        IsFirstReason objective inst.now form doc.now number place) }
    ensures sound { IfOk result (λ verdict. verdict ≡ Verdict.Yes →
        ClaimsTruly objective inst.now doc.now) }
{
    let verdict = check_known(alloc, objective, inst, form, doc, &[])?;
    Ok(verdict)
}

/// The same, where phases are known to be admitted in turn from the square of the instance, as
/// those of the document before often are: of a document with the same phases the choice, the value
/// and the index alone are looked at. Where the document certifies, its own phases are known to be
/// so. The error is want of memory.
pub fn check_known(
    alloc: Global,
    objective: Objective,
    inst: &Instance,
    form: Form,
    doc: &Document,
    known: &[WrittenPhase],
) -> Result<Verdict, NoMemory>
    requires side { square_side inst.now ≤ most_side }
    requires passes { PassesNegative objective inst.now }
    requires asked { MayBeAsked form objective inst.now }
    requires known { AreKnown objective inst.now known.now }
    ensures exact { IfOk result (λ verdict. (verdict ≡ Verdict.Yes) ↔
        Certifies objective inst.now form doc.now) }
    ensures reason { IfOk result (λ verdict. (number : ℕ) (place : ℤ) →
        (verdict ≡ Verdict.No number place) ↔
        IsFirstReason objective inst.now form doc.now number place) }
    ensures sound { IfOk result (λ verdict. verdict ≡ Verdict.Yes →
        ClaimsTruly objective inst.now doc.now) }
    ensures known { IfOk result (λ verdict. verdict ≡ Verdict.Yes →
        AreKnown objective inst.now (phases_of_claim doc.now.claim)) }
{
    // What each instance keeps, on which the laws rest, is told by a reader.
    let _ = inst.rows();
    soundness_law();
    decision_law();
    let verdict = document_verdict(alloc, objective, inst, form, doc, known)?;
    Ok(verdict)
}

// The verdict on a document, by its reasons in order, where some phases are known to be admitted.
// The error is want of memory.
fn document_verdict(
    alloc: Global,
    objective: Objective,
    inst: &Instance,
    form: Form,
    doc: &Document,
    known: &[WrittenPhase],
) -> Result<Verdict, NoMemory>
    requires side { square_side inst.now ≤ most_side }
    requires passes { PassesNegative objective inst.now }
    requires asked { MayBeAsked form objective inst.now }
    requires known { AreKnown objective inst.now known.now }
    ensures { IfOk result (Tells (Stands objective inst.now form doc.now) reasons_in_order) }
{
    if doc.objective != objective {
        return Ok(Reason::OtherObjective.verdict());
    }
    if !has_form(objective, form, doc) {
        return Ok(Reason::WrongForm.verdict());
    }
    claim_verdict(alloc, objective, inst, form, &doc.claim, known)
}
