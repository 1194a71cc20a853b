//! What is written of an outcome: a document, or in brief a line.

ghost use Rattle.std.specs.Prelude.{◌≤◌, IfOk, IfSome, IsTrue, false, true};
ghost use Rattle.asg_brief.specs.BriefLines.{IsBriefLine};
ghost use Rattle.asg_check.specs.DocumentForm.{MayBeAsked};
ghost use Rattle.asg_doc.specs.Words.{HasWord};
ghost use Rattle.asg_edits.specs.EditOutcomes.{IsChoiceAt};
ghost use Rattle.asg_model.specs.Best.{IsBest};
ghost use Rattle.asg_model.specs.declared.bands.Band.TheVariants.{Whole};
ghost use Rattle.asg_model.specs.HallSet.{IsHall};
ghost use Rattle.asg_model.specs.Limits.{most_side};
ghost use Rattle.asg_model.specs.Refused.{PassesNegative};
ghost use Rattle.asg_model.specs.Shapes.{square_side};
ghost use Rattle.asg_monoids.specs.NarrowObjectives.{is_narrow_objective};
ghost use Rattle.asg_proof.specs.Outcomes.{IsProvedBest};
ghost use Rattle.asg_answers.specs.Replies.{bytes_of};
ghost use Rattle.asg_answers.specs.SolverLimits.{SolverTakes};
ghost use Rattle.asg_answers.specs.Tellings.{TellsBest, TellsNone};
ghost use Rattle.asg_answers.specs.WrittenDocument.{IsPromisedProof};

use crate::documents::{best_document, none_document};
use crate::replies::Text;
use crate::sheets::Sheet;
use asg_brief::{BriefLine, best_line, none_line};
use asg_check::Form;
use asg_model::{Choice, Instance, NoMemory, Objective};
use asg_proof::laws::best_law;
use asg_proof::{Ids, Proof};
use asg_table_sums::best_by_table;
use asg_values::laws::infeasible_law;
use std::alloc::Global;

// The brief line of an instance by a best choice, or where there is none. The error is want of
// memory.
pub(crate) fn choice_line(
    alloc: Global,
    objective: Objective,
    inst: &Instance,
    choice: &Option<Choice>,
) -> Result<BriefLine, NoMemory>
    requires passes { PassesNegative objective inst.now }
    requires choice { IsChoiceAt objective inst.now choice.now }
    ensures { IfOk result (IsBriefLine objective inst.now) }
{
    best_law();
    infeasible_law();
    let _rows = inst.rows();
    match choice {
        Some(choice) => best_line(alloc, objective, inst, choice),
        None => none_line(alloc, objective, inst),
    }
}

// The brief line of a choice that is proved best. The error is want of memory.
fn brief_best(
    alloc: Global,
    objective: Objective,
    inst: &Instance,
    choice: &Choice,
    proof: &Proof,
) -> Result<Text, NoMemory>
    requires passes { PassesNegative objective inst.now }
    requires proved { IsProvedBest objective inst.now choice.now proof.now }
    ensures { IfOk result (λ text. TellsBest true objective inst.now (bytes_of text)) }
{
    best_law();
    let _rows = inst.rows();
    Ok(Text::Brief(best_line(alloc, objective, inst, choice)?))
}

// The document of a choice that is proved best. The error is want of memory.
fn whole_best(
    alloc: Global,
    objective: Objective,
    inst: &Instance,
    choice: &Choice,
    proof: Proof,
) -> Result<Text, NoMemory>
    requires word { HasWord objective }
    requires side { square_side inst.now ≤ most_side }
    requires passes { PassesNegative objective inst.now }
    requires proved { IsProvedBest objective inst.now choice.now proof }
    requires promised { IsPromisedProof objective inst.now proof }
    ensures { IfOk result (λ text. TellsBest false objective inst.now (bytes_of text)) }
{
    let document = best_document(alloc, objective, inst, choice, proof)?;
    let sheet = Sheet::of(alloc, document)?;
    Ok(Text::Sheet(sheet))
}

/// What tells a choice as best: its document, with its proof, which is one that is promised; or in
/// brief the line of its value, for which no document is made. The error is want of memory.
pub fn best_text(
    alloc: Global,
    brief: bool,
    objective: Objective,
    inst: &Instance,
    choice: &Choice,
    proof: Proof,
) -> Result<Text, NoMemory>
    requires word { HasWord objective }
    requires side { square_side inst.now ≤ most_side }
    requires passes { PassesNegative objective inst.now }
    requires proved { IsProvedBest objective inst.now choice.now proof }
    requires promised { IsPromisedProof objective inst.now proof }
    ensures { IfOk result (λ text. TellsBest brief objective inst.now (bytes_of text)) }
{
    if brief {
        brief_best(alloc, objective, inst, choice, &proof)
    } else {
        whole_best(alloc, objective, inst, choice, proof)
    }
}

// The brief line of a best choice. The error is want of memory.
fn chosen_text(
    alloc: Global,
    objective: Objective,
    inst: &Instance,
    choice: &Choice,
) -> Result<Option<Text>, NoMemory>
    requires { IsBest objective inst.now choice.now }
    ensures { IfOk result (λ found. IfSome found (λ text.
        TellsBest true objective inst.now (bytes_of text))) }
{
    Ok(Some(Text::Brief(best_line(alloc, objective, inst, choice)?)))
}

// The brief line of a best choice for `sum` or `sum-max`, where one is found by the costs as they
// stand. The error is want of memory.
fn sum_text(alloc: Global, objective: Objective, inst: &Instance) -> Result<Option<Text>, NoMemory>
    requires { IsTrue (is_narrow_objective objective) }
    ensures { IfOk result (λ found. IfSome found (λ text.
        TellsBest true objective inst.now (bytes_of text))) }
{
    match best_by_table(alloc, objective, inst)? {
        Some(choice) => chosen_text(alloc, objective, inst, &choice),
        None => Ok(None),
    }
}

/// The brief line of a best choice, where one is found by the costs as they stand, without phases:
/// for `sum` and `sum-max`, mostly where all rows are active, all columns open and no cell is
/// absent. `None` tells nothing. The error is want of memory.
pub fn table_text(
    alloc: Global,
    objective: Objective,
    inst: &Instance,
) -> Result<Option<Text>, NoMemory>
    ensures text { IfOk result (λ found. IfSome found (λ text.
        TellsBest true objective inst.now (bytes_of text))) }
    ensures takes { IfOk result (λ found. IfSome found (λ _. SolverTakes objective inst.now)) }
{
    match objective {
        Objective::Sum | Objective::SumMax => sum_text(alloc, objective, inst),
        _ => Ok(None),
    }
}

// The brief line that no choice is valid. The error is want of memory.
fn brief_none(
    alloc: Global,
    objective: Objective,
    inst: &Instance,
    form: Form,
    rows: &Ids,
) -> Result<Text, NoMemory>
    requires { IsHall inst.now Whole rows.now }
    ensures { IfOk result (λ text. TellsNone true objective inst.now form (bytes_of text)) }
{
    infeasible_law();
    Ok(Text::Brief(none_line(alloc, objective, inst)?))
}

// The document that no choice is valid. The error is want of memory.
fn whole_none(
    alloc: Global,
    objective: Objective,
    inst: &Instance,
    form: Form,
    rows: Ids,
) -> Result<Text, NoMemory>
    requires word { HasWord objective }
    requires passes { PassesNegative objective inst.now }
    requires asked { MayBeAsked form objective inst.now }
    requires hall { IsHall inst.now Whole rows }
    ensures { IfOk result (λ text. TellsNone false objective inst.now form (bytes_of text)) }
{
    let document = none_document(objective, inst, form, rows);
    let sheet = Sheet::of(alloc, document)?;
    Ok(Text::Sheet(sheet))
}

/// What tells that no choice is valid: the document of a form with these rows as a Hall set, or in
/// brief a line. The error is want of memory.
pub fn none_text(
    alloc: Global,
    brief: bool,
    objective: Objective,
    inst: &Instance,
    form: Form,
    rows: Ids,
) -> Result<Text, NoMemory>
    requires word { HasWord objective }
    requires passes { PassesNegative objective inst.now }
    requires asked { MayBeAsked form objective inst.now }
    requires hall { IsHall inst.now Whole rows }
    ensures { IfOk result (λ text. TellsNone brief objective inst.now form (bytes_of text)) }
{
    if brief {
        brief_none(alloc, objective, inst, form, &rows)
    } else {
        whole_none(alloc, objective, inst, form, rows)
    }
}
