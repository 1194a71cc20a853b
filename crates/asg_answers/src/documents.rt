//! The documents of a job's outcome.

ghost use Rattle.std.specs.Prelude.{◌≡◌, ◌<◌, ◌≤◌, All, IfOk, IsTrue, length};
ghost use Rattle.asg_check.specs.declared.document_forms.Form.TheVariants.{Solve, Rank};
ghost use Rattle.asg_check.specs.DocumentForm.{MayBeAsked, is_command_of};
ghost use Rattle.asg_doc.specs.ChosenCells.{cells_by_id, column_id};
ghost use Rattle.asg_doc.specs.HasText.{AreCells, HasValueText};
ghost use Rattle.asg_doc.specs.Words.{HasWord, IsAsked};
ghost use Rattle.asg_model.specs.declared.bands.Band.TheVariants.{Whole};
ghost use Rattle.asg_model.specs.HallSet.{IsHall};
ghost use Rattle.asg_model.specs.Limits.{most_side};
ghost use Rattle.asg_model.specs.Refused.{PassesNegative};
ghost use Rattle.asg_model.specs.Shapes.{square_side};
ghost use Rattle.asg_model.specs.ValidChoice.{IsValid};
ghost use Rattle.asg_model.specs.Values.{choice_value};
ghost use Rattle.asg_edits.specs.EditOutcomes.{IsAnswerAt, IsBestAt};
ghost use Rattle.asg_model.specs.Objectives.{is_algebraic};
ghost use Rattle.asg_proof.specs.Outcomes.{IsProvedBest};
ghost use Rattle.asg_rank.specs.RankOutcomes.{IsProvedRanking};
ghost use Rattle.asg_answers.specs.Standings.{IsEditDocument};
ghost use Rattle.asg_answers.specs.DocumentParts.{AreAnswersOf, KeepsRanges, cell_at};
ghost use Rattle.asg_answers.specs.WrittenDocument.{IsBestDocument, IsNoneDocument};
ghost use Rattle.asg_answers.specs.WrittenDocument.{IsPromisedProof, IsRankedDocument};

use asg_check::Form;
use asg_check::laws::soundness_law;
use asg_doc::{Answer, Answers, Cells, Claim, Command, Document};
use asg_edits::Editor;
use asg_model::{Choice, Instance, NoMemory, Objective};
use asg_proof::{Ids, Outcome, Proof};
use asg_rank::Choices;
use asg_rankings::Nodes;
use asg_values::laws::hall_rows_law;
use asg_values::value;
use std::alloc::Global;

// The id of the column at a place, where there is one.
fn column_id(inst: &Instance, place: u32) -> Option<u32>
    ensures { result ≡ column_id inst.now place }
{
    match inst.columns().get(place as usize) {
        Some(column) => Some(column.id),
        None => None,
    }
}

// The cell that the row at a place chooses, by id, where it chooses one.
fn chosen_cell(inst: &Instance, choice: &Choice, place: u32) -> Option<(u32, u32)>
    requires over { length choice.now ≡ length inst.now.rows }
    requires within { place < length choice.now }
    ensures { result ≡ cell_at inst.now choice.now place }
{
    let row = inst.rows()[place as usize];
    match choice.get(place) {
        Some(column) => Some((row.id, column_id(inst, column)?)),
        None => None,
    }
}

// The cells of a valid choice by id, in the order of the rows. The error is want of memory.
fn cells_by_id(alloc: Global, inst: &Instance, choice: &Choice) -> Result<Cells, NoMemory>
    requires { IsValid inst.now choice.now }
    ensures cells { IfOk result (λ cells. cells ≡ cells_by_id inst.now choice.now) }
    ensures text { IfOk result AreCells }
{
    let mut cells = Vec::with_capacity(alloc, inst.rows().len())?;
    for place in 0..choice.len() {
        if let Some(cell) = chosen_cell(inst, choice, place) {
            cells.push(cell)?;
        }
    }
    Ok(Cells::from_vec(cells))
}

// The answer of a valid choice: its value and its cells. The error is want of memory.
fn answer(
    alloc: Global,
    objective: Objective,
    inst: &Instance,
    choice: &Choice,
) -> Result<Answer, NoMemory>
    requires word { HasWord objective }
    requires valid { IsValid inst.now choice.now }
    ensures value { IfOk result (λ answer.
        answer.value ≡ choice_value objective inst.now choice.now) }
    ensures value_text { IfOk result (λ answer. HasValueText objective answer.value) }
    ensures cells { IfOk result (λ answer. answer.cells ≡ cells_by_id inst.now choice.now) }
    ensures cells_text { IfOk result (λ answer. AreCells answer.cells) }
{
    let _rows = inst.rows();
    let value = value(alloc, objective, inst, choice)?;
    let cells = cells_by_id(alloc, inst, choice)?;
    Ok(Answer { value, cells })
}

// Tells the proof what the parts of a proof keep, as their types say.
fn tell_ranges(proof: &Proof)
    ensures { KeepsRanges proof.now }
{
    let _count = match proof {
        Proof::Phases(phases) => phases.len(),
        Proof::Below(rows) => rows.len(),
        Proof::Windows(windows) => windows.len(),
        Proof::Levels { perm, levels } => perm.len().max(levels.len()),
    };
}

/// The document that claims a choice as best, with its proof, which is one that is promised. The
/// error is want of memory.
pub fn best_document(
    alloc: Global,
    objective: Objective,
    inst: &Instance,
    choice: &Choice,
    proof: Proof,
) -> Result<Document, NoMemory>
    requires word { HasWord objective }
    requires side { square_side inst.now ≤ most_side }
    requires passes { PassesNegative objective inst.now }
    requires proved { IsProvedBest objective inst.now choice.now proof }
    requires promised { IsPromisedProof objective inst.now proof }
    ensures { IfOk result (IsBestDocument objective inst.now Solve) }
{
    soundness_law();
    hall_rows_law();
    tell_ranges(&proof);
    let _rows = inst.rows();
    let answer = answer(alloc, objective, inst, choice)?;
    Ok(Document {
        command: Command::Solve,
        objective,
        claim: Claim::Best { answer, proof },
    })
}

// The command of documents of a form.
fn command_of(form: Form) -> Command
    ensures { IsTrue (is_command_of form result) }
{
    match form {
        Form::Solve => Command::Solve,
        Form::Rank(_) => Command::Rank,
        Form::Edit => Command::Edit,
    }
}

/// The document of a form that claims that no choice is valid, with these rows as a Hall set. It
/// takes no memory.
pub fn none_document(objective: Objective, inst: &Instance, form: Form, rows: Ids) -> Document
    requires word { HasWord objective }
    requires passes { PassesNegative objective inst.now }
    requires asked { MayBeAsked form objective inst.now }
    requires hall { IsHall inst.now Whole rows }
    ensures { IsNoneDocument objective inst.now form result }
{
    soundness_law();
    hall_rows_law();
    let _count = rows.len();
    let _rows = inst.rows();
    Document {
        command: command_of(form),
        objective,
        claim: Claim::Nothing { rows },
    }
}

// The document of an edited instance that claims a choice as best, with the phases of its editor,
// which can be written. The error is want of memory.
fn best_edit_document(
    alloc: Global,
    objective: Objective,
    editor: &Editor,
    choice: &Choice,
    proof: Proof,
) -> Result<Document, NoMemory>
    requires word { HasWord objective }
    requires algebraic { IsTrue (is_algebraic objective) }
    requires side { square_side editor.now.instance ≤ most_side }
    requires passes { PassesNegative objective editor.now.instance }
    requires best { IsBestAt objective editor.now.instance editor.now.phases editor.now.unsure
        choice.now proof }
    ensures { IfOk result (IsEditDocument objective editor.now) }
{
    soundness_law();
    tell_ranges(&proof);
    let answer = answer(alloc, objective, editor.instance(), choice)?;
    Ok(Document {
        command: Command::Edit,
        objective,
        claim: Claim::Best { answer, proof },
    })
}

/// The document of an edited instance with the outcome of its editor. The error is want of memory.
pub fn edit_document(
    alloc: Global,
    objective: Objective,
    editor: &Editor,
    outcome: Outcome,
) -> Result<Document, NoMemory>
    requires word { HasWord objective }
    requires algebraic { IsTrue (is_algebraic objective) }
    requires side { square_side editor.now.instance ≤ most_side }
    requires passes { PassesNegative objective editor.now.instance }
    requires outcome { IsAnswerAt objective editor.now.instance editor.now.phases
        editor.now.unsure outcome }
    ensures { IfOk result (IsEditDocument objective editor.now) }
{
    match outcome {
        Outcome::Best { choice, proof } => {
            best_edit_document(alloc, objective, editor, &choice, proof)
        }
        Outcome::Nothing { rows } => Ok(none_document(
            objective,
            editor.instance(),
            Form::Edit,
            rows,
        )),
    }
}

// The answers of valid choices, in order. The error is want of memory.
fn listed_answers(
    alloc: Global,
    objective: Objective,
    inst: &Instance,
    choices: &[Choice],
) -> Result<Answers, NoMemory>
    requires word { HasWord objective }
    requires valid { All (IsValid inst.now) choices.now }
    ensures { IfOk result (AreAnswersOf objective inst.now choices.now) }
{
    let mut answers = Vec::with_capacity(alloc, choices.len())?;
    'choices: for place in 0..choices.len() {
        answers.push(answer(alloc, objective, inst, &choices[place])?)?;
    }
    Ok(Answers::from_vec(answers))
}

/// The document that claims a ranking of so many choices, with the nodes that prove it. The error
/// is want of memory.
pub fn ranked_document(
    alloc: Global,
    objective: Objective,
    inst: &Instance,
    count: u32,
    choices: &Choices,
    nodes: Nodes,
) -> Result<Document, NoMemory>
    requires word { HasWord objective }
    requires count { IsAsked count }
    requires side { square_side inst.now ≤ most_side }
    requires passes { PassesNegative objective inst.now }
    requires asked { MayBeAsked (Rank count) objective inst.now }
    requires proved { IsProvedRanking objective inst.now count choices.now nodes }
    ensures { IfOk result (IsRankedDocument objective inst.now count) }
{
    soundness_law();
    hall_rows_law();
    let _count = nodes.len();
    let _rows = inst.rows();
    let answers = listed_answers(alloc, objective, inst, choices.as_slice())?;
    Ok(Document {
        command: Command::Rank,
        objective,
        claim: Claim::Ranked {
            count,
            answers,
            nodes,
        },
    })
}
