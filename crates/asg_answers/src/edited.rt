//! What is written for a script: a document or in brief a line at a time, as soon as it is made.

ghost use Rattle.std.specs.Prelude.{◌≡◌, ◌≤◌, ℕ, IfErr, IfOk, IsTrue, List, None, OnErr, OnOk, false, length};
ghost use Rattle.asg_brief.specs.BriefLines.{IsBriefLine};
ghost use Rattle.asg_doc.specs.Words.{HasWord};
ghost use Rattle.asg_io.specs.Shelf.{Rose};
ghost use Rattle.asg_io.specs.Sink.{Puts, PutsPrefix};
ghost use Rattle.asg_edits.specs.Editors.{Edits};
ghost use Rattle.asg_model.specs.Counts.{placed};
ghost use Rattle.asg_model.specs.Edits.{refusal_of};
ghost use Rattle.asg_model.specs.Limits.{most_side};
ghost use Rattle.asg_model.specs.Objectives.{is_algebraic};
ghost use Rattle.asg_model.specs.Refused.{PassesNegative};
ghost use Rattle.asg_model.specs.Shapes.{square_side};
ghost use Rattle.asg_proof.specs.KeptWords.{Standing};
ghost use Rattle.asg_sum_edits.specs.SumDuals.{IsBestSum};
ghost use Rattle.asg_text.specs.TriedScripts.{after_line, first_refused, line_refusal};
ghost use Rattle.asg_answers.specs.Replies.{bytes_of};
ghost use Rattle.asg_answers.specs.Standings.{IsTold, Stands};
ghost use Rattle.asg_answers.specs.WrittenLines.{HaltsIn, WritesAll, WritesFront, WritesLine};
ghost use Rattle.asg_answers.specs.declared.edited.Halt.TheVariants.{WriteFault};

use crate::documents::edit_document;
use crate::replies::{Text, put_text};
use crate::sheets::Sheet;
use crate::tellings::choice_line;
use asg_brief::laws::best_value_law;
use asg_brief::sum_line;
use asg_edits::Editor;
use asg_io::{PutFault, Sink};
use asg_model::{Edit, NoMemory, Objective};
use asg_text::Line;
use asg_values::edits::edited_law;
use std::alloc::Global;

/// What halts the writing for a script.
#[derive(Clone, Copy, PartialEq, Eq)]
pub enum Halt {
    /// The sink had a fault.
    WriteFault,
    /// There was not enough memory.
    NoMemory,
}

// The text of the next document of an editor, which goes on from what was kept. The error is want
// of memory.
fn next_document(alloc: Global, objective: Objective, editor: &mut Editor) -> Result<Text, NoMemory>
    requires word { HasWord objective }
    requires algebraic { IsTrue (is_algebraic objective) }
    requires side { square_side editor.old.instance ≤ most_side }
    requires passes { PassesNegative objective editor.old.instance }
    requires objective { editor.old.objective ≡ objective }
    ensures objective { editor.new.objective ≡ editor.old.objective }
    ensures instance { editor.new.instance ≡ editor.old.instance }
    ensures told { (standing : Standing) → Stands objective standing editor.old →
        IfOk result (λ text. IsTold false objective standing editor.new (bytes_of text)) }
{
    let outcome = editor.answer(alloc)?;
    let document = edit_document(alloc, objective, editor, outcome)?;
    let sheet = Sheet::of(alloc, document)?;
    Ok(Text::Sheet(sheet))
}

// The brief line of an editor by the sum of its best choices. The error is want of memory.
fn known_line(
    alloc: Global,
    objective: Objective,
    editor: &Editor,
    sum: i128,
) -> Result<Text, NoMemory>
    requires sum { IsBestSum objective editor.now.instance sum }
    requires all { placed editor.now.instance ≡ length editor.now.instance.rows }
    ensures { IfOk result (λ text. IsBriefLine objective editor.now.instance (bytes_of text)) }
{
    best_value_law();
    let inst = editor.instance();
    let line = sum_line(alloc, objective, inst, inst.rows().len() as u32, sum)?;
    Ok(Text::Brief(line))
}

// The next brief line of an editor by a choice, for which no phase is written out. The error is
// want of memory.
fn chosen_line(alloc: Global, objective: Objective, editor: &mut Editor) -> Result<Text, NoMemory>
    requires passes { PassesNegative objective editor.old.instance }
    requires objective { editor.old.objective ≡ objective }
    ensures objective { editor.new.objective ≡ editor.old.objective }
    ensures instance { editor.new.instance ≡ editor.old.instance }
    ensures told { IfOk result (λ text. IsBriefLine objective editor.new.instance (bytes_of text)) }
{
    let choice = editor.best_choice(alloc)?;
    let line = choice_line(alloc, objective, editor.instance(), &choice)?;
    Ok(Text::Brief(line))
}

// The next brief line of an editor: by a sum where it is told, else by a choice. The error is want
// of memory.
fn next_line(alloc: Global, objective: Objective, editor: &mut Editor) -> Result<Text, NoMemory>
    requires passes { PassesNegative objective editor.old.instance }
    requires objective { editor.old.objective ≡ objective }
    ensures objective { editor.new.objective ≡ editor.old.objective }
    ensures instance { editor.new.instance ≡ editor.old.instance }
    ensures told { IfOk result (λ text. IsBriefLine objective editor.new.instance (bytes_of text)) }
{
    let told = editor.best_sum(alloc)?;
    match told {
        Some(sum) => known_line(alloc, objective, editor, sum),
        None => chosen_line(alloc, objective, editor),
    }
}

// What tells the next answer of an editor. The error is want of memory.
fn next_text(
    alloc: Global,
    objective: Objective,
    brief: bool,
    editor: &mut Editor,
) -> Result<Text, NoMemory>
    requires word { HasWord objective }
    requires algebraic { IsTrue (is_algebraic objective) }
    requires side { square_side editor.old.instance ≤ most_side }
    requires passes { PassesNegative objective editor.old.instance }
    requires objective { editor.old.objective ≡ objective }
    ensures objective { editor.new.objective ≡ editor.old.objective }
    ensures instance { editor.new.instance ≡ editor.old.instance }
    ensures told { (standing : Standing) → Stands objective standing editor.old →
        IfOk result (λ text. IsTold brief objective standing editor.new (bytes_of text)) }
{
    if brief {
        next_line(alloc, objective, editor)
    } else {
        next_document(alloc, objective, editor)
    }
}

// Writes a text.
fn put_told<K: Sink>(text: Text, out: &mut K) -> Result<(), Halt>
    ensures whole { OnOk result (Puts (K.written out.old) (K.written out.new) (bytes_of text)) }
    ensures prefix { OnErr result
        (PutsPrefix (K.written out.old) (K.written out.new) (bytes_of text)) }
    ensures cause { OnErr result (Rose (K.faults out.old) (K.faults out.new)) }
    ensures never_falls { K.faults out.old ≤ K.faults out.new }
    ensures fault { IfErr result (λ halt. halt ≡ WriteFault) }
{
    match put_text(text, out) {
        Ok(()) => Ok(()),
        Err(PutFault) => Err(Halt::WriteFault),
    }
}

// Writes what tells the next answer of an editor.
fn put_answer<K: Sink>(
    alloc: Global,
    objective: Objective,
    brief: bool,
    editor: &mut Editor,
    out: &mut K,
) -> Result<(), Halt>
    requires word { HasWord objective }
    requires algebraic { IsTrue (is_algebraic objective) }
    requires side { square_side editor.old.instance ≤ most_side }
    requires passes { PassesNegative objective editor.old.instance }
    requires objective { editor.old.objective ≡ objective }
    ensures objective { editor.new.objective ≡ editor.old.objective }
    ensures instance { editor.new.instance ≡ editor.old.instance }
    ensures written { (standing : Standing) → Stands objective standing editor.old →
        OnOk result ((text : List ℕ) × IsTold brief objective standing editor.new text
        × Puts (K.written out.old) (K.written out.new) text) }
    ensures halted { (standing : Standing) → Stands objective standing editor.old →
        IfErr result (λ halt. halt ≡ WriteFault → (text : List ℕ)
        × IsTold brief objective standing editor.new text
        × PutsPrefix (K.written out.old) (K.written out.new) text) }
    ensures unwritten { IfErr result (λ halt. halt ≡ Halt.NoMemory →
        K.written out.new ≡ K.written out.old) }
    ensures cause { IfErr result (λ halt. halt ≡ WriteFault →
        Rose (K.faults out.old) (K.faults out.new)) }
    ensures never_falls { K.faults out.old ≤ K.faults out.new }
{
    match next_text(alloc, objective, brief, editor) {
        Ok(text) => put_told(text, out),
        Err(_) => Err(Halt::NoMemory),
    }
}

// Edits the instance of an editor by an edit that isn't refused.
fn edit_line(editor: &mut Editor, edit: Edit) -> Result<(), Halt>
    requires { refusal_of editor.old.objective editor.old.instance edit ≡ None }
    ensures objective { editor.new.objective ≡ editor.old.objective }
    ensures edits { OnOk result (Edits editor.old edit editor.new) }
    ensures fault { IfErr result (λ halt. halt ≡ Halt.NoMemory) }
{
    match editor.edit(edit) {
        Ok(()) => Ok(()),
        Err(_) => Err(Halt::NoMemory),
    }
}

// Follows a line: the instance is edited, or what tells the next answer is written.
fn put_line<K: Sink>(
    alloc: Global,
    objective: Objective,
    brief: bool,
    editor: &mut Editor,
    line: Line,
    out: &mut K,
) -> Result<(), Halt>
    requires word { HasWord objective }
    requires algebraic { IsTrue (is_algebraic objective) }
    requires side { square_side editor.old.instance ≤ most_side }
    requires passes { PassesNegative objective editor.old.instance }
    requires objective { editor.old.objective ≡ objective }
    requires tried { line_refusal objective editor.old.instance line ≡ None }
    ensures objective { editor.new.objective ≡ editor.old.objective }
    ensures instance { OnOk result
        (editor.new.instance ≡ after_line editor.old.instance line) }
    ensures side { OnOk result (square_side editor.new.instance ≤ most_side) }
    ensures passes { OnOk result (PassesNegative objective editor.new.instance) }
    ensures written { (standing : Standing) → Stands objective standing editor.old →
        OnOk result (WritesLine brief objective editor.old.instance standing line
        editor.new (K.written out.old) (K.written out.new)) }
    ensures halted { (standing : Standing) → Stands objective standing editor.old →
        IfErr result (HaltsIn brief objective editor.old.instance standing line
        (K.written out.old) (K.written out.new)) }
    ensures cause { IfErr result (λ halt. halt ≡ WriteFault →
        Rose (K.faults out.old) (K.faults out.new)) }
    ensures never_falls { K.faults out.old ≤ K.faults out.new }
{
    edited_law();
    let _inst = editor.instance();
    match line {
        Line::Solve => put_answer(alloc, objective, brief, editor, out),
        Line::Edit(edit) => edit_line(editor, edit),
    }
}

/// Follows the lines of a script in order, from the instance of an editor on: each edit is carried
/// out, and for each `solve` line a document or in brief a line is written, whole before the next
/// line is followed. No edit of the lines is refused. In brief no document is made, and the editor
/// keeps what it goes on from as it does for documents. Memory is taken between two texts, never
/// while one is written.
///
/// Errors: `WriteFault` where the sink had a fault, after a prefix of the text of the first lines;
/// `NoMemory` where memory ran out, after the whole text of the first lines.
pub fn put_lines<K: Sink>(
    alloc: Global,
    objective: Objective,
    brief: bool,
    editor: &mut Editor,
    lines: &[(u32, Line)],
    out: &mut K,
) -> Result<(), Halt>
    requires word { HasWord objective }
    requires algebraic { IsTrue (is_algebraic objective) }
    requires side { square_side editor.old.instance ≤ most_side }
    requires passes { PassesNegative objective editor.old.instance }
    requires objective { editor.old.objective ≡ objective }
    requires tried { first_refused objective editor.old.instance lines.now ≡ None }
    ensures written { OnOk result (WritesAll brief objective editor.old.instance lines.now
        (K.written out.old) (K.written out.new)) }
    ensures halted { IfErr result (λ _. WritesFront brief objective editor.old.instance lines.now
        (K.written out.old) (K.written out.new)) }
    ensures cause { IfErr result (λ halt. halt ≡ WriteFault →
        Rose (K.faults out.old) (K.faults out.new)) }
    ensures never_falls { K.faults out.old ≤ K.faults out.new }
{
    'lines: for place in 0..lines.len() {
        let (_, line) = lines[place];
        match put_line(alloc, objective, brief, editor, line, out) {
            Ok(()) => {}
            Err(halt) => return Err(halt),
        }
    }
    Ok(())
}
