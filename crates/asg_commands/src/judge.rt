//! Documents that are judged in turn, each for the instance as the lines of a script have left it.

ghost use Rattle.std.specs.Prelude.{◌≡◌, ◌+◌, ◌<◌, ◌≤◌, ◌∷◌, ℕ, List, IfOk, None, OnOk, length};
ghost use Rattle.asg_check.specs.DocumentForm.{MayBeAsked};
ghost use Rattle.asg_check.specs.KnownPhases.{AreKnown};
ghost use Rattle.asg_doc_reader.specs.RefusedLine.{AllHaveText};
ghost use Rattle.asg_model.specs.Edits.{edited, refusal_of};
ghost use Rattle.asg_model.specs.Limits.{most_side};
ghost use Rattle.asg_model.specs.Problem.{Problem};
ghost use Rattle.asg_model.specs.Refused.{PassesNegative};
ghost use Rattle.asg_model.specs.Shapes.{square_side};
ghost use Rattle.asg_text.specs.TriedScripts.{after_line, first_refused, line_refusal};
ghost use Rattle.asg_text.specs.TriedScripts.{solved_instances};
ghost use Rattle.asg_text.specs.SolveLines.{solve_count, solves};
ghost use Rattle.asg_text.specs.declared.script_lines.Line.{Line as ScriptLine};
ghost use Rattle.asg_answers.specs.Replies.{Answers, IsReply};
ghost use Rattle.asg_answers.specs.Texts.{no_text, yes_text};
ghost use Rattle.asg_commands.specs.Solves.{JudgesOn};
ghost use Rattle.asg_promises.specs.DueToJudge.{DueToJudge};

use asg_answers::{Reply, Status};
use asg_check::{Form, check_known, phases_of, stay_known};
use asg_doc::Document;
use asg_model::{Edit, Instance, NoMemory};
use asg_proof::WrittenPhase;
use asg_text::{Line, solves};
use asg_values::edits::edited_law;
use asg_verdicts::Verdict;
use asg_words::Job;
use std::alloc::{AllocError, Global};

// Tells that so many documents certify.
fn acceptance(alloc: Global, count: usize) -> Result<Reply, NoMemory>
    ensures { IfOk result (λ reply. IsReply reply Status.Done (yes_text count)) }
{
    let line = format!(in alloc; "yes {count}\n")?;
    Ok(Reply::made(Status::Done, line))
}

// Tells the reason against a document, and its place.
fn denial(alloc: Global, document: usize, reason: u8, place: i64) -> Result<Reply, NoMemory>
    ensures { IfOk result (λ reply. IsReply reply Status.No (no_text document reason place)) }
{
    let line = format!(in alloc; "no {document} {reason} {place}\n")?;
    Ok(Reply::made(Status::No, line))
}

// Edits an instance by an edit that isn't refused. The error is want of memory.
fn edit_instance(job: &Job, inst: &mut Instance, edit: Edit) -> Result<(), NoMemory>
    requires { refusal_of job.now.objective inst.old edit ≡ None }
    ensures { OnOk result (inst.new ≡ edited inst.old edit) }
{
    match inst.edit(job.objective, edit) {
        Ok(()) => Ok(()),
        Err(_) => Err(AllocError),
    }
}

// Judges the document behind so many that certify, where some phases are known to be admitted from
// the square of the instance; `None` where it certifies. The phases are those known then, its own.
fn judge_document<'a>(
    alloc: Global,
    job: &Job,
    inst: &Instance,
    form: Form,
    documents: &'a [Document],
    count: usize,
    known: &[WrittenPhase],
) -> Result<(Option<Reply>, &'a [WrittenPhase]), NoMemory>
    requires side { square_side inst.now ≤ most_side }
    requires passes { PassesNegative job.now.objective inst.now }
    requires asked { MayBeAsked form job.now.objective inst.now }
    requires text { AllHaveText documents.now }
    requires within { count < length documents.now }
    requires known { AreKnown job.now.objective inst.now known.now }
    ensures judged { IfOk result (λ judged. (instances : List Problem) → JudgesOn
        job.now.objective form count (inst.now ∷ instances) documents.now (count + 1) instances
        judged.0) }
    ensures known { IfOk result (λ judged. judged.0 ≡ None
        → AreKnown job.now.objective inst.now judged.1.now) }
{
    let _rows = inst.rows();
    let document = &documents[count];
    let phases = phases_of(document);
    match check_known(alloc, job.objective, inst, form, document, known)? {
        Verdict::Yes => Ok((None, phases)),
        Verdict::No { reason, place } => {
            let denied = denial(alloc, count + 1, reason, place)?;
            Ok((Some(denied), phases))
        }
    }
}

// The phases that are known to be admitted after an edit, which gave this instance: those known
// before it, or none.
fn known_after<'a>(
    alloc: Global,
    job: &Job,
    inst: &Instance,
    edit: Edit,
    known: &'a [WrittenPhase],
) -> Result<&'a [WrittenPhase], NoMemory>
    requires { PassesNegative job.now.objective inst.now }
    ensures { IfOk result (λ left. (X : Problem) → inst.now ≡ edited X edit
        → AreKnown job.now.objective X known.now → AreKnown job.now.objective inst.now left.now) }
{
    if stay_known(alloc, job.objective, inst, edit, known)? {
        Ok(known)
    } else {
        Ok(&[])
    }
}

// Follows a line behind so many documents that certify: the instance is edited, or the next
// document is judged, where some phases are known to be admitted. `None` where it certifies; then
// the phases are those known to be admitted from the square of the instance as it is.
fn judge_line<'a>(
    alloc: Global,
    job: &Job,
    inst: &mut Instance,
    form: Form,
    line: Line,
    documents: &'a [Document],
    count: usize,
    known: &'a [WrittenPhase],
) -> Result<(Option<Reply>, &'a [WrittenPhase]), NoMemory>
    requires tried { line_refusal job.now.objective inst.old line ≡ None }
    requires side { square_side inst.old ≤ most_side }
    requires passes { PassesNegative job.now.objective inst.old }
    requires asked { MayBeAsked form job.now.objective inst.old }
    requires text { AllHaveText documents.now }
    requires within { count + solves line ≤ length documents.now }
    requires known { AreKnown job.now.objective inst.old known.now }
    ensures after { OnOk result (inst.new ≡ after_line inst.old line) }
    ensures side { OnOk result (square_side inst.new ≤ most_side) }
    ensures passes { OnOk result (PassesNegative job.now.objective inst.new) }
    ensures judged { IfOk result (λ judged. (number : ℕ) (lines : List (ℕ × ScriptLine)) → JudgesOn
        job.now.objective form count (solved_instances inst.old ((number, line) ∷ lines))
        documents.now (count + solves line) (solved_instances inst.new lines) judged.0) }
    ensures known { IfOk result (λ judged. judged.0 ≡ None
        → AreKnown job.now.objective inst.new judged.1.now) }
{
    edited_law();
    let _rows = inst.rows();
    match line {
        Line::Solve => judge_document(alloc, job, inst, form, documents, count, known),
        Line::Edit(edit) => {
            edit_instance(job, inst, edit)?;
            let left = known_after(alloc, job, inst, edit, known)?;
            Ok((None, left))
        }
    }
}

// The verdict on documents, as many as lines ask for: the instance is edited from one to the next.
pub(crate) fn verdict(
    alloc: Global,
    job: &Job,
    inst: Instance,
    form: Form,
    lines: &[(u32, Line)],
    documents: &[Document],
) -> Result<Reply, NoMemory>
    requires tried { first_refused job.now.objective inst lines.now ≡ None }
    requires side { square_side inst ≤ most_side }
    requires passes { PassesNegative job.now.objective inst }
    requires asked { MayBeAsked form job.now.objective inst }
    requires text { AllHaveText documents.now }
    requires counted { length documents.now ≡ solve_count lines.now }
    ensures { IfOk result (Answers
        (DueToJudge job.now.objective form 0 (solved_instances inst lines.now) documents.now)) }
{
    let mut now = inst;
    let mut count = 0;
    let mut known: &[WrittenPhase] = &[];
    'lines: for place in 0..lines.len() {
        let (_, line) = lines[place];
        let (denied, left) = judge_line(alloc, job, &mut now, form, line, documents, count, known)?;
        match denied {
            Some(denied) => return Ok(denied),
            None => {
                known = left;
                count += solves(line);
            }
        }
    }
    acceptance(alloc, count)
}
