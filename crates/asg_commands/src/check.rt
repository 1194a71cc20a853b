//! Requests to check: the answer's file is read, and its documents are judged, as many as the lines
//! of a script ask for.

ghost use Rattle.std.specs.Prelude.{◌≡◌, ◌≤◌, ◌∷◌, [], IfOk, None, length};
ghost use Rattle.asg_check.specs.declared.document_forms.Form.TheVariants.{Edit};
ghost use Rattle.asg_check.specs.DocumentForm.{MayBeAsked};
ghost use Rattle.asg_doc_reader.specs.RefusedLine.{AllHaveText};
ghost use Rattle.asg_doc.specs.Text.{texts_of};
ghost use Rattle.asg_model.specs.Limits.{longest_file, most_side};
ghost use Rattle.asg_model.specs.Refused.{PassesNegative};
ghost use Rattle.asg_model.specs.Shapes.{square_side};
ghost use Rattle.asg_text.specs.TriedScripts.{first_refused, script_in, solved_instances};
ghost use Rattle.asg_answers.specs.Replies.{Answers, IsReply};
ghost use Rattle.asg_answers.specs.Texts.{refused_document_text};
ghost use Rattle.asg_promises.specs.DueToCheck.{DueToCheck, form_asked};
ghost use Rattle.asg_promises.specs.ScriptStage.{DueForScript};

use crate::judge::verdict;
use crate::scripts::script_lines;
use crate::stops::stop_reply;
use asg_answers::{Reply, Status};
use asg_check::Form;
use asg_doc::Document;
use asg_doc_reader::{DocRefusal, read};
use asg_model::{Instance, NoMemory};
use asg_text::{Line, solve_count};
use asg_verdicts::Verdict;
use asg_words::Job;
use std::alloc::{AllocError, Global};

// The form that a document must have to be accepted: where a count is given, that of a ranking.
pub(crate) fn form_asked(count: Option<u32>) -> Form
    ensures { result ≡ form_asked count }
{
    match count {
        None => Form::Solve,
        Some(count) => Form::Rank(count),
    }
}

// Tells that the answer's file is refused in this line.
fn refusal(alloc: Global, line: u32) -> Result<Reply, NoMemory>
    ensures { IfOk result (λ reply. IsReply reply Status.Document (refused_document_text line)) }
{
    let line = format!(in alloc; "refused document {line}\n")?;
    Ok(Reply::made(Status::Document, line))
}

// The reply for the documents of an answer's file, of which there are to be as many as lines ask
// for.
fn documents_reply(
    alloc: Global,
    job: &Job,
    inst: Instance,
    form: Form,
    lines: &[(u32, Line)],
    documents: &[Document],
) -> Result<Reply, NoMemory>
    requires tried { first_refused job.now.objective inst lines.now ≡ None }
    requires side { square_side inst ≤ most_side }
    requires passes { PassesNegative job.now.objective inst }
    requires asked { MayBeAsked form job.now.objective inst }
    requires text { AllHaveText documents.now }
    ensures { IfOk result (Answers (DueToCheck job.now.objective form
        (solved_instances inst lines.now) (texts_of documents.now))) }
{
    let due = solve_count(lines);
    let found = documents.len();
    if found == due {
        verdict(alloc, job, inst, form, lines, documents)
    } else {
        refusal(alloc, 0)
    }
}

// The reply for an answer's file of these bytes and the lines of a script.
fn answer_reply(
    alloc: Global,
    job: &Job,
    inst: Instance,
    form: Form,
    lines: &[(u32, Line)],
    answer: &[u8],
) -> Result<Reply, NoMemory>
    requires tried { first_refused job.now.objective inst lines.now ≡ None }
    requires side { square_side inst ≤ most_side }
    requires passes { PassesNegative job.now.objective inst }
    requires asked { MayBeAsked form job.now.objective inst }
    requires short { length answer.now ≤ longest_file }
    ensures { IfOk result (Answers (DueToCheck job.now.objective form
        (solved_instances inst lines.now) answer.now)) }
{
    match read(alloc, answer) {
        Ok(documents) => documents_reply(alloc, job, inst, form, lines, &documents),
        Err(DocRefusal::Line(line)) => refusal(alloc, line),
        Err(DocRefusal::NoMemory) => Err(AllocError),
    }
}

// The reply to a request to check the one document of the answer's file of these bytes, which is to
// have a form: what a script of one line asks for. The error is want of memory.
pub(crate) fn reply(
    alloc: Global,
    job: &Job,
    inst: Instance,
    form: Form,
    answer: &[u8],
) -> Result<Reply, NoMemory>
    requires side { square_side inst ≤ most_side }
    requires passes { PassesNegative job.now.objective inst }
    requires asked { MayBeAsked form job.now.objective inst }
    requires short { length answer.now ≤ longest_file }
    ensures { IfOk result (Answers (DueToCheck job.now.objective form (inst ∷ []) answer.now)) }
{
    answer_reply(alloc, job, inst, form, &[(1, Line::Solve)], answer)
}

// The reply to a request to check the documents of the answer's file for the script of these bytes.
// The error is want of memory.
pub(crate) fn script_reply(
    alloc: Global,
    job: &Job,
    inst: Instance,
    script: &[u8],
    answer: &[u8],
) -> Result<Reply, NoMemory>
    requires side { square_side inst ≤ most_side }
    requires passes { PassesNegative job.now.objective inst }
    requires script { length script.now ≤ longest_file }
    requires short { length answer.now ≤ longest_file }
    ensures { IfOk result (Answers (DueForScript (script_in job.now.objective inst script.now)
        (λ lines. DueToCheck job.now.objective Edit (solved_instances inst lines) answer.now))) }
{
    match script_lines(alloc, job, &inst, script) {
        Ok(lines) => answer_reply(alloc, job, inst, Form::Edit, &lines, answer),
        Err(stop) => stop_reply(stop),
    }
}
