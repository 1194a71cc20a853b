//! Requests to edit: each document, or in brief each line, is written as soon as it is made.

ghost use Rattle.std.specs.Prelude.{ℕ, true, List, Some, IsTrue};
ghost use Rattle.asg_words.specs.declared.requests.Job.{Job as Editing};
ghost use Rattle.asg_words.specs.declared.requests.Request.TheVariants as requests;
ghost use Rattle.asg_promises.specs.Due.{DueForJob, DueForPart};
ghost use Rattle.asg_commands.specs.Edits.{IsStarted, StopsJob};
ghost use Rattle.asg_app.specs.Ends.{Ends};
ghost use Rattle.asg_words.specs.Bounds.{IsJob};
ghost use Rattle.asg_promises.specs.Requests.{is_edit};

use crate::replies::put;
use asg_answers::{Halt, Status, put_lines};
use asg_commands::{Sources, Stop, Work, started, stop_reply};
use asg_io::Sink;
use asg_promises::laws::{answer_law, instance_law};
use asg_words::Job;
use std::alloc::Global;

// Writes the documents of a job to edit, or in brief their lines.
fn put_edits<K: Sink>(alloc: Global, job: &Job, work: &mut Work, out: &mut K) -> Status
    requires within { IsJob job.now }
    requires edits { IsTrue (is_edit job.now.task) }
    requires started { (contents : List (List ℕ)) × IsStarted job.now contents work.old }
    ensures { (contents : List (List ℕ)) → IsStarted job.now contents work.old →
        Ends K.written K.faults out.old out.new true (DueForJob job.now contents)
        (DueForPart (Some (requests.Work job.now)) contents) result }
{
    instance_law();
    match put_lines(
        alloc,
        job.objective,
        job.brief,
        &mut work.editor,
        &work.lines,
        out,
    ) {
        Ok(()) => Status::Done,
        Err(Halt::WriteFault) => Status::WriteFault,
        Err(Halt::NoMemory) => Status::NoMemory,
    }
}

// Puts the refusal of a file of a job to edit.
fn put_stop<K: Sink>(stop: Stop, out: &mut K) -> Status
    requires { (job : Editing) × (contents : List (List ℕ)) × StopsJob job contents stop }
    ensures { (job : Editing) (contents : List (List ℕ)) → StopsJob job contents stop →
        Ends K.written K.faults out.old out.new true (DueForJob job contents)
        (DueForPart (Some (requests.Work job)) contents) result }
{
    answer_law();
    match stop_reply(stop) {
        Ok(reply) => put(reply, out),
        Err(_) => Status::NoMemory,
    }
}

// Answers a job to edit: its documents are written, or in brief their lines, one after the other,
// or the refusal of one of its files.
pub(crate) fn answer<K: Sink>(
    alloc: Global,
    job: &Job,
    sources: &mut Sources,
    out: &mut K,
) -> Status
    requires within { IsJob job.now }
    requires edits { IsTrue (is_edit job.now.task) }
    ensures { Ends K.written K.faults out.old out.new true
        (DueForJob job.now sources.old)
        (DueForPart (Some (requests.Work job.now)) sources.old) result }
{
    match started(alloc, job, sources) {
        Ok(mut work) => {
            let status = put_edits(alloc, job, &mut work, out);
            drop(work);
            status
        }
        Err(stop) => put_stop(stop, out),
    }
}
