//! The answer of a run to what was asked.

ghost use Rattle.std.specs.Prelude.{◌≡◌, false, true, IfSome};
ghost use Rattle.asg_promises.specs.Due.{DueForAsked, DueForPart};
ghost use Rattle.asg_app.specs.Ends.{Ends};
ghost use Rattle.asg_words.specs.Bounds.{IsRequest};
ghost use Rattle.asg_promises.specs.Requests.{is_edit, is_streamed};

use crate::edits;
use crate::files::Asked;
use crate::replies::{put, reply_to};
use asg_answers::Status;
use asg_io::Sink;
use asg_promises::laws::answer_law;
use asg_words::{Request, Task};
use std::alloc::Global;

// Whether a task edits.
fn is_edit(task: &Task) -> bool
    ensures { result ≡ is_edit task.now }
{
    matches!(task, Task::Edit(_))
}

// Whether a command is asked for that writes its documents as it makes them.
fn is_streamed(asked: &Asked) -> bool
    ensures { result ≡ is_streamed asked.now.request }
{
    match &asked.request {
        Some(Request::Work(job)) => is_edit(&job.task),
        Some(Request::Make { .. }) | None => false,
    }
}

// Makes the reply to what was asked, and puts it. All memory is taken before the put.
fn answer_whole<K: Sink>(alloc: Global, asked: &mut Asked, out: &mut K) -> Status
    requires within { IfSome asked.old.request IsRequest }
    requires whole { is_streamed asked.old.request ≡ false }
    ensures { Ends K.written K.faults out.old out.new false
        (DueForAsked asked.old.request asked.old.sources)
        (DueForAsked asked.old.request asked.old.sources) result }
{
    answer_law();
    match reply_to(alloc, asked) {
        Ok(reply) => put(reply, out),
        Err(_) => Status::NoMemory,
    }
}

// Answers a command that writes its documents as it makes them.
fn answer_streamed<K: Sink>(alloc: Global, asked: &mut Asked, out: &mut K) -> Status
    requires within { IfSome asked.old.request IsRequest }
    requires streamed { is_streamed asked.old.request ≡ true }
    ensures { Ends K.written K.faults out.old out.new true
        (DueForAsked asked.old.request asked.old.sources)
        (DueForPart asked.old.request asked.old.sources) result }
{
    match &asked.request {
        Some(Request::Work(job)) => edits::answer(alloc, job, &mut asked.sources, out),
        Some(Request::Make { .. }) | None => unreachable!(),
    }
}

// Answers what was asked.
pub(crate) fn answer<K: Sink>(alloc: Global, asked: &mut Asked, out: &mut K) -> Status
    requires { IfSome asked.old.request IsRequest }
    ensures { Ends K.written K.faults out.old out.new (is_streamed asked.old.request)
        (DueForAsked asked.old.request asked.old.sources)
        (DueForPart asked.old.request asked.old.sources) result }
{
    if is_streamed(asked) {
        answer_streamed(alloc, asked, out)
    } else {
        answer_whole(alloc, asked, out)
    }
}
