//! The reply to what was asked, and how it is put.

ghost use Rattle.std.specs.Prelude.{◌≡◌, IfOk, IfSome, false};
ghost use Rattle.asg_promises.specs.Due.{DueForAsked};
ghost use Rattle.asg_promises.specs.Requests.{is_streamed};
ghost use Rattle.asg_words.specs.Bounds.{IsRequest};
ghost use Rattle.asg_answers.specs.Replies.{Answers, IsReply};
ghost use Rattle.asg_answers.specs.Statuses.{IsAnswer};
ghost use Rattle.asg_app.specs.Ends.{Ends};

use crate::files::Asked;
use asg_answers::{Reply, Status, put_text};
use asg_commands::{job_reply, made_reply};
use asg_io::{PutFault, Sink};
use asg_model::NoMemory;
use asg_words::Request;
use std::alloc::Global;

/// The line for words that are no request.
const USAGE: &str = "usage: asg solve OBJECTIVE INSTANCE | rank OBJECTIVE INSTANCE --count K | \
    edit OBJECTIVE INSTANCE SCRIPT | check OBJECTIVE INSTANCE ANSWER | make SEED SIDE\n";

// The reply to what was asked, where that isn't to edit. The error is want of memory.
pub(crate) fn reply_to(alloc: Global, asked: &mut Asked) -> Result<Reply, NoMemory>
    requires within { IfSome asked.old.request IsRequest }
    requires whole { is_streamed asked.old.request ≡ false }
    ensures { IfOk result (Answers (DueForAsked asked.old.request asked.old.sources)) }
{
    match &asked.request {
        None => Reply::line(alloc, Status::Usage, USAGE),
        Some(Request::Make { seed, side }) => made_reply(alloc, *seed, *side),
        Some(Request::Work(job)) => job_reply(alloc, job, &mut asked.sources),
    }
}

// Puts a reply. It takes no memory.
pub(crate) fn put<K: Sink>(reply: Reply, out: &mut K) -> Status
    requires { IsAnswer reply.status }
    ensures { Ends K.written K.faults out.old out.new false (IsReply reply) (IsReply reply) result }
{
    match put_text(reply.text, out) {
        Ok(()) => reply.status,
        Err(PutFault) => Status::WriteFault,
    }
}
