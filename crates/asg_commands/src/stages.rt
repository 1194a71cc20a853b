//! The stages of a request whose reply is made whole.

ghost use Rattle.std.specs.Prelude.{◌≡◌, ◌≤◌, IfOk, false};
ghost use Rattle.asg_model.specs.Limits.{most_side};
ghost use Rattle.asg_model.specs.Refused.{PassesNegative};
ghost use Rattle.asg_model.specs.Shapes.{square_side};
ghost use Rattle.asg_promises.specs.Due.{DueForJob, DueForTask};
ghost use Rattle.asg_words.specs.Bounds.{IsJob};
ghost use Rattle.asg_answers.specs.Replies.{Answers};
ghost use Rattle.asg_promises.specs.Requests.{is_edit};

use crate::check::form_asked;
use crate::instances::instance;
use crate::sources::Sources;
use crate::stops::stop_reply;
use crate::{check, rank, solve};
use asg_answers::Reply;
use asg_model::{Instance, NoMemory};
use asg_promises::laws::instance_law;
use asg_words::{Job, Task};
use std::alloc::Global;

// The reply of the job's command for its instance. The error is want of memory.
fn task_reply(
    alloc: Global,
    job: &Job,
    inst: Instance,
    sources: &Sources,
) -> Result<Reply, NoMemory>
    requires within { IsJob job.now }
    requires whole { is_edit job.now.task ≡ false }
    requires place { inst.place ≡ job.now.place }
    requires side { square_side inst ≤ most_side }
    requires passes { PassesNegative job.now.objective inst }
    ensures { IfOk result (Answers (DueForTask job.now.task job.now sources.now inst)) }
{
    match job.task {
        Task::Solve => solve::reply(alloc, job, &inst),
        Task::Rank(count) => rank::reply(alloc, job, &inst, count),
        Task::Check {
            script: None,
            count,
            ..
        } => { check::reply(alloc, job, inst, form_asked(count), sources.at(1)) }
        Task::Check {
            script: Some(_),
            ..
        } => { check::script_reply(alloc, job, inst, sources.at(1), sources.at(2)) }
        Task::Edit(_) => unreachable!(),
    }
}

/// The reply to a job that isn't to edit, whose instance stands in the first file. The error is want
/// of memory.
pub fn job_reply(alloc: Global, job: &Job, sources: &mut Sources) -> Result<Reply, NoMemory>
    requires within { IsJob job.now }
    requires whole { is_edit job.now.task ≡ false }
    ensures { IfOk result (Answers (DueForJob job.now sources.old)) }
{
    instance_law();
    let bytes = sources.take(alloc, 0);
    let found = instance(alloc, job, bytes.as_slice());
    drop(bytes);
    match found {
        Ok(inst) => task_reply(alloc, job, inst, sources),
        Err(stop) => stop_reply(stop),
    }
}
