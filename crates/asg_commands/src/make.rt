//! Requests to make an instance.

ghost use Rattle.std.specs.Prelude.{◌≤◌, IfOk};
ghost use Rattle.asg_answers.specs.Replies.{Answers};
ghost use Rattle.asg_promises.specs.DueToMake.{DueToMake};
ghost use Rattle.asg_model.specs.Limits.{most_rows};
ghost use Rattle.asg_words.specs.Bounds.{IsWithin};
ghost use Rattle.asg_words.specs.Limits.{most_seed};

use asg_answers::{Reply, Status};
use asg_model::NoMemory;
use asg_text::{generated, write_rect};
use std::alloc::Global;

/// The reply to a request to make the instance of a seed and a side. The error is want of memory.
pub fn made_reply(alloc: Global, seed: u32, side: u32) -> Result<Reply, NoMemory>
    requires seed { seed ≤ most_seed }
    requires side { IsWithin 1 most_rows side }
    ensures { IfOk result (Answers (DueToMake seed side)) }
{
    let inst = generated(alloc, seed, side)?;
    let text = write_rect(alloc, &inst)?;
    Reply::file(alloc, Status::Done, text)
}
