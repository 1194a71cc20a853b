//! The refusals of an instance and of a script.

ghost use Rattle.std.specs.Prelude.{◌≡◌, ◌++◌, ◌∷◌, IfOk, string_bytes};
ghost use Rattle.std.specs.Fmt.{decimal};
ghost use Rattle.asg_doc.specs.Text.{spaced};
ghost use Rattle.asg_answers.specs.Replies.{IsReply};
ghost use Rattle.asg_answers.specs.Texts.{refused_instance_text, refused_script_text};

use crate::replies::Reply;
use crate::status::Status;
use asg_model::NoMemory;
use std::alloc::Global;

// Appends a number, behind a space. The error is want of memory.
fn push_number(alloc: Global, line: &mut String, number: u64) -> Result<(), NoMemory>
    ensures { IfOk result (λ _.
        string_bytes line.new ≡ string_bytes line.old ++ 32 ∷ decimal number) }
{
    let part = format!(in alloc; " {number}")?;
    line.push_str(part.as_str())?;
    Ok(())
}

// Appends numbers, each behind a space. The error is want of memory.
fn push_numbers(alloc: Global, line: &mut String, numbers: &[u64]) -> Result<(), NoMemory>
    ensures { IfOk result (λ _.
        string_bytes line.new ≡ string_bytes line.old ++ spaced numbers.now) }
{
    for number in numbers {
        push_number(alloc, line, *number)?;
    }
    Ok(())
}

/// The refusal of an instance with these numbers. The error is want of memory.
pub fn refusal(alloc: Global, numbers: &[u64]) -> Result<Reply, NoMemory>
    ensures { IfOk result (λ reply.
        IsReply reply Status.Instance (refused_instance_text numbers.now)) }
{
    let mut line = String::from_str(alloc, "refused instance")?;
    push_numbers(alloc, &mut line, numbers)?;
    line.push_str("\n")?;
    Ok(Reply::made(Status::Instance, line))
}

/// The refusal of a script with these numbers. The error is want of memory.
pub fn script_refusal(alloc: Global, numbers: &[u64]) -> Result<Reply, NoMemory>
    ensures { IfOk result (λ reply.
        IsReply reply Status.Script (refused_script_text numbers.now)) }
{
    let mut line = String::from_str(alloc, "refused script")?;
    push_numbers(alloc, &mut line, numbers)?;
    line.push_str("\n")?;
    Ok(Reply::made(Status::Script, line))
}
