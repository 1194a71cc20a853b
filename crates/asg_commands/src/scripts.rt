//! The stage of the script: it is read, and its edits are tried.

ghost use Rattle.std.specs.Prelude.{◌≡◌, ◌≤◌, IfErr, IfOk, length};
ghost use Rattle.asg_model.specs.Limits.{longest_file};
ghost use Rattle.asg_text.specs.TriedScripts.{HoldsLines, script_in};
ghost use Rattle.asg_commands.specs.Stops.{StopsScript};

use crate::stops::{Stop, stopped};
use asg_answers::script_refusal;
use asg_model::Instance;
use asg_text::{Line, ScriptRefused, script};
use asg_words::Job;
use std::alloc::Global;

// The lines of a job's script of these bytes, whose edits have been tried on a copy of the
// instance.
pub(crate) fn script_lines(
    alloc: Global,
    job: &Job,
    inst: &Instance,
    bytes: &[u8],
) -> Result<Vec<(u32, Line)>, Stop>
    requires { length bytes.now ≤ longest_file }
    ensures held { IfOk result (λ lines.
        script_in job.now.objective inst.now bytes.now ≡ HoldsLines lines.items) }
    ensures stop { IfErr result (StopsScript (script_in job.now.objective inst.now bytes.now)) }
{
    match script(alloc, job.objective, inst, bytes) {
        Ok(lines) => Ok(lines),
        Err(ScriptRefused::At { number, line }) => Err(stopped(script_refusal(
            alloc,
            &[u64::from(number), u64::from(line)],
        ))),
        Err(ScriptRefused::NoMemory) => Err(Stop::NoMemory),
    }
}
