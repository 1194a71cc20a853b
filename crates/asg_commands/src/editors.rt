//! How a request to edit begins: its files are read, and an editor is opened.

ghost use Rattle.std.specs.Prelude.{◌≡◌, ◌≤◌, IfErr, IfOk, IsTrue, length};
ghost use Rattle.asg_model.specs.Limits.{longest_file, most_side};
ghost use Rattle.asg_model.specs.Objectives.{is_algebraic};
ghost use Rattle.asg_model.specs.Refused.{PassesNegative};
ghost use Rattle.asg_model.specs.Shapes.{square_side};
ghost use Rattle.asg_commands.specs.Edits.{IsStarted, StopsJob};
ghost use Rattle.asg_commands.specs.Stops.{StopsScript};
ghost use Rattle.asg_text.specs.TriedScripts.{HoldsLines, script_in};
ghost use Rattle.asg_words.specs.Bounds.{IsJob};
ghost use Rattle.asg_promises.specs.Requests.{is_edit};

use crate::instances::instance;
use crate::scripts::script_lines;
use crate::sources::Sources;
use crate::stops::Stop;
use asg_edits::Editor;
use asg_model::{Instance, NoMemory};
use asg_promises::laws::instance_law;
use asg_text::Line;
use asg_words::Job;
use std::alloc::Global;

/// What is to be written: the editor of an instance, and the lines that it follows.
#[derive(Drop)]
pub struct Work {
    /// The editor of the instance.
    pub editor: Editor,
    /// The lines of the script, each with its number.
    pub lines: Vec<(u32, Line)>,
}

// An editor of the instance of a job. The error is want of memory.
fn editor(alloc: Global, job: &Job, inst: Instance) -> Result<Editor, NoMemory>
    requires algebraic { IsTrue (is_algebraic job.now.objective) }
    requires side { square_side inst ≤ most_side }
    requires passes { PassesNegative job.now.objective inst }
    ensures objective { IfOk result (λ editor. editor.objective ≡ job.now.objective) }
    ensures instance { IfOk result (λ editor. editor.instance ≡ inst) }
{
    if job.brief {
        Editor::open_brief(alloc, job.objective, inst)
    } else {
        Editor::open(alloc, job.objective, inst)
    }
}

// An editor of the instance for the lines. The error is want of memory.
fn opened(alloc: Global, job: &Job, inst: Instance, lines: Vec<(u32, Line)>) -> Result<Work, Stop>
    requires algebraic { IsTrue (is_algebraic job.now.objective) }
    requires side { square_side inst ≤ most_side }
    requires passes { PassesNegative job.now.objective inst }
    ensures objective { IfOk result (λ work. work.editor.objective ≡ job.now.objective) }
    ensures instance { IfOk result (λ work. work.editor.instance ≡ inst) }
    ensures lines { IfOk result (λ work. work.lines ≡ lines) }
    ensures stop { IfErr result (λ stop. stop ≡ Stop.NoMemory) }
{
    match editor(alloc, job, inst) {
        Ok(editor) => Ok(Work { editor, lines }),
        Err(_) => Err(Stop::NoMemory),
    }
}

// A script is read for the instance of the job, and an editor is opened.
fn scripted(alloc: Global, job: &Job, inst: Instance, script: &[u8]) -> Result<Work, Stop>
    requires within { IsJob job.now }
    requires edits { IsTrue (is_edit job.now.task) }
    requires short { length script.now ≤ longest_file }
    requires side { square_side inst ≤ most_side }
    requires passes { PassesNegative job.now.objective inst }
    ensures objective { IfOk result (λ work. work.editor.objective ≡ job.now.objective) }
    ensures instance { IfOk result (λ work. work.editor.instance ≡ inst) }
    ensures lines { IfOk result (λ work. script_in job.now.objective inst script.now
        ≡ HoldsLines work.lines.items) }
    ensures stop { IfErr result (StopsScript (script_in job.now.objective inst script.now)) }
{
    match script_lines(alloc, job, &inst, script) {
        Ok(lines) => opened(alloc, job, inst, lines),
        Err(stop) => Err(stop),
    }
}

/// The files of a job to edit are read, and an editor is opened.
pub fn started(alloc: Global, job: &Job, sources: &mut Sources) -> Result<Work, Stop>
    requires within { IsJob job.now }
    requires edits { IsTrue (is_edit job.now.task) }
    ensures started { IfOk result (IsStarted job.now sources.old) }
    ensures stop { IfErr result (StopsJob job.now sources.old) }
{
    instance_law();
    let bytes = sources.take(alloc, 0);
    let found = instance(alloc, job, bytes.as_slice());
    drop(bytes);
    match found {
        Ok(inst) => scripted(alloc, job, inst, sources.at(1)),
        Err(stop) => Err(stop),
    }
}
