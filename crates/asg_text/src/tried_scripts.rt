//! Scripts over an instance.

ghost use Rattle.std.specs.Prelude.{◌≡◌, ◌≢◌, ◌≤◌, None, Some, IfErr, IfOk, IfSome, OnOk, length};
ghost use Rattle.std.specs.Option.{option_map};
ghost use Rattle.asg_model.specs.declared.edits.EditRefusal.TheVariants.{NoMemory as WantsMemory};
ghost use Rattle.asg_model.specs.Limits.{longest_file};
ghost use Rattle.asg_text.specs.ScriptFaults.{script_fault_of, script_refusal_numbers};
ghost use Rattle.asg_text.specs.ScriptRefusals.{numbers_of};
ghost use Rattle.asg_text.specs.TriedScripts.{HoldsLines, RefusesLines, after_line, first_refused};
ghost use Rattle.asg_text.specs.TriedScripts.{line_refusal, numbers_at, script_in, tried};

use crate::{Line, NoMemory, ScriptRefusal, read_script};
use asg_model::{EditRefusal, Instance, Objective};
use std::alloc::Global;

/// Why a script isn't followed.
#[derive(Clone, Copy, Debug, PartialEq, Eq)]
pub enum ScriptRefused {
    /// It is refused with this number at this line: 1 to 3 for its text, 11 to 17 for an edit.
    At { number: u32, line: u32 },
    /// There was not enough memory.
    NoMemory,
}

impl From<NoMemory> for ScriptRefused {
    ghost use Rattle.std.specs.Prelude.{◌≡◌};
    ghost use Rattle.asg_text.specs.declared.tried_scripts.ScriptRefused.TheVariants.{NoMemory};

    ghost from_gives = { λ _ refusal. refusal ≡ NoMemory };

    fn from(_: NoMemory) -> ScriptRefused {
        ScriptRefused::NoMemory
    }
}

// The refusal of the text of a script.
fn text_refused(refusal: ScriptRefusal) -> ScriptRefused
    ensures { numbers_of result ≡ option_map script_refusal_numbers (script_fault_of refusal) }
{
    match refusal {
        ScriptRefusal::BadScriptLine(line) => ScriptRefused::At { number: 1, line },
        ScriptRefusal::TooManyEdits(line) => ScriptRefused::At { number: 2, line },
        ScriptRefusal::CostRange(line) => ScriptRefused::At { number: 3, line },
        ScriptRefusal::NoMemory => ScriptRefused::NoMemory,
    }
}

// The refusal of an edit at a line.
fn edit_refused(refusal: EditRefusal, line: u32) -> ScriptRefused
    ensures { IfSome (numbers_of result) (λ numbers.
        (refusal ≢ WantsMemory) × (numbers ≡ numbers_at line refusal)) }
{
    match refusal {
        EditRefusal::NoSuchRow => ScriptRefused::At { number: 11, line },
        EditRefusal::NoSuchColumn => ScriptRefused::At { number: 12, line },
        EditRefusal::RowDropped => ScriptRefused::At { number: 13, line },
        EditRefusal::ColumnDropped => ScriptRefused::At { number: 14, line },
        EditRefusal::CostRange => ScriptRefused::At { number: 15, line },
        EditRefusal::LastRow => ScriptRefused::At { number: 16, line },
        EditRefusal::NegativeCost => ScriptRefused::At { number: 17, line },
        EditRefusal::NoMemory => ScriptRefused::NoMemory,
    }
}

// Follows a line with this number: an edit is carried out, or refused.
fn try_line(
    objective: Objective,
    inst: &mut Instance,
    number: u32,
    line: Line,
) -> Result<(), ScriptRefused>
    ensures passes { OnOk result (line_refusal objective inst.old line ≡ None) }
    ensures after { OnOk result (inst.new ≡ after_line inst.old line) }
    ensures refused { IfErr result (λ refused. IfSome (numbers_of refused) (λ numbers.
        option_map (numbers_at number) (line_refusal objective inst.old line) ≡ Some numbers)) }
{
    match line {
        Line::Solve => Ok(()),
        Line::Edit(edit) => match inst.edit(objective, edit) {
            Ok(()) => Ok(()),
            Err(refusal) => Err(edit_refused(refusal, number)),
        },
    }
}

// Tries the edits of lines in order.
fn try_lines(
    objective: Objective,
    inst: Instance,
    lines: &[(u32, Line)],
) -> Result<(), ScriptRefused>
    ensures passes { OnOk result (first_refused objective inst lines.now ≡ None) }
    ensures refused { IfErr result (λ refused. IfSome (numbers_of refused) (λ numbers.
        first_refused objective inst lines.now ≡ Some numbers)) }
{
    let mut now = inst;
    'lines: for place in 0..lines.len() {
        let (number, line) = lines[place];
        try_line(objective, &mut now, number, line)?;
    }
    Ok(())
}

// Lines whose edits have all been tried in order on a copy of the instance.
fn tried(
    alloc: Global,
    objective: Objective,
    inst: &Instance,
    lines: Vec<(u32, Line)>,
) -> Result<Vec<(u32, Line)>, ScriptRefused>
    ensures lines { IfOk result (λ held.
        tried (first_refused objective inst.now lines.items) lines.items ≡ HoldsLines held.items) }
    ensures refused { IfErr result (λ refused. IfSome (numbers_of refused) (λ numbers.
        tried (first_refused objective inst.now lines.items) lines.items
        ≡ RefusesLines numbers)) }
{
    let copy = inst.copy(alloc)?;
    try_lines(objective, copy, &lines)?;
    Ok(lines)
}

/// The lines of a script, each with its number, whose edits have all been tried in order on a copy
/// of the instance. The file has at most 268,435,456 bytes. Memory is taken for the lines and the
/// copy.
///
/// Errors: the refusal of the text, 1 to 3 as `crate::read_script` has them; else the first edit
/// that is refused after those before it, its number 10 more than that of its refusal, 11 to 17;
/// each with its line, counted from 1. `NoMemory` comes where memory ran out.
pub fn script(
    alloc: Global,
    objective: Objective,
    inst: &Instance,
    bytes: &[u8],
) -> Result<Vec<(u32, Line)>, ScriptRefused>
    requires { length bytes.now ≤ longest_file }
    ensures lines { IfOk result (λ lines.
        script_in objective inst.now bytes.now ≡ HoldsLines lines.items) }
    ensures refused { IfErr result (λ refused. IfSome (numbers_of refused) (λ numbers.
        script_in objective inst.now bytes.now ≡ RefusesLines numbers)) }
{
    match read_script(alloc, bytes) {
        Ok(lines) => tried(alloc, objective, inst, lines),
        Err(refusal) => Err(text_refused(refusal)),
    }
}
