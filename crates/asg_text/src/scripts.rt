//! Scripts.

ghost use Rattle.std.specs.Prelude.{◌≡◌, ◌≤◌, ◌∷◌, ◌++◌, [], Some, length, IfOk, OnOk, IfErr, IfSome};
ghost use Rattle.asg_model.specs.Limits.{longest_file};
ghost use Rattle.asg_tokens.specs.Pieces.{fields};
ghost use Rattle.asg_text.specs.ScriptFaults.{script_fault_of};
ghost use Rattle.asg_text.specs.ScriptLines.{script_line_of};
ghost use Rattle.asg_text.specs.ScriptSteps.{IsEarliestFault, faults_behind, lines_of};
ghost use Rattle.asg_text.specs.Scripts.{SpellsLines, TellsOfScript, line_faults, most_script_lines, reading_of_script};

use crate::script_lines::{Line, read_line};
use crate::script_refusals::ScriptRefusal;
use asg_tokens::{first_line, is_at_end};
use std::alloc::Global;

/// The greatest number of lines of a script that aren't blank.
pub const MOST_SCRIPT_LINES: usize = 10_000;

/// The lines of a script that aren't blank, each with its number, or the earliest fault for which
/// the script is refused. Lines count from 1, the blank ones too; fields have spaces and tabs
/// between them. The file has at most 268,435,456 bytes; time grows with its length, memory with
/// the number of lines that aren't blank.
///
/// - `cost ROW COL COST` gives a cell a cost, an integer or a pair `a:b` of integers; `forbid ROW
///   COL` takes it out; `drop-row ROW` drops a row, `drop-column COL` closes a column; at `solve`
///   an answer is due.
/// - Ids are at most 4,294,967,295, costs lie between -10^9 and 10^9, and zeros may lead. Whether
///   an instance has the ids isn't asked.
///
/// Errors: at the first line that has one, `TooManyEdits` at the 10,001st line that isn't blank,
/// whatever it says, else `BadScriptLine` where a line has no form, or `CostRange`. `NoMemory`
/// comes where memory ran out.
pub fn read_script(alloc: Global, bytes: &[u8]) -> Result<Vec<(u32, Line)>, ScriptRefusal>
    requires { length bytes.now ≤ longest_file }
    ensures lines { IfOk result (λ script. reading_of_script bytes.now ≡ SpellsLines script.items) }
    ensures refused { IfErr result (TellsOfScript (reading_of_script bytes.now)) }
{
    let mut script = Vec::new(alloc);
    let mut rest = bytes;
    let mut number = 0;
    while let Some(first) = first_line(rest) {
        number += 1;
        put_line(&mut script, first.bytes, number)?;
        rest = first.rest;
    }
    Ok(script)
}

// Puts a line with this number behind those of a script, unless it is blank.
fn put_line(script: &mut Vec<(u32, Line)>, text: &[u8], number: u32) -> Result<(), ScriptRefusal>
    requires few { length script.old.items ≤ most_script_lines }
    ensures few { OnOk result (length script.new.items ≤ most_script_lines) }
    ensures right { OnOk result
        (faults_behind (length script.old.items) number (fields text.now) ≡ []) }
    ensures put { OnOk result
        (script.new.items ≡ script.old.items ++ lines_of number (fields text.now)) }
    ensures refused { IfErr result
        (IsEarliestFault (faults_behind (length script.old.items) number (fields text.now))) }
{
    if is_at_end(text) {
        return Ok(());
    }
    if script.len() == MOST_SCRIPT_LINES {
        return Err(ScriptRefusal::TooManyEdits(number));
    }
    let line = line_at(text, number)?;
    script.push((number, line))?;
    Ok(())
}

// What a line with this number says.
fn line_at(text: &[u8], number: u32) -> Result<Line, ScriptRefusal>
    ensures says { IfOk result (λ line. script_line_of (fields text.now) ≡ Some line) }
    ensures right { IfOk result (λ line.
        line_faults number (script_line_of (fields text.now)) ≡ []) }
    ensures refused { IfErr result (λ refusal. IfSome (script_fault_of refusal) (λ fault.
        line_faults number (script_line_of (fields text.now)) ≡ fault ∷ [])) }
{
    match read_line(text) {
        Some(Some(line)) => Ok(line),
        Some(None) => Err(ScriptRefusal::CostRange(number)),
        None => Err(ScriptRefusal::BadScriptLine(number)),
    }
}
