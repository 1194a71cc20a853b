//! The brief lines of instances.

ghost use Rattle.std.specs.Prelude.{◌≡◌, IfOk};
ghost use Rattle.asg_model.specs.Best.{IsBest};
ghost use Rattle.asg_brief.specs.BestValues.{HasNoChoice};
ghost use Rattle.asg_brief.specs.BriefLines.{HasFittingCosts, IsBestLine, IsNoneLine};
ghost use Rattle.asg_brief.specs.BriefLines.{best_text, ranked_text};

use crate::NoMemory;
use crate::brief_lines::BriefLine;
use crate::laws::best_value_law;
use crate::line_bytes::{push, push_count, push_value, push_word};
use asg_model::{Choice, Instance, Objective, Value};
use asg_values::value;
use std::alloc::Global;

// Room for most lines.
const LINE_ROOM: usize = 64;

// The line of a best choice with so many cells and this value. The error is want of memory.
pub(crate) fn value_line(
    alloc: Global,
    objective: Objective,
    cells: u32,
    value: &Value,
) -> Result<BriefLine, NoMemory>
    requires { HasFittingCosts value.now }
    ensures { IfOk result (λ line. line ≡ best_text objective cells value.now) }
{
    let mut line = Vec::with_capacity(alloc, LINE_ROOM)?;
    push(&mut line, b"best ")?;
    push_word(&mut line, objective)?;
    push_count(&mut line, cells)?;
    push_value(&mut line, value)?;
    push(&mut line, b"\n")?;
    Ok(BriefLine::of(line))
}

/// The brief line of an instance by one of its best choices: `best`, the word of the objective, the
/// number of cells, and the value as documents write it. The error is want of memory.
pub fn best_line(
    alloc: Global,
    objective: Objective,
    inst: &Instance,
    choice: &Choice,
) -> Result<BriefLine, NoMemory>
    requires { IsBest objective inst.now choice.now }
    ensures { IfOk result (IsBestLine objective inst.now) }
{
    best_value_law();
    let value = value(alloc, objective, inst, choice)?;
    value_line(alloc, objective, inst.placed(), &value)
}

/// The brief line of an instance without a valid choice: `none` and the word of the objective. The
/// error is want of memory.
pub fn none_line(
    alloc: Global,
    objective: Objective,
    inst: &Instance,
) -> Result<BriefLine, NoMemory>
    requires { HasNoChoice inst.now }
    ensures { IfOk result (IsNoneLine objective inst.now) }
{
    let _rows = inst.rows();
    let mut line = Vec::new(alloc);
    push(&mut line, b"none ")?;
    push_word(&mut line, objective)?;
    push(&mut line, b"\n")?;
    Ok(BriefLine::of(line))
}

// The line of a ranking: how many answers it has, how many were asked for, and the values of the
// first and the last. The error is want of memory.
pub(crate) fn ends_line(
    alloc: Global,
    objective: Objective,
    answers: u32,
    count: u32,
    first: &Value,
    last: &Value,
) -> Result<BriefLine, NoMemory>
    requires first { HasFittingCosts first.now }
    requires last { HasFittingCosts last.now }
    ensures { IfOk result (λ line.
        line ≡ ranked_text objective answers count first.now last.now) }
{
    let mut line = Vec::new(alloc);
    push(&mut line, b"ranked ")?;
    push_word(&mut line, objective)?;
    push_count(&mut line, answers)?;
    push_count(&mut line, count)?;
    push_value(&mut line, first)?;
    push_value(&mut line, last)?;
    push(&mut line, b"\n")?;
    Ok(BriefLine::of(line))
}
