//! The brief lines of instances whose best sum is known.

ghost use Rattle.std.specs.Prelude.{◌≡◌, IfOk};
ghost use Rattle.asg_model.specs.declared.objectives.Value.TheVariants.{One};
ghost use Rattle.asg_model.specs.Counts.{placed};
ghost use Rattle.asg_brief.specs.BestValues.{IsBestValue};
ghost use Rattle.asg_brief.specs.BriefLines.{IsBestLine};

use crate::NoMemory;
use crate::brief_lines::BriefLine;
use crate::lines::value_line;
use asg_model::{Instance, Objective, Value};
use std::alloc::Global;

/// The brief line of an instance by how many rows its valid choices place and by the sum of its
/// best choices, which is their value. The error is want of memory.
pub fn sum_line(
    alloc: Global,
    objective: Objective,
    inst: &Instance,
    cells: u32,
    sum: i128,
) -> Result<BriefLine, NoMemory>
    requires cells { cells ≡ placed inst.now }
    requires sum { IsBestValue objective inst.now (One sum) }
    ensures { IfOk result (IsBestLine objective inst.now) }
{
    let _ = inst;
    value_line(alloc, objective, cells, &Value::One(sum))
}
