//! Plain instances with their tables.

ghost use Rattle.std.specs.Prelude.{◌≡◌, IfOk, IfSome, IsTrue};
ghost use Rattle.asg_dual_bounds.specs.Plain.{IsPlain};
ghost use Rattle.asg_monoids.specs.NarrowObjectives.{is_narrow_objective};
ghost use Rattle.asg_dual_bounds.specs.Tables.{IsTableOf};

use crate::NoMemory;
use asg_dual_bounds::{NumberTable, is_plain};
use asg_model::{Instance, Objective};
use std::alloc::Global;

/// A plain instance with the table of its numbers by an objective.
#[derive(Drop)]
pub(crate) struct Ground<'a> {
    pub(crate) objective: Objective,
    pub(crate) inst: &'a Instance,
    pub(crate) table: NumberTable,
    ghost plain: { IsPlain inst.now },
    ghost same: { IsTableOf objective inst.now table },
}

impl Ground<'_> {
    /// The ground of an instance; `None` where it isn't plain. The error is want of memory.
    pub(crate) fn of(
        alloc: Global,
        objective: Objective,
        inst: &Instance,
    ) -> Result<Option<Ground<'_>>, NoMemory>
        requires { IsTrue (is_narrow_objective objective) }
        ensures { IfOk result (λ found. IfSome found (λ ground. (ground.objective ≡ objective)
            × (ground.inst.now ≡ inst.now))) }
    {
        if !is_plain(inst) {
            return Ok(None);
        }
        let table = NumberTable::of(alloc, objective, inst)?;
        Ok(Some(Ground {
            objective,
            inst,
            table,
        }))
    }
}
