//! Whether windows prove a spread.

ghost use Rattle.std.specs.Prelude.{◌≡◌, ◌*◌, ◌≤ℤ◌, ◌<ℤ◌, pos, IfOk, IsTrue};
ghost use Rattle.std.specs.Bool.{OnTrue};
ghost use Rattle.asg_model.specs.Limits.{most_cost};
ghost use Rattle.asg_proof.specs.Windows.{ProvesSpread};

use crate::NoMemory;
use crate::capacities::are_short;
use crate::cells::pass_cells;
use crate::marks::Marks;
use crate::named::name_all;
use crate::orders::are_ascending;
use crate::stretches::stretches_of;
use crate::tables::Table;
use asg_model::Instance;
use asg_proof::Window;
use std::alloc::Global;

/// The greatest number of windows that are tested at once.
const MOST_WINDOWS: usize = 20_000;

/// Whether it is shown that windows prove a spread of the instance. True: they do. False leaves it
/// open, as where the ends of windows don't ascend, or where there are more than 20,000. It reads
/// the cells once, and takes time in proportion to them and to the rows of the windows. The error is
/// want of memory.
pub fn proves_spread(
    alloc: Global,
    inst: &Instance,
    spread: i128,
    windows: &[Window],
) -> Result<bool, NoMemory>
    requires some { pos 0 <ℤ spread }
    requires few { spread ≤ℤ pos (2 * most_cost) }
    ensures { IfOk result (λ yes. OnTrue yes (ProvesSpread inst.now spread windows.now)) }
{
    if windows.len() > MOST_WINDOWS || !are_ascending(windows) {
        return Ok(false);
    }
    let stretches = stretches_of(alloc, spread, windows)?;
    let table = Table::make(alloc, stretches)?;
    let mut named = Marks::make(alloc, inst.rows().len(), windows.len())?;
    if !name_all(inst, windows, &mut named) {
        return Ok(false);
    }
    let mut reached = Marks::make(alloc, inst.columns().len(), windows.len())?;
    if !pass_cells(inst, &table, &named, &mut reached) {
        return Ok(false);
    }
    Ok(are_short(inst, windows, &reached))
}
