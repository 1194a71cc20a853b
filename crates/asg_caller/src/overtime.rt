//! Instances of three crews and three duties.

ghost use Rattle.std.specs.Prelude.{◌≡◌, ◌≤◌, [], All, IfOk};
ghost use Rattle.asg_model.specs.Limits.{most_side};
ghost use Rattle.asg_model.specs.Shapes.{square_side};
ghost use Rattle.asg_model.specs.Table.{table_cells};
ghost use Rattle.asg_model.specs.ValueRange.{IsPartInRange};
ghost use Rattle.asg_caller.specs.Overtime.{crew, duty};

use asg_model::{Column, Instance, NoMemory, Place, Row};
use std::alloc::Global;

/// Hours of overtime: those of the first crew on the three duties, then those of the others.
pub type Hours = [i64; 9];

/// The instance in which each crew is to take a duty, and each duty one crew. The error is want of
/// memory.
pub fn three_by_three(alloc: Global, hours: &Hours) -> Result<Instance, NoMemory>
    requires { All IsPartInRange hours.now }
    ensures cells { IfOk result (λ X. X.cells ≡ table_cells 3 hours.now []) }
    ensures side { IfOk result (λ X. square_side X ≤ most_side) }
{
    let rows = vec![in alloc; row(1), row(2), row(3)]?;
    let columns = vec![in alloc; column(1), column(2), column(3)]?;
    let costs = Vec::from_slice(alloc, hours)?;
    Ok(Instance::of_table(rows, columns, costs, Vec::new(alloc), Place::All))
}

// A crew, which is to take a duty.
fn row(id: u32) -> Row
    ensures { result ≡ crew id }
{
    Row { id, active: true }
}

// A duty, which one crew may take.
fn column(id: u32) -> Column
    ensures { result ≡ duty id }
{
    Column {
        id,
        cap: 1,
        usable: true,
    }
}
