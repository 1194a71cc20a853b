//! Phases from dual variables.

ghost use Rattle.std.specs.Prelude.{◌≡◌, ◌<◌, ◌≤◌, ◌^◌, ℕ, length, IfOk};

use crate::NoMemory;
use crate::duals::Duals;
use crate::gradual::Conversion;
use asg_proof::Phase;
use std::alloc::Global;

// The greatest power of 2 within the greatest side.
const MOST_LIMIT: usize = 1024;

// The phases that a conversion gives, one after the other, for so many rows.
fn phases_of(
    alloc: Global,
    conversion: &mut Conversion,
    side: usize,
) -> Result<Vec<Phase<u64>>, NoMemory>
    ensures few { IfOk result (λ phases. (k : ℕ) → k < length phases.items → 2 ^ k ≤ side) }
{
    let mut phases = Vec::new(alloc);
    let mut limit = 1;
    'phases: for _ in 0..12 {
        if !conversion.has_more() || limit > side {
            break;
        }
        if limit > MOST_LIMIT {
            break;
        }
        phases.push(conversion.next(alloc)?)?;
        limit *= 2;
    }
    Ok(phases)
}

/// Phases from dual variables that are tight on an assignment: at most as many as the side has
/// binary digits, each in time side times its logarithm. They lead the square to cells that are 0
/// on the assignment, and below 0 nowhere, but no clause says so: whoever takes them tests each.
/// The first phase closes gaps between spans and cuts a chain of them, each further one halves what
/// is left. The error is want of memory.
pub fn short_phases(alloc: Global, duals: &Duals) -> Result<Vec<Phase<u64>>, NoMemory>
    ensures few { IfOk result (λ phases. (k : ℕ) → k < length phases.items
        → 2 ^ k ≤ length duals.now.columns) }
{
    let columns = duals.columns();
    let mut conversion = Conversion::of(alloc, columns, duals.falls(), duals.rises())?;
    let phases = phases_of(alloc, &mut conversion, columns.len());
    drop(conversion);
    phases
}
