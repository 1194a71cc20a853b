//! Costs from the greatest down.

ghost use Rattle.std.specs.Prelude.{◌≡◌, IfOk};
ghost use Rattle.asg_model.specs.Values.{first_parts};
ghost use Rattle.asg_model.specs.Descending.{descending};

use asg_model::{Cost, Costs, NoMemory};
use std::alloc::Global;

// The first parts in non-increasing order. The error is want of memory.
pub(crate) fn descending(alloc: Global, costs: &[Cost]) -> Result<Costs, NoMemory>
    ensures { IfOk result (λ list. list ≡ descending (first_parts costs.now)) }
{
    let mut parts = first_parts(alloc, costs)?;
    parts.sort_unstable();
    parts.reverse();
    Ok(Costs::from_vec(parts))
}

// The first parts in order. The error is want of memory.
fn first_parts(alloc: Global, costs: &[Cost]) -> Result<Vec<i64>, NoMemory>
    ensures { IfOk result (λ v. v.items ≡ first_parts costs.now) }
{
    costs.iter().map(|cost| cost.a).collect(alloc)
}
