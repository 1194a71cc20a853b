//! By how much columns may rise, as searches tell it. Nothing here is tested.

use crate::NoMemory;
use std::alloc::Global;

/// By how much columns may rise: by what their dual variables are below 0. The error is want of
/// memory.
pub(crate) fn rises_of(alloc: Global, duals: &[i64]) -> Result<Vec<u64>, NoMemory> {
    let mut rises = Vec::with_capacity(alloc, duals.len())?;
    for column in 0..duals.len() {
        rises.push(duals[column].min(0).unsigned_abs())?;
    }
    Ok(rises)
}

/// Numbers in 64 bits. The error is want of memory.
pub(crate) fn widened(alloc: Global, numbers: &[u32]) -> Result<Vec<u64>, NoMemory> {
    let mut wide = Vec::with_capacity(alloc, numbers.len())?;
    for number in numbers {
        wide.push(u64::from(*number))?;
    }
    Ok(wide)
}
