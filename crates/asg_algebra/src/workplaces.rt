//! What a solver works in beside the square.

ghost use Rattle.std.specs.Prelude.{◌≡◌, [], IfOk};
ghost use Rattle.asg_algebra.specs.Workplaces.{IsFresh};

use crate::NoMemory;
use crate::bench::Bench;
use asg_match::Matching;
use asg_pool::Region;
use std::alloc::Global;

/// The columns of the rows of a square, the memory of a solver and its phases.
#[derive(Drop)]
pub struct Workplace<V: Copy> {
    /// The column of each row that has one.
    pub matching: Matching,
    /// The memory of the solver.
    pub bench: Bench<V>,
    /// The phases, with room for more.
    pub region: Region<V>,
}

// A region without trails, with so many records spare. The error is want of memory.
pub(crate) fn spare_region<V: Copy>(
    alloc: Global,
    side: u32,
    records: u32,
) -> Result<Region<V>, NoMemory>
    ensures { IfOk result (λ r. r ≡ record { side = side; spare = records; trails = [] }) }
{
    let mut region = Region::make(alloc, side)?;
    region.reserve(records)?;
    Ok(region)
}

impl<V: Copy> Workplace<V> {
    /// A workplace for squares of a side: no row has a column, no phase was pushed, and so many
    /// records are spare, one for each phase. The error is want of memory.
    pub fn make(alloc: Global, side: u32, records: u32) -> Result<Workplace<V>, NoMemory>
        ensures fresh { IfOk result (IsFresh side) }
        ensures spare { IfOk result (λ place. place.region.spare ≡ records) }
    {
        let matching = Matching::make(alloc, side)?;
        let region = spare_region(alloc, side, records)?;
        let bench = Bench::make(alloc, side)?;
        Ok(Workplace {
            matching,
            bench,
            region,
        })
    }
}
