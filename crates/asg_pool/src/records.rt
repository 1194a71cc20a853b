//! Phases that are copied out of the records of a region.

ghost use Rattle.std.specs.Prelude.{◌≡◌, ◌<◌, [], length, IsSome, IfSome, IfOk, OnOk, reverse};
ghost use Rattle.asg_pool.specs.Links.{link_at};
ghost use Rattle.asg_pool.specs.Paths.{path, depth_at, phase_at, AreRooted, HaveRowsFor};

use crate::NoMemory;
use crate::links::Links;
use crate::strips::Strips;
use asg_proof::Phase;
use std::alloc::Global;

// For each record the steps of its phase, and the steps at which rows enter and columns leave.
#[derive(Drop)]
pub(crate) struct Records<V: Copy> {
    pub(crate) steps: Strips<V>,
    pub(crate) enters: Strips<u32>,
    pub(crate) leaves: Strips<u32>,
}

impl<V: Copy> Records<V> {
    // The phase of a record. The error is want of memory.
    fn phase(&self, alloc: Global, k: u32) -> Result<Phase<V>, NoMemory>
        requires steps { k < length self.now.steps.rows }
        requires enters { k < length self.now.enters.rows }
        requires leaves { k < length self.now.leaves.rows }
        ensures { IfOk result (λ phase. phase
            ≡ phase_at self.now.steps self.now.enters self.now.leaves k) }
    {
        let steps = Vec::from_slice(alloc, self.steps.row(k))?;
        let enters = Vec::from_slice(alloc, self.enters.row(k))?;
        let leaves = Vec::from_slice(alloc, self.leaves.row(k))?;
        Ok(Phase::of(steps, enters, leaves))
    }

    // Copies the phases on the way to a record, if there is one, into an empty list, the last one
    // first. The error is want of memory.
    fn unwind(
        &self,
        alloc: Global,
        links: &Links,
        last: Option<u32>,
        phases: &mut Vec<Phase<V>>,
    ) -> Result<(), NoMemory>
        requires rooted { AreRooted links.now.slots }
        requires rows { HaveRowsFor links.now.slots self.now.steps self.now.enters self.now.leaves }
        requires there { IfSome last (λ k. IsSome (link_at links.now.slots k)) }
        requires empty { phases.old.items ≡ [] }
        ensures { let slots = links.now.slots in OnOk result (reverse phases.new.items
            ≡ path slots (phase_at self.now.steps self.now.enters self.now.leaves)
            (depth_at slots last) last) }
    {
        let mut next = last;
        'records: while let Some(k) = next {
            phases.push(self.phase(alloc, k)?)?;
            next = links.link(k).parent;
        }
        Ok(())
    }

    // The phases on the way to a record, if there is one. The error is want of memory.
    pub(crate) fn phases_to(
        &self,
        alloc: Global,
        links: &Links,
        last: Option<u32>,
    ) -> Result<Vec<Phase<V>>, NoMemory>
        requires rooted { AreRooted links.now.slots }
        requires rows { HaveRowsFor links.now.slots self.now.steps self.now.enters self.now.leaves }
        requires there { IfSome last (λ k. IsSome (link_at links.now.slots k)) }
        ensures { let slots = links.now.slots in IfOk result (λ phases. phases.items
            ≡ path slots (phase_at self.now.steps self.now.enters self.now.leaves)
            (depth_at slots last) last) }
    {
        let mut phases = Vec::with_capacity(alloc, links.depth_to(last) as usize)?;
        self.unwind(alloc, links, last, &mut phases)?;
        phases.reverse();
        Ok(phases)
    }
}
