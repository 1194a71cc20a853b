//! Phases as a chain of trails.

ghost use Rattle.std.specs.Prelude.{◌≡◌, ◌≤◌, true, length, take, IfSome, OnOk, vec_capacity};
ghost use Rattle.asg_pool.specs.Forest.{IsLive, phases_to};
ghost use Rattle.asg_kept_phases.specs.PhaseChains.{phases_in, IsPhaseChain, IsWayTo};

use crate::NoMemory;
use crate::released_trails::release_to;
use asg_pool::{Region, Trail};
use std::alloc::Global;

/// Phases, as a chain of trails in a region, each grown on the one before it, and the trails on the
/// way to the last one where they are told.
#[derive(Drop)]
pub struct PhaseChain<V: Copy> {
    /// The region, which has no other trails.
    pub region: Region<V>,
    /// The last trail, if there is one.
    pub last: Option<Trail>,
    /// The trails on the way to the last one, that one last, where they are told.
    pub way: Vec<Trail>,
    /// Whether they are told.
    pub is_told: bool,
}

/// Writes the trails on the way to a trail, that one last; none where there is no trail. There is
/// room for them.
pub(crate) fn tell_way<V: Copy>(region: &Region<V>, last: Option<Trail>, way: &mut Vec<Trail>)
    requires live { IfSome last (IsLive region.now) }
    requires room { length (phases_to region.now last) ≤ vec_capacity way.old }
    ensures { IsWayTo region.now last way.new.items }
{
    way.clear();
    let mut next = last;
    'trails: while let Some(trail) = next {
        next = region.parent(trail);
        way.push_reserved(trail);
    }
    way.reverse();
}

/// Makes room for so many trails in a list, which is empty then. The error is want of memory.
pub(crate) fn make_room(way: &mut Vec<Trail>, count: u32) -> Result<(), NoMemory>
    ensures { OnOk result (count ≤ vec_capacity way.new) }
{
    way.clear();
    way.reserve(count as usize)?;
    Ok(())
}

impl<V: Copy> PhaseChain<V> {
    /// The chain up to a trail of a region, if there is one. It takes no memory.
    pub fn of(alloc: Global, region: Region<V>, last: Option<Trail>) -> PhaseChain<V>
        ensures region { result.region ≡ region }
        ensures last { result.last ≡ last }
        ensures untold { result.is_told ≡ true
            → IsWayTo result.region result.last result.way.items }
    {
        PhaseChain {
            region,
            last,
            way: Vec::new(alloc),
            is_told: false,
        }
    }

    /// How many phases there are.
    pub fn len(&self) -> u32
        requires { IsPhaseChain self.now }
        ensures { result ≡ length (phases_in self.now) }
    {
        match self.last {
            Some(trail) => self.region.len(trail),
            None => 0,
        }
    }

    /// Sees to it that so many records are spare and that the way is told. The error is want of
    /// memory; then the phases are the same, and the way is told where it was.
    pub fn prepare(&mut self, records: u32) -> Result<(), NoMemory>
        requires { IsPhaseChain self.old }
        ensures chain { IsPhaseChain self.new }
        ensures phases { phases_in self.new ≡ phases_in self.old }
        ensures side { self.new.region.side ≡ self.old.region.side }
        ensures spare { OnOk result (records ≤ self.new.region.spare) }
        ensures told { OnOk result (self.new.is_told ≡ true) }
        ensures more { self.old.region.spare ≤ self.new.region.spare }
        ensures kept { self.old.is_told ≡ true → self.new.is_told ≡ true }
    {
        self.region.reserve(records)?;
        if self.is_told {
            return Ok(());
        }
        let count = self.len();
        make_room(&mut self.way, count)?;
        tell_way(&self.region, self.last, &mut self.way);
        self.is_told = true;
        Ok(())
    }

    /// Keeps the first so many phases, and releases the trails of the others. It takes no memory.
    pub fn cut(&mut self, count: u32)
        requires chain { IsPhaseChain self.old }
        requires told { self.old.is_told ≡ true }
        requires few { count ≤ length (phases_in self.old) }
        ensures chain { IsPhaseChain self.new }
        ensures told { self.new.is_told ≡ true }
        ensures phases { phases_in self.new ≡ take count (phases_in self.old) }
        ensures side { self.new.region.side ≡ self.old.region.side }
        ensures spare { self.old.region.spare ≤ self.new.region.spare }
    {
        if count < self.len() {
            self.last = release_to(&mut self.region, self.last, count);
            tell_way(&self.region, self.last, &mut self.way);
        }
    }
}
