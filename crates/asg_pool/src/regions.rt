//! Regions of trails.

ghost use Rattle.std.specs.Prelude.{◌≡◌, ◌<◌, ◌≤◌, ◌+◌, ℕ, [], length, max, Some, None, IfSome};
ghost use Rattle.std.specs.Prelude.{OnOk, OnErr, IfOk};
ghost use Rattle.asg_proof.specs.Phases.{phase_of};
ghost use Rattle.asg_pool.specs.Forest.{Forest, Branch, trail_at, IsLive, parent_of, phases_of};
ghost use Rattle.asg_pool.specs.Forest.{phases_to, last_phase, IsLeaf, Changes, IsForest, grown_on};
ghost use Rattle.asg_pool.specs.Links.{most_room};
ghost use Rattle.asg_pool.specs.Strips.{IsWider};

use crate::NoMemory;
use crate::links::Links;
use crate::records::Records;
use crate::strips::Strips;
use crate::trails::Trail;
use asg_proof::Phase;
use std::alloc::{AllocError, Global};
use std::marker::Model;

/// A forest of trails over a side. Each trail is a list of phases: that of its parent, if it has
/// one, and then one more. A phase is stored once, in a record of its own, and serves every trail
/// that grows on it.
///
/// Only `reserve` takes memory: for each record places for as many entries as the side (the size of
/// a step and 8 bytes each), and about 32 bytes more. What no phase is written into isn't touched.
/// `into_phases` copies the phases of a trail.
#[derive(Drop)]
pub struct Region<V: Copy> {
    side: u32,
    links: Links,
    steps: Strips<V>,
    enters: Strips<u32>,
    leaves: Strips<u32>,
}

impl<V: Copy> Model for Region<V> {
    ghost use Rattle.asg_pool.specs.Forest.{Forest};
    ghost use Rattle.asg_pool.specs.Paths.{forest_of, phase_at, IsRegion};

    ghost Value = { Forest V };

    ghost view = { λ r. forest_of r.side r.links (phase_at r.steps r.enters r.leaves) };

    ghost invariant = { λ r. IsRegion r.side r.links r.steps r.enters r.leaves };
}

impl<V: Copy> Region<V> {
    /// A region for phases over `side` rows and columns, with no trail and none spare. The error is
    /// want of memory.
    pub fn make(alloc: Global, side: u32) -> Result<Region<V>, NoMemory>
        ensures { IfOk result (λ r. r ≡ record { side = side; spare = 0; trails = [] }) }
    {
        Ok(Region {
            side,
            links: Links::new(alloc),
            steps: Strips::new(alloc, side),
            enters: Strips::new(alloc, side),
            leaves: Strips::new(alloc, side),
        })
    }

    /// Takes memory so that at least so many records are spare. Trails and their lists stay. The
    /// error is want of memory, and then all is as before.
    pub fn reserve(&mut self, records: u32) -> Result<(), NoMemory>
        ensures ok { OnOk result
            (self.new ≡ record self.old { spare = max self.old.spare records }) }
        ensures err { OnErr result (self.new ≡ self.old) }
    {
        let spare = self.links.spare();
        if records <= spare {
            return Ok(());
        }
        let room = room_with(self.links.room(), records - spare)?;
        widen(&mut self.steps, &mut self.enters, &mut self.leaves, room)?;
        self.links.reserve(room)
    }

    /// Pushes a phase on a trail, or on none, and gives the trail of both. `steps` are 1 to side
    /// values, `enters` and `leaves` a step for each row and each column. A record must be spare,
    /// and one fewer is then. Every other trail keeps its list and its parent. It takes no memory.
    pub fn push(
        &mut self,
        parent: Option<Trail>,
        steps: &[V],
        enters: &[u32],
        leaves: &[u32],
    ) -> Trail
        requires spare { 1 ≤ self.old.spare }
        requires parent { IfSome parent (IsLive self.old) }
        requires some_steps { 1 ≤ length steps.now }
        requires few_steps { length steps.now ≤ self.old.side }
        requires enters { length enters.now ≡ self.old.side }
        requires leaves { length leaves.now ≡ self.old.side }
        ensures new { trail_at self.old result ≡ None }
        ensures trails { let phase = phase_of steps.now enters.now leaves.now in
            Changes self.old self.new result (Some (grown_on self.old parent phase)) }
        ensures spare { self.new.spare + 1 ≡ self.old.spare }
        ensures side { self.new.side ≡ self.old.side }
    {
        let number = self.push_record(number_of(parent), steps, enters, leaves);
        Trail::at(number)
    }

    // Writes a phase into a free record behind another one, or behind none, and gives its number.
    fn push_record(
        &mut self,
        parent: Option<u32>,
        steps: &[V],
        enters: &[u32],
        leaves: &[u32],
    ) -> u32
        requires spare { 1 ≤ self.old.spare }
        requires parent { IfSome parent (IsLive self.old) }
        requires some_steps { 1 ≤ length steps.now }
        requires few_steps { length steps.now ≤ self.old.side }
        requires enters { length enters.now ≡ self.old.side }
        requires leaves { length leaves.now ≡ self.old.side }
        ensures new { trail_at self.old result ≡ None }
        ensures trails { let phase = phase_of steps.now enters.now leaves.now in
            Changes self.old self.new result (Some (grown_on self.old parent phase)) }
        ensures spare { self.new.spare + 1 ≡ self.old.spare }
        ensures side { self.new.side ≡ self.old.side }
    {
        let depth = self.depth_to(parent) + 1;
        let number = self.links.insert(parent, depth);
        self.steps.put(number, steps);
        self.enters.put(number, enters);
        self.leaves.put(number, leaves);
        number
    }

    /// Frees the record of a trail that is no live trail's parent. It is live no more, every other
    /// trail keeps its list and its parent, and one more record is spare. It takes no memory.
    pub fn release(&mut self, trail: Trail)
        requires live { IsLive self.old trail }
        requires leaf { IsLeaf self.old trail }
        ensures trails { Changes self.old self.new trail None }
        ensures spare { self.new.spare ≡ self.old.spare + 1 }
        ensures side { self.new.side ≡ self.old.side }
    {
        self.links.remove(trail.number());
    }

    /// The trail that a trail grew on, or `None` exactly where it grew on none.
    pub fn parent(&self, trail: Trail) -> Option<Trail>
        requires { IsLive self.now trail }
        ensures value { result ≡ parent_of self.now trail }
        ensures forest { IsForest self.now }
    {
        trail_of(self.links.link(trail.number()).parent)
    }

    /// How many phases the list of a trail has.
    pub fn len(&self, trail: Trail) -> u32
        requires { IsLive self.now trail }
        ensures value { result ≡ length (phases_of self.now trail) }
        ensures forest { IsForest self.now }
    {
        self.links.link(trail.number()).depth
    }

    /// The steps of the last phase of a trail.
    pub fn steps(&self, trail: Trail) -> &[V]
        requires { IsLive self.now trail }
        ensures value { result.now ≡ (last_phase (phases_of self.now trail)).steps }
        ensures forest { IsForest self.now }
    {
        self.steps.row(trail.number())
    }

    /// For each row, the step at which it enters in the last phase of a trail.
    pub fn enters(&self, trail: Trail) -> &[u32]
        requires { IsLive self.now trail }
        ensures value { result.now ≡ (last_phase (phases_of self.now trail)).enters }
        ensures forest { IsForest self.now }
    {
        self.enters.row(trail.number())
    }

    /// For each column, the step at which it leaves in the last phase of a trail.
    pub fn leaves(&self, trail: Trail) -> &[u32]
        requires { IsLive self.now trail }
        ensures value { result.now ≡ (last_phase (phases_of self.now trail)).leaves }
        ensures forest { IsForest self.now }
    {
        self.leaves.row(trail.number())
    }

    /// The phases that lead to a trail, in order; none where there is no trail. The region is given
    /// away: these phases are copied, and all else is let go of. The error is want of memory for the
    /// copies.
    pub fn into_phases(self, alloc: Global, last: Option<Trail>) -> Result<Vec<Phase<V>>, NoMemory>
        requires { IfSome last (IsLive self) }
        ensures { IfOk result (λ phases. phases.items ≡ phases_to self last) }
    {
        let Region {
            side: _,
            links,
            steps,
            enters,
            leaves,
        } = self;
        let records = Records {
            steps,
            enters,
            leaves,
        };
        records.phases_to(alloc, &links, number_of(last))
    }

    /// How many records are spare.
    pub fn spare(&self) -> u32
        ensures spare { result ≡ self.now.spare }
        ensures forest { IsForest self.now }
    {
        self.links.spare()
    }

    // How many phases the list up to the trail with a number has.
    fn depth_to(&self, number: Option<u32>) -> u32
        requires { IfSome number (IsLive self.now) }
        ensures value { result ≡ length (phases_to self.now number) }
        ensures most { result ≤ most_room }
    {
        self.links.depth_to(number)
    }
}

// So much room and more, where the number of each record still fits. The error is that it doesn't.
fn room_with(room: u32, more: u32) -> Result<u32, NoMemory>
    ensures sum { IfOk result (λ n. n ≡ room + more) }
    ensures most { IfOk result (λ n. n ≤ most_room) }
{
    match room.checked_add(more) {
        Some(n) if n < u32::MAX => Ok(n),
        _ => Err(AllocError),
    }
}

// Takes memory for so many rows in all of each of three strips. The error is want of memory.
fn widen<V: Copy>(
    steps: &mut Strips<V>,
    enters: &mut Strips<u32>,
    leaves: &mut Strips<u32>,
    room: u32,
) -> Result<(), NoMemory>
    ensures steps { IsWider steps.old steps.new }
    ensures enters { IsWider enters.old enters.new }
    ensures leaves { IsWider leaves.old leaves.new }
    ensures ok { OnOk result
        ((room ≤ steps.new.room) × (room ≤ enters.new.room) × (room ≤ leaves.new.room)) }
{
    steps.reserve(room)?;
    enters.reserve(room)?;
    leaves.reserve(room)
}

// The number of a trail.
fn number_of(trail: Option<Trail>) -> Option<u32>
    ensures { result ≡ trail }
{
    match trail {
        Some(trail) => Some(trail.number()),
        None => None,
    }
}

// The trail with a number.
fn trail_of(number: Option<u32>) -> Option<Trail>
    ensures { result ≡ number }
{
    match number {
        Some(number) => Some(Trail::at(number)),
        None => None,
    }
}
