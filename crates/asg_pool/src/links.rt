//! The table of the records of a region: which trail each one grew on.

ghost use Rattle.std.specs.Prelude.{◌≡◌, ◌<◌, ◌≤◌, ◌+◌, [], length, max, Some, None, IsSome};
ghost use Rattle.std.specs.Prelude.{IfSome, OnOk, OnErr, slice_set};
ghost use Rattle.asg_pool.specs.Links.{Table, link_at, spare_of, most_room};
ghost use Rattle.asg_pool.specs.Paths.{depth_at};
ghost use Rattle.asg_pool.specs.Strips.{with_row};

use crate::NoMemory;
use std::alloc::Global;
use std::marker::Model;

// The record that a record grew on, if any, and how many phases lead to the record, its own among
// them.
#[derive(Clone, Copy)]
pub(crate) struct Link {
    pub(crate) parent: Option<u32>,
    pub(crate) depth: u32,
}

// Records in places of a list, and the places that were freed. Memory is taken by `reserve` alone.
#[derive(Drop)]
pub(crate) struct Links {
    room: u32,
    slots: Vec<Option<Link>>,
    vacant: Vec<u32>,
}

impl Model for Links {
    ghost use Rattle.std.specs.Prelude.{length, vec_capacity};
    ghost use Rattle.asg_pool.specs.Links.{Table, IsTable};

    ghost Value = { Table };

    ghost view = { λ l. record {
      room = l.room;
      vacant = length l.vacant.items;
      slots = l.slots.items;
    } };

    ghost invariant = { λ l. IsTable l.room l.slots.items l.vacant.items
        (vec_capacity l.slots) (vec_capacity l.vacant) };
}

impl Links {
    // No record, and no memory yet.
    pub(crate) fn new(alloc: Global) -> Links
        ensures { result ≡ record { room = 0; vacant = 0; slots = [] } }
    {
        Links {
            room: 0,
            slots: Vec::new(alloc),
            vacant: Vec::new(alloc),
        }
    }

    // For how many records there is memory.
    pub(crate) fn room(&self) -> u32
        ensures room { result ≡ self.now.room }
        ensures used { length self.now.slots ≤ result }
        ensures most { result ≤ most_room }
    {
        self.room
    }

    // How many more records there is memory for.
    pub(crate) fn spare(&self) -> u32
        ensures { result ≡ spare_of self.now }
    {
        self.vacant.len() as u32 + (self.room - self.slots.len() as u32)
    }

    // Takes memory for so many records in all. The error is want of memory.
    pub(crate) fn reserve(&mut self, room: u32) -> Result<(), NoMemory>
        requires { room ≤ most_room }
        ensures ok { OnOk result (self.new ≡ record self.old { room = max self.old.room room }) }
        ensures err { OnErr result (self.new ≡ self.old) }
    {
        if room <= self.room {
            return Ok(());
        }
        self.slots.reserve(room as usize - self.slots.len())?;
        self.vacant.reserve(room as usize - self.vacant.len())?;
        self.room = room;
        Ok(())
    }

    // Writes a record into a free place.
    pub(crate) fn insert(&mut self, parent: Option<u32>, depth: u32) -> u32
        requires { 0 < spare_of self.old }
        ensures place { result ≤ length self.old.slots }
        ensures free { link_at self.old.slots result ≡ None }
        ensures slots { self.new.slots ≡ with_row self.old.slots result
            (Some (record { parent = parent; depth = depth })) }
        ensures room { self.new.room ≡ self.old.room }
        ensures spare { spare_of self.new + 1 ≡ spare_of self.old }
        ensures used { length self.new.slots ≤ self.new.room }
    {
        let link = Link { parent, depth };
        match self.vacant.pop() {
            Some(k) => {
                self.slots[k as usize] = Some(link);
                k
            }
            None => {
                let k = self.slots.len() as u32;
                self.slots.push_reserved(Some(link));
                k
            }
        }
    }

    // Frees the place of a record.
    pub(crate) fn remove(&mut self, k: u32)
        requires { IsSome (link_at self.old.slots k) }
        ensures slots { self.new.slots ≡ slice_set self.old.slots k None }
        ensures room { self.new.room ≡ self.old.room }
        ensures spare { spare_of self.new ≡ spare_of self.old + 1 }
    {
        self.slots[k as usize] = None;
        self.vacant.push_reserved(k);
    }

    // The record at a place.
    pub(crate) fn link(&self, k: u32) -> Link
        requires { IsSome (link_at self.now.slots k) }
        ensures { link_at self.now.slots k ≡ Some result }
    {
        self.slots[k as usize].unwrap()
    }

    // How many phases lead to a record, if there is one.
    pub(crate) fn depth_to(&self, last: Option<u32>) -> u32
        requires { IfSome last (λ k. IsSome (link_at self.now.slots k)) }
        ensures { result ≡ depth_at self.now.slots last }
    {
        match last {
            Some(k) => self.link(k).depth,
            None => 0,
        }
    }
}
