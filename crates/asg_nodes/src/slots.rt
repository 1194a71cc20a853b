//! Nodes that have their best choice, in the order of their indexes.

ghost use Rattle.std.specs.Prelude.{◌≡◌, ◌-◌, ◌<◌, ◌≤◌, [], IsTrue, false, length, take, drop, insert, All, IfOk};
ghost use Rattle.asg_order.specs.Monoid.{IsValue, IsLe, IsLess};
ghost use Rattle.asg_nodes.specs.Slots.{slot_of, slot_at, Ascends, HaveValues, AreUpTo, IsLimit, Offers, Inserts};

use crate::NoMemory;
use asg_match::Matching;
use asg_order::Ordered;
use std::alloc::Global;
use std::marker::Model;

/// A node with its index and the perfect assignment of its square by absorbed cells.
#[derive(Drop)]
pub struct Slot<V: Copy> {
    pub node: u32,
    pub index: V,
    pub matching: Matching,
}

// A slot behind its address, so that it changes places as one word does.
#[derive(Drop)]
struct Held<V: Copy> {
    slot: Box<Slot<V>>,
}

impl<V: Copy> Model for Held<V> {
    ghost use Rattle.std.specs.Prelude.{box_value};
    ghost use Rattle.asg_nodes.specs.declared.slots.Slot.{Slot as S};

    ghost Value = { S V };

    ghost view = { λ held. box_value held.slot };
}

/// So many slots: those in use in the order of their indexes, and the free ones.
#[derive(Drop)]
pub struct Slots<V: Copy> {
    side: u32,
    room: usize,
    used: Vec<Held<V>>,
    free: Vec<Held<V>>,
}

impl<V: Copy> Model for Slots<V> {
    ghost use Rattle.std.specs.Prelude.{◌≡◌, ◌≤◌, ◌+◌, All, length, vec_capacity};
    ghost use Rattle.asg_nodes.specs.Slots.{SlotList};

    ghost Value = { SlotList V };

    ghost view = { λ s. record { side = s.side; room = s.room; used = s.used.items } };

    ghost invariant = { λ s. (length s.used.items + length s.free.items ≡ s.room)
        × (s.room ≤ vec_capacity s.used) × (s.room ≤ vec_capacity s.free)
        × All (λ slot. length slot.matching ≡ s.side) s.used.items
        × All (λ slot. length slot.matching ≡ s.side) s.free.items };
}

// Whether the first value isn't at most the second.
fn is_above<M: Ordered>(m: &M, x: M::Value, y: M::Value) -> bool
    requires left { IsValue (M.monoid_of m.now) x }
    requires right { IsValue (M.monoid_of m.now) y }
    ensures above { IsTrue result → IsLess (M.monoid_of m.now) y x }
    ensures upto { result ≡ false → IsLe (M.monoid_of m.now) x y }
{
    !m.le(x, y)
}

impl<V: Copy> Held<V> {
    // A slot over a side, in memory of its own. The error is want of memory.
    fn make(alloc: Global, side: u32, index: V) -> Result<Held<V>, NoMemory>
        ensures { IfOk result (λ held. length held.matching ≡ side) }
    {
        let matching = Matching::make(alloc, side)?;
        let slot = Slot {
            node: 0,
            index,
            matching,
        };
        let boxed = Box::new(alloc, slot)?;
        Ok(Held { slot: boxed })
    }

    // The slot.
    fn get(&self) -> &Slot<V>
        ensures { result.now ≡ self.now }
    {
        self.slot.as_ref()
    }

    // Writes the slot.
    fn write(&mut self, node: u32, index: V, matching: &Matching)
        requires { length self.old.matching ≡ length matching.now }
        ensures { self.new ≡ slot_of node index matching.now }
    {
        write(self.slot.as_mut(), node, index, matching);
    }
}

// Writes a slot.
fn write<V: Copy>(slot: &mut Slot<V>, node: u32, index: V, matching: &Matching)
    requires { length slot.old.matching ≡ length matching.now }
    ensures { slot.new ≡ slot_of node index matching.now }
{
    slot.node = node;
    slot.index = index;
    slot.matching.take(matching);
}

impl<V: Copy> Slots<V> {
    /// So many slots over a side, none of them in use. The error is want of memory.
    pub fn make(alloc: Global, side: u32, room: u32, index: V) -> Result<Slots<V>, NoMemory>
        ensures { IfOk result (λ s. s ≡ record { side = side; room = room; used = [] }) }
    {
        let used = Vec::with_capacity(alloc, room as usize)?;
        let mut free = Vec::with_capacity(alloc, room as usize)?;
        'slots: for _ in 0..room {
            free.push_reserved(Held::make(alloc, side, index)?);
        }
        Ok(Slots {
            side,
            room: room as usize,
            used,
            free,
        })
    }

    /// How many are in use.
    pub fn len(&self) -> usize
        ensures count { result ≡ length self.now.used }
        ensures most { result ≤ self.now.room }
    {
        self.used.len()
    }

    /// How many there are.
    pub fn room(&self) -> usize
        ensures room { result ≡ self.now.room }
        ensures most { length self.now.used ≤ result }
    {
        self.room
    }

    // The slot in a place.
    fn at(&self, place: usize) -> &Slot<V>
        requires { place < length self.now.used }
        ensures slot { (unit : V) → result.now ≡ slot_at unit self.now.used place }
        ensures side { length result.now.matching ≡ self.now.side }
    {
        self.used[place].get()
    }

    /// The node in a slot.
    pub fn node(&self, place: usize) -> u32
        requires { place < length self.now.used }
        ensures { (unit : V) → result ≡ (slot_at unit self.now.used place).node }
    {
        self.at(place).node
    }

    /// The matching in a slot.
    pub fn matching(&self, place: usize) -> &Matching
        requires { place < length self.now.used }
        ensures matching { (unit : V) → result.now ≡ (slot_at unit self.now.used place).matching }
        ensures side { length result.now ≡ self.now.side }
    {
        &self.at(place).matching
    }

    // The index in a slot.
    fn index(&self, place: usize) -> V
        requires { place < length self.now.used }
        ensures { (unit : V) → result ≡ (slot_at unit self.now.used place).index }
    {
        self.at(place).index
    }

    // Writes a free slot, and puts it before those in use from a place on.
    fn put(&mut self, place: usize, node: u32, index: V, matching: &Matching)
        requires place { place ≤ length self.old.used }
        requires room { length self.old.used < self.old.room }
        requires side { length matching.now ≡ self.old.side }
        ensures { self.new ≡ record self.old {
          used = insert self.old.used place (slot_of node index matching.now);
        } }
    {
        let mut held = self.free.pop().unwrap();
        held.write(node, index, matching);
        let _ = self.used.insert(place, held);
    }

    // Frees the last slot in use.
    fn free_last(&mut self)
        requires { 1 ≤ length self.old.used }
        ensures { self.new ≡ record self.old {
          used = take (length self.old.used - 1) self.old.used;
        } }
    {
        let held = self.used.pop().unwrap();
        self.free.push_reserved(held);
    }
}

/// The greatest index, where all slots are in use: from there on nothing is kept.
pub fn limit<M: Ordered>(m: &M, slots: &Slots<M::Value>) -> Option<M::Value>
    requires values { HaveValues (M.monoid_of m.now) slots.now.used }
    requires ascends { Ascends (M.monoid_of m.now) slots.now.used }
    ensures { IsLimit (M.monoid_of m.now) slots.now result }
{
    let _ = m;
    let count = slots.len();
    if count < slots.room() || count == 0 {
        return None;
    }
    Some(slots.index(count - 1))
}

// The place of an index among those of the slots in use: behind all that are at most it.
fn place_for<M: Ordered>(m: &M, slots: &Slots<M::Value>, index: M::Value) -> usize
    requires index { IsValue (M.monoid_of m.now) index }
    requires values { HaveValues (M.monoid_of m.now) slots.now.used }
    requires ascends { Ascends (M.monoid_of m.now) slots.now.used }
    ensures within { result ≤ length slots.now.used }
    ensures upto { AreUpTo (M.monoid_of m.now) index (take result slots.now.used) }
    ensures above { All (λ slot. IsLess (M.monoid_of m.now) index slot.index)
        (drop result slots.now.used) }
{
    let mut low = 0;
    let mut high = slots.len();
    'places: while low < high {
        let middle = low + (high - low) / 2;
        if is_above(m, slots.index(middle), index) {
            high = middle;
        } else {
            low = middle + 1;
        }
    }
    low
}

// Puts a node into a free slot, before those whose index is greater.
fn enter<M: Ordered>(
    m: &M,
    slots: &mut Slots<M::Value>,
    node: u32,
    index: M::Value,
    matching: &Matching,
)
    requires room { length slots.old.used < slots.old.room }
    requires side { length matching.now ≡ slots.old.side }
    requires index { IsValue (M.monoid_of m.now) index }
    requires values { HaveValues (M.monoid_of m.now) slots.old.used }
    requires ascends { Ascends (M.monoid_of m.now) slots.old.used }
    ensures side { slots.new.side ≡ slots.old.side }
    ensures room { slots.new.room ≡ slots.old.room }
    ensures inserts { Inserts (M.monoid_of m.now) slots.old.used
        (slot_of node index matching.now) slots.new.used }
{
    let place = place_for(m, slots, index);
    slots.put(place, node, index, matching);
}

/// Offers a node that has its best choice. Where a slot is free it takes one, and otherwise that of
/// the last node, if that one's index is greater. There is a slot. It takes no memory. Its place is
/// found by halving, and one word moves for each slot behind it.
pub fn offer<M: Ordered>(
    m: &M,
    slots: &mut Slots<M::Value>,
    node: u32,
    index: M::Value,
    matching: &Matching,
)
    requires room { 1 ≤ slots.old.room }
    requires side { length matching.now ≡ slots.old.side }
    requires index { IsValue (M.monoid_of m.now) index }
    requires values { HaveValues (M.monoid_of m.now) slots.old.used }
    requires ascends { Ascends (M.monoid_of m.now) slots.old.used }
    ensures side { slots.new.side ≡ slots.old.side }
    ensures room { slots.new.room ≡ slots.old.room }
    ensures offers { Offers (M.monoid_of m.now) slots.old
        (slot_of node index matching.now) slots.new }
{
    let count = slots.len();
    if count < slots.room() {
        enter(m, slots, node, index, matching);
    } else if is_above(m, slots.index(count - 1), index) {
        slots.free_last();
        enter(m, slots, node, index, matching);
    }
}
