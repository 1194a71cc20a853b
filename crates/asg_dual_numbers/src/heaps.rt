//! Binary heaps: what stands at a place comes before what stands at twice the place and one or two
//! more, or is even with it.

use crate::NoMemory;

/// What stands in a heap.
pub trait Ranked: Copy {
    /// Whether it comes before another.
    fn is_before(self, other: Self) -> bool;
}

/// A binary heap, what comes first in front.
#[derive(Drop)]
pub struct Heap<T: Ranked> {
    entries: Vec<T>,
}

// Writes an entry at a place, nothing outside.
#[inline]
fn put_entry<T: Ranked>(entries: &mut [T], place: usize, entry: T) {
    if place < entries.len() {
        entries[place] = entry;
    }
}

// Moves an entry from a place towards the first one, behind all that come before it or are even
// with it.
fn rise<T: Ranked>(entries: &mut [T], from: usize, entry: T) {
    let mut place = from;
    for _ in 0..64 {
        if place == 0 {
            break;
        }
        let above = place.wrapping_sub(1) / 2;
        if above >= entries.len() {
            break;
        }
        let other = entries[above];
        if !entry.is_before(other) {
            break;
        }
        put_entry(entries, place, other);
        place = above;
    }
    put_entry(entries, place, entry);
}

/// Moves an entry from the first place of a heap towards the last one, before all that come behind
/// it or are even with it. What stood at the first place is gone.
pub fn sink<T: Ranked>(entries: &mut [T], entry: T) {
    let mut place = 0usize;
    for _ in 0..64 {
        let mut below = place.wrapping_mul(2).wrapping_add(1);
        if below >= entries.len() {
            break;
        }
        let mut other = entries[below];
        let beside = below.wrapping_add(1);
        if beside < entries.len() {
            let second = entries[beside];
            if second.is_before(other) {
                below = beside;
                other = second;
            }
        }
        if !other.is_before(entry) {
            break;
        }
        put_entry(entries, place, other);
        place = below;
    }
    put_entry(entries, place, entry);
}

impl<T: Ranked> Heap<T> {
    /// A heap in which nothing stands, by an empty list.
    pub fn of(entries: Vec<T>) -> Heap<T> {
        Heap { entries }
    }

    /// Takes all entries out.
    pub fn clear(&mut self) {
        self.entries.clear();
    }

    /// Puts an entry in. The error is want of memory.
    pub fn push(&mut self, entry: T) -> Result<(), NoMemory> {
        let place = self.entries.len();
        self.entries.push(entry)?;
        rise(self.entries.as_mut_slice(), place, entry);
        Ok(())
    }

    /// Takes out what comes first; `None` where nothing is in.
    pub fn pop(&mut self) -> Option<T> {
        let last = self.entries.pop()?;
        if self.entries.is_empty() {
            return Some(last);
        }
        let first = self.entries[0];
        sink(self.entries.as_mut_slice(), last);
        Some(first)
    }
}
