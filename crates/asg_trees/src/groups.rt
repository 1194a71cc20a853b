//! Numbers grouped by a key.

ghost use Rattle.std.specs.Prelude.{◌≡◌, ◌<◌, ◌^◌, IfOk, length, slice_index};
ghost use Rattle.asg_trees.specs.Groups.{AreGroups, answer_keys, linked_first, linked_next, parent_keys};

use crate::NoMemory;
use crate::node_parts::{answer_number, parent_number};
use asg_rankings::Node;
use std::alloc::{AllocError, Global};

/// Of the numbers from 1 on the first of each key, and behind each number the next of its key; 0
/// where there is none.
#[derive(Debug, Drop)]
pub(crate) struct Groups {
    pub(crate) first: Vec<u32>,
    pub(crate) next: Vec<u32>,
}

// Puts a number before the others of its key, where the key is one that is grouped.
fn link(first: &mut Vec<u32>, next: &mut Vec<u32>, key: u32, n: u32)
    requires { n < length next.old.items }
    ensures first_count { length first.new.items ≡ length first.old.items }
    ensures next_count { length next.new.items ≡ length next.old.items }
    ensures firsts { first.new.items ≡ linked_first first.old.items key n }
    ensures nexts { next.new.items ≡ linked_next first.old.items next.old.items key n }
{
    let place = key as usize;
    if place < first.len() {
        next[n as usize] = first[place];
        first[place] = n;
    }
}

/// Groups the numbers from 1 on by their keys, of which those up to a count are grouped. The time
/// and the memory are in proportion to the keys and the count. The error is want of memory, or that
/// there are 2^32 numbers.
pub(crate) fn group(alloc: Global, keys: &[u32], count: usize) -> Result<Groups, NoMemory>
    requires { count < 2 ^ 63 }
    ensures { IfOk result (AreGroups keys.now count) }
{
    let Ok(numbers) = u32::try_from(keys.len()) else {
        return Err(AllocError);
    };
    let mut first = vec![in alloc; 0; count + 1]?;
    let mut next = vec![in alloc; 0; keys.len() + 1]?;
    let mut above = numbers;
    'numbers: while above > 0 {
        link(&mut first, &mut next, keys[above as usize - 1], above);
        above -= 1;
    }
    Ok(Groups { first, next })
}

/// Groups nodes by the parents that they name. The error is want of memory.
pub(crate) fn by_parent(alloc: Global, nodes: &[Node]) -> Result<Groups, NoMemory>
    ensures { IfOk result (AreGroups (parent_keys nodes.now) (length nodes.now)) }
{
    let mut keys = Vec::with_capacity(alloc, nodes.len())?;
    for place in 0..nodes.len() {
        keys.push(parent_number(nodes, place + 1))?;
    }
    group(alloc, keys.as_slice(), nodes.len())
}

/// Groups nodes by the numbers of their answers, of which there are so many. The error is want of
/// memory, or that there are 2^32 nodes.
pub(crate) fn by_answer(alloc: Global, nodes: &[Node], answers: usize) -> Result<Groups, NoMemory>
    requires { answers < 2 ^ 63 }
    ensures { IfOk result (AreGroups (answer_keys nodes.now) answers) }
{
    let Ok(numbers) = u32::try_from(nodes.len()) else {
        return Err(AllocError);
    };
    let mut first = vec![in alloc; 0; answers + 1]?;
    let mut next = vec![in alloc; 0; nodes.len() + 1]?;
    let mut above = numbers;
    'numbers: while above > 0 {
        let key = answer_number(nodes, above as usize);
        link(&mut first, &mut next, key, above);
        above -= 1;
    }
    Ok(Groups { first, next })
}

impl Groups {
    /// The first number of a key, 0 where it has none.
    pub(crate) fn first_of(&self, key: usize) -> usize
        requires { key < length self.now.first.items }
        ensures { result ≡ slice_index self.now.first.items key }
    {
        self.first[key] as usize
    }

    /// The next number of the same key, 0 where there is none.
    pub(crate) fn next_of(&self, n: usize) -> usize
        requires { n < length self.now.next.items }
        ensures { result ≡ slice_index self.now.next.items n }
    {
        self.next[n] as usize
    }
}
