//! Of each answered node the child with most answered nodes below it.

ghost use Rattle.std.specs.Prelude.{◌↔◌, ◌+◌, ◌<◌, ◌≤◌, ◌^◌, IsTrue, length};
ghost use Rattle.asg_trees.specs.Descents.{LeadsOn};

use crate::NoMemory;
use crate::groups::Groups;
use crate::node_parts::{answer_of, has_answer, parent_of};
use asg_rankings::Node;
use std::alloc::Global;

/// By the number of a node's answer, the child with most answered nodes below it; 0 where none is
/// known. It is a guess, which no contract tells.
#[derive(Debug, Drop)]
pub(crate) struct HeavyChildren {
    children: Vec<u32>,
}

// The number of a node's answer, if no node before it has it; 0 where it has none of its own.
fn own_answer(nodes: &[Node], given: &[u32], n: usize) -> usize {
    if n == 0 || n > nodes.len() {
        return 0;
    }
    let answer = answer_of(nodes, n);
    if answer < given.len() && given[answer] as usize == n {
        answer
    } else {
        0
    }
}

// How many answered nodes there are at and below a node, by the weights of those below it.
fn weight_of(nodes: &[Node], given: &[u32], weights: &[u32], n: usize) -> u32 {
    let answer = own_answer(nodes, given, n);
    if answer == 0 || answer >= weights.len() {
        return 0;
    }
    weights[answer].saturating_add(1)
}

// Adds the weight of a node to that of its parent, and makes it the parent's heavy child if it
// weighs more than the one so far.
fn hand_up(nodes: &[Node], given: &[u32], weights: &mut Vec<u32>, children: &mut Vec<u32>, n: usize)
    requires from { 1 ≤ n }
    requires upto { n ≤ length nodes.now }
{
    let weight = weight_of(nodes, given, weights.as_slice(), n);
    let above = own_answer(nodes, given, parent_of(nodes, n));
    if weight == 0 || above == 0 || above >= weights.len() || above >= children.len() {
        return;
    }
    weights[above] = weights[above].saturating_add(weight);
    let best = children[above] as usize;
    if weight > weight_of(nodes, given, weights.as_slice(), best) {
        children[above] = u32::try_from(n).unwrap_or(0);
    }
}

/// Of each answered node the child with most answered nodes below it. Answers that an earlier node
/// has don't count. The error is want of memory.
pub(crate) fn heavy_children(
    alloc: Global,
    nodes: &[Node],
    given: &Groups,
    answers: usize,
) -> Result<HeavyChildren, NoMemory>
    requires { answers < 2 ^ 63 }
{
    let mut weights = vec![in alloc; 0; answers + 1]?;
    let mut children = vec![in alloc; 0; answers + 1]?;
    let mut n = nodes.len();
    'nodes: while n > 1 {
        hand_up(
            nodes,
            given.first.as_slice(),
            &mut weights,
            &mut children,
            n,
        );
        n -= 1;
    }
    Ok(HeavyChildren { children })
}

impl HeavyChildren {
    /// The child of a node with most answered nodes below it; 0 where none is known.
    pub(crate) fn child_of(&self, nodes: &[Node], n: usize) -> usize
        requires from { 1 ≤ n }
        requires upto { n ≤ length nodes.now }
    {
        let answer = answer_of(nodes, n);
        if answer < self.children.len() {
            self.children[answer] as usize
        } else {
            0
        }
    }
}

/// Whether a number is that of an answered child of a node, before the first node at fault.
pub(crate) fn leads_on(nodes: &[Node], at: usize, next: usize, fault: usize) -> bool
    requires { fault ≤ length nodes.now + 1 }
    ensures { IsTrue result ↔ LeadsOn nodes.now at next fault }
{
    if next == 0 {
        return false;
    }
    if next >= fault {
        return false;
    }
    if parent_of(nodes, next) != at {
        return false;
    }
    has_answer(nodes, next)
}
