//! The places of nodes: the parents and the branches that they name.

ghost use Rattle.std.specs.Prelude.{◌↔◌, ◌+◌, ◌<◌, ◌≤◌, ℕ, IsTrue, length};
ghost use Rattle.asg_rankings.specs.SearchTrees.{HasPlace, IsBelowParent};

use crate::node_parts::{branch_of, has_answer, parent_of};
use asg_rankings::Node;

// Whether a node names a parent before it that has an answer, and one of so many branches.
fn is_below_parent(nodes: &[Node], branches: u32, n: usize) -> bool
    requires from { 1 ≤ n }
    requires upto { n ≤ length nodes.now }
    ensures { IsTrue result ↔ IsBelowParent branches nodes.now n }
{
    let parent = parent_of(nodes, n);
    if parent == 0 {
        return false;
    }
    if parent >= n {
        return false;
    }
    if !has_answer(nodes, parent) {
        return false;
    }
    let branch = branch_of(nodes, n);
    1 <= branch && branch <= branches
}

// Whether the root names neither a parent nor a branch.
fn is_root(nodes: &[Node]) -> bool
    requires { 1 ≤ length nodes.now }
    ensures { (branches : ℕ) → IsTrue result ↔ HasPlace branches nodes.now 1 }
{
    parent_of(nodes, 1) == 0 && branch_of(nodes, 1) == 0
}

// Whether a node has its place.
fn has_place(nodes: &[Node], branches: u32, n: usize) -> bool
    requires from { 1 ≤ n }
    requires upto { n ≤ length nodes.now }
    ensures { IsTrue result ↔ HasPlace branches nodes.now n }
{
    if n == 1 {
        is_root(nodes)
    } else {
        is_below_parent(nodes, branches, n)
    }
}

/// The number of the first node that hasn't its place, where so many rows are placed; one more than
/// there are nodes where each has it.
pub(crate) fn first_misplaced(nodes: &[Node], branches: u32) -> usize
    ensures from { 1 ≤ result }
    ensures upto { result ≤ length nodes.now + 1 }
    ensures before { (n : ℕ) → 1 ≤ n → n < result → HasPlace branches nodes.now n }
    ensures here { result ≤ length nodes.now → HasPlace branches nodes.now result → ⊥ }
{
    for place in 0..nodes.len() {
        if !has_place(nodes, branches, place + 1) {
            return place + 1;
        }
    }
    nodes.len() + 1
}
