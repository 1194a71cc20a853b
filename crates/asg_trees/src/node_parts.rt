//! The parts of nodes, by number.

ghost use Rattle.std.specs.Prelude.{◌≡◌, ◌≤◌, length};
ghost use Rattle.asg_rankings.specs.Nodes.{answer_number, node_at};
ghost use Rattle.asg_rankings.specs.SearchTrees.{is_answered};

use asg_proof::WrittenPhase;
use asg_rankings::{Mark, Node};

/// The parent that a node names.
#[inline]
pub(crate) fn parent_number(nodes: &[Node], n: usize) -> u32
    requires from { 1 ≤ n }
    requires upto { n ≤ length nodes.now }
    ensures { result ≡ (node_at nodes.now n).parent }
{
    nodes[n - 1].parent
}

/// The parent that a node names, as a place.
#[inline]
pub(crate) fn parent_of(nodes: &[Node], n: usize) -> usize
    requires from { 1 ≤ n }
    requires upto { n ≤ length nodes.now }
    ensures { result ≡ (node_at nodes.now n).parent }
{
    parent_number(nodes, n) as usize
}

/// The branch of a node.
#[inline]
pub(crate) fn branch_of(nodes: &[Node], n: usize) -> u32
    requires from { 1 ≤ n }
    requires upto { n ≤ length nodes.now }
    ensures { result ≡ (node_at nodes.now n).branch }
{
    nodes[n - 1].branch
}

/// What became of a node.
#[inline]
pub(crate) fn mark_of(nodes: &[Node], n: usize) -> &Mark
    requires from { 1 ≤ n }
    requires upto { n ≤ length nodes.now }
    ensures { result.now ≡ (node_at nodes.now n).mark }
{
    &nodes[n - 1].mark
}

/// The phases that a node's trail has beyond its parent's.
#[inline]
pub(crate) fn own_of(nodes: &[Node], n: usize) -> &[WrittenPhase]
    requires from { 1 ≤ n }
    requires upto { n ≤ length nodes.now }
    ensures { result.now ≡ (node_at nodes.now n).own }
{
    nodes[n - 1].own.as_slice()
}

/// The number of a node's answer, 0 where it has none.
pub(crate) fn answer_number(nodes: &[Node], n: usize) -> u32
    requires from { 1 ≤ n }
    requires upto { n ≤ length nodes.now }
    ensures { result ≡ answer_number (node_at nodes.now n).mark }
{
    match mark_of(nodes, n) {
        Mark::Answered(a) => *a,
        Mark::Open => 0,
        Mark::Empty(_) => 0,
    }
}

/// The number of a node's answer as a place, 0 where it has none.
pub(crate) fn answer_of(nodes: &[Node], n: usize) -> usize
    requires from { 1 ≤ n }
    requires upto { n ≤ length nodes.now }
    ensures { result ≡ answer_number (node_at nodes.now n).mark }
{
    answer_number(nodes, n) as usize
}

/// Whether a node has an answer.
pub(crate) fn has_answer(nodes: &[Node], n: usize) -> bool
    requires from { 1 ≤ n }
    requires upto { n ≤ length nodes.now }
    ensures { result ≡ is_answered (node_at nodes.now n).mark }
{
    match mark_of(nodes, n) {
        Mark::Answered(_) => true,
        Mark::Open => false,
        Mark::Empty(_) => false,
    }
}
