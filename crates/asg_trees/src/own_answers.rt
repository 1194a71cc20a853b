//! Answers of nodes, and their branches.

ghost use Rattle.std.specs.Prelude.{◌≡◌, ◌↔◌, ◌==◌, ◌≤◌, ℕ, IsTrue, if◌then◌else◌, length};
ghost use Rattle.asg_rankings.specs.Nodes.{answer_number, node_at};
ghost use Rattle.asg_rankings.specs.SearchTrees.{child_count};
ghost use Rattle.asg_trees.specs.Groups.{AreGroups, answer_keys, parent_keys};
ghost use Rattle.asg_trees.specs.Marks.{HasOwnAnswer};

use crate::groups::Groups;
use crate::node_parts::branch_of;
use asg_rankings::Node;

// 1 where the branch of a node is this one, else 0.
fn one_of(nodes: &[Node], n: usize, branch: u32) -> usize
    requires from { 1 ≤ n }
    requires upto { n ≤ length nodes.now }
    ensures { result ≡ (if (node_at nodes.now n).branch == branch then 1 else 0) }
{
    if branch_of(nodes, n) == branch { 1 } else { 0 }
}

// How many nodes name this parent and this branch.
fn count_branch(nodes: &[Node], members: &Groups, n: usize, branch: u32) -> usize
    requires members { AreGroups (parent_keys nodes.now) (length nodes.now) members.now }
    requires upto { n ≤ length nodes.now }
    ensures { result ≡ child_count nodes.now n branch }
{
    let mut count = 0;
    let mut member = members.first_of(n);
    'members: while member != 0 {
        count += one_of(nodes, member, branch);
        member = members.next_of(member);
    }
    count
}

// Whether the nodes that name a parent have the branches up to a number in order, so that each of
// these has one node.
fn are_in_order(nodes: &[Node], members: &Groups, n: usize, branches: u32) -> bool
    requires members { AreGroups (parent_keys nodes.now) (length nodes.now) members.now }
    requires upto { n ≤ length nodes.now }
    ensures { IsTrue result → (i : ℕ) → 1 ≤ i → i ≤ branches → child_count nodes.now n i ≡ 1 }
{
    let mut count = 0;
    let mut member = members.first_of(n);
    'members: while member != 0 {
        if count >= branches {
            return false;
        }
        if branch_of(nodes, member) != count + 1 {
            return false;
        }
        count += 1;
        member = members.next_of(member);
    }
    count >= branches
}

// Whether each of so many branches of a node has one node. Where they stand in order the time is
// that of the branches, else that of the branches times the nodes that name the parent.
fn has_branches(nodes: &[Node], members: &Groups, n: usize, branches: u32) -> bool
    requires members { AreGroups (parent_keys nodes.now) (length nodes.now) members.now }
    requires upto { n ≤ length nodes.now }
    ensures { IsTrue result ↔ ((i : ℕ) → 1 ≤ i → i ≤ branches → child_count nodes.now n i ≡ 1) }
{
    if are_in_order(nodes, members, n, branches) {
        return true;
    }
    for before in 0..branches {
        if count_branch(nodes, members, n, before + 1) != 1 {
            return false;
        }
    }
    true
}

/// Whether a node's answer is one of so many, that no node before it has, and each of so many
/// branches has one node. The time is that of the branches where these stand in order, else that of
/// the branches times the nodes that name it.
pub(crate) fn has_own_answer(
    nodes: &[Node],
    members: &Groups,
    given: &Groups,
    answers: usize,
    branches: u32,
    n: usize,
    answer: u32,
) -> bool
    requires members { AreGroups (parent_keys nodes.now) (length nodes.now) members.now }
    requires given { AreGroups (answer_keys nodes.now) answers given.now }
    requires from { 1 ≤ n }
    requires upto { n ≤ length nodes.now }
    requires answer { answer_number (node_at nodes.now n).mark ≡ answer }
    ensures { IsTrue result ↔ HasOwnAnswer answers branches nodes.now n answer }
{
    let number = answer as usize;
    if number == 0 {
        return false;
    }
    if number > answers {
        return false;
    }
    if given.first_of(number) != n {
        return false;
    }
    has_branches(nodes, members, n, branches)
}
