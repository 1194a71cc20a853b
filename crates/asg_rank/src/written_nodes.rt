//! The search tree as documents have it.

ghost use Rattle.std.specs.Prelude.{◌≡◌, ◌≤◌, ◌<◌, ℕ, [], length, IfOk};
ghost use Rattle.asg_pool.specs.Forest.{phases_to};
ghost use Rattle.asg_rankings.specs.NodeLists.{AreNodeParts, IsMarkPart, IsNodePart};
ghost use Rattle.asg_nodes.specs.Entries.{entry_at, IsNext};
ghost use Rattle.asg_admit.specs.PhaseValues.{AreOfValues};
ghost use Rattle.asg_rank.specs.Written.{AreOwn, IsStateOf, IsWrittenMark};
ghost use Rattle.asg_rank.specs.Written.{IsTold, IsWrittenOwn, IsWrittenNode, AreWrittenNodes};
ghost use Rattle.asg_rank.specs.Written.{PushesNode};

use crate::NoMemory;
use asg_kept_phases::{written_phase, written_trail};
use asg_nodes::{Entry, HallPool, State, Tree, entry, own_trail};
use asg_order::Written;
use asg_pool::{Region, Trail};
use asg_proof::{Ids, Phases};
use asg_rankings::{Mark, Node, Nodes};
use std::alloc::Global;

// The phase that a trail has beyond the one before it, if it has one, with each step as its word.
fn own_phases<M: Written>(
    alloc: Global,
    m: &M,
    region: &Region<M::Value>,
    before: Option<Trail>,
    trail: Option<Trail>,
) -> Result<Phases, NoMemory>
    requires next { IsNext region.now before trail }
    requires values { AreOfValues (M.monoid_of m.now) (phases_to region.now trail) }
    ensures { IfOk result (λ own. AreOwn (M.word_of m.now) region.now before trail own) }
{
    let _spare = region.spare();
    let Some(own) = own_trail(before, trail) else {
        return Phases::from_vec(Vec::new(alloc));
    };
    let mut phases = Vec::new(alloc);
    phases.push(written_phase(alloc, m, region, own)?)?;
    let listed = Phases::from_vec(phases)?;
    Ok(listed)
}

// The mark of a node with a state.
fn mark_of(alloc: Global, halls: &HallPool, state: State) -> Result<Mark, NoMemory>
    requires { IsStateOf halls.now state }
    ensures mark { IfOk result (IsWrittenMark halls.now state) }
    ensures part { IfOk result IsMarkPart }
{
    match state {
        State::Answered(number) => Ok(Mark::Answered(number)),
        State::Open => Ok(Mark::Open),
        State::Empty(place) => {
            let ids = Vec::from_slice(alloc, halls.get(place))?;
            Ok(Mark::Empty(Ids::from_vec(ids)))
        }
    }
}

// The phases of a node beyond those of its parent, with each step as its word.
fn node_phases<M: Written>(
    alloc: Global,
    m: &M,
    tree: &Tree<M::Value>,
    here: &Entry<M::Value>,
) -> Result<Phases, NoMemory>
    requires { IsTold (M.monoid_of m.now) tree.now here.now }
    ensures { IfOk result (IsWrittenOwn (M.monoid_of m.now).unit (M.word_of m.now) tree.now
        here.now) }
{
    if here.parent == 0 {
        return written_trail(alloc, m, &tree.region, here.trail);
    }
    let before = entry(&tree.entries, here.parent);
    own_phases(alloc, m, &tree.region, before.trail, here.trail)
}

// A node of these parts.
fn node_of(parent: u32, branch: u32, mark: Mark, own: Phases) -> Node
    requires { IsMarkPart mark }
    ensures node { result ≡ record { parent = parent; branch = branch; mark = mark; own = own } }
    ensures part { IsNodePart result }
{
    let _count = own.len();
    Node {
        parent,
        branch,
        mark,
        own,
    }
}

// A node of a tree.
fn written_node<M: Written>(
    alloc: Global,
    m: &M,
    tree: &Tree<M::Value>,
    here: &Entry<M::Value>,
) -> Result<Node, NoMemory>
    requires { IsTold (M.monoid_of m.now) tree.now here.now }
    ensures written { IfOk result (IsWrittenNode (M.monoid_of m.now).unit (M.word_of m.now) tree.now
        here.now) }
    ensures part { IfOk result IsNodePart }
{
    let own = node_phases(alloc, m, tree, here)?;
    let mark = mark_of(alloc, &tree.halls, here.state)?;
    Ok(node_of(here.parent, here.branch, mark, own))
}

// Puts a node of a tree behind others. The error is want of memory.
fn push_node<M: Written>(
    alloc: Global,
    m: &M,
    tree: &Tree<M::Value>,
    here: &Entry<M::Value>,
    nodes: &mut Vec<Node>,
) -> Result<(), NoMemory>
    requires { IsTold (M.monoid_of m.now) tree.now here.now }
    ensures { IfOk result (λ _. PushesNode (M.monoid_of m.now).unit (M.word_of m.now) tree.now
        here.now nodes.old.items nodes.new.items) }
{
    let node = written_node(alloc, m, tree, here)?;
    nodes.push(node)?;
    Ok(())
}

// Puts the nodes of a tree in order into an empty list. The error is want of memory.
fn push_nodes<M: Written>(
    alloc: Global,
    m: &M,
    tree: &Tree<M::Value>,
    nodes: &mut Vec<Node>,
) -> Result<(), NoMemory>
    requires none { nodes.old.items ≡ [] }
    requires told { (n : ℕ) → 1 ≤ n → n ≤ length tree.now.entries.items
        → IsTold (M.monoid_of m.now) tree.now
        (entry_at (M.monoid_of m.now).unit tree.now.entries.items n) }
    ensures written { IfOk result (λ _. AreWrittenNodes (M.monoid_of m.now).unit
        (M.word_of m.now) tree.now nodes.new.items) }
    ensures parts { IfOk result (λ _. AreNodeParts nodes.new.items) }
{
    'nodes: for here in &tree.entries {
        push_node(alloc, m, tree, here, nodes)?;
    }
    Ok(())
}

/// The nodes of a tree in order. The error is want of memory.
pub(crate) fn written_nodes<M: Written>(
    alloc: Global,
    m: &M,
    tree: &Tree<M::Value>,
) -> Result<Nodes, NoMemory>
    requires { (n : ℕ) → 1 ≤ n → n ≤ length tree.now.entries.items
        → IsTold (M.monoid_of m.now) tree.now
        (entry_at (M.monoid_of m.now).unit tree.now.entries.items n) }
    ensures { IfOk result (AreWrittenNodes (M.monoid_of m.now).unit (M.word_of m.now) tree.now) }
{
    let mut nodes = Vec::with_capacity(alloc, tree.entries.len())?;
    push_nodes(alloc, m, tree, &mut nodes)?;
    Ok(Nodes::from_vec(nodes))
}
