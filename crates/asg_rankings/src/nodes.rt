//! Nodes of search trees and lists of them.

ghost use Rattle.std.specs.Prelude.{◌≡◌, ◌↔◌, [], length, IsTrue};
ghost use Rattle.asg_rankings.specs.NodeLists.{AreNodeParts};

use asg_proof::{Ids, Phases};
use std::marker::Model;

/// What became of a node of a search tree.
#[derive(Drop)]
pub enum Mark {
    /// The node's instance gave the answer of this number, counted from 1.
    Answered(u32),
    /// The node's instance was left: each of its choices is worth at least the index of its trail.
    Open,
    /// No choice of the node's instance is valid: the rows are a Hall set of it.
    Empty(Ids),
}

/// A node of a search tree: the number of its parent and its branch, both 0 at the root, what
/// became of it, and the phases that its trail has beyond its parent's.
#[derive(Drop)]
pub struct Node {
    pub parent: u32,
    pub branch: u32,
    pub mark: Mark,
    pub own: Phases,
}

/// The nodes of a search tree in the order of their numbers, which count from 1: the root first,
/// and each parent before its children.
#[derive(Drop)]
pub struct Nodes {
    items: Vec<Node>,
}

impl Model for Nodes {
    ghost use Rattle.std.specs.Prelude.{List};
    ghost use Rattle.asg_rankings.specs.declared.nodes.Node.{Node as N};
    ghost use Rattle.asg_rankings.specs.NodeLists.{AreNodeParts};

    ghost Value = { List N };

    ghost view = { λ nodes. nodes.items.items };

    ghost invariant = { λ nodes. AreNodeParts nodes.items.items };
}

impl Nodes {
    /// The list of these nodes. It takes no memory.
    pub fn from_vec(items: Vec<Node>) -> Nodes
        requires { AreNodeParts items.items }
        ensures { result ≡ items.items }
    {
        Nodes { items }
    }

    /// The nodes as a `Vec`. It takes no memory.
    pub fn into_vec(self) -> Vec<Node>
        ensures items { result.items ≡ self }
        ensures nodes { AreNodeParts self }
    {
        let Nodes { items } = self;
        items
    }

    /// The nodes in order.
    pub fn as_slice(&self) -> &[Node]
        ensures items { result.now ≡ self.now }
        ensures nodes { AreNodeParts self.now }
    {
        self.items.as_slice()
    }

    /// The number of nodes.
    pub fn len(&self) -> usize
        ensures count { result ≡ length self.now }
        ensures nodes { AreNodeParts self.now }
    {
        self.items.len()
    }

    /// Whether there is no node.
    pub fn is_empty(&self) -> bool
        ensures { IsTrue result ↔ (self.now ≡ []) }
    {
        self.items.is_empty()
    }
}
