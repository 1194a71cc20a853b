//! Nodes as the ranker keeps them.

use asg_pool::Trail;

/// What became of a node.
#[derive(Clone, Copy)]
pub enum State {
    /// Its part gave the answer of this number, counted from 1.
    Answered(u32),
    /// Its part has choices that weren't given.
    Open,
    /// Its part has no choice; with the place of its Hall set.
    Empty(u32),
}

/// A node: the number of its parent and its branch, both 0 at the root, what became of it, the
/// trail of its phases with their product.
#[derive(Clone, Copy)]
pub struct Entry<V: Copy> {
    pub parent: u32,
    pub branch: u32,
    pub state: State,
    pub trail: Option<Trail>,
    pub index: V,
}
