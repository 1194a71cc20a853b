//! What is found of a tree.

/// What is found of nodes that are to be a search tree of answers. Nodes are numbered from 1.
#[derive(Clone, Copy, Debug, PartialEq, Eq)]
pub enum TreeVerdict {
    /// They are a search tree.
    Tree,
    /// The node of this number is at fault, and none before it is.
    FaultAt(usize),
    /// No node is at fault, and some answer has no node.
    NodeLacks,
    /// No node is at fault, each answer has one, and the node of this number is the first that is
    /// open and may not be: fewer answers are listed than were asked for, or the last one's product
    /// is greater than the index of the node's trail.
    OpenAt(usize),
}

/// What is found of one node.
#[derive(Clone, Copy, Debug, PartialEq, Eq)]
pub(crate) enum Judgement {
    /// It isn't as it must be.
    AtFault,
    /// It is as it must be, and is open and may not be.
    LeftOpen,
    /// It is as it must be, and may be open if it is.
    Fine,
}

/// The least node found at fault, and the least found open that may not be; a number past the last
/// node where none was.
#[derive(Clone, Copy, Debug)]
pub(crate) struct Tally {
    pub(crate) fault: usize,
    pub(crate) left: usize,
}
