//! The judge of search trees: whether the nodes of a document prove that nothing better than its
//! answers was left out.
//!
//! A node stands for a part of the valid choices: the root for all, any other node for the child of
//! its parent's part by the parent's answer and the node's branch ([Murty 1968]). An answered node
//! must have an answer of its part and a child for each branch, an open one a trail of admitted
//! phases, an empty one a Hall set of its part. No part has a square of its own: a child's square
//! is that of its parent without some cells, which rows of bits tell. So there are squares for the
//! answered nodes alone, one after the other, and one for children whose trail has more than a short
//! phase beyond the parent's. The judge goes from an answered node to its children, and keeps at
//! most as many squares at a time as the number of answers has binary digits, and one. The memory is
//! in proportion to the document and to the squares; the time, besides that of the squares of
//! answered nodes, each of which is led to once, at most in proportion to the cells for each node.
//! What a node keeps is told, changed and met by words of 64 columns. Trees of `sum` and `sum-max`
//! are judged in 64 bits first.
//!
//! It trusts nothing that nodes say. Contracts see answers as choices and nodes as they are
//! declared. It stands on no solver.
#![tactic(auto)]

mod choice_lists;
mod conclusions;
mod descents;
mod groups;
mod heavy_children;
mod judged_trees;
mod marks;
mod node_parts;
mod objectives;
mod own_answers;
mod paths;
mod places;
mod roots;
mod siblings;
mod tallies;
mod trees;
mod verdicts;

pub use choice_lists::Choices;
pub use objectives::judge;
pub use trees::judge_tree;
pub use verdicts::TreeVerdict;

/// There was not enough memory.
pub type NoMemory = std::alloc::AllocError;
