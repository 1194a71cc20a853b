//! Rankings of choices: what shows that ranked answers are right.
//!
//! The valid choices of an instance other than a given one are those of its children [Murty 1968].
//! A search tree has the instance at its root and children below each node that gave an answer; a
//! node that gave none was left open with phases that bound it, or has a Hall set. The definitions
//! say when nodes are a search tree of listed answers and when answers are a ranking, the laws that
//! answers with a search tree are one, and what a search keeps meanwhile. Contracts see a list of
//! nodes as a list. The ranking crates give nodes, documents write them, and the checker tests them.
#![tactic(auto)]

mod children;
pub mod laws;
mod nodes;

pub use children::child;
pub use nodes::{Mark, Node, Nodes};

/// There was not enough memory.
pub type NoMemory = std::alloc::AllocError;
