//! Nodes of a search for ranked answers: the parts of the valid choices that it keeps apart.
//!
//! A node stands for the instance without some cells: the root for all of it, any other node for
//! the child of its parent's part by the parent's answer and a branch [Murty 1968]. A tree keeps
//! its nodes in order, each with the trail of its phases and their product, its index, and the Hall
//! sets of those whose part has no choice. No node has a square of its own: it is made again from
//! that of a node above, by taking out the cells that the branches take and settling the phases on
//! the way. Slots hold the nodes that have their best choice, in the order of their indexes.
#![tactic(auto)]

mod copies;
mod cuts;
mod entries;
mod hall_pools;
mod rebuilding;
mod slots;
mod trees;

pub use cuts::put_row;
pub use entries::{Entry, State};
pub use hall_pools::HallPool;
pub use rebuilding::{own_trail, rebuild};
pub use slots::{Slot, Slots, limit, offer};
pub use trees::{Tree, entry, push_child, root_hall, set_state};

/// There was not enough memory.
pub type NoMemory = std::alloc::AllocError;
