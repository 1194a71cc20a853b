//! A region of trails: lists of phases that share what they have in common.
//!
//! A trail is a live list of phases: the list of its parent, if it has one, and then one phase of
//! its own. Each phase is stored once, however many trails lead through it. All memory is taken by
//! `reserve`; after it trails are pushed and released without memory. A region that has served
//! gives a copy of the phases of one trail. Contracts see a region as a forest: its side, how many
//! records are spare, and each live trail with its parent and its list.
#![tactic(auto)]

mod links;
mod records;
mod regions;
mod strips;
mod trails;

pub use regions::Region;
pub use trails::Trail;

/// There was not enough memory.
pub type NoMemory = std::alloc::AllocError;
