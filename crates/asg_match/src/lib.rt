//! Matchings of rows with columns over the allowed cells of a square.
//!
//! A matching grows row by row along alternating trees. Where a row can't be served, its tree has
//! rows that together have fewer allowed columns than they are: they are *deficient* (a Hall
//! violator, [Hall 1935]), show that no perfect assignment exists, and give a Hall set of the
//! instance.
//! Contracts see a matching as the list of the rows' columns, a tree as the rows that it reached,
//! and the allowed cells as a relation. Every solver completes its matchings and makes its Hall
//! sets here.
#![tactic(auto)]

mod allowed;
mod alternating_tree;
mod augmentation;
mod column_set;
mod hall_set;
mod matching;
mod path;
mod perfect;
mod pruning;
mod search;

pub use allowed::Allowed;
pub use alternating_tree::{Branches, Tree};
pub use augmentation::{Grown, augment};
pub use column_set::remove;
pub use hall_set::{hall_list, hall_of};
pub use matching::Matching;
pub use path::flip;
pub use perfect::{Pairing, Rows, complete, perfect_or_hall, short_or_perfect};
pub use pruning::prune;
pub use search::{Exit, start};
use std::alloc::AllocError;

/// There was not enough memory.
pub type NoMemory = AllocError;
