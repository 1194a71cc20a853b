//! Ranked answers: the best choices of an instance, one after another, with the tree that proves
//! the ranking.
//!
//! The choices that weren't given stand in parts that have none in common, the open nodes of a
//! search tree (`asg_nodes`). The index of a part, the product of the steps of its phases, is at
//! most the product of each of its choices. The part of the least index gives the next answer, and
//! its children take its place (`asg_branching`). The root, the part of all choices, has few phases,
//! which are guessed and tested, or else those of the engine (`asg_roots`). All memory but that of
//! the tree as documents have it is taken before the first answer. Contracts see a ranker as its
//! kind, its instance, how many answers were asked for, and those that it gave.
#![tactic(auto)]

mod choice_lists;
mod desks;
mod opening;
mod pairs;
mod ranker;
mod rankings;
mod rooms;
mod trees;
mod written_nodes;

pub use choice_lists::Choices;
pub use ranker::{MOST_WORK, Next, RankRefusal, Ranker};
pub use rankings::{RankOutcome, ranking};
pub use rooms::counting_law;

/// There was not enough memory.
pub type NoMemory = std::alloc::AllocError;
