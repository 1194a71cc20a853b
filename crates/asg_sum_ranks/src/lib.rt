//! Rankings of the valid choices of a plain instance by their sums.
//!
//! A search that isn't proved gives answers in turn, each the best of a part of all answers, with
//! what shows that: from which answer and which row the part comes, and dual variables. Tests of
//! that record show that the answers are a ranking: each is in its part and apart from all others,
//! their sums ascend, and what is left of the parts has no lesser sum. Where a test fails there is
//! no ranking to tell, and whoever asked has another way.
#![tactic(auto)]

mod branch_tests;
mod found;
mod grounds;
mod kept_children;
mod part_tests;
mod ranking_ends;
mod ranking_tests;
mod roots;
mod searches;
mod settled;
mod shut_tests;
mod tree_tests;

pub use ranking_ends::{RankedSums, ranked_sums};

/// There was not enough memory.
pub type NoMemory = std::alloc::AllocError;
