//! The square of an instance: the reduction of assignment with capacities, of k-cardinality
//! assignment and of assignment with dropped rows to a perfect assignment of one square.
//!
//! Each column of the instance stands as so many columns of the square as its capacity, side by
//! side, and rows and columns without a place of their own have free cells. Contracts see a square
//! as its side, its labels and the map of its cells, which stand in a table (`asg_cell_tables`). The
//! choices of the perfect assignments of an instance's square are exactly its valid choices, with
//! equal folds. Every solver and checker of phases works on it.
#![tactic(auto)]

mod assignments;
mod choices;
mod kept_words;
mod labels;
pub mod laws;
mod squares;

pub use squares::Square;

/// There was not enough memory.
pub type NoMemory = std::alloc::AllocError;
