//! Lexicographic bottleneck assignment, for instances of every shape.
//!
//! The costs of a square are gone through from the greatest down, over rows of bits that say which
//! cells are left, with a perfect matching by them. Where a perfect matching is left without the
//! cells of a cost they leave; else the cost has a level: as many phases of one step by 1 as cells
//! of it are needed. Contracts see the outcome alone: a valid choice with its levels, or a Hall
//! set.
#![tactic(auto)]

mod choice_limits;
mod groups;
mod guesses;
pub mod laws;
mod level_work;
mod outcomes;
mod runs;
mod starts;
mod unit_phases;

pub use outcomes::{LexRefusal, MOST_ROWS, lexicographic};

/// There was not enough memory.
pub type NoMemory = std::alloc::AllocError;
