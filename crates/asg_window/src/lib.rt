//! Balanced assignment by windows of costs, for instances of every shape.
//!
//! The live cells of the square of an instance are taken in the order of their costs, and a band of
//! costs moves over them: its cells are rows of bits, which change by the cells that enter or
//! leave. A perfect assignment within the band lessens the best spread; rows that are deficient
//! under the band, and stay so up to the next cost that helps them, make a window, and the band
//! moves up past it. Contracts see the outcome alone: a valid choice with windows that prove its
//! spread least, or a Hall set.
#![tactic(auto)]

mod band_cells;
mod band_moves;
mod cells_within;
mod distinct;
mod empty_lines;
mod gaps;
mod grades;
mod next_grades;
mod outcomes;
mod seeker;
mod spreads;
mod windows;
mod words;

pub use outcomes::{BalancedRefusal, MOST_COSTS, balanced};

/// There was not enough memory.
pub type NoMemory = std::alloc::AllocError;
