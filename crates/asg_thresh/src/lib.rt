//! Bottleneck assignment by thresholds, for instances of every shape.
//!
//! The costs of the square of an instance become grades, whole numbers that are less for a better
//! cost, so that one search serves both bottleneck objectives. The least limit within which a
//! perfect assignment exists gives the best choice, and rows that are deficient under it give the
//! Hall set that proves it best; where even all cells have deficient rows, these give a Hall set of
//! the whole instance. Where all rows are placed, both are guessed first on the instance's own table
//! of costs, without a square, and tested. Contracts see the outcome alone: a valid choice with its
//! proof, or a Hall set.
#![tactic(auto)]

mod bounds;
mod cells_under;
mod class_matching;
mod grades;
mod guesses;
mod leads;
mod limit_marks;
mod marked_cells;
mod outcomes;
mod places;
mod row_keys;
mod seeker;
mod table_rows;
mod thresholds;

pub use outcomes::bottleneck;

/// There was not enough memory.
pub type NoMemory = std::alloc::AllocError;
