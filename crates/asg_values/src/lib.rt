//! What choices of an instance are worth, and what proves that there are none.
//!
//! For each definition of `asg_model` that speaks of a choice there is a test or a function here:
//! whether the choice is valid, its value by an objective, which of two values is better, whether
//! rows are a Hall set, and which cell an objective refuses. Beside them stand the laws of Hall sets
//! and of values: a Hall set leaves no valid choice, and bounds the values that one may have. Laws
//! of edits tell what an edit leaves of the cells, the rows and columns and the live costs of an
//! instance. No solver stands in this crate; solvers are held to its tests, and the checker calls
//! them.
#![tactic(auto)]

mod comparison;
mod descents;
pub mod edits;
mod extremes;
mod hall_sets;
pub mod laws;
mod marked_cells;
mod negatives;
mod reach;
mod sums;
mod validity;
mod valuation;

pub use comparison::better;
pub use hall_sets::is_hall;
pub use negatives::negative;
pub use validity::is_valid;
pub use valuation::value;
