//! Proofs of answers: what a solving call gives, and what shows that its answer is right.
//!
//! The types are those of an outcome: a best choice with its proof, or rows that show that no
//! choice is valid. The definitions say what a proof of each kind must hold for a choice of an
//! instance, the laws that a choice which is proved so is best. Contracts see a list of ids as a
//! list of numbers, and a proof and an outcome by their variants. The solving crates give outcomes,
//! documents write them, and the checker tests them; nothing here solves or tests.
//!
//! Phases of steps on a square prove lower bounds for algebraic objectives: an admitted step takes
//! its value from the product of each perfect assignment, whatever d-monoid the values are of.
#![tactic(auto)]

mod column_lists;
mod cuts;
pub mod laws;
mod levels;
mod outcomes;
mod phase_lists;
mod phases;
mod row_ids;
mod step_words;
mod steps_read;
mod windows;
mod written_phases;

pub use column_lists::Columns;
pub use cuts::cut_steps;
pub use levels::{Level, Levels};
pub use outcomes::{Outcome, Proof};
pub use phase_lists::Phases;
pub use phases::{Phase, into_words, words};
pub use row_ids::Ids;
pub use step_words::StepWords;
pub use steps_read::Steps;
pub use windows::{Window, Windows};
pub use written_phases::WrittenPhase;

/// There was not enough memory.
pub type NoMemory = std::alloc::AllocError;
