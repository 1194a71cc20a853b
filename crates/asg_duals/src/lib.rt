//! Short proofs, guessed: an assignment of least sum with dual variables, and few phases from them.
//!
//! Nothing here is proved to find what it looks for. What the searches of `asg_dual_search` find is
//! tested, and the contract is what the test shows. Dual variables are turned into at most as many
//! phases as the side has binary digits, where the engine makes one for each row: the first one
//! closes gaps and cuts a chain of spans, each further one halves what is left. Pairs of sums, sums
//! that stop at a cap, graded sums and maxima are read as squares of sums, one or two. A caller
//! tests each phase, and has another way where one isn't admitted.
#![tactic(auto)]

mod assigning;
mod capped_guesses;
mod cell_numbers;
mod conversion;
mod duals;
mod grade_guesses;
mod gradual;
mod guesses;
mod merges;
mod pair_guesses;
mod phase_moves;
mod phases;
mod plain_guesses;
mod readings;
mod retold_phases;
mod spans;
mod sum_squares;
mod tightness;

pub use assigning::tight_duals;
pub use capped_guesses::capped_guess;
pub use conversion::short_phases;
pub use duals::Duals;
pub use grade_guesses::{grade_guess, peak_guess};
pub use guesses::Guess;
pub use pair_guesses::pair_guess;
pub use plain_guesses::sum_guess;
pub use retold_phases::{wide_phases, with_marks_of};
pub use sum_squares::{entered, sum_square};

/// There was not enough memory.
pub type NoMemory = std::alloc::AllocError;
