//! Sessions for sums: an instance whose costs are edited, and the least or greatest sum of its
//! valid choices again and again.
//!
//! A session keeps dual variables, by which rows fall and columns rise, and a choice that comes to
//! as little as they say. An edit of a cost that stays above them needs no work. Where the choice
//! is no longer known to be best, the rows whose cells no longer fit get columns by shortest
//! augmenting paths. What these find is only a guess, and is tested: falls that rose against their
//! rows, the choice for validity, and its sum against that of the dual variables, so that it is
//! best by duality. Where a guess fails, no sum is told, and another way is left to the caller.
#![tactic(auto)]

mod founds;
mod guesses;
pub mod laws;
mod paths;
mod places;
mod repairs;
mod row_tests;
mod sessions;
mod sum_tests;
mod turns;

pub use sessions::SumSession;

/// There was not enough memory.
pub type NoMemory = std::alloc::AllocError;
