//! What searches with dual variables go over, and what they find.
//!
//! Nothing here is proved but that it is safe and ends: what is found is tested by the crates
//! above. Tables are of numbers of 32 bits or of 64, and over a row of them there are passes, in
//! 32 bits 16 columns at a time. Squares of sums, and of numbers of which some may be missing, are
//! read into them. What a search finds is an assignment with dual variables.
#![tactic(auto)]

mod cell_numbers;
mod found;
mod heaps;
mod lanes;
mod lists;
mod numbers;
mod places;
mod served;
mod sums;
mod tables;
mod wide_numbers;

pub use cell_numbers::{NO_NUMBER, Numbers};
pub use found::Found;
pub use heaps::{Heap, Ranked, sink};
pub use lists::Lists;
pub use numbers::{Number, Two, fill, set, value};
pub use places::{NONE, amount, at, is_marked, mark, name, put, put_amount};
pub use served::Served;
pub use sums::Sums;
pub use tables::{Table, padded};

/// There was not enough memory.
pub type NoMemory = std::alloc::AllocError;
