//! Rows of bits, 64 to a word, so that a loop may go over 64 columns at a time.
//!
//! Contracts see rows of bits as how many rows and columns there are and the words that hold them,
//! and a word by the bit at each of its places. The tables of cells (`asg_cell_tables`) tell by them
//! which cells are there, and solvers and checkers which rows, columns or cells they have seen.
#![tactic(auto)]

mod bit_rows;
mod row_bits;

pub use bit_rows::{BitRows, overwrite};
pub use row_bits::first_bits;

/// There was not enough memory.
pub type NoMemory = std::alloc::AllocError;
