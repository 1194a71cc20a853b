//! One notion of a reduced square, however it is kept, for the engine and the checker.
//!
//! A kept square tells its rows, and takes phases: those that are known to be admitted, and those
//! that are tested. Sums are kept by dual variables: a phase adds to each cell what its row takes
//! and subtracts what its column gives, so that it doesn't go over the cells. In 64 bits, for sums
//! that stop at 2^62, 64 sums of a row are compared with keys at a time. Where sums come near the
//! top the cells are written out in place, and each phase rewrites them from then on, as it does
//! those of maxima and graded values. [`Keeps`] says which square serves which monoid. Making a
//! square takes memory, and so does a test of a list; nothing else here does.
#![tactic(auto)]

mod dual_cells;
mod dual_rows;
mod dual_squares;
mod keeping;
mod kept_squares;
mod masked;
mod narrow_rows;
mod rewritten;
mod sums;
mod tested_lists;

pub use dual_squares::DualSquare;
pub use keeping::Keeps;
pub use kept_squares::{KeptSquare, RowSquare, cell_of};
pub use masked::Masked;

/// There was not enough memory.
pub type NoMemory = std::alloc::AllocError;
