//! The live cells of a square in the order of their costs, and marks for cells in rows of bits.
//!
//! The costs of a square enter as grades, whole numbers from 1 on in place of costs, under which
//! the free cells have 0. The live cells whose grades are under a limit stand in a list in the
//! order of their grades, so that those of a range of grades are those from one place to another.
//! Marked cells are rows of bits, which alternating trees go over, and the cells of the entries
//! from one place to another are marked, or their marks taken, at once. The solvers that go through
//! the costs one after the other stand on it.
#![tactic(auto)]

mod grades;
mod live_cells;
mod marks;
mod named;
mod under_words;

pub use grades::{cost, grade, graded_square};
pub use live_cells::{Entry, LiveCells, in_order};
pub use marks::Marks;
pub use named::{enter, leave};
pub use under_words::under_word;

/// There was not enough memory.
pub type NoMemory = std::alloc::AllocError;
