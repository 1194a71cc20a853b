//! Phases of one step by 1 on the squares of levels, as rows of bits.
//!
//! A square whose cells are 0 or 1 is kept as two rows of bits for each row. After steps by 1 a
//! cell that was 0 is 0 again where its column is out of as many of them as its row is in, and one
//! that was 1 where its column is out of one less. So phases are tested, and the cells that are 0
//! after them found, 64 columns at a time. Contracts see the square and its phases. The solver of
//! levels and their checker both stand on it.
#![tactic(auto)]

mod free_rows;
mod mark_words;
mod next_step;
mod tight;
mod unit_lists;
mod unit_phases;

pub use next_step::tighten_more;
pub use tight::tighten;
pub use unit_lists::apply_units;
pub use unit_phases::count_zeros;

/// There was not enough memory.
pub type NoMemory = std::alloc::AllocError;
