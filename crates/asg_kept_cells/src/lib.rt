//! Which cells of a square a branch keeps, as rows of bits, and what is found on these cells alone.
//!
//! A child of an instance has the square of its parent without some cells. So it needs no square of
//! its own: a row of bits for each row of the square says which cells its branch keeps, and from one
//! branch to another only the rows between them change. What the bits keep is told, changed and met
//! by words of 64 columns. On the kept cells it is told whether a choice takes its cells there,
//! whether rows are a Hall set, and which index phases lead to. Only where a square is to be the
//! child's the other cells are taken out of it, and phases that are known to be admitted are applied
//! to it without a test.
//!
//! Contracts see bits as a table, and a square with its bits as the grid of the kept cells. The
//! judge of search trees stands on it.
#![tactic(auto)]

mod chosen_cells;
mod copies;
mod hall_tests;
mod leading;
mod masks;
mod own_phases;
mod single_leads;
mod single_steps;
mod taking_out;

pub use chosen_cells::chooses_kept;
pub use hall_tests::outnumber;
pub use leading::{lead_by, stand_after};
pub use masks::{Front, make_mask, move_mask, whole_mask};
pub use own_phases::told_index;
pub use taking_out::take_out;

/// There was not enough memory.
pub type NoMemory = std::alloc::AllocError;
