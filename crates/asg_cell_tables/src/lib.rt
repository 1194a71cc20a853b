//! Square tables of optional values: plain values row by row, and rows of bits that say which are
//! there.
//!
//! Contracts see a table as its side and the list of its cells. A table is filled by what its rows
//! and columns stand for: a counted row and a column of the instance have a cell where the
//! instance's cell is live, with what its cost enters as, and the others a free one or none by the
//! place rule. Where a whole row is live, 64 cells are written at a time, by the parts of its costs.
//! The square of an instance (`asg_square`) holds its cells in such a table.
#![tactic(auto)]

mod cell_tables;
mod cells;
mod entered_pieces;
mod gathering;
mod labellings;
mod piece_words;
mod pieces;
mod row_changes;
mod rows;

pub use cell_tables::CellTable;
pub use cells::fill_cells;

/// There was not enough memory.
pub type NoMemory = std::alloc::AllocError;
