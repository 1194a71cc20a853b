//! Phases tested on the costs as they stand, without a square.
//!
//! A cell of the square of an instance is told by the row that its row stands for and the column
//! that its column is a copy of: for an objective of sums it is the cost there as it enters, and
//! where one of the two stands for nothing it is 0 or absent. So the one pass that tells whether a
//! list of phases is admitted (`asg_phase_totals`) goes over the costs, with the greatest number of
//! the copies of each column, and over the rows and columns of the square; for `time-cost` that of
//! lists of one grade (`asg_grade_lists`) does. Contracts see what the phases prove of a choice.
#![tactic(auto)]

mod column_tops;
mod graded_rows;
mod graded_tables;
mod narrow_tops;
mod pair_rows;
mod phase_proofs;
mod phase_sizes;
mod phase_sums;
mod row_cells;
mod row_pieces;
mod table_fits;
mod table_rows;

pub use graded_tables::graded_index;
pub use phase_proofs::proves;
pub use table_fits::fits_table;

/// There was not enough memory.
pub type NoMemory = std::alloc::AllocError;
