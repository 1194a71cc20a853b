//! Lists of phases of one grade on squares of graded sums, tested in one pass over the cells.
//!
//! A first phase of one step leads to a grade, and all steps of the others are amounts at it. Then
//! a cell of a higher grade is never changed, and one of a lower grade counts as 0: such a list is
//! admitted where its amounts are from the square of sums that has the amounts of the cells at the
//! grade (`asg_proof::laws::grade_law`). That is told as of lists of sums, by what all phases come
//! to for each row and each column (`asg_phase_totals::laws::one_pass_law`), with one look at each cell.
#![tactic(auto)]

mod amounts;
mod end_cells;
mod graded_cells;
mod lists;
mod rises;

pub use graded_cells::GradedCells;
pub use lists::{grade_list_index, graded_list_index};

/// There was not enough memory.
pub type NoMemory = std::alloc::AllocError;
