//! What lists of phases of sums come to for each row and each column, and their tests by that: in one
//! look at each cell, or in one for each segment of a list.
//!
//! A phase of sums that stay below the top adds to each cell what its row takes, and subtracts what
//! its column gives. So a list is told by the sums of its steps, for each row those before it
//! enters, for each column those before it leaves: no cell is rewritten. In 64 bits, for sums below
//! 2^62, or in 128. Making totals or a test takes memory; nothing else here does.
#![tactic(auto)]

mod dual_fits;
mod dual_sums;
mod greatest_cells;
pub mod laws;
mod list_tests;
mod phase_totals;
mod segments;
mod sum_numbers;

pub use dual_fits::{rows_fit, word_of};
pub use dual_sums::{lower, raise, sum_up, sum_within};
pub use greatest_cells::greatest_cell;
pub use list_tests::ListTest;
pub use phase_totals::{PhaseTotals, clear};
pub use sum_numbers::{NARROW_TOP, SumNumber};
