//! Windows of costs that prove a spread, tested all at once in one pass over the cells.
//!
//! Windows that follow each other share most of their costs, so that a test of each by itself reads
//! most cells again and again. Where both ends of the windows ascend, those that hold a cost stand
//! side by side: the costs fall into stretches, whose costs lie in the same windows. One pass over
//! the cells marks for each column the windows in which a row that they name reaches it, 64 windows
//! at a time, and shows that each live cost is held by a window; then the capacities of the reached
//! columns are added up for each window. What the test can't show it leaves open: whoever calls it
//! tests each window by itself then.
#![tactic(auto)]

mod capacities;
mod cells;
mod marks;
mod named;
mod orders;
mod spans;
mod spreads;
mod stretches;
mod tables;

pub use spreads::proves_spread;

/// There was not enough memory.
pub type NoMemory = std::alloc::AllocError;
