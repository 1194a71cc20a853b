//! Searches for assignments of least sum with dual variables, and for those of least maximum.
//!
//! Nothing here is proved but that it is safe and ends: what is found is tested by the crates
//! above. A square of sums, or a table of costs, is solved by the starts and shortest augmenting
//! paths of Jonker and Volgenant, in numbers of 32 bits where they do. The paths are those of
//! `asg_class_search`, and so is the search where rows and columns are alike, or few cells present.
#![tactic(auto)]

mod bounds;
mod coarse_to_fine;
mod cost_tables;
mod costs;
mod limit_paths;
mod limit_tables;
mod search;
mod solving;
mod starts;
mod table_duals;
mod thresholds;
mod widths;

pub use bounds::Bound;
pub use cost_tables::{CostTable, Lead};
pub use limit_tables::LimitTable;
pub use search::Search;
pub use thresholds::{Threshold, threshold_of};

/// There was not enough memory.
pub type NoMemory = std::alloc::AllocError;
