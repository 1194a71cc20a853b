//! Searches for assignments of least sum where rows and columns are alike, or few cells are present.
//!
//! Nothing here is proved but that it is safe and ends: what is found is tested by the crates
//! above. Columns that are copies of one column of an instance are a class, and rows that stand for
//! no row of it are left out. Shortest augmenting paths go over a table with a place for each class,
//! or, where few cells are present, over lists of them; what is found for classes is given to the
//! rows and columns of the square.
#![tactic(auto)]

mod arc_bench;
mod arc_duals;
mod arc_paths;
mod arc_starts;
mod arcs;
mod bench;
mod class_paths;
mod class_solving;
mod class_tables;
mod classes;
mod near_cells;
mod placings;
mod ranges;
mod rows;
mod trees;

pub use arc_duals::{ArcLead, found_by_arcs, lead_by_arcs};
pub use arcs::{Arcs, arcs_of};
pub use bench::Bench;
pub use class_paths::augment_from;
pub use class_solving::place_rows;
pub use class_tables::{ClassRow, class_ranges, class_table, near_class_table};
pub use classes::{Classes, are_even, classes_of};
pub use near_cells::near_base;
pub use placings::{Placing, found_by};
pub use ranges::Ranges;
pub use rows::{Rows, list_waiting, wait_again};
pub use trees::Tree;

/// There was not enough memory.
pub type NoMemory = std::alloc::AllocError;
