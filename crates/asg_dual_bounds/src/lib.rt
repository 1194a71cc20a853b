//! Lower bounds of sums by dual variables, over parts of the answers of a plain instance.
//!
//! An instance is plain where each of its rows is placed and each column takes one. Its valid
//! choices are its answers, lists of the columns of its rows. Dual variables of which no allowed
//! cell is less than they ask bound the sums of all answers in a part; so a bound is shown by one
//! look over the cells, wherever the variables come from. The laws split a part by an answer, bound
//! the part's children by a look at one row and one column, and turn answers whose sums ascend into
//! a ranking. The tests look at a table of the numbers. Nothing here searches.
#![tactic(auto)]

mod answer_tests;
mod bounds;
mod column_gaps;
mod gaps;
mod lanes;
pub mod laws;
mod number_tables;
mod own_rows;
mod parts;
mod plain;
mod row_tests;

pub use answer_tests::{is_answer, sum_of};
pub use bounds::{dual_bound, is_above, is_above_child};
pub use gaps::child_gaps;
pub use number_tables::{ABSENT, NumberTable};
pub use parts::{Duals, Part};
pub use plain::is_plain;

/// Want of memory: the one error of the calls that take memory.
pub type NoMemory = std::alloc::AllocError;
