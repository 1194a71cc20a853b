//! The assignment problem: instances and choices of cells.
//!
//! An instance has rows, columns with capacities, the costs of its cells and a place rule; it keeps
//! the costs in a map, a list or a table. A choice gives each row one column or none. Contracts see an
//! instance as a `Problem`, which has its rows, its columns and its cells as lists however they are
//! kept, and a choice as the list of what its rows choose. An edit changes one cell, row or column
//! of an instance, or is refused. The definitions of the subject stand here: what a valid choice, a
//! value, a better value and a Hall set are, which `asg_values` tests and computes. No solver stands
//! in this crate. All crates that speak of instances stand on it.
#![tactic(auto)]

mod bands;
mod cell_edits;
mod cell_lists;
mod cell_store;
mod choices;
mod editing;
mod edits;
mod instances;
pub mod laws;
pub mod limits;
mod objective_words;
mod objectives;
mod parts;
mod places;
mod refusals;
mod retaining;
mod row_rooms;
mod shapes;

pub use bands::Band;
pub use choices::Choice;
pub use edits::{Edit, EditRefusal};
pub use instances::Instance;
pub use objective_words::{uncapped_named, word_front};
pub use objectives::{Costs, Objective, Value};
pub use parts::{ABSENT, Column, Cost, Place, PlaceRange, Row, RowParts};
pub use row_rooms::RowRoom;

/// Want of memory: the one error of the calls that take memory.
pub type NoMemory = std::alloc::AllocError;
