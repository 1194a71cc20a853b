//! Sessions: an instance that is edited and answered again and again.
//!
//! What an answer leaves is kept through an edit as far as it can be: the phases are admitted from
//! the edited square exactly as far as the cells that changed allow them, one cell at a time, so
//! that only these are replayed. Where cells were raised or removed all phases are kept, and every
//! row whose cell wasn't touched keeps its column; then one more tree serves the row that lost its
//! own. Else a prefix is kept: it is applied anew at the next answer, and each column is kept whose
//! cell is absorbed then. Where all phases are kept through an edit that names a column, the cells
//! that it touches are written into the reduced square at once, so that the next answer begins with
//! it; after other edits that square is made anew then. A session is opened by few phases that are
//! guessed (`asg_roots`). Where two rows or more lost their columns, it goes on by few that are
//! guessed again, where an answer is prepared, and else by those of the engine (`asg_algebra`).
//! Contracts see a session as its kind, its instance, its phases, the columns that rows are sure to
//! keep, and what was answered last.
#![tactic(auto)]

mod absorbed_cells;
mod answers;
mod applied_edits;
mod cleared_rows;
mod free_rows;
mod guessed_ends;
pub mod laws;
mod opening;
mod prepared_answers;
mod present_cells;
mod refilled_squares;
mod session_answers;
mod sessions;
mod works;

pub use answers::{Answered, Given};
pub use sessions::Session;

/// There was not enough memory.
pub type NoMemory = std::alloc::AllocError;
