//! The editor: an instance that is edited and answered again and again for an objective.
//!
//! It holds the session of the objective's kind (`asg_repair`) and speaks of it by the objective
//! alone: contracts see its objective, its instance as edited, its phases as words, and how many
//! rows the next answer may have to serve. The command `edit` stands on it. An editor that is opened
//! for brief lines keeps dual variables for sums (`asg_sum_edits`) in place of phases, and tells the
//! sum of the best choices by them as long as they serve.
#![tactic(auto)]

mod choice_copies;
mod chosen_sessions;
mod dual_sessions;
mod editors;
mod prepared_sessions;
mod session_answers;
mod session_edits;
mod sessions;

pub use editors::Editor;

/// There was not enough memory.
pub type NoMemory = std::alloc::AllocError;
