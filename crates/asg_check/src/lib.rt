//! The checker: whether a document certifies for an objective, an instance and a form, and if it
//! doesn't, the first reason against it.
//!
//! It trusts nothing that the document says: it reads the cells as a choice, tests that the choice
//! is valid and has the written value, and tests the proof by the definition of its kind: the rows
//! of windows as Hall sets, and the windows for gaps; phases, levels and the nodes of rankings by
//! judges of their own (`asg_verdicts`, `asg_trees`). Where documents come one after the other, the
//! phases of the one before are known to be admitted, and an edit of a cell keeps that where the
//! cell allows them. Contracts see a document by what it claims, and an instance by its rows,
//! columns and costs; a law says that what certifies is true. It stands on no solver: a user can
//! trust an answer without one (certifying algorithms, [McConnell et al. 2011]).
#![tactic(auto)]

mod checker;
mod claims;
mod document_forms;
mod kept_phases;
mod known_phases;
pub mod laws;
mod phase_indices;
mod ranked_answers;
mod ranking_verdicts;
mod window_gaps;
mod window_verdicts;
mod written_choices;
mod written_values;

pub use checker::{check, check_known};
pub use document_forms::Form;
pub use kept_phases::stay_known;
pub use known_phases::phases_of;

/// Want of memory: the one error of the calls that take memory.
pub type NoMemory = std::alloc::AllocError;
