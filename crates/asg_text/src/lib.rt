//! Input files: from bytes to an instance or to the lines of a script, or to the fault for which
//! they are refused.
//!
//! The file of an instance is in one of three formats: asn, as DIMACS has it, square and rect.
//! Contracts see what a text is read as, `reading_of`: a function of the lines and fields, or the
//! tokens, of the whole text, which spells an instance or refuses the text for its earliest fault.
//! A script has a line for each edit of an instance and for each answer that is due; what it is
//! read as is `reading_of_script`. An instance as such files spell it has its text as a rect file.
//! Over an instance, a script is read and its edits are tried in order on a copy, so that it is
//! refused, if it is, before anything is answered: `script_in` is what its bytes hold for an
//! objective and an instance. An instance of a formula, told by two numbers, is for trials and
//! measurements. The program's commands read and write by them.
#![tactic(auto)]

mod files;
mod formats;
pub mod formula_laws;
mod formulas;
pub mod laws;
mod rect_texts;
mod script_lines;
mod script_refusals;
mod scripts;
mod solve_lines;
mod tried_scripts;

pub use files::read;
pub use formats::Format;
pub use formulas::generated;
pub use rect_texts::write_rect;
pub use script_lines::Line;
pub use script_refusals::ScriptRefusal;
pub use scripts::{MOST_SCRIPT_LINES, read_script};
pub use solve_lines::{solve_count, solves};
pub use tried_scripts::{ScriptRefused, script};

/// Want of memory.
pub type NoMemory = std::alloc::AllocError;
