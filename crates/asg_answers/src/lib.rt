//! What commands answer with: the outcomes of solvers, the documents made of them, replies, and the
//! documents of a script, written as they are made.
//!
//! A document is made of an outcome that its contract says is proved, and so has a text, certifies,
//! and claims what is true. In its place a brief line (`asg_brief`) may be written. A reply is a
//! status and what is to be written, for which all memory is taken before it is put. The commands
//! of the program (`asg_app`) stand on it.
#![tactic(auto)]

mod documents;
mod edited;
mod pages;
mod refusals;
mod replies;
mod sheets;
mod solvers;
mod status;
mod tellings;

pub use documents::{best_document, edit_document, none_document, ranked_document};
pub use edited::{Halt, put_lines};
pub use pages::Pages;
pub use refusals::{refusal, script_refusal};
pub use replies::{Reply, Text, put_text};
pub use sheets::Sheet;
pub use solvers::{SolverRefusal, outcome};
pub use status::Status;
pub use tellings::{best_text, none_text, table_text};
