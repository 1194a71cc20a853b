//! The reader of documents: documents from their text.
//!
//! Contracts see a document as its fields, and its text as the lines that `asg_doc` gives it.
//! `read` is the inverse of `asg_doc::write` and refuses every other text with its line, and no
//! document's text begins with another's. `specs/DocumentParts.antt` has the text as parts, each
//! read by a function of its own. The crate serves the checker's command.
#![tactic(auto)]

mod answer_reader;
mod claim_reader;
mod cost_reader;
mod document_reader;
mod heads;
mod level_reader;
mod node_reader;
mod phase_reader;
mod ranking_reader;
mod refusals;
mod text_laws;
mod window_reader;
mod words;

pub use document_reader::read;
pub use refusals::DocRefusal;
pub use text_laws::{refused_line, round_trip, unique_reading};
