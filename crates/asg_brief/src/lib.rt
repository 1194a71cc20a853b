//! Brief lines: each tells an answer in place of a document.
//!
//! A brief line is determined by its instance: it tells the value of the best choices and how many
//! cells they have, that no choice is valid, or how many answers a ranking has and the values of
//! its first and its last. So it is made of a choice or of a ranker's answers alone; no proof is
//! written out. What it says is stated over all choices, and laws say that it is one.
#![tactic(auto)]

mod brief_lines;
pub mod laws;
mod line_bytes;
mod lines;
mod rankings;
mod sum_lines;
mod sum_rankings;

pub use brief_lines::BriefLine;
pub use lines::{best_line, none_line};
pub use rankings::{BriefRanking, brief_ranking};
pub use sum_lines::sum_line;

/// There was not enough memory.
pub type NoMemory = std::alloc::AllocError;
