//! Best choices for `sum` and `sum-max` as the costs stand, without a square, also where columns
//! take several rows and where rows stay out.
//!
//! Columns rise by amounts under which each placed row has the least of its cells, or the greatest,
//! and a column that rises is full; no chosen cell is above a level, and no cell of a row that
//! stays out below it. Such a choice is best, since what the columns rise by is no less for it than
//! for any other, and as many rows stay out. A search guesses the columns and the rises
//! (`asg_dual_search`), and what it finds is tested in one pass over the costs; contracts see what
//! the test shows. The program's brief lines are made by it, for which no phases are needed. What the
//! search finds is handed out too: phases are made of it elsewhere.
#![tactic(auto)]

mod fullness;
pub mod laws;
mod leads;
mod level_choices;
mod level_rows;
mod pair_leads;

pub use leads::{choice_of, lead};
pub use level_choices::best_by_table;
pub use pair_leads::{PairLead, PairRanges, pair_lead};

/// There was not enough memory.
pub type NoMemory = std::alloc::AllocError;
