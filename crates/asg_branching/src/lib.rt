//! Branching: the step of a search for ranked answers.
//!
//! The kept node of least index gives the next answer, and its children take its place
//! [Murty 1968]. A child needs no square of its own: its phases are those of its parent and at most
//! one more, found by one tree on its parent's square, of which bits tell the cells that it keeps.
//! Children that can't be among the answers that are left aren't grown to the end. No step takes
//! memory.
#![tactic(auto)]

mod child_nodes;
mod children;
mod desks;
mod giving;
mod masked_cells;
mod searches;

pub use child_nodes::close_child;
pub use desks::Desk;
pub use giving::give;
pub use searches::{Search, follow};
