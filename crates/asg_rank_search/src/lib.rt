//! The search for ranked answers by their sums.
//!
//! Nothing here is proved but that it is safe and ends: what is found is tested by the crates
//! above. A child of a part of all answers is grown from the part's own answer and dual variables
//! by one shortest path, in numbers less those of the first dual variables, of 32 bits or of 64.
#![tactic(auto)]

mod benches;
mod children;
mod gaps;
mod limits;
mod numbers;
mod paths;
mod rooms;
mod shifts;
mod tables;
mod waiting;

pub use benches::{Bench, Growth, Parent};
pub use children::{Child, FIXED, FLOOR, Move};
pub use limits::Limit;
pub use numbers::RankNumber;
pub use tables::Table;
pub use waiting::Waiting;
