//! Phases that are known to be admitted, applied to a reduced square by products of ranges of their
//! steps; and the same after a test by blocks of steps.
//!
//! A row that enters and a column that leaves change by the product of the steps between, not step
//! by step. Where there are many more steps than columns, those from one mark to the next are joined
//! first. So the time is that of the steps, and of the cells that change. No call takes memory.
#![tactic(auto)]

mod joined_steps;
mod left_columns;
mod replaying;
mod settling;

pub use replaying::replay_within;
pub use settling::settle;
