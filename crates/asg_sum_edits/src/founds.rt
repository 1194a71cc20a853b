//! Dual variables with a choice.

use asg_model::Choice;

/// By how much each row may fall and each column may rise, a choice, and its sum.
#[derive(Drop)]
pub(crate) struct Found {
    pub falls: Vec<u64>,
    pub rises: Vec<u64>,
    pub choice: Choice,
    pub sum: i128,
}
