//! An alternating tree over the absorbed cells of a reduced square, which grows while the square isn't
//! touched.
//!
//! Each column that wasn't reached has a key, the sum of steps at which its least cell is absorbed,
//! and a step is the difference of the least key from the sum so far. Of each word of 64 columns the
//! one with the least key is kept, so that the least key of all is found among few. The tree is
//! generic in how the square is kept. Contracts say which search over the square as the steps would
//! leave it the tree is. No call takes memory.
#![tactic(auto)]

mod growth;
mod leads;
mod nearest;
mod roots;
mod scanning;

pub use growth::{Growth, Round, advance_round, grow};
pub use roots::{plant, refill};
