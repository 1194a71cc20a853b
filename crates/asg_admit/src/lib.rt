//! Admissible transformations of a square: steps and phases, tested and applied.
//!
//! A step by c on rows I and columns J, one more than the side together, takes c from each cell of
//! both and multiplies each cell of neither by c, so that each perfect assignment has c less. A
//! phase is a list of steps whose rows grow and whose columns shrink, as an alternating tree does
//! [Burkard, Hahn and Zimmermann 1977]. A reduced square carries the product of the steps that led
//! to it, its index. Contracts see a phase as its three lists, and what it makes of a square cell
//! by cell. No call takes memory.
#![tactic(auto)]

mod admission;
mod admission_within;
mod blocks;
mod counting;
mod held_cells;
pub mod laws;
mod lesser_cells;
mod products;
mod reduced;
mod replayed_cells;
mod replaying;
mod row_cells;
mod stepping;

pub use admission::{admits, are_values, is_over};
pub use admission_within::admits_within;
pub use blocks::{blocks_allow, next_mark};
pub use counting::{are_counted, entered, staying};
pub use products::{product_of, range, spread};
pub use reduced::Reduced;
pub use replayed_cells::{cut, replay_cell, settled_value};
pub use replaying::replay;
pub use stepping::step;
