//! Phases that are kept of an instance while it is edited.
//!
//! Phases that are admitted in turn from the square of an instance stand as a chain of trails in a
//! region: told as the way to the last one, cut behind the first so many, applied to a square one
//! after the other, and written as words. An edit of the instance changes cells of its square only
//! in the row that it names and the copies of the column that it names. As many of the phases are
//! kept as these cells allow, each replayed by itself; where all are, the square that the phases led
//! to is mended in the copies of the column alone. The crate serves sessions (`asg_repair`).
//! Contracts see a chain as its region, its last trail and the way to that one, and an edit as the
//! places that it names.
#![tactic(auto)]

mod changed_cells;
mod edited_cells;
mod kept_cells;
pub mod laws;
mod led_squares;
mod mended_cells;
mod named_places;
mod phase_chains;
mod released_trails;
mod settled_trails;
mod written_chains;

pub use edited_cells::kept_through;
pub use led_squares::follow;
pub use named_places::{NamedPlaces, is_named, places_of};
pub use phase_chains::PhaseChain;
pub use settled_trails::settle_trails;
pub use written_chains::{written_chain, written_phase, written_trail};

/// There was not enough memory.
pub type NoMemory = std::alloc::AllocError;
