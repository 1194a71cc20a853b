//! Phases as documents have them, replayed on the square of an instance.
//!
//! The steps of a phase are words; each is read as a value of the monoid, and the phases are
//! applied in turn to a reduced square, however it is kept, up to the first that isn't admitted
//! after those before it. Long phases are applied by parts, so that their values never stand in
//! memory all at once. One pass over the cells can tell that a whole list of phases of sums is
//! admitted.
//! Contracts say from which square the phases are admitted, and to which they lead. The checkers of
//! phases, of levels and of search trees stand on it.
#![tactic(auto)]

mod narrow_lists;
mod replays;
mod starts;
mod whole_lists;

pub use narrow_lists::narrow_led;
pub use replays::{first_bad, has_long, make_room, read_steps};
pub use starts::{chosen_fold, start};
pub use whole_lists::{list_index, take_all};

/// There was not enough memory.
pub type NoMemory = std::alloc::AllocError;
