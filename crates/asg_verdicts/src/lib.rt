//! Why documents don't certify: the reasons, in the order in which they are tested, verdicts, and the
//! judges of phases and of levels.
//!
//! A reason stands against a document at a place, or for the whole of it. A verdict is `Yes` where
//! no reason of a list stands, or else names the first that does, and the least place at which it
//! stands. Contracts see what stands as a relation of reasons and spots, whatever it is about.
//!
//! Phases are tested on a square of the instance: all in one pass over the table of costs or over the
//! cells where that tells it, else one after the other on the square that serves the monoid, and
//! their index is compared with the choice's fold. The levels of an assignment are taken one after
//! the other, over what is left of the square's cells after those before, which rows of bits tell: a
//! level whose phases each have one step, by 1, on those bits, any other on a square of its own.
//! Contracts see a verdict by what stands against phases, over the monoid of the objective, or
//! against levels, and laws say when they are proved. The judges trust nothing that a document says,
//! and stand on no solver: the checker of documents stands on them.
#![tactic(auto)]

mod graded_indices;
mod known_indices;
mod level_bits;
mod level_choices;
mod level_units;
mod level_verdicts;
mod level_walks;
mod phase_verdicts;
mod square_verdicts;
mod sum_indices;
mod verdicts;

pub use level_verdicts::levels_verdict;
pub use phase_verdicts::phases_verdict;
pub use verdicts::{Reason, Verdict};

/// Want of memory: the one error of the calls that take memory.
pub type NoMemory = std::alloc::AllocError;
