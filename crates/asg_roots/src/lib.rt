//! Roots: the squares of instances, solved from the unit on.
//!
//! A search for ranked answers begins with a root, and so does a session. The live costs of an
//! instance are entered into the monoid of its objective, and the square is solved with the phases
//! that led it there. For each monoid there is a way to guess few phases with an assignment
//! (`asg_duals`), of which no clause says that they serve: each phase and the assignment are tested
//! (`asg_algebra`). Where nothing is guessed, or what was guessed doesn't pass, the engine solves
//! the square. So contracts are those of the engine, whatever was guessed.
#![tactic(auto)]

mod guesses;
mod instance_roots;
mod roots;

pub use guesses::RootGuess;
pub use instance_roots::instance_root;
pub use roots::Root;

/// There was not enough memory.
pub type NoMemory = std::alloc::AllocError;
