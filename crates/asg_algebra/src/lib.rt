//! Algebraic assignment over any d-monoid: the engine behind sums, maxima and graded values.
//!
//! A reduced square and a matching in absorbed cells go in; a perfect assignment by absorbed cells
//! comes out, or rows that have fewer columns than they are. Row by row an alternating tree grows
//! over absorbed cells (`asg_growth`). When it reaches a free column, its path is flipped, the
//! square settled once, and the phase pushed on a trail. The engine is generic in how the square is
//! kept (`asg_kept`). Contracts see what phases were pushed, that they are admitted in turn and lead
//! from the old reduced square to the new one, and which cells are absorbed: it all follows from the
//! laws of a d-monoid alone. `asg_objectives` solves the squares of instances here.
#![tactic(auto)]

mod absorbed_cells;
mod bench;
mod branching;
mod continued;
mod entered_squares;
mod given;
pub mod laws;
mod line_steps;
mod phases;
mod solving;
mod square_solvers;
mod taken;
mod workplaces;

pub use bench::Bench;
pub use branching::{Branch, branch_from};
pub use continued::{Taken, take_given, take_over};
pub use entered_squares::entered_square;
pub use given::{assign_given, solve_given};
pub use solving::{Solved, solve};
pub use square_solvers::{AssignedSquare, SolvedSquare, solve_square};
pub use workplaces::Workplace;

/// There was not enough memory.
pub type NoMemory = std::alloc::AllocError;
