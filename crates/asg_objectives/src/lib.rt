//! The algebraic objectives: best choices with phases that prove them, or Hall sets.
//!
//! The square of an instance, its live costs entered into the monoid of the objective, is solved as
//! an algebraic assignment problem. A perfect assignment by absorbed cells gives the choice, and
//! the phases that were taken prove it, with each step as its word; rows with fewer present cells
//! than they are give a Hall set of the whole instance. Contracts see the outcome alone. One call
//! is generic in the kind of the objective and solves by the engine, another chooses the kind by
//! the objective, and tries guessed phases first, each of which is tested; the program solves by
//! the second.
#![tactic(auto)]

mod algebraic_objectives;
mod entered_squares;
mod grade_columns;
mod grade_leads;
mod guessed_squares;
mod listed_grades;
mod narrow_squares;
mod present_cells;
mod rises;
mod solved_squares;
mod sparse_leads;
mod sparse_outcomes;
mod table_duals;
mod table_grades;
mod table_outcomes;
mod table_pairs;
mod trail_phases;

pub use algebraic_objectives::algebraic_assignment;
pub use entered_squares::algebraic;

/// There was not enough memory.
pub type NoMemory = std::alloc::AllocError;
