//! The monoids and kinds of the algebraic objectives.
//!
//! `sum`, `sum-max`, `pair` and `capped` enter bounded sums, `bottleneck` and `bottleneck-max`
//! enter maxima, and `time-cost` enters bounded sums with a grade before them. A part of a cost
//! that may be negative is shifted by the cost limit, or turned round and shifted where greater is
//! better, so that it enters as a number from 0 on. That keeps the order of values, since valid
//! choices have equally many cells. The first part for `capped` and the second part for
//! `time-cost`, which aren't negative, enter as they are.
//!
//! For `sum` and `sum-max` there is a kind in 64 bits beside the wider one: it enters the same
//! numbers into sums that stop at 2^62, which no sum of an instance reaches, in half as many bits;
//! that entering keeps the order of values follows from the wider sums. Search trees by these sums
//! are search trees by the wider ones, since the last answer has the same product by both.
//!
//! Contracts see each monoid by its unit, product and order over numbers, and each kind by the
//! number as which a cost enters; that the laws hold and that entering keeps the order of values
//! are ghost members of the impls. The crates that solve, rank and check algebraic objectives stand
//! on it.
#![tactic(auto)]

mod grades;
pub mod laws;
mod maxima;
mod narrow_entries;
mod narrow_kinds;
mod narrow_sums;
mod peak_kinds;
mod ranks;
mod shifts;
mod sum_kinds;
mod sums;
mod time_kinds;

pub use grades::Graded;
pub use maxima::Greatest;
pub use narrow_entries::narrow_entry;
pub use narrow_kinds::NarrowKind;
pub use narrow_sums::NarrowSums;
pub use peak_kinds::PeakKind;
pub use ranks::compare_ranks;
pub use sum_kinds::SumKind;
pub use sums::Bounded;
pub use time_kinds::TimeKind;
