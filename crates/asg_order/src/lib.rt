//! Ordered monoids: the traits that algebraic assignment is generic in, with their laws.
//!
//! An ordered monoid has a commutative, associative operation with a unit, and a total order in
//! which the operation is monotone and the unit is least. It is a d-monoid where it has
//! differences: for each x and y a least z for which y is at most the product of x and z, and then
//! the product of x with it is the greater of x and y. Assignment over d-monoids is that of
//! [Burkard, Hahn and Zimmermann 1977]. A kind says how the costs of an objective enter one.
//!
//! Contracts see a monoid as a record of its unit, product and order, over which the laws are ghost
//! members of the traits: code that is generic in a monoid is proved from them alone. The monoids
//! of the objectives stand above this crate, as do squares and solvers that are generic in one.
#![tactic(auto)]

mod folds;
mod kinds;
pub mod laws;
mod ordered;
mod words;

pub use folds::fold;
pub use kinds::Kind;
pub use ordered::{DMonoid, Ordered};
pub use words::{Word, Written};
