//! The order of sorted lists of costs.
//!
//! Under union these lists are an ordered monoid but no d-monoid: the list of 1 is less than the
//! list of 2, and nothing added to it gives the list of 2. So they have no kind.

ghost use Rattle.std.specs.Prelude.{◌≡◌, ◌↔◌};
ghost use Rattle.std.specs.declared.cmp.Ordering.TheVariants.{Less, Equal, Greater};
ghost use Rattle.asg_model.specs.Better.{IsLessList};

use std::cmp::Ordering;

/// How two lists of costs compare as values of `lex`: at their first difference, and a list that
/// ends there is less. The values of `lex` are sorted from the greatest cost down.
pub fn compare_ranks(x: &[i64], y: &[i64]) -> Ordering
    ensures less { (result ≡ Less) ↔ IsLessList x.now y.now }
    ensures equal { (result ≡ Equal) ↔ (x.now ≡ y.now) }
    ensures greater { (result ≡ Greater) ↔ IsLessList y.now x.now }
{
    x.cmp(y)
}
