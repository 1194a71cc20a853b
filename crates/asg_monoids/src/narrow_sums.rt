//! Sums in 64 bits.

use asg_order::{DMonoid, Ordered, Word, Written};

/// Where sums in 64 bits stop: at 2^62.
const TOP: u64 = 1 << 62;

/// The numbers from 0 to 2^62 with sums that stop there: those of [`Bounded`](crate::Bounded) with
/// that top, in half as many bits. They serve where sums stay far below it, as those of `sum` and
/// `sum-max` do. The unit is 0.
#[derive(Clone, Copy)]
pub struct NarrowSums;

impl Ordered for NarrowSums {
    ghost use Rattle.asg_monoids.specs.BoundedSums.{bounded_sums, narrow_top};
    ghost use Rattle.asg_monoids.specs.laws.Bounded.{bounded_laws};

    type Value = u64;

    ghost monoid_of = { λ _. bounded_sums narrow_top };

    fn is_value(&self, x: u64) -> bool {
        x <= TOP
    }

    fn unit(&self) -> u64 {
        0
    }

    fn op(&self, x: u64, y: u64) -> u64 {
        (x + y).min(TOP)
    }

    fn le(&self, x: u64, y: u64) -> bool {
        x <= y
    }

    ghost laws = { λ _. bounded_laws narrow_top };
}

impl DMonoid for NarrowSums {
    ghost use Rattle.asg_monoids.specs.BoundedSums.{bounded_difference, narrow_top};
    ghost use Rattle.asg_monoids.specs.laws.Bounded.{bounded_difference_laws};

    ghost difference = { λ _. bounded_difference };

    fn diff(&self, y: u64, x: u64) -> u64 {
        y.saturating_sub(x)
    }

    ghost difference_laws = { λ _. bounded_difference_laws narrow_top };
}

impl Written for NarrowSums {
    ghost use Rattle.asg_monoids.specs.BoundedSums.{plain_word, bounded_value, narrow_top};
    ghost use Rattle.asg_monoids.specs.laws.Bounded.{bounded_word_laws};

    ghost word_of = { λ _. plain_word };

    ghost value_of = { λ _. bounded_value narrow_top };

    fn to_word(&self, x: u64) -> Word {
        Word {
            grade: 0,
            amount: x as u128,
        }
    }

    fn from_word(&self, w: Word) -> Option<u64> {
        if w.grade == 0 && w.amount <= TOP as u128 {
            Some(w.amount as u64)
        } else {
            None
        }
    }

    ghost word_laws = { λ _. bounded_word_laws narrow_top };
}
