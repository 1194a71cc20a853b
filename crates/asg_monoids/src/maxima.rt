//! The greater of two numbers.

use asg_order::{DMonoid, Ordered, Word, Written};

/// The numbers below 2^64 with the greater of two. The unit is 0.
#[derive(Clone, Copy)]
pub struct Greatest;

impl Ordered for Greatest {
    ghost use Rattle.asg_monoids.specs.Maxima.{maxima};
    ghost use Rattle.asg_monoids.specs.laws.Maxima.{maxima_laws};

    type Value = u64;

    ghost monoid_of = { λ _. maxima };

    fn is_value(&self, _x: u64) -> bool {
        true
    }

    fn unit(&self) -> u64 {
        0
    }

    fn op(&self, x: u64, y: u64) -> u64 {
        x.max(y)
    }

    fn le(&self, x: u64, y: u64) -> bool {
        x <= y
    }

    ghost laws = { λ _. maxima_laws };
}

impl DMonoid for Greatest {
    ghost use Rattle.asg_monoids.specs.Maxima.{maxima_difference};
    ghost use Rattle.asg_monoids.specs.laws.Maxima.{maxima_difference_laws};

    ghost difference = { λ _. maxima_difference };

    fn diff(&self, y: u64, x: u64) -> u64 {
        if x < y { y } else { 0 }
    }

    ghost difference_laws = { λ _. maxima_difference_laws };
}

impl Written for Greatest {
    ghost use Rattle.asg_monoids.specs.BoundedSums.{plain_word};
    ghost use Rattle.asg_monoids.specs.Maxima.{maxima_value};
    ghost use Rattle.asg_monoids.specs.laws.Maxima.{maxima_word_laws};

    ghost word_of = { λ _. plain_word };

    ghost value_of = { λ _. maxima_value };

    fn to_word(&self, x: u64) -> Word {
        Word {
            grade: 0,
            amount: x.into(),
        }
    }

    fn from_word(&self, w: Word) -> Option<u64> {
        if w.grade == 0 && w.amount <= u64::MAX as u128 {
            Some(w.amount as u64)
        } else {
            None
        }
    }

    ghost word_laws = { λ _. maxima_word_laws };
}
