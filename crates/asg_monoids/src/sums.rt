//! Sums that stop at a top.

ghost use Rattle.std.specs.Prelude.{◌≡◌, ◌≤◌, ◌^◌};

use asg_order::{DMonoid, Ordered, Word, Written};

/// The numbers from 0 to a top, at most 2^120, with sums that stop at the top. The unit is 0.
#[derive(Clone, Copy)]
pub struct Bounded {
    pub top: u128,
    pub ghost small: { top ≤ 2 ^ 120 },
}

impl Ordered for Bounded {
    ghost use Rattle.asg_monoids.specs.BoundedSums.{bounded_sums};
    ghost use Rattle.asg_monoids.specs.laws.Bounded.{bounded_laws};

    type Value = u128;

    ghost monoid_of = { λ m. bounded_sums m.top };

    fn is_value(&self, x: u128) -> bool {
        x <= self.top
    }

    fn unit(&self) -> u128 {
        0
    }

    fn op(&self, x: u128, y: u128) -> u128 {
        (x + y).min(self.top)
    }

    fn le(&self, x: u128, y: u128) -> bool {
        x <= y
    }

    ghost laws = { λ m. bounded_laws m.top };
}

impl DMonoid for Bounded {
    ghost use Rattle.asg_monoids.specs.BoundedSums.{bounded_difference};
    ghost use Rattle.asg_monoids.specs.laws.Bounded.{bounded_difference_laws};

    ghost difference = { λ _. bounded_difference };

    fn diff(&self, y: u128, x: u128) -> u128 {
        y.saturating_sub(x)
    }

    ghost difference_laws = { λ m. bounded_difference_laws m.top };
}

impl Written for Bounded {
    ghost use Rattle.asg_monoids.specs.BoundedSums.{plain_word, bounded_value};
    ghost use Rattle.asg_monoids.specs.laws.Bounded.{bounded_word_laws};

    ghost word_of = { λ _. plain_word };

    ghost value_of = { λ m. bounded_value m.top };

    fn to_word(&self, x: u128) -> Word {
        Word {
            grade: 0,
            amount: x,
        }
    }

    fn from_word(&self, w: Word) -> Option<u128> {
        if w.grade == 0 && w.amount <= self.top {
            Some(w.amount)
        } else {
            None
        }
    }

    ghost word_laws = { λ m. bounded_word_laws m.top };
}
