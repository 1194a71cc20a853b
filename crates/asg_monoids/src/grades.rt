//! Values with a grade before them.

use crate::sums::Bounded;
use asg_order::{DMonoid, Ordered, Word, Written};

/// Pairs of a grade below 2^64 and a value of a d-monoid. The greater grade wins, and equal grades
/// combine their values. The order compares the grades first. The unit is the grade 0 with the
/// unit.
#[derive(Clone, Copy)]
pub struct Graded<B: DMonoid> {
    pub inner: B,
}

impl<B: DMonoid> Ordered for Graded<B> {
    ghost use Rattle.asg_monoids.specs.Grades.{graded};
    ghost use Rattle.asg_monoids.specs.laws.Graded.{graded_laws};

    type Value = (u64, B::Value);

    ghost monoid_of = { λ m. graded (B.monoid_of m.inner) };

    fn is_value(&self, x: (u64, B::Value)) -> bool {
        self.inner.is_value(x.1)
    }

    fn unit(&self) -> (u64, B::Value) {
        (0, self.inner.unit())
    }

    fn op(&self, x: (u64, B::Value), y: (u64, B::Value)) -> (u64, B::Value) {
        if x.0 < y.0 {
            y
        } else if y.0 < x.0 {
            x
        } else {
            (x.0, self.inner.op(x.1, y.1))
        }
    }

    fn le(&self, x: (u64, B::Value), y: (u64, B::Value)) -> bool {
        x.0 < y.0 || (x.0 == y.0 && self.inner.le(x.1, y.1))
    }

    ghost laws = { λ m. graded_laws (B.monoid_of m.inner) (B.laws m.inner) };
}

impl<B: DMonoid> DMonoid for Graded<B> {
    ghost use Rattle.asg_monoids.specs.Grades.{graded_difference};
    ghost use Rattle.asg_monoids.specs.laws.Graded.{graded_difference_laws};

    ghost difference = { λ m. graded_difference (B.monoid_of m.inner) (B.difference m.inner) };

    fn diff(&self, y: (u64, B::Value), x: (u64, B::Value)) -> (u64, B::Value) {
        if x.0 < y.0 {
            y
        } else if y.0 < x.0 || self.inner.le(y.1, x.1) {
            (0, self.inner.unit())
        } else {
            (y.0, self.inner.diff(y.1, x.1))
        }
    }

    ghost difference_laws = { λ m. graded_difference_laws (B.monoid_of m.inner) (B.laws m.inner) (B.difference m.inner) (B.difference_laws m.inner) };
}

impl Written for Graded<Bounded> {
    ghost use Rattle.asg_monoids.specs.Grades.{graded_word, graded_value};
    ghost use Rattle.asg_monoids.specs.laws.Graded.{graded_word_laws};

    ghost word_of = { λ _. graded_word };

    ghost value_of = { λ m. graded_value m.inner.top };

    fn to_word(&self, x: (u64, u128)) -> Word {
        Word {
            grade: x.0,
            amount: x.1,
        }
    }

    fn from_word(&self, w: Word) -> Option<(u64, u128)> {
        if w.amount <= self.inner.top {
            Some((w.grade, w.amount))
        } else {
            None
        }
    }

    ghost word_laws = { λ m. graded_word_laws m.inner.top };
}
