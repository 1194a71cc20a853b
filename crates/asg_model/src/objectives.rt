//! What a choice is judged by.

ghost use Rattle.std.specs.Prelude.{◌≡◌};
ghost use Rattle.asg_model.specs.Refused.{is_refused};

use crate::parts::Cost;
use std::alloc::Global;
use std::marker::Model;

/// What a choice is judged by. The value of a choice is made of the costs of its cells.
#[derive(Clone, Copy, Debug, PartialEq, Eq)]
pub enum Objective {
    /// The sum of the `a`s; less is better.
    Sum,
    /// The sum of the `a`s; greater is better.
    SumMax,
    /// The sum of the `a`s, then the sum of the `b`s; less is better.
    SumPair,
    /// The sum of the `a`s, but at most the cap; less is better.
    Capped(u64),
    /// The greatest `a`; less is better.
    Bottleneck,
    /// The least `a`; greater is better.
    BottleneckMax,
    /// The greatest `a`, then the sum of the `b`s of the cells that have it; less is better.
    TimeCost,
    /// The greatest `a` minus the least; less is better.
    Balanced,
    /// The `a`s from the greatest down; less at the first difference is better.
    Lex,
}

impl Objective {
    /// Whether the objective refuses the cost: `Capped` a negative `a`, `TimeCost` a negative `b`,
    /// and no other objective any.
    pub fn refuses(self, cost: Cost) -> bool
        ensures { result ≡ is_refused self cost }
    {
        match self {
            Objective::Capped(_) => cost.a < 0,
            Objective::TimeCost => cost.b < 0,
            _ => false,
        }
    }
}

/// A list of costs.
#[derive(Drop)]
pub struct Costs {
    items: Vec<i64>,
}

impl Model for Costs {
    ghost use Rattle.std.specs.Prelude.{List, ℤ};

    ghost Value = { List ℤ };

    ghost view = { λ c. c.items.items };
}

impl Costs {
    /// The list of these costs. It takes no memory.
    pub fn from_vec(items: Vec<i64>) -> Costs
        ensures { result ≡ items.items }
    {
        Costs { items }
    }

    /// The costs as a `Vec`. It takes no memory.
    pub fn into_vec(self) -> Vec<i64>
        ensures { result.items ≡ self }
    {
        let Costs { items } = self;
        items
    }

    /// The costs in order.
    pub fn as_slice(&self) -> &[i64]
        ensures { result.now ≡ self.now }
    {
        self.items.as_slice()
    }
}

/// The value of a choice: one number, two, or a list, by the objective.
#[derive(Drop)]
pub enum Value {
    One(i128),
    Two(i128, i128),
    Many(Costs),
}
