//! Costs read as numbers.

use asg_model::Objective;
use asg_model::limits::MOST_COST;

/// How the first parts of costs are read as numbers for `sum` or `sum-max`: with all bits flipped
/// or not, and so much more.
#[derive(Clone, Copy)]
pub(crate) struct Turn {
    pub flip: i64,
    pub more: i64,
}

/// How costs are read for `sum` or `sum-max`.
pub(crate) fn turn_of(objective: Objective) -> Turn {
    match objective {
        Objective::SumMax => Turn {
            flip: -1,
            more: MOST_COST + 1,
        },
        _ => Turn {
            flip: 0,
            more: MOST_COST,
        },
    }
}
