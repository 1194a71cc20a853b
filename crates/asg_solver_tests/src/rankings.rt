//! Rankings of an instance with a dropped row and a closed column, and of counts that no request has.

use crate::instances::{OUT, edited, has_columns};
use asg_model::limits::MOST_SIDE;
use asg_model::{Choice, Instance, Objective, Place};
use asg_rank::{RankOutcome, RankRefusal, ranking};
use asg_values::negative;
use std::alloc::Global;
use std::test::Fail;

// The columns of the choices in order, by their places: of the sums 10, 11, 13, 16, 18 and 19.
static ORDER: [[u32; 4]; 6] = [
    [2, OUT, 0, 0],
    [0, OUT, 2, 0],
    [2, OUT, 2, 0],
    [0, OUT, 0, 2],
    [2, OUT, 0, 2],
    [0, OUT, 2, 2],
];

// These, for a caller that needn't know them.
fn order() -> &'static [[u32; 4]] {
    &ORDER
}

// Whether the answers are these, in order.
fn are_in_order(answers: &[Choice]) -> bool {
    for (place, columns) in order().iter().enumerate() {
        match answers.get(place) {
            Some(choice) => {
                if !has_columns(choice, columns) {
                    return false;
                }
            }
            None => return false,
        }
    }
    answers.len() == order().len()
}

// The ranking of an instance by sums, where one may be asked for.
fn ranked(alloc: Global, inst: &Instance, count: u32) -> Option<Result<RankOutcome, RankRefusal>> {
    if inst.side() > MOST_SIDE || inst.place() != Place::All {
        return None;
    }
    if negative(Objective::Sum, inst).is_some() || count == 0 {
        return None;
    }
    Some(ranking(alloc, Objective::Sum, inst, count))
}

// Whether all choices are ranked in order, with three nodes for each and the root.
fn is_ranked(alloc: Global, inst: &Instance) -> bool {
    match ranked(alloc, inst, 10) {
        Some(Ok(outcome)) => match &outcome {
            RankOutcome::Listed { answers, nodes } => {
                nodes.as_slice().len() == 19 && are_in_order(answers.as_slice())
            }
            RankOutcome::Nothing { .. } => false,
        },
        _ => false,
    }
}

// The work for which a ranking of so many choices is refused.
fn refused_work(alloc: Global, inst: &Instance, count: u32) -> Option<u64> {
    match ranked(alloc, inst, count) {
        Some(Err(RankRefusal::RankTooLarge(work))) => Some(work),
        _ => None,
    }
}

// Whether the instance is ranked, and not where there is too much work: of four rows and the side 6,
// and the greatest count that there is.
fn is_ranked_within(alloc: Global) -> bool {
    let Some(inst) = edited(alloc) else {
        return false;
    };
    let is_so = is_ranked(alloc, &inst)
        && refused_work(alloc, &inst, u32::MAX) == Some(103_079_215_080);
    drop(inst);
    is_so
}

#[test]
fn of_a_dropped_row(rt: HostRuntime) -> Result<(), Fail> {
    assert!(rt; is_ranked_within(rt.alloc()));
    Ok(())
}
