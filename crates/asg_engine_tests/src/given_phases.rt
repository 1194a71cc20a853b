//! Squares that are solved by phases and columns from elsewhere, where these pass the tests.

ghost use Rattle.std.specs.Prelude.{◌≡◌, ◌≤◌, None, length, replicate};
ghost use Rattle.asg_admit.specs.Reduced.{IsReduced};
ghost use Rattle.asg_monoids.specs.BoundedSums.{bounded_sums, narrow_top};

use crate::instances::{Fault, reduced_of};
use crate::solvers::{COLUMNS, Desk, THREE, desk_for, told};
use asg_admit::Reduced;
use asg_algebra::{NoMemory, solve_given};
use asg_monoids::NarrowSums;
use asg_proof::Phase;
use std::alloc::Global;
use std::test::Fail;

// The index of a square, where the phases and the columns solve it at a desk, with no column taken.
fn index_at(
    alloc: Global,
    reduced: Reduced<u64>,
    desk: &mut Desk,
    given: &[Phase<u64>],
    columns: &[u32],
) -> Result<Option<u64>, NoMemory>
    requires reduced { IsReduced (bounded_sums narrow_top) reduced }
    requires matching { desk.old.matching ≡ replicate reduced.now.side None }
    requires region { desk.old.region.side ≡ reduced.now.side }
    requires few { length given.now ≤ reduced.now.side }
    requires spare { reduced.now.side ≤ desk.old.region.spare }
{
    let found = solve_given(
        alloc,
        &NarrowSums,
        reduced,
        &mut desk.matching,
        &mut desk.region,
        given,
        columns,
    )?;
    match found {
        Some(solved) => Ok(told(solved, &desk.matching, columns)),
        None => Ok(None),
    }
}

// The same of the three rows.
fn index_by(alloc: Global, given: &[Phase<u64>], columns: &[u32]) -> Result<Option<u64>, Fault> {
    let reduced = reduced_of(alloc, THREE, 1)?;
    let side = reduced.now.side();
    if given.len() > side as usize {
        drop(reduced);
        return Ok(None);
    }
    let mut desk = desk_for(alloc, side)?;
    let index = index_at(alloc, reduced, &mut desk, given, columns);
    drop(desk);
    Ok(index?)
}

// A phase of two steps.
fn phase(
    alloc: Global,
    steps: &[u64; 2],
    enters: &[u32; 3],
    leaves: &[u32; 3],
) -> Result<Phase<u64>, NoMemory> {
    let steps = Vec::from_slice(alloc, steps)?;
    let enters = Vec::from_slice(alloc, enters)?;
    let leaves = Vec::from_slice(alloc, leaves)?;
    Ok(Phase::of(steps, enters, leaves))
}

// Two phases of the three rows, the first of these steps. They prove the least sum where these are
// 1 and 1,002.
fn two_phases(alloc: Global, first: &[u64; 2]) -> Result<Vec<Phase<u64>>, NoMemory> {
    let one = phase(alloc, first, &[0, 1, 2], &[2, 1, 2])?;
    let two = phase(alloc, &[1_002, 1_000], &[1, 1, 0], &[1, 2, 1])?;
    Ok(vec![in alloc; one, two]?)
}

// The steps of the first phase, the columns, and the index.
static GIVEN: [([u64; 2], &'static [u32], Option<u64>); 4] = [
    ([1, 1_002], &COLUMNS, Some(3_005)),
    ([2, 1_002], &COLUMNS, None),
    ([1, 1_002], &[0, 1, 2], None),
    ([1, 1_002], &[1, 0], None),
];

// These, for a caller that needn't know them.
fn given() -> &'static [([u64; 2], &'static [u32], Option<u64>)] {
    &GIVEN
}

#[test]
fn what_is_given_is_tested(rt: HostRuntime) -> Result<(), Fail> {
    for (first, columns, index) in given() {
        let phases = two_phases(rt.alloc(), first)?;
        let found = index_by(rt.alloc(), phases.as_slice(), columns);
        drop(phases);
        assert!(rt; found? == *index);
    }
    Ok(())
}
