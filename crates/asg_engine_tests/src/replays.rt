//! The phases of a worked example, as they are replayed, and single steps and cells.

ghost use Rattle.asg_admit.specs.Reduced.{IsReduced};
ghost use Rattle.asg_monoids.specs.BoundedSums.{bounded_sums, narrow_top};

use crate::instances::reduced_of;
use crate::solvers::THREE;
use asg_admit::{Reduced, admits, are_values, range, replay, replay_cell, step};
use asg_monoids::NarrowSums;
use asg_order::Ordered;
use std::test::Fail;

// The steps of a phase, when rows enter and columns leave, and the cells and the index after it.
#[derive(Clone, Copy)]
struct WorkedPhase {
    steps: &'static [u64],
    enters: [u32; 3],
    leaves: [u32; 3],
    cells: [[u64; 3]; 3],
    index: u64,
}

const FIRST: WorkedPhase = WorkedPhase {
    steps: &[1_001],
    enters: [0, 1, 1],
    leaves: [1, 1, 1],
    cells: [[3, 0, 2], [1_002, 1_000, 1_005], [1_003, 1_002, 1_002]],
    index: 1_001,
};

const SECOND: WorkedPhase = WorkedPhase {
    steps: &[1_000, 2],
    enters: [1, 0, 2],
    leaves: [2, 1, 2],
    cells: [[1, 0, 0], [0, 0, 3], [1_003, 1_004, 1_002]],
    index: 2_003,
};

const THIRD: WorkedPhase = WorkedPhase {
    steps: &[1_002],
    enters: [1, 1, 0],
    leaves: [1, 1, 1],
    cells: [[1, 0, 0], [0, 0, 3], [1, 2, 0]],
    index: 3_005,
};

// Whether the square has these cells, and the index is this.
fn is_now(reduced: &Reduced<u64>, cells: &[[u64; 3]; 3], index: u64) -> bool {
    if reduced.now.side() != 3 {
        return false;
    }
    for row in 0..3u32 {
        if reduced.now.row_values(row) != cells[row as usize].as_slice() {
            return false;
        }
    }
    reduced.index == index
}

// Whether a phase is replayed, and the square and the index are then its.
fn replays(reduced: &mut Reduced<u64>, phase: &WorkedPhase) -> bool
    requires { IsReduced (bounded_sums narrow_top) reduced.old }
    ensures { IsReduced (bounded_sums narrow_top) reduced.new }
{
    if !replay(
        &NarrowSums,
        reduced,
        phase.steps,
        &phase.enters,
        &phase.leaves,
    ) {
        return false;
    }
    is_now(reduced, &phase.cells, phase.index)
}

// Applies one step of the first phase, where it is admitted.
fn takes_step(reduced: &mut Reduced<u64>, c: u64) -> bool
    requires { IsReduced (bounded_sums narrow_top) reduced.old }
    ensures { IsReduced (bounded_sums narrow_top) reduced.new }
{
    if !admits(
        &NarrowSums,
        &reduced.now,
        &[c],
        &FIRST.enters,
        &FIRST.leaves,
    ) {
        return false;
    }
    step(&NarrowSums, reduced, &FIRST.enters, &FIRST.leaves, 0, c);
    true
}

// Whether a step greater than the least cell of the first row is refused either way, that cell is
// taken as the first phase, and the others are replayed then.
fn leads_through(reduced: &mut Reduced<u64>) -> bool
    requires { IsReduced (bounded_sums narrow_top) reduced.old }
{
    let is_refused = !replay(&NarrowSums, reduced, &[1_002], &FIRST.enters, &FIRST.leaves);
    is_refused
        && !takes_step(reduced, 1_002)
        && takes_step(reduced, 1_001)
        && is_now(reduced, &FIRST.cells, FIRST.index)
        && replays(reduced, &SECOND)
        && replays(reduced, &THIRD)
}

#[test]
fn replays_the_phases_of_the_worked_example(rt: HostRuntime) -> Result<(), Fail> {
    let mut reduced = reduced_of(rt.alloc(), THREE, 1)?;
    let is_so = leads_through(&mut reduced);
    drop(reduced);
    assert!(rt; is_so);
    Ok(())
}

// Two steps.
const STEPS: [u64; 2] = [5, 3];

// A cell, when its row enters and its column leaves, and what the two steps make of it.
type SingleCell = (u64, u32, u32, Option<u64>);

static CELLS: [SingleCell; 4] = [
    (9, 0, 2, Some(1)),
    (7, 0, 2, None),
    (7, 0, 1, Some(2)),
    (7, 9, 1, Some(10)),
];

// These, for a caller that needn't know them.
fn cells() -> &'static [SingleCell] {
    &CELLS
}

// What two steps make of a cell.
fn cell_after(x: u64, enter: u32, leave: u32) -> Option<u64> {
    if !NarrowSums.is_value(x) || !are_values(&NarrowSums, &STEPS) {
        return None;
    }
    replay_cell(&NarrowSums, x, &STEPS, enter, leave)
}

// The products of both steps, of the second, and of none.
fn products() -> Option<[u64; 3]> {
    if !are_values(&NarrowSums, &STEPS) {
        return None;
    }
    let both = range(&NarrowSums, &STEPS, 0, 2);
    let second = range(&NarrowSums, &STEPS, 1, 2);
    let none = range(&NarrowSums, &STEPS, 1, 1);
    Some([both, second, none])
}

#[test]
fn single_cells(rt: HostRuntime) {
    for (x, enter, leave, want) in cells() {
        assert!(rt; cell_after(*x, *enter, *leave) == *want);
    }
    assert!(rt; products() == Some([8, 3, 0]));
}
