//! Least sums that are told by ways which no answer shows: over the costs as they stand, and after edits.

use crate::instances::{Change, PAIRS, edit_of, has_columns, instance_of};
use asg_model::limits::MOST_SIDE;
use asg_model::{Choice, Instance, NoMemory, Objective};
use asg_proof::Phase;
use asg_sum_edits::SumSession;
use asg_table_phases::proves;
use asg_table_sums::best_by_table;
use asg_values::negative;
use std::alloc::Global;
use std::test::Fail;

// Whether a best choice of the square is found by its table.
fn is_found(alloc: Global) -> Result<bool, NoMemory> {
    let Some(inst) = instance_of(alloc, PAIRS) else {
        return Ok(false);
    };
    let found = best_by_table(alloc, Objective::Sum, &inst)?;
    drop(inst);
    let is_found = match &found {
        Some(choice) => has_columns(choice, &[1, 0, 2]),
        None => false,
    };
    drop(found);
    Ok(is_found)
}

#[test]
fn by_the_table(rt: HostRuntime) -> Result<(), Fail> {
    assert!(rt; is_found(rt.alloc())?);
    Ok(())
}

// Cells that are edited, and the least sum behind that, where it is told: not once a cell was taken
// out.
type Turn = (&'static [Change], Option<i128>);

static TURNS: [Turn; 7] = [
    (&[], Some(5)),
    (&[(1, 2, Some(9))], Some(6)),
    (&[(3, 1, Some(0))], Some(3)),
    (&[(2, 1, Some(9)), (2, 2, Some(9))], Some(11)),
    (&[(2, 2, Some(1)), (1, 3, Some(0))], Some(1)),
    (&[(2, 2, None)], None),
    (&[(2, 2, Some(0))], None),
];

// These, for a caller that needn't know them.
fn turns() -> &'static [Turn] {
    &TURNS
}

// Whether the cells are edited.
fn takes(session: &mut SumSession, changes: &[Change]) -> Result<bool, NoMemory> {
    for change in changes {
        let edit = edit_of(*change);
        if session
            .instance()
            .refusal(session.objective(), edit)
            .is_some()
        {
            return Ok(false);
        }
        session.edit(edit)?;
    }
    Ok(true)
}

// Whether the sum is told behind each turn.
fn tells(alloc: Global, session: &mut SumSession) -> Result<bool, NoMemory> {
    for (changes, want) in turns() {
        if !takes(session, changes)? || session.best_sum(alloc)? != *want {
            return Ok(false);
        }
    }
    Ok(true)
}

// Whether a session of the square tells them.
fn are_told(alloc: Global) -> Result<bool, NoMemory> {
    let Some(inst) = instance_of(alloc, PAIRS) else {
        return Ok(false);
    };
    if inst.side() > MOST_SIDE {
        return Ok(false);
    }
    let mut session = SumSession::open(alloc, Objective::Sum, inst)?;
    let are_told = tells(alloc, &mut session);
    drop(session);
    are_told
}

#[test]
fn after_edits(rt: HostRuntime) -> Result<(), Fail> {
    assert!(rt; are_told(rt.alloc())?);
    Ok(())
}

// The phase of one step by which the row of a square of one enters.
fn phase_by(alloc: Global, step: u128) -> Result<Phase<u128>, NoMemory> {
    let steps = vec![in alloc; step]?;
    let enters = vec![in alloc; 0u32]?;
    let leaves = vec![in alloc; 1u32]?;
    Ok(Phase::of(steps, enters, leaves))
}

// Whether that phase proves the choice of one cell for an instance.
fn proves_by(alloc: Global, inst: &Instance, step: u128) -> Result<bool, NoMemory> {
    if inst.side() > MOST_SIDE || negative(Objective::SumPair, inst).is_some() {
        return Ok(false);
    }
    let mut choice = Choice::make(alloc, 1)?;
    choice.set(0, Some(0));
    let mut phases = Vec::new(alloc);
    phases.push(phase_by(alloc, step)?)?;
    proves(alloc, Objective::SumPair, inst, &choice, phases.as_slice())
}

// What the cost 7:3 enters as: each part shifted, and the first one multiplied.
const ENTERED: u128 = 1_000_000_007 * (1 << 42) + 1_000_000_003;

// Whether the step as which that cost enters proves its cell, and one that is less by one doesn't.
fn is_proved(alloc: Global) -> Result<bool, NoMemory> {
    let Some(inst) = instance_of(alloc, b"1 1\n7:3\n") else {
        return Ok(false);
    };
    let is_so = proves_by(alloc, &inst, ENTERED)? && !proves_by(alloc, &inst, ENTERED - 1)?;
    drop(inst);
    Ok(is_so)
}

#[test]
fn by_phases(rt: HostRuntime) -> Result<(), Fail> {
    assert!(rt; is_proved(rt.alloc())?);
    Ok(())
}
