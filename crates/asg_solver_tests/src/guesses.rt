//! What is told at once of guessed proofs, and no answer shows: of phases of one grade, and of windows.

use crate::instances::{PAIRS, edited, instance_of};
use crate::outcomes::outcome_of;
use asg_algebra::entered_square;
use asg_grade_lists::grade_list_index;
use asg_hall_windows::proves_spread;
use asg_model::limits::MOST_SIDE;
use asg_model::{Instance, NoMemory, Objective};
use asg_monoids::TimeKind;
use asg_proof::{Outcome, Proof, Window, WrittenPhase};
use asg_table_phases::graded_index;
use asg_values::negative;
use std::alloc::Global;
use std::test::Fail;

// The index of the best choice of the square of pairs, 2:14.
const INDEX: Option<(u64, u128)> = Some((1_000_000_002, 14));

// Whether it is told of phases, by the table of costs and by the square.
fn is_index_told(
    alloc: Global,
    inst: &Instance,
    phases: &[WrittenPhase],
) -> Result<bool, NoMemory> {
    if inst.side() > MOST_SIDE || negative(Objective::TimeCost, inst).is_some() {
        return Ok(false);
    }
    let square = entered_square(alloc, &TimeKind::new(), inst)?;
    let index = grade_list_index(alloc, &square, phases);
    drop(square);
    Ok(index? == INDEX && graded_index(alloc, inst, phases)? == INDEX)
}

// Whether it is told of the phases of the outcome of the square of pairs.
fn tells_index(alloc: Global) -> Result<bool, NoMemory> {
    let Some(inst) = instance_of(alloc, PAIRS) else {
        return Ok(false);
    };
    let found = outcome_of(alloc, Objective::TimeCost, &inst);
    let told = match &found {
        Some(
            Outcome::Best {
                proof: Proof::Phases(phases),
                ..
            },
        ) => is_index_told(alloc, &inst, phases.as_slice()),
        _ => Ok(false),
    };
    drop(found);
    drop(inst);
    told
}

#[test]
fn phases_of_one_grade(rt: HostRuntime) -> Result<(), Fail> {
    assert!(rt; tells_index(rt.alloc())?);
    Ok(())
}

// Whether it is told of windows that they prove the spread 4, and no greater one.
fn is_spread_told(alloc: Global, inst: &Instance, windows: &[Window]) -> Result<bool, NoMemory> {
    Ok(proves_spread(alloc, inst, 4, windows)? && !proves_spread(alloc, inst, 5, windows)?)
}

// Whether it is told of those of the outcome of the edited instance, whose least spread is 4.
fn tells_spread(alloc: Global) -> Result<bool, NoMemory> {
    let Some(inst) = edited(alloc) else {
        return Ok(false);
    };
    let found = outcome_of(alloc, Objective::Balanced, &inst);
    let told = match &found {
        Some(
            Outcome::Best {
                proof: Proof::Windows(windows),
                ..
            },
        ) => is_spread_told(alloc, &inst, windows.as_slice()),
        _ => Ok(false),
    };
    drop(found);
    drop(inst);
    told
}

#[test]
fn windows_for_a_spread(rt: HostRuntime) -> Result<(), Fail> {
    assert!(rt; tells_spread(rt.alloc())?);
    Ok(())
}
