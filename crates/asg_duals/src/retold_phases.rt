//! Phases of sums in 64 bits as phases of other values.

use crate::NoMemory;
use asg_dual_numbers::Lists;
use asg_proof::Phase;
use std::alloc::Global;

/// The phase of these steps, in which rows enter and columns leave as in another. The error is want
/// of memory.
pub fn with_marks_of<V: Copy>(
    alloc: Global,
    steps: Vec<V>,
    phase: &Phase<u64>,
) -> Result<Phase<V>, NoMemory> {
    let mut lists = Lists::new(alloc);
    let enters = lists.copy_of(phase.enters());
    let leaves = lists.copy_of(phase.leaves());
    lists.whole(Phase::of(steps, enters, leaves))
}

// The phase of steps so many times as great as these, in which rows enter and columns leave as in
// another. The error is want of memory.
pub(crate) fn multiplied(
    alloc: Global,
    phase: &Phase<u64>,
    steps: &[u64],
    unit: u128,
) -> Result<Phase<u128>, NoMemory> {
    let mut greater = Vec::with_capacity(alloc, steps.len())?;
    for step in steps {
        greater.push(unit.wrapping_mul(*step as u128))?;
    }
    with_marks_of(alloc, greater, phase)
}

// The phase with each step at a grade.
fn graded(alloc: Global, phase: &Phase<u64>, grade: u64) -> Result<Phase<(u64, u128)>, NoMemory> {
    let mut steps = Vec::with_capacity(alloc, phase.steps().len())?;
    for step in phase.steps() {
        steps.push((grade, *step as u128))?;
    }
    with_marks_of(alloc, steps, phase)
}

// Appends phases with each step so many times as great. The error is want of memory.
pub(crate) fn append_multiplied(
    alloc: Global,
    phases: &mut Vec<Phase<u128>>,
    plain: &[Phase<u64>],
    unit: u128,
) -> Result<(), NoMemory> {
    for k in 0..plain.len() {
        let phase = &plain[k];
        let greater = multiplied(alloc, phase, phase.steps(), unit)?;
        phases.push(greater)?;
    }
    Ok(())
}

/// Phases with each step as a number of 128 bits. The error is want of memory.
pub fn wide_phases(alloc: Global, plain: &[Phase<u64>]) -> Result<Vec<Phase<u128>>, NoMemory> {
    let mut phases = Vec::with_capacity(alloc, plain.len())?;
    append_multiplied(alloc, &mut phases, plain, 1)?;
    Ok(phases)
}

// Appends phases with each step at a grade. The error is want of memory.
pub(crate) fn append_graded(
    alloc: Global,
    phases: &mut Vec<Phase<(u64, u128)>>,
    plain: &[Phase<u64>],
    grade: u64,
) -> Result<(), NoMemory> {
    for k in 0..plain.len() {
        let of_grade = graded(alloc, &plain[k], grade)?;
        phases.push(of_grade)?;
    }
    Ok(())
}
