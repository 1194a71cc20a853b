//! Phases that are known to be admitted, applied to a square without a test.

ghost use Rattle.std.specs.Prelude.{IfOk, IfSome};
ghost use Rattle.asg_admit.specs.Reduced.{IsReduced};
ghost use Rattle.asg_replays.specs.Replays.{AreAdmittedFrom, AreReplayed, IsAdmittedFrom, IsReplayed};
ghost use Rattle.asg_square.specs.Grid.{cell_at};

use crate::NoMemory;
use crate::single_leads::settle_one;
use asg_admit::Reduced;
use asg_order::Written;
use asg_proof::WrittenPhase;
use asg_replays::{first_bad, has_long, make_room, read_steps};
use std::alloc::Global;

// Applies an admitted phase. The steps are read into the list of values, which keeps its room, as
// the other list does. The error is want of memory.
fn settle_phase<M: Written>(
    m: &M,
    reduced: &mut Reduced<M::Value>,
    values: &mut Vec<M::Value>,
    room: &mut Vec<M::Value>,
    phase: &WrittenPhase,
) -> Result<(), NoMemory>
    requires reduced { IsReduced (M.monoid_of m.now) reduced.old }
    requires admitted { IsAdmittedFrom (M.monoid_of m.now) (M.difference m.now) (M.word_of m.now)
        reduced.old.now.side (cell_at reduced.old.now) phase.now }
    ensures { IfOk result (λ _. IsReplayed (M.monoid_of m.now) (M.difference m.now)
        (M.word_of m.now) phase.now reduced.old reduced.new) }
{
    let _are_values = read_steps(m, phase.steps(), values)?;
    make_room(m, room, values.len())?;
    settle_one(
        m,
        reduced,
        values.as_slice(),
        phase.enters(),
        phase.leaves(),
        room.as_mut_slice(),
    );
    Ok(())
}

// Applies phases that are admitted in turn. The error is want of memory.
fn settle_phases<M: Written>(
    alloc: Global,
    m: &M,
    reduced: &mut Reduced<M::Value>,
    phases: &[WrittenPhase],
) -> Result<(), NoMemory>
    requires reduced { IsReduced (M.monoid_of m.now) reduced.old }
    requires admitted { AreAdmittedFrom (M.monoid_of m.now) (M.difference m.now) (M.word_of m.now)
        reduced.old.now.side (cell_at reduced.old.now) phases.now }
    ensures { IfOk result (λ _. AreReplayed (M.monoid_of m.now) (M.difference m.now)
        (M.word_of m.now) phases.now reduced.old reduced.new) }
{
    let mut values = Vec::new(alloc);
    let mut room = Vec::new(alloc);
    for place in 0..phases.len() {
        settle_phase(m, reduced, &mut values, &mut room, &phases[place])?;
    }
    Ok(())
}

// The same of phases some of which are long, so that they are applied by parts. The error is want
// of memory.
fn replay_phases<M: Written>(
    alloc: Global,
    m: &M,
    reduced: &mut Reduced<M::Value>,
    phases: &[WrittenPhase],
) -> Result<(), NoMemory>
    requires reduced { IsReduced (M.monoid_of m.now) reduced.old }
    requires admitted { AreAdmittedFrom (M.monoid_of m.now) (M.difference m.now) (M.word_of m.now)
        reduced.old.now.side (cell_at reduced.old.now) phases.now }
    ensures { IfOk result (λ _. AreReplayed (M.monoid_of m.now) (M.difference m.now)
        (M.word_of m.now) phases.now reduced.old reduced.new) }
{
    let _bad = first_bad(alloc, m, reduced, phases)?;
    Ok(())
}

/// Applies phases that are known to be admitted in turn, with no test but of long ones. The error
/// is want of memory.
pub fn lead_by<M: Written>(
    alloc: Global,
    m: &M,
    reduced: &mut Reduced<M::Value>,
    phases: &[WrittenPhase],
) -> Result<(), NoMemory>
    requires reduced { IsReduced (M.monoid_of m.now) reduced.old }
    requires admitted { AreAdmittedFrom (M.monoid_of m.now) (M.difference m.now) (M.word_of m.now)
        reduced.old.now.side (cell_at reduced.old.now) phases.now }
    ensures { IfOk result (λ _. AreReplayed (M.monoid_of m.now) (M.difference m.now)
        (M.word_of m.now) phases.now reduced.old reduced.new) }
{
    if has_long(phases, reduced.now.side()) {
        replay_phases(alloc, m, reduced, phases)
    } else {
        settle_phases(alloc, m, reduced, phases)
    }
}

/// Leads a square over phases that are known to be admitted in turn; where it is known what they
/// make of it, that is taken out and is the square. The error is want of memory.
pub fn stand_after<M: Written>(
    alloc: Global,
    m: &M,
    reduced: &mut Reduced<M::Value>,
    led: &mut Option<Reduced<M::Value>>,
    phases: &[WrittenPhase],
) -> Result<(), NoMemory>
    requires reduced { IsReduced (M.monoid_of m.now) reduced.old }
    requires admitted { AreAdmittedFrom (M.monoid_of m.now) (M.difference m.now) (M.word_of m.now)
        reduced.old.now.side (cell_at reduced.old.now) phases.now }
    requires led { IfSome led.old (AreReplayed (M.monoid_of m.now) (M.difference m.now)
        (M.word_of m.now) phases.now reduced.old) }
    ensures { IfOk result (λ _. AreReplayed (M.monoid_of m.now) (M.difference m.now)
        (M.word_of m.now) phases.now reduced.old reduced.new) }
{
    match led.take() {
        Some(after) => {
            *reduced = after;
            Ok(())
        }
        None => lead_by(alloc, m, reduced, phases),
    }
}
