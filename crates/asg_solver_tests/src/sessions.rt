//! A session of edits that keeps its phases, and refuses an edit.

use crate::instances::{Change, PAIRS, edit_of, instance_of};
use asg_model::limits::MOST_SIDE;
use asg_model::{Edit, EditRefusal, NoMemory, Objective};
use asg_monoids::SumKind;
use asg_repair::{Answered, Session};
use asg_values::negative;
use std::alloc::Global;
use std::test::Fail;

// Cells that are raised or taken out one by one, after which a choice is valid still.
static RAISES: [Change; 5] = [
    (1, 2, Some(9)),
    (3, 1, Some(4)),
    (3, 3, None),
    (3, 3, None),
    (2, 2, Some(1)),
];

// These, for a caller that needn't know them.
fn raises() -> &'static [Change] {
    &RAISES
}

// Whether an edit keeps all phases and all columns but one, and the answer adds a phase at most.
fn adds_one(session: &mut Session<SumKind>, edit: Edit) -> bool {
    let before = session.length();
    if session.edit(edit).is_err() || session.length() != before || 1 < session.unplaced() {
        return false;
    }
    session.answer() == Answered::Best && session.length() <= before.saturating_add(1)
}

// Whether the first phases are few, each edit adds one at most, and an answer that was given is given
// again without a phase more.
fn add_few(session: &mut Session<SumKind>) -> bool {
    if 3 < session.length() || session.answer() != Answered::Best {
        return false;
    }
    for change in raises() {
        if !adds_one(session, edit_of(*change)) {
            return false;
        }
    }
    let before = session.length();
    session.answer() == Answered::Best && session.length() == before
}

// Whether an edit of a row that isn't there is refused, and leaves phases and columns as they are.
fn refuses(session: &mut Session<SumKind>) -> bool {
    let (length, unplaced) = (session.length(), session.unplaced());
    let refused = session.edit(edit_of((9, 9, Some(0)))).err();
    refused == Some(EditRefusal::NoSuchRow)
        && session.length() == length
        && session.unplaced() == unplaced
}

// Whether an answer that is prepared, after a cell was lowered so far that no phase is kept, has the
// phases that were guessed alone, of which each row is sure of its column.
fn is_prepared(alloc: Global, session: &mut Session<SumKind>) -> bool {
    let edit = edit_of((1, 1, Some(-1_000_000_000)));
    if session.edit(edit).is_err() || session.unplaced() != 3 {
        return false;
    }
    session.prepare(alloc);
    let count = session.length();
    session.unplaced() == 0 && session.answer() == Answered::Best && session.length() == count
}

// A session of the square of pairs, if there may be one.
fn opened(alloc: Global) -> Result<Option<Session<SumKind>>, NoMemory> {
    let Some(inst) = instance_of(alloc, PAIRS) else {
        return Ok(None);
    };
    if inst.side() > MOST_SIDE || negative(Objective::SumPair, &inst).is_some() {
        return Ok(None);
    }
    let session = Session::open(alloc, SumKind::of(Objective::SumPair), inst)?;
    Ok(Some(session))
}

// Whether the session does all that.
fn keeps(alloc: Global) -> Result<bool, NoMemory> {
    let Some(mut session) = opened(alloc)? else {
        return Ok(false);
    };
    let is_so = add_few(&mut session) && refuses(&mut session) && is_prepared(alloc, &mut session);
    drop(session);
    Ok(is_so)
}

#[test]
fn phases_are_kept(rt: HostRuntime) -> Result<(), Fail> {
    assert!(rt; keeps(rt.alloc())?);
    Ok(())
}
