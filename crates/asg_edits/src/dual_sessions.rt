//! Sessions of sums by dual variables, and what stands behind them.

ghost use Rattle.std.specs.Prelude.{◌≡◌, ◌≤◌, IfOk, IfSome, IsTrue, OnErr, OnOk, OnSome, length};
ghost use Rattle.asg_model.specs.Counts.{placed};
ghost use Rattle.asg_model.specs.Limits.{most_side};
ghost use Rattle.asg_model.specs.Objectives.{is_algebraic};
ghost use Rattle.asg_model.specs.Refused.{PassesNegative};
ghost use Rattle.asg_model.specs.Shapes.{square_side};
ghost use Rattle.asg_monoids.specs.NarrowObjectives.{is_narrow_objective};
ghost use Rattle.asg_sum_edits.specs.SumDuals.{IsBestSum};
ghost use Rattle.asg_edits.specs.Editors.{SettlesTo, editor_of, has_phases, seen_by_duals};

use crate::NoMemory;
use crate::sessions::{Sessions, open_sessions, open_sums};
use asg_model::{Instance, Objective};
use asg_monoids::SumKind;
use asg_sum_edits::SumSession;
use std::alloc::Global;
use std::mem::replace;

// A session of sums by dual variables, opened. The error is want of memory.
fn open_duals(alloc: Global, objective: Objective, inst: Instance) -> Result<Sessions, NoMemory>
    requires narrow { IsTrue (is_narrow_objective objective) }
    requires side { square_side inst ≤ most_side }
    ensures objective { IfOk result (λ session. (editor_of session).objective ≡ objective) }
    ensures instance { IfOk result (λ session. (editor_of session).instance ≡ inst) }
{
    match SumSession::open(alloc, objective, inst) {
        Ok(session) => Ok(Sessions::Duals(session)),
        Err(error) => Err(error),
    }
}

// The session of an objective's kind, or for `sum` and `sum-max` one by dual variables, opened. The
// error is want of memory.
pub(crate) fn open_brief_sessions(
    alloc: Global,
    objective: Objective,
    inst: Instance,
) -> Result<Sessions, NoMemory>
    requires algebraic { IsTrue (is_algebraic objective) }
    requires side { square_side inst ≤ most_side }
    requires passes { PassesNegative objective inst }
    ensures objective { IfOk result (λ session. (editor_of session).objective ≡ objective) }
    ensures instance { IfOk result (λ session. (editor_of session).instance ≡ inst) }
{
    match objective {
        Objective::Sum | Objective::SumMax => open_duals(alloc, objective, inst),
        _ => open_sessions(alloc, objective, inst),
    }
}

// The session with phases of the instance of one by dual variables. The error is want of memory.
fn settled(alloc: Global, session: &SumSession) -> Result<Sessions, NoMemory>
    ensures settles { IfOk result (λ new. SettlesTo (seen_by_duals session.now) (editor_of new)) }
    ensures phases { IfOk result (λ new. IsTrue (has_phases new)) }
{
    let inst = session.instance().copy(alloc)?;
    let kind = SumKind::of(session.objective());
    open_sums(alloc, kind, inst)
}

// Puts a session in the place of another.
fn put_session(sessions: &mut Sessions, new: Sessions)
    ensures { sessions.new ≡ new }
{
    let old = replace(sessions, new);
    drop(old);
}

// Lets a session have phases: one by dual variables is left for one with phases. The error is want
// of memory.
pub(crate) fn settle(alloc: Global, sessions: &mut Sessions) -> Result<(), NoMemory>
    ensures settles { SettlesTo (editor_of sessions.old) (editor_of sessions.new) }
    ensures phases { OnOk result (IsTrue (has_phases sessions.new)) }
{
    match sessions {
        Sessions::Duals(session) => {
            let opened = settled(alloc, session)?;
            put_session(sessions, opened);
            Ok(())
        }
        Sessions::Sums(_) | Sessions::Peaks(_) | Sessions::Times(_) => Ok(()),
    }
}

// The sum of the best choices, where a session by dual variables tells it. The error is want of
// memory.
pub(crate) fn best_sum_of(alloc: Global, sessions: &mut Sessions) -> Result<Option<i128>, NoMemory>
    ensures same { editor_of sessions.new ≡ editor_of sessions.old }
    ensures sum { IfOk result (λ found. IfSome found
        (IsBestSum (editor_of sessions.new).objective (editor_of sessions.new).instance)) }
    ensures all { let inst = (editor_of sessions.new).instance in
        IfOk result (λ found. OnSome found (placed inst ≡ length inst.rows)) }
{
    match sessions {
        Sessions::Duals(session) => session.best_sum(alloc),
        _ => Ok(None),
    }
}
