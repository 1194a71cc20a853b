//! The session of an objective's kind.

ghost use Rattle.std.specs.Prelude.{◌≡◌, ◌<◌, ◌≤◌, None, IfOk, IsTrue, OnErr, OnOk, length};
ghost use Rattle.asg_algebra.specs.Solved.{unmatched};
ghost use Rattle.asg_model.specs.declared.objectives.Objective.TheVariants.{TimeCost};
ghost use Rattle.asg_model.specs.Edits.{refusal_of};
ghost use Rattle.asg_model.specs.Instances.{IsInstance};
ghost use Rattle.asg_model.specs.Limits.{most_side};
ghost use Rattle.asg_model.specs.Objectives.{is_algebraic};
ghost use Rattle.asg_model.specs.Refused.{PassesNegative};
ghost use Rattle.asg_model.specs.Shapes.{square_side};
ghost use Rattle.asg_edits.specs.EditOutcomes.{IsAnswerAt};
ghost use Rattle.asg_edits.specs.Editors.{Edits, GoesTo, editor_of, has_phases, most_unsure};

use crate::NoMemory;
use crate::session_answers::answer_session;
use crate::session_edits::edit_session;
use asg_model::{Edit, Instance, Objective};
use asg_monoids::{PeakKind, SumKind, TimeKind};
use asg_proof::Outcome;
use asg_repair::Session;
use asg_sum_edits::SumSession;
use std::alloc::Global;

/// A session of the kind that an objective has.
#[derive(Drop)]
pub(crate) enum Sessions {
    Sums(Session<SumKind>),
    Peaks(Session<PeakKind>),
    Times(Session<TimeKind>),
    Duals(SumSession),
}

// Tells the proof how many rows are unsure of a column, as the type of the number says.
fn tell_unsure(session: &Session<SumKind>)
    ensures { unmatched session.now.columns < most_unsure }
{
    let _count = session.unplaced();
}

// A session of sums, opened. The error is want of memory.
pub(crate) fn open_sums(alloc: Global, kind: SumKind, inst: Instance) -> Result<Sessions, NoMemory>
    requires side { square_side inst ≤ most_side }
    requires passes { PassesNegative kind.objective inst }
    ensures objective { IfOk result (λ session. (editor_of session).objective ≡ kind.objective) }
    ensures instance { IfOk result (λ session. (editor_of session).instance ≡ inst) }
    ensures few { IfOk result (λ session. length (editor_of session).phases ≤ square_side inst) }
    ensures unsure { IfOk result (λ session. (editor_of session).unsure < most_unsure) }
    ensures phases { IfOk result (λ session. IsTrue (has_phases session)) }
{
    match Session::open(alloc, kind, inst) {
        Ok(session) => {
            tell_unsure(&session);
            Ok(Sessions::Sums(session))
        }
        Err(error) => Err(error),
    }
}

// A session of greatest costs, opened. The error is want of memory.
fn open_peaks(alloc: Global, kind: PeakKind, inst: Instance) -> Result<Sessions, NoMemory>
    requires side { square_side inst ≤ most_side }
    requires passes { PassesNegative kind.objective inst }
    ensures objective { IfOk result (λ session. (editor_of session).objective ≡ kind.objective) }
    ensures instance { IfOk result (λ session. (editor_of session).instance ≡ inst) }
{
    match Session::open(alloc, kind, inst) {
        Ok(session) => Ok(Sessions::Peaks(session)),
        Err(error) => Err(error),
    }
}

// A session of times and costs, opened. The error is want of memory.
fn open_times(alloc: Global, kind: TimeKind, inst: Instance) -> Result<Sessions, NoMemory>
    requires side { square_side inst ≤ most_side }
    requires passes { PassesNegative TimeCost inst }
    ensures objective { IfOk result (λ session. (editor_of session).objective ≡ TimeCost) }
    ensures instance { IfOk result (λ session. (editor_of session).instance ≡ inst) }
{
    match Session::open(alloc, kind, inst) {
        Ok(session) => Ok(Sessions::Times(session)),
        Err(error) => Err(error),
    }
}

// The session of an objective's kind, opened. The error is want of memory.
pub(crate) fn open_sessions(
    alloc: Global,
    objective: Objective,
    inst: Instance,
) -> Result<Sessions, NoMemory>
    requires algebraic { IsTrue (is_algebraic objective) }
    requires side { square_side inst ≤ most_side }
    requires passes { PassesNegative objective inst }
    ensures objective { IfOk result (λ session. (editor_of session).objective ≡ objective) }
    ensures instance { IfOk result (λ session. (editor_of session).instance ≡ inst) }
{
    match objective {
        Objective::Sum | Objective::SumMax | Objective::SumPair | Objective::Capped(_) => {
            open_sums(alloc, SumKind::of(objective), inst)
        }
        Objective::Bottleneck | Objective::BottleneckMax => {
            open_peaks(alloc, PeakKind::of(objective), inst)
        }
        Objective::TimeCost => open_times(alloc, TimeKind::new(), inst),
        Objective::Balanced | Objective::Lex => unreachable!(),
    }
}

// The instance as edited.
pub(crate) fn instance_of(sessions: &Sessions) -> &Instance
    ensures value { result.now ≡ (editor_of sessions.now).instance }
    ensures instance { IsInstance (editor_of sessions.now).instance }
{
    match sessions {
        Sessions::Sums(session) => session.instance(),
        Sessions::Peaks(session) => session.instance(),
        Sessions::Times(session) => session.instance(),
        Sessions::Duals(session) => session.instance(),
    }
}

// Edits the instance by an edit that isn't refused. The error is want of memory.
pub(crate) fn edit_sessions(sessions: &mut Sessions, edit: Edit) -> Result<(), NoMemory>
    requires { refusal_of (editor_of sessions.old).objective (editor_of sessions.old).instance edit
        ≡ None }
    ensures objective { (editor_of sessions.new).objective ≡ (editor_of sessions.old).objective }
    ensures edits { OnOk result (Edits (editor_of sessions.old) edit (editor_of sessions.new)) }
    ensures unchanged { OnErr result (editor_of sessions.new ≡ editor_of sessions.old) }
{
    match sessions {
        Sessions::Sums(session) => edit_session(session, edit),
        Sessions::Peaks(session) => edit_session(session, edit),
        Sessions::Times(session) => edit_session(session, edit),
        Sessions::Duals(session) => {
            // What a session keeps is told by reading.
            let _inst = session.instance();
            session.edit(edit)
        }
    }
}

// Answers the instance as edited. The error is want of memory.
pub(crate) fn answer_sessions(alloc: Global, sessions: &mut Sessions) -> Result<Outcome, NoMemory>
    requires { IsTrue (has_phases sessions.old) }
    ensures goes { GoesTo (editor_of sessions.old) (editor_of sessions.new) }
    ensures outcome { IfOk result (IsAnswerAt (editor_of sessions.new).objective
        (editor_of sessions.new).instance (editor_of sessions.new).phases
        (editor_of sessions.new).unsure) }
{
    match sessions {
        Sessions::Sums(session) => answer_session(alloc, session),
        Sessions::Peaks(session) => answer_session(alloc, session),
        Sessions::Times(session) => answer_session(alloc, session),
        Sessions::Duals(_) => unreachable!(),
    }
}
