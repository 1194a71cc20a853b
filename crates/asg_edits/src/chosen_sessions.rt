//! Answers of sessions by their choices alone: no phase is written out.

ghost use Rattle.std.specs.Prelude.{◌≡◌, ◌≤◌, ◌++◌, List, length, map, IfOk, IsTrue};
ghost use Rattle.asg_algebra.specs.Solved.{unmatched};
ghost use Rattle.asg_order.specs.declared.words.Word.{Word};
ghost use Rattle.asg_proof.specs.Phases.{PhaseOf, worded};
ghost use Rattle.asg_repair.specs.declared.answers.Given.TheVariants.{Chosen};
ghost use Rattle.asg_edits.specs.EditOutcomes.{IsChoiceAt, IsChoiceIn};
ghost use Rattle.asg_edits.specs.Editors.{GoesTo, editor_of, has_phases};

use crate::NoMemory;
use crate::choice_copies::copied;
use crate::prepared_sessions::prepared_answer;
use crate::sessions::Sessions;
use asg_model::Choice;
use asg_order::Kind;
use asg_repair::{Answered, Session};
use asg_roots::RootGuess;
use std::alloc::Global;

// The best choice that a session has answered. The error is want of memory.
fn last_choice<K: Kind + Drop>(
    alloc: Global,
    session: &Session<K>,
) -> Result<Option<Choice>, NoMemory>
    requires { session.now.given ≡ Chosen }
    ensures { let m = K.monoid session.now.kind in
        IfOk result (IsChoiceIn (K.M.monoid_of m) (K.M.difference m) (K.M.word_of m)
        (K.entered session.now.kind) session.now.instance
        (map (worded (K.M.word_of m)) session.now.phases)) }
{
    let choice = copied(alloc, session.choice())?;
    Ok(Some(choice))
}

// Has a session answer, by a choice alone. The error is want of memory.
fn choose_session<K: Kind + Drop>(
    alloc: Global,
    session: &mut Session<K>,
) -> Result<Option<Choice>, NoMemory>
where
    K::M: RootGuess,
    ensures kind { session.new.kind ≡ session.old.kind }
    ensures instance { session.new.instance ≡ session.old.instance }
    ensures more { let m = K.monoid session.old.kind in (more : List (PhaseOf Word))
        × (map (worded (K.M.word_of m)) session.new.phases
        ≡ map (worded (K.M.word_of m)) session.old.phases ++ more)
        × (length more ≤ unmatched session.old.columns) }
    ensures choice { let m = K.monoid session.new.kind in
        IfOk result (IsChoiceIn (K.M.monoid_of m) (K.M.difference m) (K.M.word_of m)
        (K.entered session.new.kind) session.new.instance
        (map (worded (K.M.word_of m)) session.new.phases)) }
{
    match prepared_answer(alloc, session) {
        Answered::Best => last_choice(alloc, session),
        Answered::Nothing => Ok(None),
    }
}

// Answers the instance as edited by a choice alone. The error is want of memory.
pub(crate) fn choose_sessions(
    alloc: Global,
    sessions: &mut Sessions,
) -> Result<Option<Choice>, NoMemory>
    requires { IsTrue (has_phases sessions.old) }
    ensures goes { GoesTo (editor_of sessions.old) (editor_of sessions.new) }
    ensures choice { IfOk result (IsChoiceAt (editor_of sessions.new).objective
        (editor_of sessions.new).instance) }
{
    match sessions {
        Sessions::Sums(session) => choose_session(alloc, session),
        Sessions::Peaks(session) => choose_session(alloc, session),
        Sessions::Times(session) => choose_session(alloc, session),
        Sessions::Duals(_) => unreachable!(),
    }
}
