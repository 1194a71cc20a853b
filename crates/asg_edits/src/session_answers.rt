//! Answers of a session as outcomes, told by words.

ghost use Rattle.std.specs.Prelude.{◌≡◌, ◌≤◌, ◌++◌, List, length, map, IfOk};
ghost use Rattle.asg_algebra.specs.Solved.{unmatched};
ghost use Rattle.asg_order.specs.declared.words.Word.{Word};
ghost use Rattle.asg_proof.specs.Phases.{PhaseOf, worded};
ghost use Rattle.asg_repair.specs.declared.answers.Given.TheVariants.{Chosen, Stuck};
ghost use Rattle.asg_edits.specs.EditOutcomes.{IsAnswerIn};

use crate::NoMemory;
use crate::choice_copies::copied;
use crate::prepared_sessions::prepared_answer;
use asg_order::Kind;
use asg_proof::{Ids, Outcome, Proof};
use asg_repair::{Answered, Session};
use asg_roots::RootGuess;
use std::alloc::Global;

// The best choice that a session has answered, with its phases. The error is want of memory.
fn best_outcome<K: Kind + Drop>(alloc: Global, session: &Session<K>) -> Result<Outcome, NoMemory>
    requires { session.now.given ≡ Chosen }
    ensures { let m = K.monoid session.now.kind in
        IfOk result (IsAnswerIn (K.M.monoid_of m) (K.M.difference m) (K.M.word_of m)
        (K.entered session.now.kind) session.now.instance
        (map (worded (K.M.word_of m)) session.now.phases) (unmatched session.now.columns)) }
{
    let _count = session.length();
    let choice = copied(alloc, session.choice())?;
    let phases = session.phases(alloc)?;
    Ok(Outcome::Best {
        choice,
        proof: Proof::Phases(phases),
    })
}

// The Hall set that a session has answered. The error is want of memory.
fn none_outcome<K: Kind + Drop>(alloc: Global, session: &Session<K>) -> Result<Outcome, NoMemory>
    requires { session.now.given ≡ Stuck }
    ensures { let m = K.monoid session.now.kind in
        IfOk result (IsAnswerIn (K.M.monoid_of m) (K.M.difference m) (K.M.word_of m)
        (K.entered session.now.kind) session.now.instance
        (map (worded (K.M.word_of m)) session.now.phases) (unmatched session.now.columns)) }
{
    let rows = Vec::from_slice(alloc, session.hall())?;
    Ok(Outcome::Nothing {
        rows: Ids::from_vec(rows),
    })
}

// Has a session answer. The error is want of memory.
pub(crate) fn answer_session<K: Kind + Drop>(
    alloc: Global,
    session: &mut Session<K>,
) -> Result<Outcome, NoMemory>
where
    K::M: RootGuess,
    ensures kind { session.new.kind ≡ session.old.kind }
    ensures instance { session.new.instance ≡ session.old.instance }
    ensures more { let m = K.monoid session.old.kind in (more : List (PhaseOf Word))
        × (map (worded (K.M.word_of m)) session.new.phases
        ≡ map (worded (K.M.word_of m)) session.old.phases ++ more)
        × (length more ≤ unmatched session.old.columns) }
    ensures outcome { let m = K.monoid session.new.kind in
        IfOk result (IsAnswerIn (K.M.monoid_of m) (K.M.difference m) (K.M.word_of m)
        (K.entered session.new.kind) session.new.instance
        (map (worded (K.M.word_of m)) session.new.phases) (unmatched session.new.columns)) }
{
    match prepared_answer(alloc, session) {
        Answered::Best => best_outcome(alloc, session),
        Answered::Nothing => none_outcome(alloc, session),
    }
}
