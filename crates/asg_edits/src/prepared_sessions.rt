//! Sessions that are prepared, and then answer.

ghost use Rattle.std.specs.Prelude.{◌≡◌, ◌≤◌, ◌++◌, List, length};
ghost use Rattle.asg_algebra.specs.Solved.{unmatched};
ghost use Rattle.asg_model.specs.declared.bands.Band.TheVariants.{Whole};
ghost use Rattle.asg_model.specs.HallSet.{IsHall};
ghost use Rattle.asg_proof.specs.Phases.{PhaseOf};
ghost use Rattle.asg_repair.specs.Sessions.{IsBestBy, given_of};
ghost use Rattle.asg_repair.specs.declared.answers.Answered.TheVariants.{Best, Nothing};

use asg_order::Kind;
use asg_repair::{Answered, Session};
use asg_roots::RootGuess;
use std::alloc::Global;

/// Has a session answer, by few phases that are guessed where these lead on to a best choice. What
/// memory the guess takes is given back, and where it is wanting nothing is guessed.
pub(crate) fn prepared_answer<K: Kind + Drop>(alloc: Global, session: &mut Session<K>) -> Answered
where
    K::M: RootGuess,
    ensures kind { session.new.kind ≡ session.old.kind }
    ensures instance { session.new.instance ≡ session.old.instance }
    ensures phases { (more : List (PhaseOf K.M.Value))
        × (session.new.phases ≡ session.old.phases ++ more)
        × (length more ≤ unmatched session.old.columns) }
    ensures given { session.new.given ≡ given_of result }
    ensures best { let m = K.monoid session.new.kind in result ≡ Best
        → IsBestBy (K.M.monoid_of m) (K.M.difference m) (K.entered session.new.kind)
        session.new.instance session.new.phases session.new.columns session.new.choice }
    ensures nothing { result ≡ Nothing → IsHall session.new.instance Whole session.new.hall }
{
    session.prepare(alloc);
    session.answer()
}
