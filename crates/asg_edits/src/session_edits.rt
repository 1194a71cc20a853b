//! Edits of a session, told by words.

ghost use Rattle.std.specs.Prelude.{◌≡◌, None, map, OnErr, OnOk};
ghost use Rattle.asg_algebra.specs.Solved.{unmatched};
ghost use Rattle.asg_model.specs.Edits.{edited, refusal_of};
ghost use Rattle.asg_proof.specs.Phases.{worded};
ghost use Rattle.asg_edits.specs.Edited.{KeepsIn};

use crate::NoMemory;
use asg_model::Edit;
use asg_order::Kind;
use asg_repair::Session;
use asg_values::edits::edited_law;
use std::alloc::AllocError;

// Edits a session by an edit that isn't refused. The error is want of memory, and then all is as it
// was.
pub(crate) fn edit_session<K: Kind + Drop>(
    session: &mut Session<K>,
    edit: Edit,
) -> Result<(), NoMemory>
    requires { refusal_of (K.objective session.old.kind) session.old.instance edit ≡ None }
    ensures kind { session.new.kind ≡ session.old.kind }
    ensures edited { OnOk result (session.new.instance ≡ edited session.old.instance edit) }
    ensures kept { let m = K.monoid session.old.kind in
        OnOk result (KeepsIn (K.M.monoid_of m) (K.M.difference m) (K.M.word_of m)
        (K.entered session.old.kind) session.old.instance session.new.instance
        (map (worded (K.M.word_of m)) session.old.phases)
        (map (worded (K.M.word_of m)) session.new.phases)
        (unmatched session.old.columns) (unmatched session.new.columns)) }
    ensures unchanged { OnErr result (session.new ≡ session.old) }
{
    edited_law();
    match session.edit(edit) {
        Ok(()) => Ok(()),
        Err(_) => Err(AllocError),
    }
}
