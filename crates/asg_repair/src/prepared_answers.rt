//! Answers of sessions, prepared.

ghost use Rattle.std.specs.Prelude.{◌≡◌, ◌≢◌, ◌+◌, ◌≤◌, ◌++◌, List, length};
ghost use Rattle.asg_algebra.specs.Solved.{unmatched};
ghost use Rattle.asg_proof.specs.Phases.{PhaseOf};
ghost use Rattle.asg_repair.specs.Sessions.{AreAdmittedOn};
ghost use Rattle.asg_repair.specs.declared.answers.Given.TheVariants.{Open};

use crate::answers::Given;
use crate::guessed_ends::guess_on;
use crate::sessions::Session;
use crate::works::lead;
use asg_order::Kind;
use asg_roots::RootGuess;
use std::alloc::Global;

impl<K: Kind + Drop> Session<K> {
    /// Prepares the next answer, where none was given since the last edit: few phases are guessed,
    /// tested, and taken where they lead on to a best choice. They are at most one for each row
    /// that isn't sure to keep its column, and then each row is sure of one. Where nothing is
    /// guessed that passes, where one row alone isn't sure to keep its column, and for want of
    /// memory, no phase is added, and the next answer finds its phases by itself. The time grows
    /// with the cube of the side at most.
    pub fn prepare(&mut self, alloc: Global)
    where
        K::M: RootGuess,
        ensures kind { self.new.kind ≡ self.old.kind }
        ensures instance { self.new.instance ≡ self.old.instance }
        ensures given { self.new.given ≡ self.old.given }
        ensures phases { (more : List (PhaseOf K.M.Value))
            × (self.new.phases ≡ self.old.phases ++ more)
            × (length more + unmatched self.new.columns ≤ unmatched self.old.columns) }
        ensures admitted { let m = K.monoid self.new.kind in AreAdmittedOn (K.M.monoid_of m)
            (K.M.difference m) (K.entered self.new.kind) self.new.instance self.new.phases }
        ensures again { self.old.given ≢ Open → self.new ≡ self.old }
    {
        if self.room.given == Given::Open {
            self.go_on(alloc);
        }
        self.tell_admitted();
    }

    // Leads the square, and solves it on by phases that are guessed.
    fn go_on(&mut self, alloc: Global)
    where
        K::M: RootGuess,
        requires { self.old.given ≡ Open }
        ensures kind { self.new.kind ≡ self.old.kind }
        ensures instance { self.new.instance ≡ self.old.instance }
        ensures given { self.new.given ≡ self.old.given }
        ensures phases { (more : List (PhaseOf K.M.Value))
            × (self.new.phases ≡ self.old.phases ++ more)
            × (length more + unmatched self.new.columns ≤ unmatched self.old.columns) }
    {
        let is_led = self.is_led;
        lead(&self.kind, &self.inst, &mut self.work, &self.phases, is_led);
        guess_on(
            alloc,
            &self.kind,
            &self.inst,
            &mut self.work,
            &mut self.phases,
        );
        self.is_led = true;
        self.is_cut = false;
    }
}
