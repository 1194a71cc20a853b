//! Answers of sessions, and what is read of them.

ghost use Rattle.std.specs.Prelude.{◌≡◌, ◌≢◌, ◌≤◌, ◌++◌, All, List, length, map, take, IfOk};
ghost use Rattle.asg_algebra.specs.Solved.{unmatched};
ghost use Rattle.asg_model.specs.declared.bands.Band.TheVariants.{Whole};
ghost use Rattle.asg_model.specs.HallSet.{IsHall};
ghost use Rattle.asg_model.specs.Instances.{IsInstance};
ghost use Rattle.asg_model.specs.Shapes.{square_side};
ghost use Rattle.asg_proof.specs.Phases.{PhaseOf, worded};
ghost use Rattle.asg_proof.specs.PromisedProofs.{IsPhaseOver};
ghost use Rattle.asg_repair.specs.Sessions.{AreAdmittedOn, IsBestBy, given_of};
ghost use Rattle.asg_repair.specs.declared.answers.Answered.TheVariants.{Best, Nothing};
ghost use Rattle.asg_repair.specs.declared.answers.Given.TheVariants.{Chosen, Open, Stuck};

use crate::NoMemory;
use crate::answers::{Answered, Given, give};
use crate::free_rows::free_rows;
use crate::sessions::Session;
use crate::works::{lead, solve_on};
use asg_kept_phases::written_chain;
use asg_model::{Choice, Instance};
use asg_order::Kind;
use asg_proof::Phases;
use std::alloc::Global;

impl<K: Kind + Drop> Session<K> {
    /// Answers the instance as edited: by a best choice, whose fold the phases prove, or by a Hall
    /// set of the whole instance. The phases are those that were kept and then at most one for each
    /// row that isn't sure to keep its column, of the engine ([`prepare`](Session::prepare) may find
    /// fewer). They are admitted in turn from the instance's square, whatever is answered. Where it was answered since the last edit, nothing
    /// changes. It takes no memory. The time grows with the cube of the side at most, and where all
    /// rows but one keep their columns with its square and the steps of the phases.
    pub fn answer(&mut self) -> Answered
        ensures kind { self.new.kind ≡ self.old.kind }
        ensures instance { self.new.instance ≡ self.old.instance }
        ensures phases { (more : List (PhaseOf K.M.Value))
            × (self.new.phases ≡ self.old.phases ++ more)
            × (length more ≤ unmatched self.old.columns) }
        ensures again { self.old.given ≢ Open → self.new ≡ self.old }
        ensures given { self.new.given ≡ given_of result }
        ensures admitted { let m = K.monoid self.new.kind in AreAdmittedOn (K.M.monoid_of m)
            (K.M.difference m) (K.entered self.new.kind) self.new.instance self.new.phases }
        ensures best { let m = K.monoid self.new.kind in result ≡ Best
            → IsBestBy (K.M.monoid_of m) (K.M.difference m) (K.entered self.new.kind)
            self.new.instance self.new.phases self.new.columns self.new.choice }
        ensures nothing { result ≡ Nothing → IsHall self.new.instance Whole self.new.hall }
    {
        if self.room.given == Given::Open {
            self.find();
        }
        self.tell_admitted();
        self.last_answer()
    }

    // Tells the proof that the phases are admitted from the instance's square, as a session keeps
    // it.
    pub(crate) fn tell_admitted(&self)
        ensures { let m = K.monoid self.now.kind in AreAdmittedOn (K.M.monoid_of m)
            (K.M.difference m) (K.entered self.now.kind) self.now.instance self.now.phases }
    {
        let _given = self.room.given;
    }

    // Finds the answer: leads the square, solves on, and writes down what the solver came to.
    fn find(&mut self)
        requires { self.old.given ≡ Open }
        ensures kind { self.new.kind ≡ self.old.kind }
        ensures instance { self.new.instance ≡ self.old.instance }
        ensures phases { (more : List (PhaseOf K.M.Value))
            × (self.new.phases ≡ self.old.phases ++ more)
            × (length more ≤ unmatched self.old.columns) }
        ensures given { self.new.given ≢ Open }
    {
        let is_led = self.is_led;
        lead(&self.kind, &self.inst, &mut self.work, &self.phases, is_led);
        let ended = solve_on(&self.kind, &self.inst, &mut self.work, &mut self.phases);
        give(
            &self.kind,
            &self.inst,
            &mut self.work,
            ended,
            &mut self.room,
        );
        self.is_led = true;
        self.is_cut = false;
    }

    // What was answered, which is something.
    fn last_answer(&self) -> Answered
        requires { self.now.given ≢ Open }
        ensures given { self.now.given ≡ given_of result }
        ensures best { let m = K.monoid self.now.kind in result ≡ Best
            → IsBestBy (K.M.monoid_of m) (K.M.difference m) (K.entered self.now.kind)
            self.now.instance self.now.phases self.now.columns self.now.choice }
        ensures nothing { result ≡ Nothing → IsHall self.now.instance Whole self.now.hall }
    {
        match self.room.given {
            Given::Chosen => Answered::Best,
            Given::Stuck => Answered::Nothing,
            Given::Open => unreachable!(),
        }
    }

    /// The instance as edited.
    pub fn instance(&self) -> &Instance
        ensures value { result.now ≡ self.now.instance }
        ensures instance { IsInstance self.now.instance }
    {
        &self.inst
    }

    /// The best choice that was answered.
    pub fn choice(&self) -> &Choice
        requires { self.now.given ≡ Chosen }
        ensures value { result.now ≡ self.now.choice }
        ensures best { let m = K.monoid self.now.kind in IsBestBy (K.M.monoid_of m)
            (K.M.difference m) (K.entered self.now.kind) self.now.instance self.now.phases
            self.now.columns self.now.choice }
    {
        &self.room.choice
    }

    /// The ids of the Hall set that was answered.
    pub fn hall(&self) -> &[u32]
        requires { self.now.given ≡ Stuck }
        ensures value { result.now ≡ self.now.hall }
        ensures hall { IsHall self.now.instance Whole self.now.hall }
    {
        first_ids(&self.room.ids, self.room.count)
    }

    /// How many rows of the square aren't sure to keep a column: the next answer has at most so
    /// many phases more.
    pub fn unplaced(&self) -> u32
        ensures { result ≡ unmatched self.now.columns }
    {
        if self.is_cut {
            return self.work.matching.side();
        }
        free_rows(&self.work.matching)
    }

    /// How many phases there are.
    pub fn length(&self) -> u32
        ensures { result ≡ length self.now.phases }
    {
        self.phases.len()
    }

    /// The phases in order, with each step as its word: each has from one step to as many as the
    /// side of the square, and lists over its rows and its columns. The error is want of memory.
    pub fn phases(&self, alloc: Global) -> Result<Phases, NoMemory>
        ensures words { let m = K.monoid self.now.kind in IfOk result (λ phases. phases
            ≡ map (worded (K.M.word_of m)) self.now.phases) }
        ensures over { IfOk result (All (IsPhaseOver (square_side self.now.instance))) }
    {
        written_chain(alloc, self.kind.monoid(), &self.phases)
    }
}

// The first so many ids, or all where they are fewer.
fn first_ids(ids: &[u32], count: u32) -> &[u32]
    ensures { result.now ≡ take count ids.now }
{
    let count = count as usize;
    if count < ids.len() {
        &ids[..count]
    } else {
        ids
    }
}
