//! The editor.

ghost use Rattle.std.specs.Prelude.{◌≡◌, ◌≤◌, None, IfOk, IfSome, IsTrue, OnErr, OnOk, OnSome, length};
ghost use Rattle.asg_model.specs.Counts.{placed};
ghost use Rattle.asg_model.specs.Edits.{refusal_of};
ghost use Rattle.asg_model.specs.Instances.{IsInstance};
ghost use Rattle.asg_model.specs.Limits.{most_side};
ghost use Rattle.asg_model.specs.Objectives.{is_algebraic};
ghost use Rattle.asg_model.specs.Refused.{PassesNegative};
ghost use Rattle.asg_model.specs.Shapes.{square_side};
ghost use Rattle.asg_sum_edits.specs.SumDuals.{IsBestSum};
ghost use Rattle.asg_edits.specs.EditOutcomes.{IsAnswerAt, IsChoiceAt};
ghost use Rattle.asg_edits.specs.Editors.{Edits, GoesTo};

use crate::NoMemory;
use crate::chosen_sessions::choose_sessions;
use crate::dual_sessions::{best_sum_of, open_brief_sessions, settle};
use crate::sessions::{Sessions, answer_sessions, edit_sessions, instance_of, open_sessions};
use asg_model::{Choice, Edit, Instance, Objective};
use asg_proof::Outcome;
use std::alloc::Global;
use std::marker::Model;

/// An instance that is edited and answered again and again for an algebraic objective: a session of
/// the objective's kind.
#[derive(Drop)]
pub struct Editor {
    session: Sessions,
}

impl Model for Editor {
    ghost use Rattle.asg_edits.specs.Editors.{EditorOf, editor_of};

    ghost Value = { EditorOf };

    ghost view = { λ editor. editor_of editor.session };
}

impl Editor {
    /// An editor of an instance for an algebraic objective that refuses no live cost of it. The
    /// side of its square is at most 2,000. The error is want of memory. The instance is solved at
    /// once; the time grows with the cube of the side at most.
    pub fn open(alloc: Global, objective: Objective, inst: Instance) -> Result<Editor, NoMemory>
        requires algebraic { IsTrue (is_algebraic objective) }
        requires side { square_side inst ≤ most_side }
        requires passes { PassesNegative objective inst }
        ensures objective { IfOk result (λ editor. editor.objective ≡ objective) }
        ensures instance { IfOk result (λ editor. editor.instance ≡ inst) }
    {
        let session = open_sessions(alloc, objective, inst)?;
        Ok(Editor { session })
    }

    /// The same for brief lines, which tell no phases. For `sum` and `sum-max` dual variables are
    /// kept in place of phases as long as they serve, and the instance is solved when its sum is
    /// asked for first.
    pub fn open_brief(
        alloc: Global,
        objective: Objective,
        inst: Instance,
    ) -> Result<Editor, NoMemory>
        requires algebraic { IsTrue (is_algebraic objective) }
        requires side { square_side inst ≤ most_side }
        requires passes { PassesNegative objective inst }
        ensures objective { IfOk result (λ editor. editor.objective ≡ objective) }
        ensures instance { IfOk result (λ editor. editor.instance ≡ inst) }
    {
        let session = open_brief_sessions(alloc, objective, inst)?;
        Ok(Editor { session })
    }

    /// The instance as edited.
    pub fn instance(&self) -> &Instance
        ensures value { result.now ≡ self.now.instance }
        ensures instance { IsInstance self.now.instance }
    {
        instance_of(&self.session)
    }

    /// Edits the instance by an edit that isn't refused. Of the phases the longest prefix is kept
    /// that is admitted from its square then; and where each row was sure of its column, and live
    /// cells were raised or removed, at most one isn't then. The error is want of memory, and then
    /// all is as it was.
    pub fn edit(&mut self, edit: Edit) -> Result<(), NoMemory>
        requires { refusal_of self.old.objective self.old.instance edit ≡ None }
        ensures objective { self.new.objective ≡ self.old.objective }
        ensures edits { OnOk result (Edits self.old edit self.new) }
        ensures unchanged { OnErr result (self.new ≡ self.old) }
    {
        edit_sessions(&mut self.session, edit)
    }

    /// Answers the instance as edited: a best choice, with the phases as its proof, or a Hall set
    /// of the whole instance. The phases are those before and then at most one for each row that
    /// isn't sure of its column; after a best choice each row is. The error is want of memory. The
    /// time grows with the cube of the side at most.
    pub fn answer(&mut self, alloc: Global) -> Result<Outcome, NoMemory>
        ensures goes { GoesTo self.old self.new }
        ensures outcome { IfOk result (IsAnswerAt self.new.objective self.new.instance
            self.new.phases self.new.unsure) }
    {
        settle(alloc, &mut self.session)?;
        answer_sessions(alloc, &mut self.session)
    }

    /// Answers the instance as edited by a best choice alone, or `None` where no choice is valid.
    /// All is then as after `answer`, but no phase is written out. The error is want of memory. The
    /// time grows with the cube of the side at most.
    pub fn best_choice(&mut self, alloc: Global) -> Result<Option<Choice>, NoMemory>
        ensures goes { GoesTo self.old self.new }
        ensures choice { IfOk result (IsChoiceAt self.new.objective self.new.instance) }
    {
        settle(alloc, &mut self.session)?;
        choose_sessions(alloc, &mut self.session)
    }

    /// The sum of the best choices of the instance as edited; `None` where it isn't told without
    /// phases, as of every editor that wasn't opened for brief lines. The error is want of memory.
    /// The time grows with the cube of the side at most.
    pub fn best_sum(&mut self, alloc: Global) -> Result<Option<i128>, NoMemory>
        ensures same { self.new ≡ self.old }
        ensures sum { IfOk result (λ found. IfSome found
            (IsBestSum self.new.objective self.new.instance)) }
        ensures all { IfOk result (λ found. OnSome found
            (placed self.new.instance ≡ length self.new.instance.rows)) }
    {
        best_sum_of(alloc, &mut self.session)
    }
}
