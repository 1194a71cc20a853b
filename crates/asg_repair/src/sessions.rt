//! Sessions.

ghost use Rattle.std.specs.Prelude.{◌≡◌, ◌≢◌, ◌≤◌, ◌||◌, ◌&&◌, ℕ, None, Some, nat_eq, nat_lt, take, length};
ghost use Rattle.std.specs.Prelude.{IfOk, OnOk, OnErr, IfErr};
ghost use Rattle.asg_match.specs.Matching.{column_at};
ghost use Rattle.asg_model.specs.declared.edits.EditRefusal.TheVariants.{NoMemory as NoMemoryRefusal};
ghost use Rattle.asg_model.specs.Edits.{edited, refusal_of};
ghost use Rattle.asg_model.specs.Limits.{most_cost, most_side};
ghost use Rattle.asg_model.specs.Refused.{PassesNegative};
ghost use Rattle.asg_model.specs.Shapes.{square_side};
ghost use Rattle.asg_proof.specs.PhaseProofs.{IsRaised};
ghost use Rattle.asg_kept_phases.specs.Edited.{Touches};
ghost use Rattle.asg_proof.specs.KeptPhases.{AreKept};
ghost use Rattle.asg_repair.specs.Sessions.{AreAdmittedOn};
ghost use Rattle.asg_repair.specs.declared.answers.Given.TheVariants.{Open};
ghost use Rattle.asg_square.specs.Cells.{square_cell};

use crate::NoMemory;
use crate::answers::{AnswerRoom, Given};
use crate::applied_edits::{edit_instance, follow_edit};
use crate::opening::{Opened, solve_first};
use crate::works::Work;
use asg_kept_phases::{PhaseChain, places_of};
use asg_model::{Edit, EditRefusal, Instance};
use asg_order::{Kind, Ordered};
use asg_proof::laws::raised_law;
use asg_roots::RootGuess;
use std::alloc::Global;
use std::marker::Model;

/// A session: an instance that is edited, with what its last answer left: the phases that are still
/// admitted from its square, and the columns that its rows keep.
#[derive(Drop)]
pub struct Session<K: Kind + Drop> {
    pub(crate) kind: K,
    pub(crate) inst: Instance,
    pub(crate) work: Work<<K::M as Ordered>::Value>,
    pub(crate) phases: PhaseChain<<K::M as Ordered>::Value>,
    pub(crate) is_led: bool,
    pub(crate) is_cut: bool,
    pub(crate) room: AnswerRoom,
}

impl<K: Kind + Drop> Model for Session<K> {
    ghost use Rattle.asg_kept_phases.specs.PhaseChains.{phases_in};
    ghost use Rattle.asg_repair.specs.Sessions.{SessionOf, IsSession, parts_of, sure_columns, ids_in};

    ghost Value = { SessionOf K K.M.Value };

    ghost view = { λ s. record {
      kind = s.kind;
      instance = s.inst;
      phases = phases_in s.phases;
      columns = sure_columns s.is_cut s.work.matching;
      given = s.room.given;
      choice = s.room.choice;
      hall = ids_in s.room;
    } };

    ghost invariant = { λ s. IsSession (K.M.monoid_of (K.monoid s.kind))
        (K.M.difference (K.monoid s.kind)) (K.entered s.kind) (K.objective s.kind) (K.reach s.kind)
        s.inst (parts_of s.work s.phases s.is_led s.is_cut s.room) };
}

impl<K: Kind + Drop> Session<K> {
    /// A session on an instance. Its square is solved at once, by few phases that are guessed and
    /// tested, or else by those of the engine, so that the first answer has few phases. The error
    /// is want of memory. The time grows with the cube of the side at most.
    pub fn open(alloc: Global, kind: K, inst: Instance) -> Result<Session<K>, NoMemory>
    where
        K::M: RootGuess,
        requires side { square_side inst ≤ most_side }
        requires passes { PassesNegative (K.objective kind) inst }
        requires reach { most_cost ≤ K.reach kind }
        ensures kind { IfOk result (λ s. s.kind ≡ kind) }
        ensures instance { IfOk result (λ s. s.instance ≡ inst) }
        ensures few { IfOk result (λ s. length s.phases ≤ square_side inst) }
        ensures open { IfOk result (λ s. s.given ≡ Open) }
        ensures admitted { let m = K.monoid kind in
            IfOk result (λ s. AreAdmittedOn (K.M.monoid_of m) (K.M.difference m)
            (K.entered kind) inst s.phases) }
    {
        let _rows = inst.rows();
        let room = AnswerRoom::make(alloc, &inst)?;
        let opened = solve_first(alloc, &kind, &inst)?;
        let Opened { work, phases } = opened;
        Ok(Session {
            kind,
            inst,
            work,
            phases,
            is_led: true,
            is_cut: false,
            room,
        })
    }

    /// Edits the instance. Of the phases the longest prefix is kept that is admitted from its
    /// square then; all are kept where live cells were raised or removed, and then each row keeps
    /// its column, but for those whose cell the edit may change. What was answered is no answer any
    /// more. Errors: the first refusal that applies, as [`Instance::refusal`] tells it, else want
    /// of memory. After an error all is as it was.
    pub fn edit(&mut self, edit: Edit) -> Result<(), EditRefusal>
        ensures edited { OnOk result (self.new.instance ≡ edited self.old.instance edit) }
        ensures kept { let m = K.monoid self.old.kind in OnOk result ((n : ℕ)
            × (self.new.phases ≡ take n self.old.phases)
            × AreKept (K.M.monoid_of m) (K.M.difference m) (square_side self.new.instance)
            self.old.phases
            (square_cell self.new.instance (K.M.monoid_of m).unit (K.entered self.old.kind)) n) }
        ensures all { let m = K.monoid self.old.kind in OnOk result
            (IsRaised (K.M.monoid_of m) (K.entered self.old.kind) self.old.instance
            self.new.instance → self.new.phases ≡ self.old.phases) }
        ensures columns { let m = K.monoid self.old.kind in OnOk result
            (IsRaised (K.M.monoid_of m) (K.entered self.old.kind) self.old.instance
            self.new.instance → (r : ℕ) → ((k : ℕ) → Touches self.old.instance edit r k → ⊥)
            → column_at self.new.columns r ≡ column_at self.old.columns r) }
        ensures count { OnOk result (length self.new.columns ≡ length self.old.columns) }
        ensures open { OnOk result (self.new.given ≡ Open) }
        ensures kind { self.new.kind ≡ self.old.kind }
        ensures passes { OnOk result
            (refusal_of (K.objective self.old.kind) self.old.instance edit ≡ None) }
        ensures refused { IfErr result (λ r. r ≢ NoMemoryRefusal
            → refusal_of (K.objective self.old.kind) self.old.instance edit ≡ Some r) }
        ensures wanting { IfErr result (λ r. r ≡ NoMemoryRefusal
            → refusal_of (K.objective self.old.kind) self.old.instance edit ≡ None) }
        ensures unchanged { OnErr result (self.new ≡ self.old) }
    {
        if let Some(refusal) = self.inst.refusal(self.kind.objective(), edit) {
            return Err(refusal);
        }
        raised_law(self.kind.monoid());
        match self.apply(edit) {
            Ok(()) => Ok(()),
            Err(_) => Err(EditRefusal::NoMemory),
        }
    }

    // Applies an edit that isn't refused: first all that may take memory, the instance last, then
    // what takes none. The error is want of memory.
    fn apply(&mut self, edit: Edit) -> Result<(), NoMemory>
        requires { refusal_of (K.objective self.old.kind) self.old.instance edit ≡ None }
        ensures edited { OnOk result (self.new.instance ≡ edited self.old.instance edit) }
        ensures kept { let m = K.monoid self.old.kind in OnOk result ((n : ℕ)
            × (self.new.phases ≡ take n self.old.phases)
            × AreKept (K.M.monoid_of m) (K.M.difference m) (square_side self.new.instance)
            self.old.phases
            (square_cell self.new.instance (K.M.monoid_of m).unit (K.entered self.old.kind)) n) }
        ensures columns { OnOk result (self.new.phases ≡ self.old.phases
            → (r : ℕ) → ((k : ℕ) → Touches self.old.instance edit r k → ⊥)
            → column_at self.new.columns r ≡ column_at self.old.columns r) }
        ensures count { OnOk result (length self.new.columns ≡ length self.old.columns) }
        ensures open { OnOk result (self.new.given ≡ Open) }
        ensures kind { self.new.kind ≡ self.old.kind }
        ensures unchanged { OnErr result (self.new ≡ self.old) }
    {
        let places = places_of(&self.inst, edit);
        let kept = edit_instance(
            &self.kind,
            &mut self.inst,
            &self.work.reduced.now,
            &mut self.phases,
            edit,
            places,
        )?;
        let _rows = self.inst.rows();
        let count = self.phases.len();
        self.is_cut = is_cut_by(self.is_cut, kept, count);
        let stays = stays_led(self.is_led, kept, count);
        self.is_led = follow_edit(
            &self.kind,
            &self.inst,
            &mut self.work,
            &mut self.phases,
            places,
            kept,
            stays,
        );
        self.room.given = Given::Open;
        Ok(())
    }
}

// Whether phases are cut where so many of so many are kept, or were before.
fn is_cut_by(was: bool, kept: u32, count: u32) -> bool
    ensures { result ≡ (was || nat_lt kept count) }
{
    was || kept < count
}

// Whether all of so many phases are kept that led to the square.
fn stays_led(was: bool, kept: u32, count: u32) -> bool
    ensures { result ≡ (was && nat_eq kept count) }
{
    was && kept == count
}
