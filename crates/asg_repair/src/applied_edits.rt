//! Edits, applied to what a session holds.

ghost use Rattle.std.specs.Prelude.{◌≡◌, ◌≤◌, None, Some, ℕ, IfOk, OnErr, OnOk, length, take, true};
ghost use Rattle.asg_model.specs.Edits.{edited, refusal_of};
ghost use Rattle.asg_model.specs.Shapes.{square_side};
ghost use Rattle.asg_proof.specs.KeptPhases.{AreKept};
ghost use Rattle.asg_proof.specs.Phases.{AreAdmittedPhases};
ghost use Rattle.asg_kept_phases.specs.Mended.{IsLedBut};
ghost use Rattle.asg_kept_phases.specs.NamedPlaces.{places_of, HasColumnsOf};
ghost use Rattle.asg_repair.specs.ClearedRows.{IsClearedOf};
ghost use Rattle.asg_kept_phases.specs.PhaseChains.{phases_in, IsCutTo, IsPhaseChain, IsPrepared};
ghost use Rattle.asg_repair.specs.Sessions.{IsSized};
ghost use Rattle.asg_kept_phases.specs.Led.{IsLed, MaySolve};
ghost use Rattle.asg_square.specs.Cells.{square_cell};

use crate::NoMemory;
use crate::cleared_rows::clear_named;
use crate::works::Work;
use asg_kept_phases::{NamedPlaces, PhaseChain, follow, kept_through};
use asg_model::{Edit, Instance};
use asg_order::{Kind, Ordered};
use asg_square::Square;
use std::alloc::AllocError;

// Applies an edit that isn't refused to an instance. The error is want of memory, and then the
// instance is as it was.
fn apply_to<K: Kind>(kind: &K, inst: &mut Instance, edit: Edit) -> Result<(), NoMemory>
    requires { refusal_of (K.objective kind.now) inst.old edit ≡ None }
    ensures edited { OnOk result (inst.new ≡ edited inst.old edit) }
    ensures kept { OnErr result (inst.new ≡ inst.old) }
{
    match inst.edit(kind.objective(), edit) {
        Ok(()) => Ok(()),
        Err(_) => Err(AllocError),
    }
}

/// Applies an edit that isn't refused to an instance, after all else for which a session takes
/// memory: how many of the phases are kept, as the longest prefix that is admitted from the square
/// of the edited instance. A square tells what the columns are copies of. The error is want of
/// memory, and then the instance is as it was. The phases stay the same.
pub(crate) fn edit_instance<K: Kind>(
    kind: &K,
    inst: &mut Instance,
    square: &Square<<K::M as Ordered>::Value>,
    phases: &mut PhaseChain<<K::M as Ordered>::Value>,
    edit: Edit,
    places: NamedPlaces,
) -> Result<u32, NoMemory>
    requires may_solve { MaySolve (K.M.monoid_of (K.monoid kind.now)) (K.entered kind.now)
        (K.objective kind.now) (K.reach kind.now) inst.old }
    requires columns { HasColumnsOf inst.old square.now }
    requires chain { IsPhaseChain phases.old }
    requires region_side { phases.old.region.side ≡ square_side inst.old }
    requires admitted { AreAdmittedPhases (K.M.monoid_of (K.monoid kind.now))
        (K.M.difference (K.monoid kind.now)) (square_side inst.old) (phases_in phases.old)
        (square_cell inst.old (K.M.monoid_of (K.monoid kind.now)).unit (K.entered kind.now)) }
    requires passes { refusal_of (K.objective kind.now) inst.old edit ≡ None }
    requires places { places ≡ places_of inst.old edit }
    ensures prepared { IsPrepared phases.old phases.new }
    ensures edited { OnOk result (inst.new ≡ edited inst.old edit) }
    ensures kept { IfOk result (AreKept (K.M.monoid_of (K.monoid kind.now))
        (K.M.difference (K.monoid kind.now)) (square_side inst.old) (phases_in phases.new)
        (square_cell (edited inst.old edit) (K.M.monoid_of (K.monoid kind.now)).unit
        (K.entered kind.now))) }
    ensures told { OnOk result (phases.new.is_told ≡ true) }
    ensures spare { OnOk result (square_side inst.old ≤ phases.new.region.spare) }
    ensures unchanged { OnErr result (inst.new ≡ inst.old) }
{
    phases.prepare(inst.side())?;
    let kept = kept_through(kind, inst, square, phases, edit, places);
    apply_to(kind, inst, edit)?;
    Ok(kept)
}

/// Follows an edit of the instance that was applied: each row whose cell the edit names loses its
/// column, the phases are cut to so many, and where all phases are kept that led to the square, the
/// cells that the edit names are made those of the instance after the phases. Whether the square is
/// led by the phases then. It takes no memory.
pub(crate) fn follow_edit<K: Kind>(
    kind: &K,
    inst: &Instance,
    work: &mut Work<<K::M as Ordered>::Value>,
    phases: &mut PhaseChain<<K::M as Ordered>::Value>,
    places: NamedPlaces,
    kept: u32,
    stays: bool,
) -> bool
    requires may_solve { MaySolve (K.M.monoid_of (K.monoid kind.now)) (K.entered kind.now)
        (K.objective kind.now) (K.reach kind.now) inst.now }
    requires sized { IsSized inst.now work.old }
    requires chain { IsPhaseChain phases.old }
    requires told { phases.old.is_told ≡ true }
    requires few { kept ≤ length (phases_in phases.old) }
    requires region_side { phases.old.region.side ≡ square_side inst.now }
    requires led { stays ≡ true → (q : ℕ) → places.column ≡ Some q
        → IsLedBut (K.M.monoid_of (K.monoid kind.now)) (K.M.difference (K.monoid kind.now))
        (K.entered kind.now) inst.now (take kept (phases_in phases.old)) places.row q
        work.old.reduced }
    ensures sized { IsSized inst.now work.new }
    ensures cleared { IsClearedOf places work.old.reduced.now work.old.matching work.new.matching }
    ensures cut { IsCutTo kept phases.old phases.new }
    ensures only { result ≡ true → stays ≡ true }
    ensures led { result ≡ true
        → IsLed (K.M.monoid_of (K.monoid kind.now)) (K.M.difference (K.monoid kind.now))
        (K.entered kind.now) inst.now (phases_in phases.new) work.new.reduced }
{
    clear_named(places, &work.reduced.now, &mut work.matching);
    phases.cut(kept);
    follow(kind, inst, &mut work.reduced, phases, places, stays)
}
