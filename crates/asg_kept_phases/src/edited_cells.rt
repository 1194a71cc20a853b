//! The cells of a square that an edit of its instance changes.

ghost use Rattle.std.specs.Prelude.{◌≡◌, ◌≤◌, ◌<◌, Option, Some, None, All, true};
ghost use Rattle.asg_model.specs.Counts.{is_counted};
ghost use Rattle.asg_model.specs.Edits.{edited, refusal_of};
ghost use Rattle.asg_model.specs.Limits.{most_cost, most_side};
ghost use Rattle.asg_model.specs.Shapes.{square_side};
ghost use Rattle.asg_proof.specs.PhaseProofs.{EntersValues};
ghost use Rattle.asg_proof.specs.Phases.{AreAdmittedPhases};
ghost use Rattle.asg_kept_phases.specs.EditedCells.{dropped_cell, closed_cell};
ghost use Rattle.asg_proof.specs.KeptPhases.{AreKept};
ghost use Rattle.asg_kept_phases.specs.NamedPlaces.{places_of, HasColumnsOf};
ghost use Rattle.asg_kept_phases.specs.PhaseChains.{phases_in, IsPhaseChain};
ghost use Rattle.asg_square.specs.Cells.{square_cell};

use crate::changed_cells::{ChangedCells, kept_count};
use crate::named_places::{NamedPlaces, is_named, rows_at};
use crate::phase_chains::PhaseChain;
use asg_model::{Edit, Instance, Place};
use asg_order::{Kind, Ordered};
use asg_square::Square;

/// The cells of the square of an instance, before and after an edit that isn't refused. A square
/// tells what the columns are copies of.
#[derive(Drop)]
pub(crate) struct EditedCells<'a, K: Kind> {
    pub(crate) kind: &'a K,
    pub(crate) inst: &'a Instance,
    pub(crate) square: &'a Square<<K::M as Ordered>::Value>,
    pub(crate) edit: Edit,
    pub(crate) places: NamedPlaces,
    ghost small: { square_side inst.now ≤ most_side },
    ghost columns: { HasColumnsOf inst.now square.now },
    ghost places_are: { places ≡ places_of inst.now edit },
    ghost passes: { refusal_of (K.objective kind.now) inst.now edit ≡ None },
    ghost reach: { most_cost ≤ K.reach kind.now },
}

impl<K: Kind> ChangedCells<<K::M as Ordered>::Value> for EditedCells<'_, K> {
    ghost use Rattle.asg_model.specs.Edits.{edited};
    ghost use Rattle.asg_model.specs.Shapes.{square_side};
    ghost use Rattle.asg_kept_phases.specs.Edited.{Touches};
    ghost use Rattle.asg_square.specs.Cells.{square_cell};

    ghost side = { λ s. square_side s.inst.now };

    ghost before = { λ s. square_cell s.inst.now (K.M.monoid_of (K.monoid s.kind.now)).unit
        (K.entered s.kind.now) };

    ghost after = { λ s. square_cell (edited s.inst.now s.edit)
        (K.M.monoid_of (K.monoid s.kind.now)).unit (K.entered s.kind.now) };

    ghost touches = { λ s. Touches s.inst.now s.edit };

    fn is_changed(&self, r: u32, k: u32) -> bool {
        let _rows = self.inst.rows();
        is_named(self.places, self.square, r, k)
    }

    fn now(&self, r: u32, k: u32) -> Option<<K::M as Ordered>::Value> {
        let _rows = self.inst.rows();
        let free = self.kind.monoid().unit();
        match self.edit {
            Edit::Cost { cost, .. } => Some(self.kind.enter(cost)),
            Edit::Forbid { .. } => None,
            Edit::DropRow { .. } => {
                dropped_cell(self.inst.place(), self.square.column_label(k), free)
            }
            Edit::DropColumn { .. } => closed_cell(is_counted(self.inst, r), free),
        }
    }
}

/// Whether the row at a place is counted.
pub(crate) fn is_counted(inst: &Instance, r: u32) -> bool
    ensures { result ≡ is_counted inst.now r }
{
    match inst.place() {
        Place::All => inst.is_active(r),
        Place::Exactly(_) => (r as usize) < inst.rows().len(),
    }
}

// The cell of a dropped row in a column of the square, by what that is a copy of.
fn dropped_cell<V: Copy>(place: Place, label: Option<u32>, free: V) -> Option<V>
    ensures { result ≡ dropped_cell place label free }
{
    match place {
        Place::All => Some(free),
        Place::Exactly(_) => match label {
            Some(_) => None,
            None => Some(free),
        },
    }
}

// The cell of a row of the square in a copy of a closed column, by whether the row is counted.
fn closed_cell<V: Copy>(is_counted: bool, free: V) -> Option<V>
    ensures { result ≡ closed_cell is_counted free }
{
    if is_counted { None } else { Some(free) }
}

/// How many of the phases are kept where an edit that isn't refused is applied to the instance: the
/// longest prefix that is admitted from its square then. It takes no memory; the time is that of
/// the replay of the changed cells, and of a look at each cell of a changed row.
pub fn kept_through<K: Kind>(
    kind: &K,
    inst: &Instance,
    square: &Square<<K::M as Ordered>::Value>,
    chain: &PhaseChain<<K::M as Ordered>::Value>,
    edit: Edit,
    places: NamedPlaces,
) -> u32
    requires small { square_side inst.now ≤ most_side }
    requires columns { HasColumnsOf inst.now square.now }
    requires places { places ≡ places_of inst.now edit }
    requires passes { refusal_of (K.objective kind.now) inst.now edit ≡ None }
    requires reach { most_cost ≤ K.reach kind.now }
    requires live { EntersValues (K.M.monoid_of (K.monoid kind.now)) (K.entered kind.now)
        (edited inst.now edit) }
    requires chain { IsPhaseChain chain.now }
    requires told { chain.now.is_told ≡ true }
    requires region_side { chain.now.region.side ≡ square_side inst.now }
    requires admitted { AreAdmittedPhases (K.M.monoid_of (K.monoid kind.now))
        (K.M.difference (K.monoid kind.now)) (square_side inst.now) (phases_in chain.now)
        (square_cell inst.now (K.M.monoid_of (K.monoid kind.now)).unit (K.entered kind.now)) }
    ensures { AreKept (K.M.monoid_of (K.monoid kind.now)) (K.M.difference (K.monoid kind.now))
        (square_side inst.now) (phases_in chain.now)
        (square_cell (edited inst.now edit) (K.M.monoid_of (K.monoid kind.now)).unit
        (K.entered kind.now)) result }
{
    let _rows = inst.rows();
    let side = inst.side();
    let _phases = chain.len();
    let cells = EditedCells {
        kind,
        inst,
        square,
        edit,
        places,
    };
    let m = kind.monoid();
    let (region, way) = (&chain.region, &chain.way);
    let seen = rows_at(places.row, side);
    kept_count(m, region, way, &cells, side, seen.0, seen.1) as u32
}
