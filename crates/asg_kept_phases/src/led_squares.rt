//! Squares that phases lead to still after an edit of the instance.

ghost use Rattle.std.specs.Prelude.{◌≡◌, ◌<◌, ◌&&◌, ℕ, Some, IfSome, is_some, true};
ghost use Rattle.asg_model.specs.Shapes.{square_side};
ghost use Rattle.asg_kept_phases.specs.Mended.{AllowTrails, IsLedBut, MendsCells};
ghost use Rattle.asg_kept_phases.specs.NamedPlaces.{HasColumnsOf, IsAtRow};
ghost use Rattle.asg_kept_phases.specs.PhaseChains.{phases_in, IsPhaseChain};
ghost use Rattle.asg_kept_phases.specs.PhasesAlong.{phases_along};
ghost use Rattle.asg_kept_phases.specs.Led.{IsLed, MaySolve};
ghost use Rattle.asg_square.specs.Cells.{square_cell};
ghost use Rattle.asg_square.specs.Labels.{column_label};

use crate::mended_cells::mend_rows;
use crate::named_places::{NamedPlaces, rows_at};
use crate::phase_chains::PhaseChain;
use asg_admit::Reduced;
use asg_model::Instance;
use asg_order::{Kind, Ordered};
use asg_pool::{Region, Trail};
use asg_square::Square;

// Writes the cells of the row at a place, or of all rows, in the copies of a column.
fn mend_named<K: Kind>(
    kind: &K,
    inst: &Instance,
    square: &mut Square<<K::M as Ordered>::Value>,
    region: &Region<<K::M as Ordered>::Value>,
    trails: &[Trail],
    row: Option<u32>,
    q: u32,
)
    requires may { AllowTrails (K.M.monoid_of (K.monoid kind.now))
        (K.M.difference (K.monoid kind.now)) (K.entered kind.now) (K.objective kind.now)
        (K.reach kind.now) inst.now region.now trails.now }
    requires columns { HasColumnsOf inst.now square.old }
    requires row { IfSome row (λ r. r < square_side inst.now) }
    ensures { MendsCells (K.M.monoid_of (K.monoid kind.now)) (K.M.difference (K.monoid kind.now))
        (phases_along region.now trails.now)
        (square_cell inst.now (K.M.monoid_of (K.monoid kind.now)).unit (K.entered kind.now))
        (λ r k. (r < square_side inst.now)
        × (IsAtRow row r × (column_label inst.now k ≡ Some q))) square.old square.new }
{
    let side = inst.side();
    let seen = rows_at(row, side);
    mend_rows(kind, inst, square, region, trails, q, seen.0, seen.1);
}

// Makes the square that of the instance after the phases, where it may differ from that only in the
// cells of a row, or of all rows, in the copies of a column.
fn mend_led<K: Kind>(
    kind: &K,
    inst: &Instance,
    reduced: &mut Reduced<<K::M as Ordered>::Value>,
    phases: &PhaseChain<<K::M as Ordered>::Value>,
    row: Option<u32>,
    q: u32,
)
    requires may_solve { MaySolve (K.M.monoid_of (K.monoid kind.now)) (K.entered kind.now)
        (K.objective kind.now) (K.reach kind.now) inst.now }
    requires columns { HasColumnsOf inst.now reduced.old.now }
    requires chain { IsPhaseChain phases.now }
    requires told { phases.now.is_told ≡ true }
    requires region_side { phases.now.region.side ≡ square_side inst.now }
    requires led { IsLedBut (K.M.monoid_of (K.monoid kind.now)) (K.M.difference (K.monoid kind.now))
        (K.entered kind.now) inst.now (phases_in phases.now) row q reduced.old }
    ensures columns { HasColumnsOf inst.now reduced.new.now }
    ensures led { IsLed (K.M.monoid_of (K.monoid kind.now)) (K.M.difference (K.monoid kind.now))
        (K.entered kind.now) inst.now (phases_in phases.now) reduced.new }
{
    let (region, way) = (&phases.region, &phases.way);
    mend_named(kind, inst, &mut reduced.now, region, way, row, q);
    let _side = reduced.now.side();
}

/// Makes the square that of an edited instance after the phases, where it was that of the instance
/// before, all phases are kept and the edit names a column: only cells in the copies of that column
/// are written. Whether it is. It takes no memory; the time is that of the replay of those cells,
/// and of a look at each label for each row that may have some.
pub fn follow<K: Kind>(
    kind: &K,
    inst: &Instance,
    reduced: &mut Reduced<<K::M as Ordered>::Value>,
    phases: &PhaseChain<<K::M as Ordered>::Value>,
    places: NamedPlaces,
    is_led: bool,
) -> bool
    requires may_solve { MaySolve (K.M.monoid_of (K.monoid kind.now)) (K.entered kind.now)
        (K.objective kind.now) (K.reach kind.now) inst.now }
    requires columns { HasColumnsOf inst.now reduced.old.now }
    requires chain { IsPhaseChain phases.now }
    requires told { phases.now.is_told ≡ true }
    requires region_side { phases.now.region.side ≡ square_side inst.now }
    requires led { is_led ≡ true → (q : ℕ) → places.column ≡ Some q
        → IsLedBut (K.M.monoid_of (K.monoid kind.now)) (K.M.difference (K.monoid kind.now))
        (K.entered kind.now) inst.now (phases_in phases.now) places.row q reduced.old }
    ensures columns { HasColumnsOf inst.now reduced.new.now }
    ensures told { result ≡ (is_led && is_some places.column) }
    ensures led { result ≡ true
        → IsLed (K.M.monoid_of (K.monoid kind.now)) (K.M.difference (K.monoid kind.now))
        (K.entered kind.now) inst.now (phases_in phases.now) reduced.new }
{
    if !is_led {
        return false;
    }
    match places.column {
        Some(q) => {
            mend_led(kind, inst, reduced, phases, places.row, q);
            true
        }
        None => false,
    }
}
