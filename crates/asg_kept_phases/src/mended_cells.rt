//! Cells of an edited instance, written into a reduced square whose phases are all kept.

ghost use Rattle.std.specs.Prelude.{◌≡◌, ◌<◌, ◌≤◌, Option, Some, All};
ghost use Rattle.asg_model.specs.Limits.{most_cost};
ghost use Rattle.asg_model.specs.Refused.{PassesNegative};
ghost use Rattle.asg_order.specs.Monoid.{IsValue};
ghost use Rattle.asg_pool.specs.Forest.{IsLive};
ghost use Rattle.asg_admit.specs.KeptCells.{AllowsPhases, cell_after_phases};
ghost use Rattle.asg_kept_phases.specs.Mended.{AllowTrails, MendsCells};
ghost use Rattle.asg_kept_phases.specs.NamedPlaces.{HasColumnsOf};
ghost use Rattle.asg_admit.specs.PhaseValues.{AreOfValues};
ghost use Rattle.asg_kept_phases.specs.PhasesAlong.{phases_along};
ghost use Rattle.asg_square.specs.Cells.{square_cell};
ghost use Rattle.asg_cell_tables.specs.LabelledCells.{labelled_cell};
ghost use Rattle.asg_square.specs.Labels.{row_label, column_label};

use crate::edited_cells::is_counted;
use crate::kept_cells::kept_cell;
use crate::named_places::is_at_column;
use asg_model::Instance;
use asg_order::{DMonoid, Kind, Ordered};
use asg_pool::{Region, Trail};
use asg_square::Square;

// The cell of the square of an instance at a row of it and a copy of a column.
fn copy_cell<K: Kind>(kind: &K, inst: &Instance, r: u32, q: u32) -> Option<<K::M as Ordered>::Value>
    requires passes { PassesNegative (K.objective kind.now) inst.now }
    requires reach { most_cost ≤ K.reach kind.now }
    ensures { result ≡ labelled_cell inst.now (K.M.monoid_of (K.monoid kind.now)).unit
        (K.entered kind.now) (row_label inst.now r) (Some q) }
{
    let _rows = inst.rows();
    let free = kind.monoid().unit();
    if !is_counted(inst, r) {
        return Some(free);
    }
    match inst.live(r, q) {
        Some(cost) => Some(kind.enter(cost)),
        None => None,
    }
}

// What the cell at a place is after the phases, which it allows.
fn cell_through<M: DMonoid>(
    m: &M,
    region: &Region<M::Value>,
    trails: &[Trail],
    r: u32,
    k: u32,
    cell: Option<M::Value>,
) -> Option<M::Value>
    requires live { All (IsLive region.now) trails.now }
    requires row { r < region.now.side }
    requires column { k < region.now.side }
    requires value { (x : M.Value) → cell ≡ Some x → IsValue (M.monoid_of m.now) x }
    requires values { AreOfValues (M.monoid_of m.now) (phases_along region.now trails.now) }
    requires allows { AllowsPhases (M.monoid_of m.now) (M.difference m.now)
        (phases_along region.now trails.now) r k cell }
    ensures { result ≡ cell_after_phases (M.monoid_of m.now) (M.difference m.now)
        (phases_along region.now trails.now) r k cell }
{
    match cell {
        Some(x) => kept_cell(m, region, trails, r, k, x).cell,
        None => None,
    }
}

// The cell of the square of an instance after the phases, at a row of it and a copy of a column.
fn copy_through<K: Kind>(
    kind: &K,
    inst: &Instance,
    region: &Region<<K::M as Ordered>::Value>,
    trails: &[Trail],
    q: u32,
    r: u32,
    k: u32,
) -> Option<<K::M as Ordered>::Value>
    requires may { AllowTrails (K.M.monoid_of (K.monoid kind.now))
        (K.M.difference (K.monoid kind.now)) (K.entered kind.now) (K.objective kind.now)
        (K.reach kind.now) inst.now region.now trails.now }
    requires row { r < region.now.side }
    requires column { k < region.now.side }
    requires label { column_label inst.now k ≡ Some q }
    ensures { result ≡ cell_after_phases (K.M.monoid_of (K.monoid kind.now))
        (K.M.difference (K.monoid kind.now)) (phases_along region.now trails.now) r k
        (square_cell inst.now (K.M.monoid_of (K.monoid kind.now)).unit (K.entered kind.now) r k) }
{
    let _rows = inst.rows();
    let m = kind.monoid();
    let cell = copy_cell(kind, inst, r, q);
    cell_through(m, region, trails, r, k, cell)
}

// Writes the cell at a place as it is after the phases, where it stands in a copy of the column.
fn mend_at<K: Kind>(
    kind: &K,
    inst: &Instance,
    square: &mut Square<<K::M as Ordered>::Value>,
    region: &Region<<K::M as Ordered>::Value>,
    trails: &[Trail],
    q: u32,
    r: u32,
    k: u32,
)
    requires may { AllowTrails (K.M.monoid_of (K.monoid kind.now))
        (K.M.difference (K.monoid kind.now)) (K.entered kind.now) (K.objective kind.now)
        (K.reach kind.now) inst.now region.now trails.now }
    requires columns { HasColumnsOf inst.now square.old }
    requires row { r < region.now.side }
    requires column { k < region.now.side }
    ensures { MendsCells (K.M.monoid_of (K.monoid kind.now)) (K.M.difference (K.monoid kind.now))
        (phases_along region.now trails.now)
        (square_cell inst.now (K.M.monoid_of (K.monoid kind.now)).unit (K.entered kind.now))
        (λ s j. ((s ≡ r) × (j ≡ k)) × (column_label inst.now j ≡ Some q))
        square.old square.new }
{
    let _side = square.side();
    if is_at_column(Some(q), square.column_label(k)) {
        let cell = copy_through(kind, inst, region, trails, q, r, k);
        square.set(r, k, cell);
    }
}

// Writes those of a row.
fn mend_row<K: Kind>(
    kind: &K,
    inst: &Instance,
    square: &mut Square<<K::M as Ordered>::Value>,
    region: &Region<<K::M as Ordered>::Value>,
    trails: &[Trail],
    q: u32,
    r: u32,
)
    requires may { AllowTrails (K.M.monoid_of (K.monoid kind.now))
        (K.M.difference (K.monoid kind.now)) (K.entered kind.now) (K.objective kind.now)
        (K.reach kind.now) inst.now region.now trails.now }
    requires columns { HasColumnsOf inst.now square.old }
    requires row { r < region.now.side }
    ensures { MendsCells (K.M.monoid_of (K.monoid kind.now)) (K.M.difference (K.monoid kind.now))
        (phases_along region.now trails.now)
        (square_cell inst.now (K.M.monoid_of (K.monoid kind.now)).unit (K.entered kind.now))
        (λ s j. (s ≡ r) × (column_label inst.now j ≡ Some q))
        square.old square.new }
{
    for k in 0..square.side() {
        mend_at(kind, inst, square, region, trails, q, r, k);
    }
}

/// Writes those of some rows. It takes no memory; the time is that of the steps of the phases for
/// each cell that is written, and of a look at each label for a row.
pub(crate) fn mend_rows<K: Kind>(
    kind: &K,
    inst: &Instance,
    square: &mut Square<<K::M as Ordered>::Value>,
    region: &Region<<K::M as Ordered>::Value>,
    trails: &[Trail],
    q: u32,
    from: u32,
    to: u32,
)
    requires may { AllowTrails (K.M.monoid_of (K.monoid kind.now))
        (K.M.difference (K.monoid kind.now)) (K.entered kind.now) (K.objective kind.now)
        (K.reach kind.now) inst.now region.now trails.now }
    requires columns { HasColumnsOf inst.now square.old }
    requires order { from ≤ to }
    requires rows { to ≤ region.now.side }
    ensures { MendsCells (K.M.monoid_of (K.monoid kind.now)) (K.M.difference (K.monoid kind.now))
        (phases_along region.now trails.now)
        (square_cell inst.now (K.M.monoid_of (K.monoid kind.now)).unit (K.entered kind.now))
        (λ s j. ((from ≤ s) × (s < to)) × (column_label inst.now j ≡ Some q))
        square.old square.new }
{
    for r in from..to {
        mend_row(kind, inst, square, region, trails, q, r);
    }
}
