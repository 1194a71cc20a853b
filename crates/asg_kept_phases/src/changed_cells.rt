//! How far all changed cells allow phases.

ghost use Rattle.std.specs.Prelude.{◌≡◌, ◌<◌, ◌≤◌, ℕ, Option, false, IsTrue, All, length};
ghost use Rattle.asg_pool.specs.Forest.{IsLive};
ghost use Rattle.asg_proof.specs.Steps.{HasValues};
ghost use Rattle.asg_kept_phases.specs.LeftPhases.{IsLeftAt, AreLeft};
ghost use Rattle.asg_admit.specs.PhaseValues.{AreOfValues};
ghost use Rattle.asg_kept_phases.specs.PhasesAlong.{phases_along};

use crate::kept_cells::kept_cell;
use asg_order::DMonoid;
use asg_pool::{Region, Trail};

/// A square of which cells were changed.
pub(crate) trait ChangedCells<V: Copy> {
    ghost side: { Self → ℕ };

    // The square before and after the change.
    ghost before: { Self → ℕ → ℕ → Option V };

    ghost after: { Self → ℕ → ℕ → Option V };

    // The cells that may be changed.
    ghost touches: { Self → ℕ → ℕ → Type 0 };

    /// Whether the cell may be changed.
    fn is_changed(&self, r: u32, k: u32) -> bool
        requires row { r < side self.now }
        requires column { k < side self.now }
        ensures touched { IsTrue result → touches self.now r k }
        ensures stays { result ≡ false → after self.now r k ≡ before self.now r k };

    /// A cell that may be changed, after the change.
    fn now(&self, r: u32, k: u32) -> Option<V>
        requires row { r < side self.now }
        requires column { k < side self.now }
        requires touched { touches self.now r k }
        ensures { result ≡ after self.now r k };
}

// How many of the first so many phases the cell at a place allows, all where it isn't changed.
fn kept_at<M: DMonoid, C: ChangedCells<M::Value>>(
    m: &M,
    region: &Region<M::Value>,
    trails: &[Trail],
    cells: &C,
    r: u32,
    k: u32,
    count: usize,
) -> usize
    requires live { All (IsLive region.now) trails.now }
    requires side { C.side cells.now ≡ region.now.side }
    requires row { r < region.now.side }
    requires column { k < region.now.side }
    requires count { count ≤ length trails.now }
    requires values { AreOfValues (M.monoid_of m.now) (phases_along region.now trails.now) }
    requires cells { HasValues (M.monoid_of m.now) region.now.side (C.after cells.now) }
    ensures { IsLeftAt (M.monoid_of m.now) (M.difference m.now) (phases_along region.now trails.now)
        (C.before cells.now) (C.after cells.now) r k count result }
{
    if !cells.is_changed(r, k) {
        return count;
    }
    match cells.now(r, k) {
        None => count,
        Some(x) => kept_cell(m, region, &trails[..count], r, k, x).count,
    }
}

// How many of the first so many phases each cell of a row allows.
fn kept_in_row<M: DMonoid, C: ChangedCells<M::Value>>(
    m: &M,
    region: &Region<M::Value>,
    trails: &[Trail],
    cells: &C,
    r: u32,
    side: u32,
    count: usize,
) -> usize
    requires live { All (IsLive region.now) trails.now }
    requires cells_side { C.side cells.now ≡ region.now.side }
    requires side { side ≡ region.now.side }
    requires row { r < region.now.side }
    requires count { count ≤ length trails.now }
    requires values { AreOfValues (M.monoid_of m.now) (phases_along region.now trails.now) }
    requires cells { HasValues (M.monoid_of m.now) region.now.side (C.after cells.now) }
    ensures { AreLeft (M.monoid_of m.now) (M.difference m.now) (phases_along region.now trails.now)
        side (C.before cells.now) (C.after cells.now) (λ s k. s ≡ r) count result }
{
    let mut left = count;
    for k in 0..side {
        left = kept_at(m, region, trails, cells, r, k, left);
    }
    left
}

/// How many of the phases of trails all cells of some rows allow that are changed. It takes no
/// memory.
pub(crate) fn kept_count<M: DMonoid, C: ChangedCells<M::Value>>(
    m: &M,
    region: &Region<M::Value>,
    trails: &[Trail],
    cells: &C,
    side: u32,
    from: u32,
    to: u32,
) -> usize
    requires live { All (IsLive region.now) trails.now }
    requires cells_side { C.side cells.now ≡ region.now.side }
    requires side { side ≡ region.now.side }
    requires rows { to ≤ side }
    requires values { AreOfValues (M.monoid_of m.now) (phases_along region.now trails.now) }
    requires cells { HasValues (M.monoid_of m.now) region.now.side (C.after cells.now) }
    ensures { AreLeft (M.monoid_of m.now) (M.difference m.now) (phases_along region.now trails.now)
        side (C.before cells.now) (C.after cells.now) (λ r k. (from ≤ r) × (r < to))
        (length trails.now) result }
{
    let mut left = trails.len();
    for r in from..to {
        left = kept_in_row(m, region, trails, cells, r, side, left);
    }
    left
}
