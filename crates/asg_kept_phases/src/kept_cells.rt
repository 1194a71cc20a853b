//! How far one cell allows phases.

ghost use Rattle.std.specs.Prelude.{◌≡◌, ◌<◌, All, Some, IfSome, IsSome, IsNone, slice_index};
ghost use Rattle.asg_admit.specs.Settled.{AllowsSteps, RefusesStep, settled};
ghost use Rattle.asg_order.specs.Monoid.{IsValue};
ghost use Rattle.asg_pool.specs.Forest.{IsLive, phases_of, last_phase};
ghost use Rattle.asg_admit.specs.PhaseValues.{AreOfValues};
ghost use Rattle.asg_kept_phases.specs.PhasesAlong.{phases_along, IsKeptCell};

use asg_admit::replay_cell;
use asg_order::DMonoid;
use asg_pool::{Region, Trail};

/// How many phases a cell allows, and what it is after them.
#[derive(Clone, Copy)]
pub(crate) struct Kept<V: Copy> {
    pub(crate) count: usize,
    pub(crate) cell: Option<V>,
}

// What the last phase of a trail makes of the value of the cell at a place; none where it doesn't
// allow it.
fn through<M: DMonoid>(
    m: &M,
    region: &Region<M::Value>,
    trail: Trail,
    r: u32,
    k: u32,
    x: M::Value,
) -> Option<M::Value>
    requires live { IsLive region.now trail }
    requires row { r < region.now.side }
    requires column { k < region.now.side }
    requires value { IsValue (M.monoid_of m.now) x }
    requires values { All (IsValue (M.monoid_of m.now))
        (last_phase (phases_of region.now trail)).steps }
    ensures settled { let phase = last_phase (phases_of region.now trail) in
        IfSome result (λ y. y ≡ settled (M.monoid_of m.now) (M.difference m.now) phase.steps
        (slice_index phase.enters r) (slice_index phase.leaves k) x) }
    ensures is_value { IfSome result (IsValue (M.monoid_of m.now)) }
    ensures allowed { let phase = last_phase (phases_of region.now trail) in
        IsSome result → AllowsSteps (M.monoid_of m.now) (M.difference m.now) phase.steps
        (slice_index phase.enters r) (slice_index phase.leaves k) x }
    ensures refused { let phase = last_phase (phases_of region.now trail) in
        IsNone result → RefusesStep (M.monoid_of m.now) (M.difference m.now) phase.steps
        (slice_index phase.enters r) (slice_index phase.leaves k) x }
{
    let enter = region.enters(trail)[r as usize];
    let leave = region.leaves(trail)[k as usize];
    replay_cell(m, x, region.steps(trail), enter, leave)
}

/// How many of the phases of trails the cell at a place allows, one after the other, and what it is
/// after them. It takes no memory; the time is that of the steps during which its row has entered
/// and its column hasn't left.
pub(crate) fn kept_cell<M: DMonoid>(
    m: &M,
    region: &Region<M::Value>,
    trails: &[Trail],
    r: u32,
    k: u32,
    x: M::Value,
) -> Kept<M::Value>
    requires live { All (IsLive region.now) trails.now }
    requires row { r < region.now.side }
    requires column { k < region.now.side }
    requires value { IsValue (M.monoid_of m.now) x }
    requires values { AreOfValues (M.monoid_of m.now) (phases_along region.now trails.now) }
    ensures { IsKeptCell (M.monoid_of m.now) (M.difference m.now)
        (phases_along region.now trails.now) r k (Some x) result }
{
    let mut now = x;
    for i in 0..trails.len() {
        match through(m, region, trails[i], r, k, now) {
            Some(y) => now = y,
            None => return Kept {
                count: i,
                cell: Some(now),
            },
        }
    }
    Kept {
        count: trails.len(),
        cell: Some(now),
    }
}
