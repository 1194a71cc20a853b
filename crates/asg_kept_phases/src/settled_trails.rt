//! The phases of trails, applied one after the other.

ghost use Rattle.std.specs.Prelude.{◌≡◌, ◌<◌, All, length};
ghost use Rattle.asg_admit.specs.Reduced.{IsReduced, IsPhaseTo};
ghost use Rattle.asg_pool.specs.Forest.{IsLive, phases_of, last_phase};
ghost use Rattle.asg_proof.specs.Phases.{AreAdmittedPhases, IsAdmittedPhase};
ghost use Rattle.asg_kept_phases.specs.Leads.{LeadsTo};
ghost use Rattle.asg_kept_phases.specs.PhasesAlong.{phases_along};
ghost use Rattle.asg_square.specs.Grid.{cell_at};

use asg_admit::Reduced;
use asg_order::DMonoid;
use asg_pool::{Region, Trail};
use asg_settling::settle;

/// Applies the phases of trails, which are admitted in turn, to a reduced square. `room` has more
/// places than the side. It takes no memory.
pub fn settle_trails<M: DMonoid>(
    m: &M,
    reduced: &mut Reduced<M::Value>,
    region: &Region<M::Value>,
    trails: &[Trail],
    room: &mut [M::Value],
)
    requires reduced { IsReduced (M.monoid_of m.now) reduced.old }
    requires live { All (IsLive region.now) trails.now }
    requires side { region.now.side ≡ reduced.old.now.side }
    requires admitted { AreAdmittedPhases (M.monoid_of m.now) (M.difference m.now)
        reduced.old.now.side (phases_along region.now trails.now) (cell_at reduced.old.now) }
    requires room { reduced.old.now.side < length room.old }
    ensures leads { LeadsTo (M.monoid_of m.now) (M.difference m.now)
        (phases_along region.now trails.now) reduced.old reduced.new }
    ensures room { length room.new ≡ length room.old }
{
    let _ = m.unit();
    for i in 0..trails.len() {
        settle_trail(m, reduced, region, trails[i], room);
    }
}

// Applies the last phase of a trail, which is admitted.
fn settle_trail<M: DMonoid>(
    m: &M,
    reduced: &mut Reduced<M::Value>,
    region: &Region<M::Value>,
    trail: Trail,
    room: &mut [M::Value],
)
    requires reduced { IsReduced (M.monoid_of m.now) reduced.old }
    requires live { IsLive region.now trail }
    requires side { region.now.side ≡ reduced.old.now.side }
    requires admitted { IsAdmittedPhase (M.monoid_of m.now) (M.difference m.now)
        reduced.old.now.side (last_phase (phases_of region.now trail)) (cell_at reduced.old.now) }
    requires room { reduced.old.now.side < length room.old }
    ensures phase { IsPhaseTo (M.monoid_of m.now) (M.difference m.now)
        (last_phase (phases_of region.now trail)) reduced.old reduced.new }
    ensures room { length room.new ≡ length room.old }
{
    let steps = region.steps(trail);
    let enters = region.enters(trail);
    settle(m, reduced, steps, enters, region.leaves(trail), room);
}
