//! Trails that are released from the last one on.

ghost use Rattle.std.specs.Prelude.{◌≡◌, ◌≤◌, ◌+◌, ◌<◌, ◌-◌, Some, length, take};
ghost use Rattle.asg_pool.specs.Forest.{phases_to};
ghost use Rattle.asg_kept_phases.specs.Chains.{IsChain};

use asg_pool::{Region, Trail};

// How many phases lead to a trail.
fn count_to<V: Copy>(region: &Region<V>, last: Option<Trail>) -> u32
    requires { IsChain region.now last }
    ensures { result ≡ length (phases_to region.now last) }
{
    match last {
        Some(trail) => region.len(trail),
        None => 0,
    }
}

// Releases the last trail of a chain; the one that it grew on is then the last.
fn release_last<V: Copy>(region: &mut Region<V>, last: Option<Trail>) -> Option<Trail>
    requires chain { IsChain region.old last }
    requires some { 0 < length (phases_to region.old last) }
    ensures chain { IsChain region.new result }
    ensures phases { phases_to region.new result
        ≡ take (length (phases_to region.old last) - 1) (phases_to region.old last) }
    ensures spare { region.new.spare ≡ region.old.spare + 1 }
    ensures side { region.new.side ≡ region.old.side }
{
    match last {
        Some(trail) => {
            let parent = region.parent(trail);
            region.release(trail);
            parent
        }
        None => unreachable!(),
    }
}

/// Releases the trails of a chain from the last one on, so that so many phases are left; the last
/// trail that is left. It takes no memory.
pub(crate) fn release_to<V: Copy>(
    region: &mut Region<V>,
    last: Option<Trail>,
    count: u32,
) -> Option<Trail>
    requires chain { IsChain region.old last }
    requires few { count ≤ length (phases_to region.old last) }
    ensures chain { IsChain region.new result }
    ensures phases { phases_to region.new result ≡ take count (phases_to region.old last) }
    ensures spare { region.old.spare ≤ region.new.spare }
    ensures side { region.new.side ≡ region.old.side }
{
    let mut left = last;
    for _ in count..count_to(region, last) {
        left = release_last(region, left);
    }
    left
}
