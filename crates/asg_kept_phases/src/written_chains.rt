//! The phases of trails and of chains, written.

ghost use Rattle.std.specs.Prelude.{◌≡◌, ◌<◌, ◌^◌, All, length, map, IfOk, IfSome};
ghost use Rattle.asg_order.specs.Monoid.{IsValue};
ghost use Rattle.asg_pool.specs.Forest.{IsLive, phases_of, phases_to, last_phase};
ghost use Rattle.asg_proof.specs.Phases.{ArePhases, IsPhase, worded};
ghost use Rattle.asg_proof.specs.PromisedProofs.{IsPhaseOver};
ghost use Rattle.asg_kept_phases.specs.PhaseChains.{phases_in, IsPhaseChain, IsWayTo};
ghost use Rattle.asg_admit.specs.PhaseValues.{AreOfValues};
ghost use Rattle.asg_kept_phases.specs.PhasesAlong.{phases_along};

use crate::NoMemory;
use crate::phase_chains::{PhaseChain, make_room, tell_way};
use asg_order::Written;
use asg_pool::{Region, Trail};
use asg_proof::{Phase, Phases, WrittenPhase, into_words};
use std::alloc::Global;

/// The last phase of a trail, with each step as its word. The error is want of memory.
pub fn written_phase<M: Written>(
    alloc: Global,
    m: &M,
    region: &Region<M::Value>,
    trail: Trail,
) -> Result<WrittenPhase, NoMemory>
    requires live { IsLive region.now trail }
    requires values { All (IsValue (M.monoid_of m.now))
        (last_phase (phases_of region.now trail)).steps }
    ensures words { IfOk result (λ written. written
        ≡ worded (M.word_of m.now) (last_phase (phases_of region.now trail))) }
    ensures phase { IfOk result IsPhase }
{
    let steps = Vec::from_slice(alloc, region.steps(trail))?;
    let enters = Vec::from_slice(alloc, region.enters(trail))?;
    let leaves = Vec::from_slice(alloc, region.leaves(trail))?;
    into_words(alloc, m, Phase::of(steps, enters, leaves))
}

// The last phases of trails in order, with each step as its word. The error is want of memory.
fn written_trails<M: Written>(
    alloc: Global,
    m: &M,
    region: &Region<M::Value>,
    trails: &[Trail],
) -> Result<Vec<WrittenPhase>, NoMemory>
    requires live { All (IsLive region.now) trails.now }
    requires values { AreOfValues (M.monoid_of m.now) (phases_along region.now trails.now) }
    ensures words { IfOk result (λ words. words.items
        ≡ map (worded (M.word_of m.now)) (phases_along region.now trails.now)) }
    ensures phases { IfOk result (λ words. ArePhases words.items) }
{
    let mut words = Vec::with_capacity(alloc, trails.len())?;
    for i in 0..trails.len() {
        let phase = written_phase(alloc, m, region, trails[i])?;
        words.push(phase)?;
    }
    Ok(words)
}

// How many phases lead to a trail.
fn phase_count<V: Copy>(region: &Region<V>, last: Option<Trail>) -> u32
    requires { IfSome last (IsLive region.now) }
    ensures { result ≡ length (phases_to region.now last) }
{
    match last {
        Some(trail) => region.len(trail),
        None => 0,
    }
}

// The trails on the way to a trail that so many phases lead to. The error is want of memory.
fn way_to<V: Copy>(
    alloc: Global,
    region: &Region<V>,
    last: &Option<Trail>,
    count: u32,
) -> Result<Vec<Trail>, NoMemory>
    requires live { IfSome last.now (IsLive region.now) }
    requires count { count ≡ length (phases_to region.now last.now) }
    ensures { IfOk result (λ way. IsWayTo region.now last.now way.items) }
{
    let mut way = Vec::new(alloc);
    make_room(&mut way, count)?;
    tell_way(region, *last, &mut way);
    Ok(way)
}

/// The phases of a trail in order, with each step as its word; none where there is no trail. They
/// can be counted in 32 bits. The error is want of memory.
pub fn written_trail<M: Written>(
    alloc: Global,
    m: &M,
    region: &Region<M::Value>,
    last: Option<Trail>,
) -> Result<Phases, NoMemory>
    requires live { IfSome last (IsLive region.now) }
    requires values { AreOfValues (M.monoid_of m.now) (phases_to region.now last) }
    ensures words { IfOk result (λ phases. phases
        ≡ map (worded (M.word_of m.now)) (phases_to region.now last)) }
    ensures over { IfOk result (All (IsPhaseOver region.now.side)) }
    ensures fits { IfOk result (λ phases. length phases < 2 ^ 32) }
{
    let _spare = region.spare();
    let count = phase_count(region, last);
    let way = way_to(alloc, region, &last, count)?;
    let words = written_trails(alloc, m, region, way.as_slice())?;
    let phases = Phases::from_vec(words)?;
    Ok(phases)
}

/// The phases of a chain in order, with each step as its word. The error is want of memory.
pub fn written_chain<M: Written>(
    alloc: Global,
    m: &M,
    chain: &PhaseChain<M::Value>,
) -> Result<Phases, NoMemory>
    requires chain { IsPhaseChain chain.now }
    requires values { AreOfValues (M.monoid_of m.now) (phases_in chain.now) }
    ensures words { IfOk result (λ phases. phases
        ≡ map (worded (M.word_of m.now)) (phases_in chain.now)) }
    ensures over { IfOk result (All (IsPhaseOver chain.now.region.side)) }
{
    written_trail(alloc, m, &chain.region, chain.last)
}
