//! What a session is opened with.

ghost use Rattle.std.specs.Prelude.{◌≡◌, ◌≤◌, ◌+◌, true, IfOk, length, vec_len};
ghost use Rattle.asg_algebra.specs.Ended.{last_of};
ghost use Rattle.asg_model.specs.Limits.{most_cost, most_side};
ghost use Rattle.asg_model.specs.Refused.{PassesNegative};
ghost use Rattle.asg_model.specs.Shapes.{square_side};
ghost use Rattle.asg_repair.specs.Opening.{IsOpened};
ghost use Rattle.asg_kept_phases.specs.PhaseChains.{IsWayTo};

use crate::NoMemory;
use crate::works::{Work, last_trail, prune_work};
use asg_kept_phases::PhaseChain;
use asg_model::Instance;
use asg_order::{Kind, Ordered};
use asg_roots::{Root, RootGuess, instance_root};
use std::alloc::Global;

/// What a session is opened with: what it solves in, and its phases.
#[derive(Drop)]
pub(crate) struct Opened<V: Copy> {
    pub(crate) work: Work<V>,
    pub(crate) phases: PhaseChain<V>,
}

// Columns for the rows of a square, and places for the steps of a phase. The error is want of
// memory.
fn columns_and_room<V: Copy>(
    alloc: Global,
    side: u32,
    unit: V,
) -> Result<(Vec<u32>, Vec<V>), NoMemory>
    ensures columns { IfOk result (λ made. vec_len made.0 ≡ side) }
    ensures room { IfOk result (λ made. vec_len made.1 ≡ side + 1) }
{
    let columns = vec![in alloc; 0; side as usize]?;
    let room = vec![in alloc; unit; side as usize + 1]?;
    Ok((columns, room))
}

// Room for what is edited: a root has so many records of phases spare as its square has rows, and
// beside it come columns for these and places for the steps of a phase. The error is want of
// memory.
fn edit_room<V: Copy>(
    alloc: Global,
    root: &mut Root<V>,
    side: u32,
    unit: V,
) -> Result<(Vec<u32>, Vec<V>), NoMemory>
    ensures reduced { root.new.reduced ≡ root.old.reduced }
    ensures ended { root.new.ended ≡ root.old.ended }
    ensures matching { root.new.matching ≡ root.old.matching }
    ensures bench { root.new.bench ≡ root.old.bench }
    ensures region { root.new.region.trails ≡ root.old.region.trails }
    ensures region_side { root.new.region.side ≡ root.old.region.side }
    ensures spare { IfOk result (λ _. side ≤ root.new.region.spare) }
    ensures columns { IfOk result (λ made. vec_len made.0 ≡ side) }
    ensures room { IfOk result (λ made. vec_len made.1 ≡ side + 1) }
{
    root.region.reserve(side)?;
    columns_and_room(alloc, side, unit)
}

// What a solved square is opened to, with columns and places for steps.
fn opened_with<V: Copy>(alloc: Global, root: Root<V>, columns: Vec<u32>, room: Vec<V>) -> Opened<V>
    ensures reduced { result.work.reduced ≡ root.reduced }
    ensures matching { result.work.matching ≡ root.matching }
    ensures bench { result.work.bench ≡ root.bench }
    ensures columns { result.work.columns ≡ columns }
    ensures room { result.work.room ≡ room }
    ensures region { result.phases.region ≡ root.region }
    ensures last { result.phases.last ≡ last_of root.ended }
    ensures told { result.phases.is_told ≡ true
        → IsWayTo result.phases.region result.phases.last result.phases.way.items }
{
    let last = last_trail(&root.ended);
    let Root {
        reduced,
        matching,
        bench,
        region,
        ..
    } = root;
    let phases = PhaseChain::of(alloc, region, last);
    let work = Work {
        reduced,
        matching,
        bench,
        columns,
        room,
    };
    Opened { work, phases }
}

// What a solved square is opened to: room for what is edited, and its phases with so many records
// spare. The error is want of memory.
fn furnished<V: Copy>(
    alloc: Global,
    root: Root<V>,
    side: u32,
    unit: V,
) -> Result<Opened<V>, NoMemory>
    ensures reduced { IfOk result (λ opened. opened.work.reduced ≡ root.reduced) }
    ensures matching { IfOk result (λ opened. opened.work.matching ≡ root.matching) }
    ensures bench { IfOk result (λ opened. opened.work.bench ≡ root.bench) }
    ensures columns { IfOk result (λ opened. length opened.work.columns.items ≡ side) }
    ensures room { IfOk result (λ opened. length opened.work.room.items ≡ side + 1) }
    ensures region { IfOk result (λ opened. opened.phases.region.trails ≡ root.region.trails) }
    ensures region_side { IfOk result (λ opened. opened.phases.region.side ≡ root.region.side) }
    ensures spare { IfOk result (λ opened. side ≤ opened.phases.region.spare) }
    ensures last { IfOk result (λ opened. opened.phases.last ≡ last_of root.ended) }
    ensures told { IfOk result (λ opened. opened.phases.is_told ≡ true
        → IsWayTo opened.phases.region opened.phases.last opened.phases.way.items) }
{
    let mut root = root;
    let made = edit_room(alloc, &mut root, side, unit)?;
    Ok(opened_with(alloc, root, made.0, made.1))
}

/// Solves the square of an instance, and gives what a session goes on from: few phases, and of the
/// columns of the rows those whose cells are absorbed. The error is want of memory. The time grows
/// with the cube of the side at most.
pub(crate) fn solve_first<K: Kind>(
    alloc: Global,
    kind: &K,
    inst: &Instance,
) -> Result<Opened<<K::M as Ordered>::Value>, NoMemory>
where
    K::M: RootGuess,
    requires side { square_side inst.now ≤ most_side }
    requires passes { PassesNegative (K.objective kind.now) inst.now }
    requires reach { most_cost ≤ K.reach kind.now }
    ensures { let m = K.monoid kind.now in
        IfOk result (IsOpened (K.M.monoid_of m) (K.M.difference m) (K.entered kind.now) inst.now) }
{
    let _rows = inst.rows();
    let side = inst.side();
    let m = kind.monoid();
    let root = instance_root(alloc, kind, inst, side)?;
    let mut opened = furnished(alloc, root, side, m.unit())?;
    prune_work(m, &mut opened.work);
    Ok(opened)
}
