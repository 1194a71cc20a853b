//! The memory of a search tree.

ghost use Rattle.std.specs.Prelude.{◌≡◌, ◌+◌, ◌*◌, ◌^◌, ◌<◌, ◌≤◌, [], IfOk, length, vec_capacity};
ghost use Rattle.asg_model.specs.Counts.{placed};
ghost use Rattle.asg_model.specs.Instances.{IsInstance};
ghost use Rattle.asg_rank.specs.Rankings.{ranking_work};
ghost use Rattle.asg_rank.specs.Rooms.{most_work};

use crate::NoMemory;
use asg_model::Instance;
use asg_nodes::{Entry, HallPool};
use std::alloc::Global;

// The memory for so many nodes and for as many Hall sets of so many ids at most.
fn node_memory<V: Copy>(
    alloc: Global,
    nodes: u32,
    rows: u32,
) -> Result<(Vec<Entry<V>>, HallPool), NoMemory>
    requires { nodes * rows < 2 ^ 32 }
    ensures none { IfOk result (λ memory. memory.0.items ≡ []) }
    ensures fit { IfOk result (λ memory. nodes ≤ vec_capacity memory.0) }
    ensures halls { IfOk result (λ memory. memory.1
        ≡ record { most = nodes; width = rows; sets = [] }) }
{
    let entries = Vec::with_capacity(alloc, nodes as usize)?;
    let halls = HallPool::make(alloc, nodes, rows)?;
    Ok((entries, halls))
}

// How many the root and the children of so many answers are.
fn most_nodes(inst: &Instance, room: u32) -> u32
    requires work { ranking_work inst.now room ≤ most_work }
    ensures nodes { result ≡ room * placed inst.now + 1 }
    ensures instance { IsInstance inst.now }
{
    let _rows = inst.rows();
    room * inst.placed() + 1
}

// How many rows an instance has.
fn row_count(inst: &Instance) -> u32
    ensures { result ≡ length inst.now.rows }
{
    inst.rows().len() as u32
}

/// The memory of a tree without a node yet: for the children of so many answers and their Hall
/// sets. The error is want of memory.
pub(crate) fn tree_memory<V: Copy>(
    alloc: Global,
    inst: &Instance,
    room: u32,
) -> Result<(Vec<Entry<V>>, HallPool), NoMemory>
    requires work { ranking_work inst.now room ≤ most_work }
    ensures small { room * placed inst.now + 1 < 2 ^ 32 }
    ensures none { IfOk result (λ memory. memory.0.items ≡ []) }
    ensures fit { IfOk result (λ memory.
        room * placed inst.now + 1 ≤ vec_capacity memory.0) }
    ensures halls { IfOk result (λ memory. memory.1
        ≡ record { most = room * placed inst.now + 1; width = length inst.now.rows; sets = [] }) }
{
    let nodes = most_nodes(inst, room);
    let rows = row_count(inst);
    node_memory(alloc, nodes, rows)
}
