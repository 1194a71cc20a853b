//! The memory of a solver.

ghost use Rattle.std.specs.Prelude.{◌≡◌, ◌≢◌, ◌+◌, ◌<◌, ◌≤◌, ◌^◌, []};
ghost use Rattle.std.specs.Prelude.{IfOk, All, AllPairs, vec_len, vec_capacity};
ghost use Rattle.asg_match.specs.ColumnSet.{word_count};

use crate::NoMemory;
use asg_growth::Growth;
use asg_match::Branches;
use std::alloc::Global;
use std::marker::Model;

/// The memory of a solver for squares of a side, with the rows of the last tree that couldn't grow.
#[derive(Drop)]
pub struct Bench<V: Copy> {
    pub(crate) growth: Growth<V>,
}

impl<V: Copy> Model for Bench<V> {
    ghost use Rattle.std.specs.Prelude.{vec_len};
    ghost use Rattle.asg_match.specs.Tree.{Reach};
    ghost use Rattle.asg_algebra.specs.Benches.{IsBench};

    ghost Value = { Reach };

    ghost view = { λ b. record {
      side = vec_len b.growth.enters;
      rows = b.growth.tree.rows.items;
    } };

    ghost invariant = { λ b. IsBench (vec_len b.growth.enters) b.growth };
}

// A tree without rows, with the memory for so many columns.
fn tree_for(alloc: Global, columns: usize) -> Result<Branches, NoMemory>
    requires { columns < 2 ^ 32 }
    ensures rows { IfOk result (λ t. t.rows.items ≡ []) }
    ensures rows_room { IfOk result (λ t. columns ≤ vec_capacity t.rows) }
    ensures parents { IfOk result (λ t. vec_len t.parents ≡ columns) }
    ensures unseen { IfOk result (λ t. vec_len t.unseen ≡ word_count columns) }
{
    Ok(Branches {
        rows: Vec::with_capacity(alloc, columns)?,
        parents: vec![in alloc; 0; columns]?,
        unseen: vec![in alloc; 0; columns.div_ceil(64)]?,
    })
}

// Room for the keys of so many columns, with which columns have one and the nearest column of each
// word.
fn keys_for<V: Copy>(
    alloc: Global,
    columns: usize,
) -> Result<(Vec<V>, Vec<u64>, Vec<Option<u32>>), NoMemory>
    requires { columns < 2 ^ 32 }
    ensures keys { IfOk result (λ r. columns ≤ vec_capacity r.0) }
    ensures keyed { IfOk result (λ r. vec_len r.1 ≡ word_count columns) }
    ensures nearest { IfOk result (λ r. vec_len r.2 ≡ word_count columns) }
{
    let keys = Vec::with_capacity(alloc, columns)?;
    let keyed = vec![in alloc; 0; columns.div_ceil(64)]?;
    let nearest = vec![in alloc; None; columns.div_ceil(64)]?;
    Ok((keys, keyed, nearest))
}

// Room for the phase of so many columns: the steps at which rows enter and columns leave, its
// steps, and one place more than these.
fn phase_for<V: Copy>(
    alloc: Global,
    columns: usize,
) -> Result<(Vec<u32>, Vec<u32>, Vec<V>, Vec<V>), NoMemory>
    requires { columns < 2 ^ 32 }
    ensures enters { IfOk result (λ r. vec_len r.0 ≡ columns) }
    ensures leaves { IfOk result (λ r. vec_len r.1 ≡ columns) }
    ensures steps { IfOk result (λ r. columns ≤ vec_capacity r.2) }
    ensures room { IfOk result (λ r. columns + 1 ≤ vec_capacity r.3) }
{
    let enters = vec![in alloc; 0; columns]?;
    let leaves = vec![in alloc; 0; columns]?;
    let steps = Vec::with_capacity(alloc, columns)?;
    let room = Vec::with_capacity(alloc, columns + 1)?;
    Ok((enters, leaves, steps, room))
}

impl<V: Copy> Bench<V> {
    /// A bench for a side, with no rows yet. The error is want of memory.
    pub fn make(alloc: Global, side: u32) -> Result<Bench<V>, NoMemory>
        ensures side { IfOk result (λ b. b.side ≡ side) }
        ensures rows { IfOk result (λ b. b.rows ≡ []) }
    {
        let columns = side as usize;
        let tree = tree_for(alloc, columns)?;
        let sums = Vec::with_capacity(alloc, columns)?;
        let keys = keys_for(alloc, columns)?;
        let (enters, leaves, steps, room) = phase_for(alloc, columns)?;
        let (keys, keyed, nearest) = keys;
        Ok(Bench {
            growth: Growth {
                tree,
                sums,
                keys,
                keyed,
                nearest,
                enters,
                leaves,
                steps,
                room,
            },
        })
    }

    /// The rows of the last tree that was grown, without repeats and all below the side: after a
    /// search that ended short, rows with fewer columns than they are.
    pub fn violator(&self) -> &[u32]
        ensures rows { result.now ≡ self.now.rows }
        ensures below { All (λ r. r < self.now.side) self.now.rows }
        ensures apart { AllPairs ◌≢◌ self.now.rows }
    {
        self.growth.tree.rows.as_slice()
    }
}
