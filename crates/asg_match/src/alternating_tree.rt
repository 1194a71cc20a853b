//! Alternating trees.

ghost use Rattle.std.specs.Prelude.{◌≡◌, ◌≢◌, ℕ, ◌<◌, [], IfOk, All, AllPairs};

use crate::NoMemory;
use std::alloc::Global;
use std::marker::Model;

/// The rows that a search reached, in the order of reaching, for each column that was reached the
/// place in `rows` of the row that it was reached from, and the other columns as bits.
#[derive(Drop)]
pub struct Branches {
    /// The rows of the tree, the root first.
    pub rows: Vec<u32>,
    /// For each column that was reached the place in `rows` of the row that it was reached from.
    pub parents: Vec<u32>,
    /// Which columns weren't reached: bit `c % 64` of word `c / 64` for column `c`.
    pub unseen: Vec<u64>,
}

/// An alternating tree: rows that a root reaches by allowed cells and back by matched ones. Its
/// memory serves one search after another.
#[derive(Drop)]
pub struct Tree {
    pub(crate) branches: Branches,
}

impl Model for Tree {
    ghost use Rattle.std.specs.Prelude.{ℕ, List};
    ghost use Rattle.asg_match.specs.Tree.{Reach};

    ghost Value = { Reach };

    ghost use Rattle.std.specs.Prelude.{◌≢◌, ◌<◌, ◌≤◌, vec_len, vec_capacity, All, AllPairs};
    ghost use Rattle.asg_match.specs.Roomy.{IsRoomy};

    ghost view = { λ t. record {
      side = vec_len t.branches.parents;
      rows = t.branches.rows.items;
    } };

    ghost invariant = { λ t. IsRoomy (vec_len t.branches.parents) (vec_capacity t.branches.rows)
        (vec_len t.branches.unseen) t.branches.rows.items };
}

impl Tree {
    /// A tree for a side, with no row yet.
    pub fn make(alloc: Global, side: u32) -> Result<Tree, NoMemory>
        ensures side { IfOk result (λ t. t.side ≡ side) }
        ensures rows { IfOk result (λ t. t.rows ≡ []) }
    {
        let columns = side as usize;
        let rows = Vec::with_capacity(alloc, columns)?;
        let parents = vec![in alloc; 0; columns]?;
        let unseen = vec![in alloc; 0; columns.div_ceil(64)]?;
        Ok(Tree {
            branches: Branches {
                rows,
                parents,
                unseen,
            },
        })
    }

    /// The rows of the last tree that was grown, without repeats.
    pub fn rows(&self) -> &[u32]
        ensures rows { result.now ≡ self.now.rows }
        ensures below { All (λ r. r < self.now.side) self.now.rows }
        ensures apart { AllPairs ◌≢◌ self.now.rows }
    {
        self.branches.rows.as_slice()
    }

    // The rows, in the memory that the tree had for them.
    pub(crate) fn into_rows(self) -> Vec<u32>
        ensures { result.items ≡ self.rows }
    {
        let Tree { branches } = self;
        let Branches {
            rows,
            parents,
            unseen,
        } = branches;
        drop(parents);
        drop(unseen);
        rows
    }
}
