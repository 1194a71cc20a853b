//! Sets of nodes.

ghost use Rattle.std.specs.Prelude.{◌≡◌, ◌==◌, ◌≤◌, ◌+◌, ℕ, if◌then◌else◌, true, false, not, filter, IfOk, OnOk, IfErr};
ghost use Rattle.std.specs.List.{range_with_len};
ghost use Rattle.asg_model.specs.Limits.{most_rows, most_columns};
ghost use Rattle.asg_networks.specs.NodeSets.{has};

use asg_model::limits::{MOST_COLUMNS, MOST_ROWS};
use asg_tokens::TextRefusal;
use std::alloc::{AllocError, Global};
use std::collections::BTreeSet;

/// A set of ids: for those up to 2,000, the most nodes that an instance has, a table tells which
/// are in it, and a tree has those above.
#[derive(Drop)]
pub(crate) struct NodeSet {
    low: Vec<bool>,
    high: BTreeSet<u32>,
}

impl NodeSet {
    /// No ids.
    pub(crate) fn new(alloc: Global) -> Result<NodeSet, AllocError>
        ensures { IfOk result (λ set. (id : ℕ) → has set id ≡ false) }
    {
        Ok(NodeSet {
            low: vec![in alloc; false; MOST_ROWS + MOST_COLUMNS + 1]?,
            high: BTreeSet::new(alloc),
        })
    }

    /// Whether the id is in the set.
    #[inline]
    pub(crate) fn has(&self, id: u32) -> bool
        ensures { result ≡ has self.now id }
    {
        match self.low.get(id as usize) {
            Some(is_in) => *is_in,
            None => self.high.contains(&id),
        }
    }

    /// Puts an id into the set.
    #[inline]
    pub(crate) fn insert(&mut self, id: u32) -> Result<(), TextRefusal>
        ensures put { OnOk result ((other : ℕ) → has self.new other
            ≡ (if id == other then true else has self.old other)) }
        ensures refused { IfErr result (λ refusal. refusal ≡ TextRefusal.NoMemory) }
    {
        if (id as usize) < self.low.len() {
            self.low[id as usize] = true;
        } else {
            self.high.insert(id)?;
        }
        Ok(())
    }

    /// The ids from 1 up to a number that aren't in the set, ascending.
    pub(crate) fn others(&self, alloc: Global, last: u32) -> Result<Vec<u32>, AllocError>
        requires { last ≤ most_rows + most_columns }
        ensures { IfOk result (λ ids.
            ids.items ≡ filter (λ id. not (has self.now id)) (range_with_len 1 last)) }
    {
        (1..last + 1).filter(|id| !self.has(*id)).collect(alloc)
    }
}
