//! Hall sets, for which memory is taken once.

ghost use Rattle.std.specs.Prelude.{◌≡◌, ◌+◌, ◌*◌, ◌<◌, ◌≤◌, ◌^◌, ◌++◌, ◌∷◌, [], length, IfOk};
ghost use Rattle.asg_nodes.specs.HallPools.{HallSets, hall_at};

use crate::NoMemory;
use std::alloc::Global;
use std::marker::Model;

/// Lists of ids, one behind another: where each begins and how long it is.
#[derive(Drop)]
pub struct HallPool {
    most: u32,
    width: u32,
    ids: Vec<u32>,
    spans: Vec<(u32, u32)>,
}

impl Model for HallPool {
    ghost use Rattle.std.specs.Prelude.{vec_capacity};
    ghost use Rattle.asg_nodes.specs.HallPools.{HallSets, pieces, IsPool};

    ghost Value = { HallSets };

    ghost view = { λ p. record {
      most = p.most;
      width = p.width;
      sets = pieces p.ids.items p.spans.items;
    } };

    ghost invariant = { λ p. IsPool p.most p.width p.ids.items p.spans.items
        (vec_capacity p.ids) (vec_capacity p.spans) };
}

impl HallPool {
    /// Memory for so many lists of so many ids at most. The error is want of memory.
    pub fn make(alloc: Global, most: u32, width: u32) -> Result<HallPool, NoMemory>
        requires { most * width < 2 ^ 32 }
        ensures { IfOk result (λ p. p ≡ record { most = most; width = width; sets = [] }) }
    {
        let ids = Vec::with_capacity(alloc, (most * width) as usize)?;
        let spans = Vec::with_capacity(alloc, most as usize)?;
        Ok(HallPool {
            most,
            width,
            ids,
            spans,
        })
    }

    /// Puts a list behind the others, and gives its place. It takes no memory.
    pub fn push(&mut self, ids: &[u32]) -> u32
        requires room { length self.old.sets < self.old.most }
        requires width { length ids.now ≤ self.old.width }
        ensures place { result ≡ length self.old.sets }
        ensures sets { self.new ≡ record self.old { sets = self.old.sets ++ ids.now ∷ [] } }
    {
        let place = self.spans.len() as u32;
        let span = (self.ids.len() as u32, ids.len() as u32);
        let _ = self.ids.extend_from_slice(ids);
        self.spans.push_reserved(span);
        place
    }

    /// The list at a place.
    pub fn get(&self, place: u32) -> &[u32]
        requires { place < length self.now.sets }
        ensures { result.now ≡ hall_at self.now place }
    {
        let (first, count) = self.spans[place as usize];
        &self.ids[first as usize..first as usize + count as usize]
    }
}
