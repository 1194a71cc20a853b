//! Children that were grown, by what they differ from the parts that they are of.

ghost use Rattle.std.specs.Prelude.{◌≡◌, length};

use crate::settled::{Amounts, Settled};
use asg_dual_numbers::{Lists, at, name, put};
use asg_rank_search::{Child, FLOOR, Move};
use std::alloc::Global;

/// A child by a row of the part of an answer.
#[derive(Clone, Copy)]
pub(crate) struct Seed {
    /// What the sum of its best answer is, or what its answers have at least.
    pub(crate) bound: u64,
    // By how much that is above the sum of the answer.
    by: u64,
    /// The place of the answer.
    pub(crate) parent: u32,
    /// The row.
    pub(crate) row: u32,
    // Where what was reached, and the rows with other columns, begin in the lists.
    reached: u32,
    moved: u32,
}

/// The children that were grown, in turn.
///
/// Of each there is only what a search went through, and the rows that have other columns: a small
/// part of its amounts and its columns.
#[derive(Drop)]
pub(crate) struct Kept {
    seeds: Vec<Seed>,
    places: Vec<u32>,
    distances: Vec<u64>,
    moves: Vec<Move>,
}

impl Kept {
    /// Nothing yet.
    pub(crate) fn make(alloc: Global) -> Kept {
        Kept {
            seeds: Vec::new(alloc),
            places: Vec::new(alloc),
            distances: Vec::new(alloc),
            moves: Vec::new(alloc),
        }
    }

    /// Leaves nothing.
    pub(crate) fn clear(&mut self) {
        self.seeds.clear();
        self.places.clear();
        self.distances.clear();
        self.moves.clear();
    }

    /// How many there are.
    pub(crate) fn count(&self) -> usize {
        self.seeds.len()
    }

    /// The child at a place.
    pub(crate) fn get(&self, child: usize) -> Option<Seed> {
        self.seeds.get(child).copied()
    }

    /// Keeps a child that was grown from the answer at a place by a row.
    pub(crate) fn push(
        &mut self,
        lists: &mut Lists,
        child: &Child,
        sum: u64,
        parent: usize,
        row: usize,
    ) {
        let seed = Seed {
            bound: sum.saturating_add(child.by),
            by: child.by,
            parent: name(parent),
            row: name(row),
            reached: name(self.places.len()),
            moved: name(self.moves.len()),
        };
        lists.push(&mut self.seeds, seed);
        lists.append(&mut self.places, child.places.as_slice());
        lists.append(&mut self.distances, child.distances.as_slice());
        lists.append(&mut self.moves, child.moves.as_slice());
    }

    // Where what was reached from a child on ends in the lists.
    fn reached_end(&self, child: usize) -> usize {
        match self.seeds.get(child.saturating_add(1)) {
            Some(next) => next.reached as usize,
            None => self.places.len(),
        }
    }

    // Where the rows with other columns of a child end in the lists.
    fn moved_end(&self, child: usize) -> usize {
        match self.seeds.get(child.saturating_add(1)) {
            Some(next) => next.moved as usize,
            None => self.moves.len(),
        }
    }

    // Lets what was reached for a child rise and fall, where its row falls by so much more.
    fn raise(&self, child: usize, seed: Seed, columns: &[u32], to: u64, amounts: &mut Amounts) {
        let end = self.reached_end(child).min(self.places.len());
        for place in seed.reached as usize..end.min(self.distances.len()) {
            let more = to.saturating_sub(self.distances[place]);
            if more > 0 {
                raise_at(amounts, columns, self.places[place], more);
            }
        }
    }

    /// Writes the amounts of a child of the part of this answer, up to where its bound comes to the
    /// least.
    pub(crate) fn write(
        &self,
        child: usize,
        before: &Settled,
        least: u64,
        amounts: &mut Amounts,
    ) -> bool {
        let Some(seed) = self.get(child) else {
            return false;
        };
        let to = seed.by.saturating_sub(seed.bound.saturating_sub(least));
        let columns = before.columns();
        amounts.copy(before.amounts());
        amounts.fix(columns, before.row(), seed.row as usize);
        amounts.fall(seed.row as usize, to);
        self.raise(child, seed, columns, to, amounts);
        true
    }

    /// Gives the rows of a child the columns that they have in its best answer, where these are
    /// those of the answer that it comes from.
    pub(crate) fn shift(&self, child: usize, columns: &mut [u32])
        ensures { length columns.new ≡ length columns.old }
    {
        let Some(seed) = self.get(child) else {
            return;
        };
        let end = self.moved_end(child).min(self.moves.len());
        for place in seed.moved as usize..end {
            let step = self.moves[place];
            put(columns, step.row as usize, step.column);
        }
    }
}

// Lets a row fall further, and its column rise; or a column that no row has, or the floor.
fn raise_at(amounts: &mut Amounts, columns: &[u32], place: u32, more: u64) {
    if (place as usize) < columns.len() {
        amounts.fall(place as usize, more);
        amounts.rise(at(columns, place as usize) as usize, more);
    } else if place == FLOOR {
        amounts.lift(more);
    } else {
        amounts.rise(place as usize - columns.len(), more);
    }
}
