//! Trees of shortest paths over the classes of a table.

use asg_dual_numbers::{Lists, Number, fill, padded, set};

/// A tree of shortest paths.
#[derive(Drop)]
pub struct Tree<N: Number> {
    /// Of each class the shortest distance so far.
    pub keys: Vec<N>,
    // The same with its dual variable.
    limits: Vec<N>,
    // Of each sixteen of classes the least distance, less one.
    blocks: Vec<N>,
    /// Of each class the row that it is reached from.
    pub came: Vec<u32>,
    /// The classes that are done in order.
    pub done: Vec<u32>,
    // The distance of each class that is.
    pub(crate) reached: Vec<N>,
}

impl<N: Number> Tree<N> {
    // A tree over so many places of a row.
    pub(crate) fn make(lists: &mut Lists, wide: usize) -> Tree<N> {
        Tree {
            keys: lists.of(N::zero(), wide),
            limits: lists.of(N::zero(), wide),
            blocks: lists.of(N::greatest(), padded(wide / 16)),
            came: lists.of(0, wide),
            done: lists.of(0, wide),
            reached: lists.of(N::zero(), wide),
        }
    }

    /// Takes all classes out.
    pub fn clear(&mut self) {
        fill(self.blocks.as_mut_slice(), N::greatest());
    }

    /// Takes a class out.
    pub fn close(&mut self, class: usize) {
        set(self.keys.as_mut_slice(), class, N::done());
        set(self.limits.as_mut_slice(), class, N::done());
        let block = N::block(self.keys.as_slice(), class / 16);
        set(self.blocks.as_mut_slice(), class / 16, block);
    }

    /// Begins with what a row of these numbers reaches among the first places; those behind the
    /// first classes count as done.
    pub fn open(&mut self, numbers: &[N], duals: &[N], side: usize, wide: usize, root: u32) {
        N::open(
            numbers,
            duals,
            self.keys.as_mut_slice(),
            self.limits.as_mut_slice(),
            self.blocks.as_mut_slice(),
            self.came.as_mut_slice(),
            wide,
            root,
        );
        for class in side..wide {
            self.close(class);
        }
    }

    /// Goes on to what a row of these numbers, with so much less, reaches among the first places.
    pub fn relax(&mut self, numbers: &[N], duals: &[N], wide: usize, base: N, row: u32) {
        N::relax(
            numbers,
            duals,
            self.keys.as_mut_slice(),
            self.limits.as_mut_slice(),
            self.blocks.as_mut_slice(),
            self.came.as_mut_slice(),
            wide,
            base,
            row,
        );
    }

    /// The distance of the nearest classes.
    pub fn distance(&self) -> N {
        N::least(self.blocks.as_slice()).plus(N::of(1))
    }

    /// The first of these that is free, else the first one, from near a place on.
    pub fn nearest(&self, free: &[u64], distance: N, from: usize) -> usize {
        let keys = self.keys.as_slice();
        N::find(keys, self.blocks.as_slice(), free, distance, from)
    }
}
