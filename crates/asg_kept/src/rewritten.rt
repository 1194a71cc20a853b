//! Reduced squares whose cells each phase rewrites.

use crate::kept_squares::{KeptSquare, RowSquare};
use asg_admit::Reduced;
use asg_order::DMonoid;
use asg_settling::replay_within;
use asg_square::Square;

impl<M: DMonoid> RowSquare<M> for Reduced<M::Value> {
    ghost as_reduced = { λ reduced. reduced };

    fn side(&self) -> u32 {
        self.now.side()
    }

    fn index(&self) -> M::Value {
        self.index
    }

    #[inline]
    fn row_word(&self, row: u32, number: u32) -> u64 {
        self.now.row_words(row)[number as usize]
    }

    #[inline]
    fn value(&self, row: u32, column: u32) -> M::Value {
        self.now.row_values(row)[column as usize]
    }
}

impl<M: DMonoid> KeptSquare<M> for Reduced<M::Value> {
    fn settle(
        &mut self,
        m: &M,
        steps: &[M::Value],
        enters: &[u32],
        leaves: &[u32],
        room: &mut [M::Value],
    ) {
        asg_settling::settle(m, self, steps, enters, leaves, room);
    }

    fn replay(
        &mut self,
        m: &M,
        steps: &[M::Value],
        enters: &[u32],
        leaves: &[u32],
        room: &mut [M::Value],
    ) -> bool {
        replay_within(m, self, steps, enters, leaves, room)
    }

    fn into_reduced(self) -> Reduced<M::Value> {
        self
    }

    fn into_square(self) -> Square<M::Value> {
        self.now
    }
}
