//! Squares of sums that are kept by dual variables, and written out where sums come near the top.
//!
//! The impls are two, for sums in 128 and in 64 bits: a trait's reduced square has the values of the
//! monoid, and contracts see a [`DualSquare`] as one of numbers, which are its values for each of
//! the two alone.

use crate::dual_cells::write_out;
use crate::dual_squares::DualSquare;
use crate::kept_squares::{KeptSquare, RowSquare};
use asg_admit::Reduced;
use asg_monoids::{Bounded, NarrowSums};
use asg_phase_totals::{NARROW_TOP, SumNumber};
use asg_settling::replay_within;
use asg_square::Square;

impl RowSquare<Bounded> for DualSquare<u128> {
    ghost as_reduced = { λ dual. dual };

    fn side(&self) -> u32 {
        DualSquare::side(self)
    }

    fn index(&self) -> u128 {
        DualSquare::index(self)
    }

    #[inline]
    fn row_word(&self, row: u32, number: u32) -> u64 {
        self.row_words(row)[number as usize]
    }

    #[inline]
    fn value(&self, row: u32, column: u32) -> u128 {
        self.row(row).value(column)
    }
}

impl KeptSquare<Bounded> for DualSquare<u128> {
    fn settle(
        &mut self,
        m: &Bounded,
        steps: &[u128],
        enters: &[u32],
        leaves: &[u32],
        room: &mut [u128],
    ) {
        if self.takes(m.top, steps) {
            self.raise_duals(m.top, steps, enters, leaves, room);
            return;
        }
        write_out(
            &mut self.kept.now,
            &mut self.rows,
            &mut self.columns,
            self.is_written,
        );
        self.kept.now.side();
        self.greatest = u128::greatest_sum();
        self.is_written = true;
        asg_settling::settle(m, &mut self.kept, steps, enters, leaves, room);
        self.kept.now.side();
    }

    fn replay(
        &mut self,
        m: &Bounded,
        steps: &[u128],
        enters: &[u32],
        leaves: &[u32],
        room: &mut [u128],
    ) -> bool {
        if self.takes(m.top, steps) {
            return self.try_duals(m.top, steps, enters, leaves, room);
        }
        write_out(
            &mut self.kept.now,
            &mut self.rows,
            &mut self.columns,
            self.is_written,
        );
        self.kept.now.side();
        self.greatest = u128::greatest_sum();
        self.is_written = true;
        let is_admitted = replay_within(m, &mut self.kept, steps, enters, leaves, room);
        self.kept.now.side();
        is_admitted
    }

    fn into_reduced(self) -> Reduced<u128> {
        self.reduce()
    }

    fn into_square(self) -> Square<u128> {
        self.into_base()
    }
}

impl RowSquare<NarrowSums> for DualSquare<u64> {
    ghost as_reduced = { λ dual. dual };

    fn side(&self) -> u32 {
        DualSquare::side(self)
    }

    fn index(&self) -> u64 {
        DualSquare::index(self)
    }

    #[inline]
    fn row_word(&self, row: u32, number: u32) -> u64 {
        self.row_words(row)[number as usize]
    }

    #[inline]
    fn value(&self, row: u32, column: u32) -> u64 {
        self.row(row).value(column)
    }

    #[inline]
    fn lesser(&self, m: &NarrowSums, row: u32, sum: u64, keys: &[u64], number: u32) -> u64 {
        let _ = m;
        self.row(row).lesser(sum, keys, number)
    }
}

impl KeptSquare<NarrowSums> for DualSquare<u64> {
    fn settle(
        &mut self,
        m: &NarrowSums,
        steps: &[u64],
        enters: &[u32],
        leaves: &[u32],
        room: &mut [u64],
    ) {
        if self.takes(NARROW_TOP, steps) {
            self.raise_duals(NARROW_TOP, steps, enters, leaves, room);
            return;
        }
        write_out(
            &mut self.kept.now,
            &mut self.rows,
            &mut self.columns,
            self.is_written,
        );
        self.kept.now.side();
        self.greatest = u64::greatest_sum();
        self.is_written = true;
        asg_settling::settle(m, &mut self.kept, steps, enters, leaves, room);
        self.kept.now.side();
    }

    fn replay(
        &mut self,
        m: &NarrowSums,
        steps: &[u64],
        enters: &[u32],
        leaves: &[u32],
        room: &mut [u64],
    ) -> bool {
        if self.takes(NARROW_TOP, steps) {
            return self.try_duals(NARROW_TOP, steps, enters, leaves, room);
        }
        write_out(
            &mut self.kept.now,
            &mut self.rows,
            &mut self.columns,
            self.is_written,
        );
        self.kept.now.side();
        self.greatest = u64::greatest_sum();
        self.is_written = true;
        let is_admitted = replay_within(m, &mut self.kept, steps, enters, leaves, room);
        self.kept.now.side();
        is_admitted
    }

    fn into_reduced(self) -> Reduced<u64> {
        self.reduce()
    }

    fn into_square(self) -> Square<u64> {
        self.into_base()
    }
}
