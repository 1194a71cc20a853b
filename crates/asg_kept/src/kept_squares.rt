//! A reduced square, however it is kept.

ghost use Rattle.std.specs.Prelude.{◌≡◌, ◌↔◌, ◌+◌, ◌*◌, ◌<◌, ◌≤◌, IsSome, IsTrue, Some, length};
ghost use Rattle.asg_admit.specs.Reduced.{IsReduced, IsPhaseTo, KeepsPresence, phase_of};
ghost use Rattle.asg_admit.specs.declared.reduced.Reduced.{Reduced};
ghost use Rattle.asg_bit_rows.specs.BitTable.{is_bit_set, word_count};
ghost use Rattle.asg_kept.specs.KeptRows.{IsWordOf, TellsLesser};
ghost use Rattle.asg_order.specs.Monoid.{IsValue};
ghost use Rattle.asg_proof.specs.Phases.{IsAdmittedPhase};
ghost use Rattle.asg_square.specs.Grid.{IsGrid, cell_at};

use asg_admit::Reduced;
use asg_order::DMonoid;
use asg_square::Square;

/// A reduced square over a d-monoid, however it is kept, whose rows can be looked at.
pub trait RowSquare<M: DMonoid> {
    // The reduced square.
    ghost as_reduced: { Self → Reduced M.Value };

    /// The side.
    fn side(&self) -> u32
        ensures side { result ≡ (as_reduced self.now).now.side }
        ensures grid { IsGrid (as_reduced self.now).now };

    /// The product of the steps that led to it.
    fn index(&self) -> M::Value
        ensures { result ≡ (as_reduced self.now).index };

    /// Which cells of a row are present, of the 64 columns that the word of this number holds: a bit
    /// for each, the first column's lowest.
    fn row_word(&self, row: u32, number: u32) -> u64
        requires row { row < (as_reduced self.now).now.side }
        requires number { number < word_count (as_reduced self.now).now.side }
        ensures { IsWordOf (cell_at (as_reduced self.now).now row) number result };

    /// The value of a present cell.
    fn value(&self, row: u32, column: u32) -> M::Value
        requires row { row < (as_reduced self.now).now.side }
        requires column { column < (as_reduced self.now).now.side }
        requires present { IsSome (cell_at (as_reduced self.now).now row column) }
        ensures { cell_at (as_reduced self.now).now row column ≡ Some result };

    /// Columns of a word of 64 at which the product of a sum and the row's cell may be less than the
    /// key: a bit for each. At each other column the key is at most the product, where there is a
    /// cell, and it and the key are values of the monoid. Where telling would cost more than it gains
    /// all bits are set.
    fn lesser(&self, m: &M, row: u32, sum: M::Value, keys: &[M::Value], number: u32) -> u64
        requires row { row < (as_reduced self.now).now.side }
        requires sum { IsValue (M.monoid_of m.now) sum }
        requires within { 64 * number + 64 ≤ (as_reduced self.now).now.side }
        requires keys { length keys.now ≡ (as_reduced self.now).now.side }
        ensures { TellsLesser (M.monoid_of m.now) (cell_at (as_reduced self.now).now row) sum
            keys.now number result }
    {
        let _ = m;
        let _ = row;
        let _ = sum;
        let _ = keys;
        let _ = number;
        u64::MAX
    }
}

/// A reduced square over a d-monoid, however it is kept.
pub trait KeptSquare<M: DMonoid>: RowSquare<M> {
    /// Applies a phase that is admitted, and multiplies the index by its steps, as
    /// [`asg_settling::settle`] does. `room` has more places than there are steps, and what is in it
    /// before and afterwards means nothing. It takes no memory.
    fn settle(
        &mut self,
        m: &M,
        steps: &[M::Value],
        enters: &[u32],
        leaves: &[u32],
        room: &mut [M::Value],
    )
        requires reduced { IsReduced (M.monoid_of m.now) (Self.as_reduced self.old) }
        requires admitted { let phase = phase_of steps.now enters.now leaves.now in
            IsAdmittedPhase (M.monoid_of m.now) (M.difference m.now)
            (Self.as_reduced self.old).now.side phase (cell_at (Self.as_reduced self.old).now) }
        requires room { length steps.now < length room.old }
        ensures phase { let phase = phase_of steps.now enters.now leaves.now in
            IsPhaseTo (M.monoid_of m.now) (M.difference m.now) phase (Self.as_reduced self.old)
            (Self.as_reduced self.new) }
        ensures room { length room.new ≡ length room.old };

    /// Applies a phase where it is admitted, and tells whether it is. Where it isn't, the square may
    /// be changed in part, so that it serves no more. `room` is as for
    /// [`settle`](KeptSquare::settle). It takes no memory.
    fn replay(
        &mut self,
        m: &M,
        steps: &[M::Value],
        enters: &[u32],
        leaves: &[u32],
        room: &mut [M::Value],
    ) -> bool
        requires reduced { IsReduced (M.monoid_of m.now) (Self.as_reduced self.old) }
        requires room { length steps.now < length room.old }
        ensures admitted { let phase = phase_of steps.now enters.now leaves.now in
            IsTrue result ↔ IsAdmittedPhase (M.monoid_of m.now) (M.difference m.now)
            (Self.as_reduced self.old).now.side phase (cell_at (Self.as_reduced self.old).now) }
        ensures applied { let phase = phase_of steps.now enters.now leaves.now in IsTrue result
            → IsPhaseTo (M.monoid_of m.now) (M.difference m.now) phase (Self.as_reduced self.old)
            (Self.as_reduced self.new) }
        ensures room { length room.new ≡ length room.old };

    /// The reduced square with its cells written out.
    fn into_reduced(self) -> Reduced<M::Value>
        ensures { result ≡ Self.as_reduced self };

    /// A square with the labels and the present cells of the reduced one, whose values may be
    /// others. Nothing is written.
    fn into_square(self) -> Square<M::Value>
        ensures { KeepsPresence (Self.as_reduced self).now result };
}

// Whether a bit of a word is set.
#[inline]
fn has_bit(word: u64, bit: u32) -> bool
    requires { bit < 64 }
    ensures { result ≡ is_bit_set word bit }
{
    word >> bit & 1 == 1
}

/// The cell at a row and a column.
pub fn cell_of<M: DMonoid, S: RowSquare<M>>(square: &S, row: u32, column: u32) -> Option<M::Value>
    requires row { row < (S.as_reduced square.now).now.side }
    requires column { column < (S.as_reduced square.now).now.side }
    ensures { result ≡ cell_at (S.as_reduced square.now).now row column }
{
    if has_bit(square.row_word(row, column / 64), column % 64) {
        Some(square.value(row, column))
    } else {
        None
    }
}
