//! Reduced squares of sums that are kept by dual variables.

ghost use Rattle.std.specs.Prelude.{◌≡◌, ◌↔◌, ◌<◌, ◌≤◌, ℕ, IfOk, IsTrue, false, is_some, length};
ghost use Rattle.asg_phase_totals.specs.Duals.{HasRoom};
ghost use Rattle.asg_admit.specs.Reduced.{IsReduced, IsPhaseTo, KeepsPresence, phase_of};
ghost use Rattle.asg_phase_totals.specs.SumNumbers.{numbered_grid, numbered_square};
ghost use Rattle.asg_monoids.specs.BoundedSums.{bounded_sums, bounded_difference};
ghost use Rattle.asg_order.specs.Monoid.{fold_of};
ghost use Rattle.asg_proof.specs.Phases.{IsAdmittedPhase};
ghost use Rattle.asg_bit_rows.specs.BitTable.{AreWordsOf};
ghost use Rattle.asg_cell_tables.specs.CellTable.{AreValuesOf};
ghost use Rattle.asg_square.specs.Grid.{IsGrid, cell_at};

use crate::dual_cells::write_cells;
use crate::dual_rows::{DualRow, dual_row};
use asg_admit::{Reduced, are_counted};
use asg_phase_totals::{
    SumNumber, clear, greatest_cell, lower, raise, rows_fit, sum_up, sum_within,
};
use asg_square::{NoMemory, Square};
use std::alloc::Global;
use std::marker::Model;

/// A reduced square of sums, kept as the square that it was when it was made, with a dual variable
/// for each row and each column [Burkard 2012]: a cell is that of the square with the row's more
/// and the column's less. So a phase costs the side and its steps, where it would otherwise rewrite
/// the cells. Its numbers have 64 or 128 bits. Where sums come near the top where they stop, the
/// cells are written out in place, with all dual variables 0, and from then on it is they that each
/// phase rewrites. Contracts see it as the [`Reduced`] square of its cells.
#[derive(Drop)]
pub struct DualSquare<N: SumNumber> {
    // The square as it was made or written out, with the index as it is.
    pub(crate) kept: Reduced<N>,
    pub(crate) rows: Vec<N>,
    pub(crate) columns: Vec<N>,
    // No cell of the square as it was made is greater.
    pub(crate) greatest: N,
    // The cells are written out: no dual variable is greater than 0.
    pub(crate) is_written: bool,
}

impl<N: SumNumber> Model for DualSquare<N> {
    ghost use Rattle.std.specs.Prelude.{ℕ};
    ghost use Rattle.asg_admit.specs.declared.reduced.Reduced.{Reduced as ReducedSquare};
    ghost use Rattle.asg_kept.specs.KeptSums.{KeepsSums};
    ghost use Rattle.asg_phase_totals.specs.Duals.{dual_reduced};
    ghost use Rattle.asg_phase_totals.specs.SumNumbers.{numbered_grid};

    ghost Value = { ReducedSquare ℕ };

    ghost view = { λ d. dual_reduced (numbered_grid N.cells d.kept.now) (N.numbers d.rows.items)
        (N.numbers d.columns.items) (N.number d.kept.index) };

    ghost invariant = { λ d. KeepsSums N.top (numbered_grid N.cells d.kept.now)
        (N.numbers d.rows.items) (N.numbers d.columns.items) (N.number d.kept.index)
        (N.number d.greatest) d.is_written };
}

impl<N: SumNumber> DualSquare<N> {
    /// The reduced square, with all dual variables 0. Its cells and its index are sums that stop at
    /// this top, or at a lesser one. The error is want of memory.
    pub fn make(alloc: Global, top: N, reduced: Reduced<N>) -> Result<DualSquare<N>, NoMemory>
        requires top { N.number top ≤ N.top }
        requires reduced { IsReduced (bounded_sums (N.number top))
            (numbered_square N.number N.cells reduced) }
        ensures { IfOk result (λ d. d ≡ numbered_square N.number N.cells reduced) }
    {
        let _ = top;
        let side = reduced.now.side() as usize;
        let mut rows = vec![in alloc; N::zero(); side]?;
        let mut columns = vec![in alloc; N::zero(); side]?;
        clear(&mut rows);
        clear(&mut columns);
        let greatest = greatest_cell(&reduced.now);
        Ok(DualSquare {
            kept: reduced,
            rows,
            columns,
            greatest,
            is_written: false,
        })
    }

    /// The side.
    pub(crate) fn side(&self) -> u32
        ensures side { result ≡ self.now.now.side }
        ensures grid { IsGrid self.now.now }
    {
        self.kept.now.side()
    }

    /// The product of the steps that led to it, which is their sum.
    pub(crate) fn index(&self) -> N
        ensures { N.number result ≡ self.now.index }
    {
        self.kept.index
    }

    /// Which cells of a row are present, as [`Square::row_words`] tells it.
    pub(crate) fn row_words(&self, r: u32) -> &[u64]
        requires { r < self.now.now.side }
        ensures { AreWordsOf (λ c. is_some (cell_at self.now.now r c)) self.now.now.side
            result.now }
    {
        self.kept.now.row_words(r)
    }

    // Whether neither the index nor any present cell reaches the top while steps that add up to this
    // sum are applied. It is told from the index and the greatest cell of the square as it was made,
    // and so may be false where some present cell reaches the top only with the index twice.
    fn has_room(&self, top: N, sum: N) -> bool
        requires { N.number top ≤ N.top }
        ensures { IsTrue result → HasRoom (N.number top) self.now (N.number sum) }
    {
        if !sum.is_below(top) {
            return false;
        }
        self.kept.index.plus(self.greatest).plus(sum).is_below(top)
    }

    // The same of steps, while they are applied.
    pub(crate) fn takes(&self, top: N, steps: &[N]) -> bool
        requires { N.number top ≤ N.top }
        ensures { IsTrue result → HasRoom (N.number top) self.now
            (fold_of (bounded_sums (N.number top)) (N.numbers steps.now)) }
    {
        match sum_within(top, steps) {
            Some(sum) => self.has_room(top, sum),
            None => false,
        }
    }

    /// The values of a row, one for each column; that of an absent cell means nothing.
    pub(crate) fn row(&self, r: u32) -> DualRow<'_, N>
        requires { r < self.now.now.side }
        ensures { AreValuesOf (cell_at self.now.now r) self.now.now.side result }
    {
        let values = self.kept.now.row_values(r);
        dual_row(values, self.columns.as_slice(), self.rows[r as usize])
    }

    // Applies a phase that is admitted by the dual variables, where there is room for its steps. The
    // time is that of the side and the steps.
    pub(crate) fn raise_duals(
        &mut self,
        top: N,
        steps: &[N],
        enters: &[u32],
        leaves: &[u32],
        room: &mut [N],
    )
        requires top { N.number top ≤ N.top }
        requires admitted { let phase = phase_of (N.numbers steps.now) enters.now leaves.now in
            IsAdmittedPhase (bounded_sums (N.number top)) bounded_difference self.old.now.side phase
            (cell_at self.old.now) }
        requires sums { HasRoom (N.number top) self.old
            (fold_of (bounded_sums (N.number top)) (N.numbers steps.now)) }
        requires room { length steps.now < length room.old }
        ensures phase { let phase = phase_of (N.numbers steps.now) enters.now leaves.now in
            IsPhaseTo (bounded_sums (N.number top)) bounded_difference phase self.old self.new }
        ensures room { length room.new ≡ length room.old }
    {
        let _ = top;
        sum_up(steps, room);
        self.is_written = false;
        self.kept.index = self.kept.index.plus(room[steps.len()]);
        raise(&mut self.rows, steps, enters, room);
        raise(&mut self.columns, steps, leaves, room);
    }

    // Applies a phase where it is admitted by the dual variables, and tells whether it is, where
    // there is room for its steps. The time is that of the steps and of the side times the number of
    // rows that enter.
    pub(crate) fn try_duals(
        &mut self,
        top: N,
        steps: &[N],
        enters: &[u32],
        leaves: &[u32],
        room: &mut [N],
    ) -> bool
        requires top { N.number top ≤ N.top }
        requires sums { HasRoom (N.number top) self.old
            (fold_of (bounded_sums (N.number top)) (N.numbers steps.now)) }
        requires room { length steps.now < length room.old }
        ensures admitted { let phase = phase_of (N.numbers steps.now) enters.now leaves.now in
            IsTrue result ↔ IsAdmittedPhase (bounded_sums (N.number top)) bounded_difference
            self.old.now.side phase (cell_at self.old.now) }
        ensures applied { let phase = phase_of (N.numbers steps.now) enters.now leaves.now in
            IsTrue result
            → IsPhaseTo (bounded_sums (N.number top)) bounded_difference phase self.old self.new }
        ensures room { length room.new ≡ length room.old }
    {
        let _ = top;
        let side = self.kept.now.side() as usize;
        if enters.len() != side {
            return false;
        }
        if leaves.len() != side {
            return false;
        }
        if !are_counted(enters, leaves, steps.len()) {
            return false;
        }
        self.is_written = false;
        sum_up(steps, room);
        let rows = self.rows.as_slice();
        let columns = &mut self.columns;
        raise(columns, steps, leaves, room);
        if !rows_fit(
            &self.kept.now,
            rows,
            columns.as_slice(),
            steps,
            enters,
            room,
        ) {
            lower(columns, steps, leaves, room);
            return false;
        }
        self.kept.index = self.kept.index.plus(room[steps.len()]);
        raise(&mut self.rows, steps, enters, room);
        true
    }

    /// The reduced square with its cells written out. The time is that of one pass over the cells. It
    /// takes no memory.
    pub(crate) fn reduce(self) -> Reduced<N>
        ensures { numbered_square N.number N.cells result ≡ self }
    {
        let mut kept = self.kept;
        write_cells(&mut kept.now, self.rows.as_slice(), self.columns.as_slice());
        kept.now.side();
        kept
    }

    /// The square that it was made of, with the labels and the present cells of the reduced one,
    /// but not with their values: for where those are no longer asked for. Nothing is written.
    pub(crate) fn into_base(self) -> Square<N>
        ensures { KeepsPresence self.now (numbered_grid N.cells result) }
    {
        self.kept.now
    }
}
