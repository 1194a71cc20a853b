//! What lists of phases of sums come to, and their test in one pass over the cells.

ghost use Rattle.std.specs.Prelude.{◌≡◌, ◌↔◌, ◌⊎◌, ◌<◌, ◌≤◌, ℕ, [], ◌∷◌, List, IfOk, IsTrue, Some, false, length, slice_index};
ghost use Rattle.asg_phase_totals.specs.Duals.{FitCells};
ghost use Rattle.asg_phase_totals.specs.PhaseTotals.{AreOrdered, AreTotals, CanPrecede, EndsWell};
ghost use Rattle.asg_model.specs.Limits.{most_side};
ghost use Rattle.asg_monoids.specs.BoundedSums.{bounded_sums, bounded_difference};
ghost use Rattle.asg_proof.specs.Phases.{PhaseOf, AreAdmittedPhases, index_of, phase_of};
ghost use Rattle.asg_square.specs.Grid.{cell_at};

use crate::dual_fits::fit_cells;
use crate::dual_sums::{raise, sum_up, sum_within};
use crate::greatest_cells::{greater_of, greatest_cell};
use crate::sum_numbers::SumNumber;
use asg_admit::are_counted;
use asg_square::{NoMemory, Square};
use std::alloc::Global;
use std::marker::Model;

/// What a list of phases of sums comes to: for each row the sum of the steps before it enters, for
/// each column the sum of the steps before it leaves, and the sum of all steps. By these a list is
/// tested in one pass over the cells. Phases are taken in from the last one back.
#[derive(Drop)]
pub struct PhaseTotals<N: SumNumber> {
    rows: Vec<N>,
    columns: Vec<N>,
    sum: N,
}

impl<N: SumNumber> Model for PhaseTotals<N> {
    ghost use Rattle.asg_phase_totals.specs.PhaseTotals.{Totals, KeepsTotals, totals_of};
    ghost use Rattle.asg_model.specs.Limits.{most_side};

    ghost Value = { Totals };

    ghost view = { λ t.
        totals_of (N.numbers t.rows.items) (N.numbers t.columns.items) (N.number t.sum) };

    ghost invariant = { λ t. KeepsTotals most_side N.top
        (totals_of (N.numbers t.rows.items) (N.numbers t.columns.items) (N.number t.sum)) };
}

impl<N: SumNumber> PhaseTotals<N> {
    /// Those of no phases, for this side. The error is want of memory.
    pub fn none(alloc: Global, side: u32) -> Result<PhaseTotals<N>, NoMemory>
        requires { side ≤ most_side }
        ensures side { IfOk result (λ t. length t.rows ≡ side) }
        ensures totals { IfOk result (AreTotals []) }
    {
        let mut rows = vec![in alloc; N::zero(); side as usize]?;
        let mut columns = vec![in alloc; N::zero(); side as usize]?;
        clear(&mut rows);
        clear(&mut columns);
        Ok(PhaseTotals {
            rows,
            columns,
            sum: N::zero(),
        })
    }

    /// The sum of all steps, at most where sums stop.
    pub fn sum(&self) -> N
        ensures { N.number result ≡ self.now.sum }
    {
        self.sum
    }

    /// For each row the sum of the steps before it enters.
    pub fn rows(&self) -> &[N]
        ensures rows { N.numbers result.now ≡ self.now.rows }
        ensures count { length result.now ≡ length self.now.rows }
    {
        self.rows.as_slice()
    }

    /// For each column the sum of the steps before it leaves.
    pub fn columns(&self) -> &[N]
        ensures columns { N.numbers result.now ≡ self.now.columns }
        ensures count { length result.now ≡ length self.now.rows }
    {
        self.columns.as_slice()
    }

    // Whether no row's number is greater than a column's.
    pub(crate) fn is_ordered(&self) -> bool
        ensures { IsTrue result ↔ AreOrdered self.now }
    {
        are_ordered(self.rows.as_slice(), self.columns.as_slice())
    }

    // Makes all numbers 0, those of no phases.
    pub(crate) fn clear(&mut self)
        ensures totals { AreTotals [] self.new }
        ensures side { length self.new.rows ≡ length self.old.rows }
    {
        clear(&mut self.rows);
        clear(&mut self.columns);
        self.sum = N::zero();
    }

    /// Takes in a phase that comes before the others, where it counts right, the others raise no
    /// row by more than a column, and the sum of all steps stays within the top; and tells whether
    /// it did. Otherwise nothing is changed. `room` has more places than there are steps, and what
    /// is in it before and afterwards means nothing. The time is that of the side and the steps. It
    /// takes no memory.
    pub fn put_before(
        &mut self,
        steps: &[N],
        enters: &[u32],
        leaves: &[u32],
        room: &mut [N],
    ) -> bool
        requires { length steps.now < length room.old }
        ensures taken { IsTrue result
            ↔ CanPrecede N.top (phase_of (N.numbers steps.now) enters.now leaves.now) self.old }
        ensures totals { IsTrue result
            → (rest : List (PhaseOf ℕ)) → AreTotals rest self.old
            → AreTotals (phase_of (N.numbers steps.now) enters.now leaves.now ∷ rest) self.new }
        ensures kept { result ≡ false → self.new ≡ self.old }
        ensures side { length self.new.rows ≡ length self.old.rows }
        ensures room { length room.new ≡ length room.old }
    {
        let side = self.rows.len();
        if enters.len() != side {
            return false;
        }
        if leaves.len() != side {
            return false;
        }
        if !are_counted(enters, leaves, steps.len()) {
            return false;
        }
        if !self.is_ordered() {
            return false;
        }
        let Some(sum) = sum_within(N::greatest_sum().minus(self.sum), steps) else {
            return false;
        };
        sum_up(steps, room);
        raise(&mut self.rows, steps, enters, room);
        raise(&mut self.columns, steps, leaves, room);
        self.sum = self.sum.plus(sum);
        true
    }

    /// Whether no cell of a square passes the top with the sum of all steps, and none ends below 0.
    /// Then the phases are admitted in turn from the square, by sums that stop there or at any
    /// greater top: no cell was ever less than it ends. The time is that of two passes over the
    /// cells. It takes no memory.
    pub fn fits(&self, square: &Square<N>) -> bool
        requires { length self.now.rows ≡ square.now.side }
        ensures told { IsTrue result ↔ EndsWell N.top square.now.side
            (λ r k. N.present (cell_at square.now r k)) self.now }
        ensures admitted { IsTrue result
            → (top : ℕ) (phases : List (PhaseOf ℕ)) → N.top ≤ top
            → AreTotals phases self.now
            → AreAdmittedPhases (bounded_sums top) bounded_difference square.now.side phases
            (λ r k. N.present (cell_at square.now r k)) }
        ensures index { (top : ℕ) (phases : List (PhaseOf ℕ))
            → N.top ≤ top
            → AreTotals phases self.now
            → index_of (bounded_sums top) phases ≡ self.now.sum }
    {
        square.side();
        if N::greatest_sum()
            .minus(self.sum)
            .is_below(greatest_cell(square))
        {
            return false;
        }
        rows_end_well(square, self.rows.as_slice(), self.columns.as_slice())
    }
}

/// Makes each number 0.
pub fn clear<N: SumNumber>(numbers: &mut Vec<N>)
    ensures count { length numbers.new.items ≡ length numbers.old.items }
    ensures each { (i : ℕ) → i < length numbers.old.items
        → slice_index (N.numbers numbers.new.items) i ≡ 0 }
{
    for i in 0..numbers.len() {
        numbers[i] = N::zero();
    }
}

// The greatest of the numbers, 0 where there are none.
fn greatest_of<N: SumNumber>(numbers: &[N]) -> N
    ensures above { (i : ℕ) → i < length numbers.now
        → slice_index (N.numbers numbers.now) i ≤ N.number result }
    ensures reached { (N.number result ≡ 0) ⊎ ((i : ℕ) × (i < length numbers.now)
        × (slice_index (N.numbers numbers.now) i ≡ N.number result)) }
{
    let mut greatest = N::zero();
    for i in 0..numbers.len() {
        greatest = greater_of(greatest, numbers[i]);
    }
    greatest
}

// Whether no number of a row is greater than one of a column.
fn are_ordered<N: SumNumber>(rows: &[N], columns: &[N]) -> bool
    ensures { IsTrue result
        ↔ ((r k : ℕ) → r < length rows.now → k < length columns.now
        → slice_index (N.numbers rows.now) r ≤ slice_index (N.numbers columns.now) k) }
{
    let greatest = greatest_of(rows);
    for k in 0..columns.len() {
        if columns[k].is_below(greatest) {
            return false;
        }
    }
    true
}

// Whether each present cell with the number of its row is at least the number of its column.
fn rows_end_well<N: SumNumber>(square: &Square<N>, rows: &[N], columns: &[N]) -> bool
    requires rows { length rows.now ≡ square.now.side }
    requires columns { length columns.now ≡ square.now.side }
    requires few_rows { (r : ℕ) → r < square.now.side
        → slice_index (N.numbers rows.now) r ≤ N.top }
    requires few_cells { (r k x : ℕ) → r < square.now.side
        → N.present (cell_at square.now r k) ≡ Some x → x ≤ N.top }
    ensures { IsTrue result
        ↔ ((r : ℕ) → r < square.now.side → FitCells square.now.side
        (λ k. N.present (cell_at square.now r k)) (slice_index (N.numbers rows.now) r)
        (N.numbers columns.now)) }
{
    for row in 0..square.side() {
        if !fit_cells(square, row, rows[row as usize], columns) {
            return false;
        }
    }
    true
}
