//! Whole lists of phases of sums, tested with few looks at the cells.

ghost use Rattle.std.specs.Prelude.{◌≡◌, ◌↔◌, ◌<◌, ◌≤◌, ℕ, All, IfOk, IfSome, IsTrue, None, length, slice_index};
ghost use Rattle.asg_phase_totals.specs.SumNumbers.{numbered};
ghost use Rattle.asg_phase_totals.specs.PhaseTotals.{CountsRight, IsListNearTop, StayBelow, TellsList, column_raise, row_raise, sum_of_steps};
ghost use Rattle.asg_model.specs.Limits.{most_side};
ghost use Rattle.asg_square.specs.Grid.{cell_at};

use crate::dual_sums::{raise, sum_up, sum_within};
use crate::greatest_cells::greatest_cell;
use crate::phase_totals::{PhaseTotals, clear};
use crate::segments::{close_segment, segment_ends_well};
use crate::sum_numbers::SumNumber;
use asg_admit::are_counted;
use asg_proof::Phase;
use asg_square::{NoMemory, Square};
use std::alloc::Global;
use std::marker::Model;

/// Room to test lists of phases of sums on squares of one side. Contracts see it as the side.
///
/// From the last phase back a list is cut into segments, so long that within each the phases after
/// one raise no row by more than a column. Within a segment no cell is ever less than it ends, so
/// that one look at the cells tests all its phases; of rows that none of them lowers nothing is
/// asked.
#[derive(Drop)]
pub struct ListTest<N: SumNumber> {
    rows: Vec<N>,
    columns: Vec<N>,
    segment: PhaseTotals<N>,
}

impl<N: SumNumber> Model for ListTest<N> {
    ghost use Rattle.std.specs.Prelude.{◌≡◌, ◌≤◌, ℕ, length};
    ghost use Rattle.asg_model.specs.Limits.{most_side};

    ghost Value = { ℕ };

    ghost view = { λ t. length t.rows.items };

    ghost invariant = { λ t. (length t.rows.items ≤ most_side)
        × (length t.columns.items ≡ length t.rows.items)
        × (length t.segment.rows ≡ length t.rows.items) };
}

impl<N: SumNumber> ListTest<N> {
    /// Room for squares of this side. The error is want of memory.
    pub fn with_side(alloc: Global, side: u32) -> Result<ListTest<N>, NoMemory>
        requires { side ≤ most_side }
        ensures { IfOk result (λ t. t ≡ side) }
    {
        let rows = vec![in alloc; N::zero(); side as usize]?;
        let columns = vec![in alloc; N::zero(); side as usize]?;
        let segment = PhaseTotals::none(alloc, side)?;
        Ok(ListTest {
            rows,
            columns,
            segment,
        })
    }

    /// Whether phases are admitted in turn from a square, by sums that stop at the top of the
    /// numbers or at any greater one; `None` where sums come near that top. `room` has more places than any phase has steps, and
    /// what is in it before and afterwards means nothing. The time is that of the side and the
    /// steps for each phase, and of a look at the cells for each segment, mostly one. It takes no
    /// memory.
    pub fn admits(
        &mut self,
        square: &Square<N>,
        phases: &[Phase<N>],
        room: &mut [N],
    ) -> Option<bool>
        requires side { self.old ≡ square.now.side }
        requires room { All (λ p. length p.steps < length room.old) phases.now }
        ensures told { IfSome result (TellsList N.top square.now.side
            (λ r k. N.present (cell_at square.now r k)) (N.phases phases.now)) }
        ensures near { result ≡ None → IsListNearTop N.top
            (λ r k. N.present (cell_at square.now r k)) (N.phases phases.now) }
        ensures side { self.new ≡ self.old }
        ensures room { length room.new ≡ length room.old }
    {
        let Some(sum) = sum_of_list(phases) else {
            return None;
        };
        square.side();
        if N::greatest_sum().minus(sum).is_below(greatest_cell(square)) {
            return None;
        }
        if !all_count_right(phases, self.rows.len()) {
            return Some(false);
        }
        clear(&mut self.rows);
        clear(&mut self.columns);
        raise_all(&mut self.rows, &mut self.columns, phases, room);
        Some(walk_back(
            square,
            &mut self.rows,
            &mut self.columns,
            &mut self.segment,
            phases,
            room,
        ))
    }
}

// The sum of all steps of phases, `None` where it is greater than the top.
fn sum_of_list<N: SumNumber>(phases: &[Phase<N>]) -> Option<N>
    ensures within { IfSome result (λ sum. N.number sum ≡ sum_of_steps (N.phases phases.now)) }
    ensures small { IfSome result (λ sum. N.number sum ≤ N.top) }
    ensures beyond { result ≡ None → N.top < sum_of_steps (N.phases phases.now) }
{
    let mut sum = N::zero();
    for i in 0..phases.len() {
        let Some(more) = sum_within(N::greatest_sum().minus(sum), phases[i].steps()) else {
            return None;
        };
        sum = sum.plus(more);
    }
    Some(sum)
}

// Whether the lists of a phase are over this side, and its counts are right.
fn counts_right<N: SumNumber>(phase: &Phase<N>, side: usize) -> bool
    requires { side ≤ most_side }
    ensures { IsTrue result ↔ CountsRight side (numbered N.numbers phase.now) }
{
    if phase.enters().len() != side {
        return false;
    }
    if phase.leaves().len() != side {
        return false;
    }
    are_counted(phase.enters(), phase.leaves(), phase.steps().len())
}

// Whether each phase does so.
fn all_count_right<N: SumNumber>(phases: &[Phase<N>], side: usize) -> bool
    requires { side ≤ most_side }
    ensures { IsTrue result ↔ All (CountsRight side) (N.phases phases.now) }
{
    for i in 0..phases.len() {
        if !counts_right(&phases[i], side) {
            return false;
        }
    }
    true
}

// Raises the dual variables of rows and columns, all 0, by what phases raise them by.
fn raise_all<N: SumNumber>(
    rows: &mut Vec<N>,
    columns: &mut Vec<N>,
    phases: &[Phase<N>],
    room: &mut [N],
)
    requires columns { length columns.old.items ≡ length rows.old.items }
    requires rows_clear { (r : ℕ) → r < length rows.old.items
        → slice_index (N.numbers rows.old.items) r ≡ 0 }
    requires columns_clear { (k : ℕ) → k < length rows.old.items
        → slice_index (N.numbers columns.old.items) k ≡ 0 }
    requires right { All (CountsRight (length rows.old.items)) (N.phases phases.now) }
    requires room { All (λ p. length p.steps < length room.old) phases.now }
    requires few { sum_of_steps (N.phases phases.now) ≤ N.top }
    ensures row_count { length rows.new.items ≡ length rows.old.items }
    ensures column_count { length columns.new.items ≡ length rows.old.items }
    ensures rows { (r : ℕ) → r < length rows.old.items
        → slice_index (N.numbers rows.new.items) r ≡ row_raise (N.phases phases.now) r }
    ensures columns { (k : ℕ) → k < length rows.old.items
        → slice_index (N.numbers columns.new.items) k ≡ column_raise (N.phases phases.now) k }
    ensures room { length room.new ≡ length room.old }
{
    for i in 0..phases.len() {
        let phase = &phases[i];
        sum_up(phase.steps(), room);
        raise(rows, phase.steps(), phase.enters(), room);
        raise(columns, phase.steps(), phase.leaves(), room);
    }
}

// Whether phases that raised the dual variables so are admitted in turn from the square, by
// segments from the last phase back.
fn walk_back<N: SumNumber>(
    square: &Square<N>,
    rows: &mut Vec<N>,
    columns: &mut Vec<N>,
    segment: &mut PhaseTotals<N>,
    phases: &[Phase<N>],
    room: &mut [N],
) -> bool
    requires row_count { length rows.old.items ≡ square.now.side }
    requires column_count { length columns.old.items ≡ square.now.side }
    requires side { length segment.old.rows ≡ square.now.side }
    requires rows { (r : ℕ) → r < square.now.side
        → slice_index (N.numbers rows.old.items) r ≡ row_raise (N.phases phases.now) r }
    requires columns { (k : ℕ) → k < square.now.side
        → slice_index (N.numbers columns.old.items) k ≡ column_raise (N.phases phases.now) k }
    requires right { All (CountsRight square.now.side) (N.phases phases.now) }
    requires room { All (λ p. length p.steps < length room.old) phases.now }
    requires few { sum_of_steps (N.phases phases.now) ≤ N.top }
    requires cells { StayBelow N.top square.now.side (N.phases phases.now)
        (λ r k. N.present (cell_at square.now r k)) }
    ensures told { TellsList N.top square.now.side (λ r k. N.present (cell_at square.now r k))
        (N.phases phases.now) result }
    ensures row_count { length rows.new.items ≡ length rows.old.items }
    ensures column_count { length columns.new.items ≡ length columns.old.items }
    ensures side { length segment.new.rows ≡ length segment.old.rows }
    ensures room { length room.new ≡ length room.old }
{
    segment.clear();
    let count = phases.len();
    'phases: for back in 0..count {
        if !close_segment(square, rows, columns, segment) {
            return false;
        }
        let phase = &phases[count - 1 - back];
        segment.put_before(phase.steps(), phase.enters(), phase.leaves(), room);
    }
    segment_ends_well(square, rows.as_slice(), columns.as_slice(), segment)
}
