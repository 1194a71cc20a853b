//! The greatest numbers of columns of a square, by what these are copies of.

ghost use Rattle.std.specs.Prelude.{◌≡◌, ◌<◌, ◌≤◌, ℕ, true, IsTrue, Option, length, slice_index};
ghost use Rattle.asg_square.specs.Labels.{row_label};
ghost use Rattle.asg_table_phases.specs.TableRows.{AreTops, EndCopies, FitFree, is_free_cell, top_for};

use asg_model::limits::MOST_COLUMNS;
use asg_model::{Instance, Place};

// At least each number from one place on and before another.
fn top_between(numbers: &[u128], from: usize, to: usize) -> u128
    ensures { (k : ℕ) → from ≤ k → k < to → k < length numbers.now
        → slice_index numbers.now k ≤ result }
{
    let mut top = 0;
    'numbers: for place in from..to.min(numbers.len()) {
        top = top.max(numbers[place]);
    }
    top
}

/// Writes for each column of an instance the greatest of the numbers of its copies, and tells how
/// many copies there are.
pub(crate) fn put_tops(inst: &Instance, numbers: &[u128], tops: &mut [u128; MOST_COLUMNS]) -> usize
    ensures tops { AreTops inst.now numbers.now tops.new }
    ensures copies { EndCopies inst.now result }
{
    let columns = inst.columns();
    let mut first = 0usize;
    'columns: for column in 0..columns.len() {
        let next = first + columns[column].cap as usize;
        tops[column] = top_between(numbers, first, next);
        first = next;
    }
    first
}

// At least the number for each column in which a row has a free cell.
fn free_top(inst: &Instance, row: u32, of_copies: u128, of_extras: u128) -> u128
    ensures { (label : Option ℕ) → is_free_cell inst.now.place (row_label inst.now row) label ≡ true
        → top_for of_copies of_extras label ≤ result }
{
    match inst.place() {
        Place::All => {
            if inst.is_active(row) {
                0
            } else {
                of_copies.max(of_extras)
            }
        }
        Place::Exactly(_) => {
            if (row as usize) < inst.rows().len() {
                of_extras
            } else {
                of_copies
            }
        }
    }
}

/// Whether the number of each row is at least that of each column in which it has a free cell. The
/// time is that of the side.
pub(crate) fn free_cells_fit(
    inst: &Instance,
    rows: &[u128],
    columns: &[u128],
    copies: usize,
) -> bool
    requires few { length rows.now ≤ 1001000 }
    requires copies { EndCopies inst.now copies }
    ensures { IsTrue result → FitFree inst.now rows.now columns.now }
{
    let of_copies = top_between(columns, 0, copies);
    let of_extras = top_between(columns, copies, columns.len());
    'rows: for row in 0..rows.len() {
        if rows[row] < free_top(inst, row as u32, of_copies, of_extras) {
            return false;
        }
    }
    true
}
