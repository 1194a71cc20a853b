//! The copies of a column among the columns of a square.

ghost use Rattle.std.specs.Prelude.{◌≡◌, ◌≤◌, ℕ, None, Some, is_some, nat_lt, slice_index_or};
ghost use Rattle.asg_square.specs.Grid.{HasLabelsOf};
ghost use Rattle.asg_kept_cells.specs.Copies.{AreCopies, StandInOrder, is_before};

use asg_model::Instance;
use asg_square::Square;

/// Columns of a square that stand side by side: those from one on and before another.
#[derive(Clone, Copy, Debug)]
pub(crate) struct Run {
    pub(crate) from: u32,
    pub(crate) to: u32,
}

// Whether a label is that of a column before a place.
#[inline]
fn is_before(place: usize, label: Option<u32>) -> bool
    ensures { result ≡ is_before place label }
{
    match label {
        Some(column) => (column as usize) < place,
        None => false,
    }
}

// How many columns of a square have the label of a column before a place. They are the first ones,
// so that the time grows with the logarithm of the side.
fn labels_before<V: Copy>(square: &Square<V>, place: usize) -> u32
    requires { StandInOrder square.now.column_labels }
    ensures upto { result ≤ square.now.side }
    ensures labels { (k : ℕ) → is_before place (slice_index_or square.now.column_labels k None)
        ≡ nat_lt k result }
{
    let mut low = 0;
    let mut high = square.side();
    'halves: while low < high {
        let middle = low + (high - low) / 2;
        if is_before(place, square.column_label(middle)) {
            low = middle + 1;
        } else {
            high = middle;
        }
    }
    low
}

/// How many columns of the square of an instance are copies of its columns. They are the first
/// ones.
pub(crate) fn copy_count<V: Copy>(inst: &Instance, square: &Square<V>) -> u32
    requires { HasLabelsOf inst.now square.now }
    ensures upto { result ≤ square.now.side }
    ensures copies { (k : ℕ) → is_some (slice_index_or square.now.column_labels k None)
        ≡ nat_lt k result }
{
    labels_before(square, inst.columns().len())
}

// The copies of the column at a place.
fn copies_at<V: Copy>(square: &Square<V>, column: u32) -> Run
    requires { StandInOrder square.now.column_labels }
    ensures { AreCopies square.now.column_labels square.now.side (Some column) result }
{
    let place = column as usize;
    let from = labels_before(square, place);
    let to = labels_before(square, place + 1);
    Run { from, to }
}

/// The copies of the column that a row chooses; none where it chooses none.
pub(crate) fn copies_of<V: Copy>(square: &Square<V>, chosen: Option<u32>) -> Run
    requires { StandInOrder square.now.column_labels }
    ensures { AreCopies square.now.column_labels square.now.side chosen result }
{
    match chosen {
        Some(column) => copies_at(square, column),
        None => Run { from: 0, to: 0 },
    }
}
