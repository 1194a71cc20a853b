//! Where the copies of a column stand in a square.

ghost use Rattle.std.specs.Prelude.{◌≡◌, ◌≤◌};
ghost use Rattle.asg_model.specs.Counts.{capacity_at, total_capacity};
ghost use Rattle.asg_model.specs.Limits.{most_side};
ghost use Rattle.asg_model.specs.Problem.{Problem};
ghost use Rattle.asg_square.specs.Grid.{HasLabelsOf};
ghost use Rattle.asg_square.specs.Labels.{first_copy};
ghost use Rattle.asg_nodes.specs.Copies.{is_before, IsRunOf};

use asg_model::Instance;
use asg_square::Square;

/// Columns of a square that stand side by side: those from one on and before another.
#[derive(Clone, Copy)]
pub(crate) struct Run {
    pub(crate) from: u32,
    pub(crate) to: u32,
}

// Whether a column of the square with this label stands before the copies of a column.
fn is_before(label: Option<u32>, d: u32) -> bool
    ensures { result ≡ is_before d label }
{
    match label {
        Some(other) => other < d,
        None => false,
    }
}

// Where the copies of the column at this place begin, by halves, since copies stand in the order of
// their columns.
fn first_copy<V: Copy>(square: &Square<V>, d: u32) -> u32
    ensures first { (X : Problem) → HasLabelsOf X square.now → result ≡ first_copy X d }
    ensures bound { result ≤ most_side }
{
    let mut low = 0;
    let mut high = square.side();
    'halves: while low < high {
        let middle = low + (high - low) / 2;
        if is_before(square.column_label(middle), d) {
            low = middle + 1;
        } else {
            high = middle;
        }
    }
    low
}

// The capacity of the column at this place, 0 where there is none.
fn capacity(inst: &Instance, d: u32) -> u32
    ensures capacity { result ≡ capacity_at inst.now d }
    ensures bound { result ≤ 1000 }
{
    match inst.columns().get(d as usize) {
        Some(column) => column.cap,
        None => 0,
    }
}

/// The copies of the chosen column in the square of an instance; none where none is chosen. The
/// time grows with the logarithm of the side.
pub(crate) fn copies_of<V: Copy>(inst: &Instance, square: &Square<V>, chosen: Option<u32>) -> Run
    requires labels { HasLabelsOf inst.now square.now }
    ensures run { IsRunOf inst.now chosen result }
{
    match chosen {
        Some(d) => {
            let from = first_copy(square, d);
            let capacity = capacity(inst, d);
            Run {
                from,
                to: from + capacity,
            }
        }
        None => Run { from: 0, to: 0 },
    }
}

/// Where all copies end in the square of an instance.
pub(crate) fn end_of_copies<V: Copy>(inst: &Instance, square: &Square<V>) -> u32
    requires labels { HasLabelsOf inst.now square.now }
    ensures end { result ≡ total_capacity inst.now }
{
    first_copy(square, inst.columns().len() as u32)
}
