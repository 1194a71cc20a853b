//! The cells of an answer on the kept cells of a square.

ghost use Rattle.std.specs.Prelude.{◌≡◌, ◌↔◌, ◌<◌, ◌≤◌, IsTrue, IfSome, is_some, length};
ghost use Rattle.asg_square.specs.Grid.{cell_at};
ghost use Rattle.asg_square.specs.Masked.{masked_grid};
ghost use Rattle.asg_kept_cells.specs.Kept.{ChoosesKept, HasKept, HasSize};

use asg_bit_rows::BitRows;
use asg_model::Choice;
use asg_square::Square;

/// The cell, if it is kept.
#[inline]
pub(crate) fn kept_cell<V: Copy>(
    square: &Square<V>,
    kept: &BitRows,
    row: u32,
    column: u32,
) -> Option<V>
    requires size { HasSize square.now.side kept.now }
    requires row { row < square.now.side }
    requires column { column < square.now.side }
    ensures { result ≡ cell_at (masked_grid square.now kept.now.words) row column }
{
    if !kept.has(row, column) {
        return None;
    }
    square.at(row, column)
}

// Whether a cell of a square is there and kept.
#[inline]
fn is_kept<V: Copy>(square: &Square<V>, kept: &BitRows, row: u32, column: u32) -> bool
    requires size { HasSize square.now.side kept.now }
    requires row { row < square.now.side }
    requires column { column < square.now.side }
    ensures { result ≡ is_some (cell_at (masked_grid square.now kept.now.words) row column) }
{
    kept_cell(square, kept, row, column).is_some()
}

// Whether a row has a kept cell in a copy of a column.
fn has_kept<V: Copy>(square: &Square<V>, kept: &BitRows, row: u32, place: u32) -> bool
    requires size { HasSize square.now.side kept.now }
    requires row { row < square.now.side }
    ensures { IsTrue result ↔ HasKept square.now kept.now.words row place }
{
    for column in 0..square.side() {
        if square.column_label(column) == Some(place) && is_kept(square, kept, row, column) {
            return true;
        }
    }
    false
}

// Whether a row has a kept cell in a copy of the column that it chooses, if it chooses one.
fn is_chosen_kept<V: Copy>(
    square: &Square<V>,
    kept: &BitRows,
    row: u32,
    chosen: Option<u32>,
) -> bool
    requires size { HasSize square.now.side kept.now }
    requires row { row < square.now.side }
    ensures { IsTrue result ↔ IfSome chosen (HasKept square.now kept.now.words row) }
{
    match chosen {
        Some(place) => has_kept(square, kept, row, place),
        None => true,
    }
}

/// Whether each row has a kept cell in a copy of the column that it chooses. The time is that of
/// the cells.
pub fn chooses_kept<V: Copy>(square: &Square<V>, kept: &BitRows, choice: &Choice) -> bool
    requires size { HasSize square.now.side kept.now }
    requires rows { length choice.now ≤ square.now.side }
    ensures { IsTrue result ↔ ChoosesKept square.now kept.now.words choice.now }
{
    for row in 0..choice.len() {
        if !is_chosen_kept(square, kept, row, choice.get(row)) {
            return false;
        }
    }
    true
}
