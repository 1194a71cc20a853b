//! Grades of costs and of the cells of a square.

ghost use Rattle.std.specs.Prelude.{◌≡◌, ℕ, ◌+◌, ◌*◌, ◌<◌, ◌≤◌, min, length};
ghost use Rattle.std.specs.Prelude.{slice_index, IsTrue, IsSome, unsigned_abs};
ghost use Rattle.asg_model.specs.Limits.{most_cost, most_side};
ghost use Rattle.asg_bit_rows.specs.BitTable.{word_count};
ghost use Rattle.asg_square.specs.Grid.{IsGrid, cell_at};
ghost use Rattle.asg_thresh.specs.Grades.{grade_of, grade_at, Grades};

use asg_model::limits::MOST_COST;
use asg_model::{Cost, Objective};
use asg_square::Square;

/// The grade of a free cell, under those of all costs.
pub(crate) const FREE_GRADE: u32 = 0;

/// The grade that stands for no cell, past those of all costs.
pub(crate) const NO_GRADE: u32 = 2_000_000_002;

/// The grade of a cost for a bottleneck objective: 1 for the best cost that there may be, and one
/// more for each step to a worse one.
pub(crate) fn grade(objective: Objective, cost: Cost) -> u32
    requires { unsigned_abs cost.a ≤ most_cost }
    ensures grade { result ≡ grade_of objective cost }
{
    match objective {
        Objective::BottleneckMax => (MOST_COST + 1 - cost.a) as u32,
        _ => (cost.a + (MOST_COST + 1)) as u32,
    }
}

/// The grades of a row.
#[inline]
pub(crate) fn row_of(grades: &[u32], side: u32, row: u32) -> &[u32]
    requires row_below { row < side }
    requires few { side ≤ most_side }
    requires square { length grades.now ≡ side * side }
    ensures count { length result.now ≡ side }
    ensures cells { (c : ℕ) → c < side → slice_index result.now c ≡ grade_at grades.now side row c }
{
    let start = (row * side) as usize;
    &grades[start..start + side as usize]
}

// Gives a cell the grade of no cell, if it is absent.
fn grade_cell(square: &mut Square<u32>, row: u32, column: u32)
    requires row_below { row < square.old.side }
    requires column_below { column < square.old.side }
    requires grid { IsGrid square.old }
    ensures { let place = row * square.old.side + column in
        Grades square.old square.new place (place + 1) }
{
    match square.at(row, column) {
        Some(_) => {}
        None => square.set(row, column, Some(NO_GRADE)),
    }
}

// Gives the absent cells of a row from one column to another the grade of no cell.
fn grade_cells(square: &mut Square<u32>, row: u32, first: u32, end: u32)
    requires row_below { row < square.old.side }
    requires order { first ≤ end }
    requires end_within { end ≤ square.old.side }
    ensures { let start = row * square.old.side in
        Grades square.old square.new (start + first) (start + end) }
{
    for column in first..end {
        let _ = square.side();
        grade_cell(square, row, column);
    }
}

// Whether all 64 cells of a word of a row are present.
fn is_full(square: &Square<u32>, row: u32, number: u32) -> bool
    requires row_below { row < square.now.side }
    requires number_below { number < word_count square.now.side }
    ensures { IsTrue result → (k : ℕ) → k < 64
        → IsSome (cell_at square.now row (64 * number + k)) }
{
    square.row_words(row)[number as usize] == u64::MAX
}

// Gives the absent cells of a word of a row the grade of no cell.
fn grade_word(square: &mut Square<u32>, row: u32, number: u32)
    requires row_below { row < square.old.side }
    requires number_below { number < word_count square.old.side }
    requires few { square.old.side ≤ most_side }
    ensures { let start = row * square.old.side in
        Grades square.old square.new (start + 64 * number)
        (start + min (64 * number + 64) square.old.side) }
{
    let side = square.side();
    if is_full(square, row, number) {
        return;
    }
    grade_cells(square, row, 64 * number, (64 * number + 64).min(side));
}

// Gives the absent cells of a row the grade of no cell.
fn grade_row(square: &mut Square<u32>, row: u32)
    requires row_below { row < square.old.side }
    requires few { square.old.side ≤ most_side }
    ensures { let start = row * square.old.side in
        Grades square.old square.new start (start + square.old.side) }
{
    for number in 0..square.side().div_ceil(64) {
        grade_word(square, row, number);
    }
}

/// Gives each absent cell of a square the grade of no cell, so that the square's values are the
/// grades of all its cells. Takes no memory.
pub(crate) fn grade_absent(square: &mut Square<u32>)
    requires { square.old.side ≤ most_side }
    ensures { Grades square.old square.new 0 (square.old.side * square.old.side) }
{
    for row in 0..square.side() {
        grade_row(square, row);
    }
}
