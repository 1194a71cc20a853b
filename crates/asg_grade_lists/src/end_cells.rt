//! Whether no cell of a square of graded sums ends below 0 by amounts at a grade.

ghost use Rattle.std.specs.Prelude.{◌≡◌, ◌<◌, ◌≤◌, ◌+◌, ℕ, IsTrue, Some, length};
ghost use Rattle.asg_grade_lists.specs.GradeLists.{EndsWellAt, RowEndsWell, RowsEndWell};
ghost use Rattle.asg_monoids.specs.BoundedSums.{narrow_top};
ghost use Rattle.asg_proof.specs.GradeAmounts.{amount_at};
ghost use Rattle.asg_square.specs.Grid.{cell_at};

use asg_square::Square;

// Where sums in 64 bits stop.
const MOST: u128 = 1 << 62;

// The amount of a value at a grade: none where its grade is higher, 0 where it is lower.
#[inline]
fn amount_of(value: (u64, u128), grade: u64) -> Option<u128>
    ensures { result ≡ amount_at grade value }
{
    if grade < value.0 {
        return None;
    }
    if value.0 < grade {
        return Some(0);
    }
    Some(value.1)
}

// Whether an amount is at most where sums stop, and with the number of its row at least that of its
// column.
#[inline]
fn amount_ends_well(amount: u128, row: u64, column: u64) -> bool
    ensures few { IsTrue result → amount ≤ narrow_top }
    ensures ends { IsTrue result → column ≤ amount + row }
{
    if MOST < amount {
        return false;
    }
    u128::from(column) <= amount + u128::from(row)
}

// Whether the amount of a value, if it has one, does so.
#[inline]
fn value_ends_well(value: (u64, u128), grade: u64, row: u64, column: u64) -> bool
    ensures { IsTrue result → EndsWellAt grade row column (Some value) }
{
    match amount_of(value, grade) {
        Some(amount) => amount_ends_well(amount, row, column),
        None => true,
    }
}

// Whether a cell ends well, which has this value where it is present. The value is looked at first,
// since few cells are absent.
#[inline]
fn cell_ends_well(
    square: &Square<(u64, u128)>,
    r: u32,
    k: u32,
    value: (u64, u128),
    grade: u64,
    row: u64,
    column: u64,
) -> bool
    requires row { r < square.now.side }
    requires column { k < square.now.side }
    requires value { (x : ℕ × ℕ) → cell_at square.now r k ≡ Some x → value ≡ x }
    ensures { IsTrue result → EndsWellAt grade row column (cell_at square.now r k) }
{
    if value_ends_well(value, grade, row, column) {
        return true;
    }
    square.at(r, k).is_none()
}

// Whether each cell of a row ends well.
fn row_ends_well(
    square: &Square<(u64, u128)>,
    r: u32,
    grade: u64,
    row: u64,
    columns: &[u64],
) -> bool
    requires row { r < square.now.side }
    requires columns { length columns.now ≡ square.now.side }
    ensures { IsTrue result
        → RowEndsWell grade square.now.side row columns.now (cell_at square.now r) }
{
    let values = square.row_values(r);
    'columns: for k in 0..square.side() {
        let place = k as usize;
        if !cell_ends_well(square, r, k, values[place], grade, row, columns[place]) {
            return false;
        }
    }
    true
}

/// Whether each cell ends well, by a number for each row and one for each column.
pub(crate) fn rows_end_well(
    square: &Square<(u64, u128)>,
    grade: u64,
    rows: &[u64],
    columns: &[u64],
) -> bool
    requires rows { length rows.now ≡ square.now.side }
    requires columns { length columns.now ≡ square.now.side }
    ensures { IsTrue result → RowsEndWell grade square.now.side square.now.side rows.now columns.now
        (cell_at square.now) }
{
    'rows: for r in 0..square.side() {
        if !row_ends_well(square, r, grade, rows[r as usize], columns) {
            return false;
        }
    }
    true
}
