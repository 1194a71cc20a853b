//! Where the costs of an instance stand.

ghost use Rattle.std.specs.Prelude.{◌≡◌, ℕ, ◌+◌, ◌*◌, ◌<◌, ◌≤◌, None, length, pos, take, drop, OnSome, IfSome, slice_get, slice_index_or, option_and_then, if◌then◌else◌};
ghost use Rattle.std.specs.Ordering.{int_eq};
ghost use Rattle.asg_model.specs.Limits.{most_columns};
ghost use Rattle.asg_model.specs.Live.{cost_at};
ghost use Rattle.asg_model.specs.Table.{absent, table_cost, table_cells, AreTableParts};

use crate::parts::{ABSENT, Cost, RowParts};
use std::collections::BTreeMap;

// The costs of cells: in a map by their places, in a list by their places, or in a table row by row,
// the first parts apart from the second. Past the end of the second parts a second part is 0.
#[derive(Drop)]
pub(crate) enum CellStore {
    Map(BTreeMap<(u32, u32), Cost>),
    Listed(Vec<((u32, u32), Cost)>),
    Table { firsts: Vec<i64>, seconds: Vec<i64> },
}

// The cost of a cell in a table of so many rows and columns.
pub(crate) fn table_cell(
    rows: usize,
    columns: usize,
    firsts: &[i64],
    seconds: &[i64],
    row: u32,
    col: u32,
) -> Option<Cost>
    requires few { columns ≤ most_columns }
    requires whole { length firsts.now ≡ rows * columns }
    ensures { result ≡ cost_at (table_cells columns firsts.now seconds.now) row col }
{
    if (col as usize) < columns {
        table_cost(firsts, seconds, row as usize * columns + col as usize)
    } else {
        None
    }
}

// The cost at this index of a table.
fn table_cost(firsts: &[i64], seconds: &[i64], index: usize) -> Option<Cost>
    ensures { result ≡ option_and_then (table_cost seconds.now index) (slice_get firsts.now index) }
{
    match firsts.get(index) {
        Some(a) => present_cost(*a, second_part(seconds, index)),
        None => None,
    }
}

// The cost of these parts, none where the first is that of an absent cell.
#[inline]
pub(crate) fn present_cost(a: i64, b: i64) -> Option<Cost>
    ensures { result ≡ (if int_eq a absent then None else Some (record { a = a; b = b })) }
{
    if a == ABSENT {
        None
    } else {
        Some(Cost { a, b })
    }
}

// The second part at this index, 0 past the last.
#[inline]
pub(crate) fn second_part(seconds: &[i64], index: usize) -> i64
    ensures { result ≡ slice_index_or seconds.now index (pos 0) }
{
    match seconds.get(index) {
        Some(b) => *b,
        None => 0,
    }
}

// The first parts of the row at this place of a table of so many rows and columns.
fn table_row(rows: usize, columns: usize, firsts: &[i64], row: u32) -> Option<&[i64]>
    requires few { columns ≤ most_columns }
    requires whole { length firsts.now ≡ rows * columns }
    ensures there { OnSome result (row < rows) }
    ensures past { result ≡ None → rows ≤ row }
    ensures costs { IfSome result
        (λ costs. costs.now ≡ take columns (drop (row * columns) firsts.now)) }
{
    if (row as usize) < rows {
        let start = row as usize * columns;
        Some(&firsts[start..start + columns])
    } else {
        None
    }
}

// The second parts of the row at this place of a table of so many columns, as far as there are any.
fn table_seconds(columns: usize, seconds: &[i64], row: u32) -> &[i64]
    requires few { columns ≤ most_columns }
    ensures { (c : ℕ) → c < columns → slice_index_or result.now c (pos 0)
        ≡ slice_index_or seconds.now (row * columns + c) (pos 0) }
{
    let start = row as usize * columns;
    let end = start + columns;
    &seconds[start.min(seconds.len())..end.min(seconds.len())]
}

// Both parts of the row at this place of a table of so many rows and columns.
pub(crate) fn table_parts<'a>(
    rows: usize,
    columns: usize,
    firsts: &'a [i64],
    seconds: &'a [i64],
    row: u32,
) -> Option<RowParts<'a>>
    requires few { columns ≤ most_columns }
    requires whole { length firsts.now ≡ rows * columns }
    ensures there { OnSome result (row < rows) }
    ensures past { result ≡ None → rows ≤ row }
    ensures parts { IfSome result (λ parts.
        AreTableParts columns firsts.now seconds.now row parts.firsts.now parts.seconds.now) }
{
    match table_row(rows, columns, firsts, row) {
        Some(firsts) => Some(RowParts {
            firsts,
            seconds: table_seconds(columns, seconds, row),
        }),
        None => None,
    }
}
