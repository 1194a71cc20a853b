//! Lists of cells, by the places of their row and column.

ghost use Rattle.std.specs.Prelude.{◌≡◌, ℕ, ◌<◌, ◌≤◌, true, false, nat_lt, IfOk, IfSome, OnSome, Some, All, length};
ghost use Rattle.std.specs.List.Sorted.{IsNonDecreasingBy, IsPartitionPoint, IsStrictlySortedBy};
ghost use Rattle.std.specs.Map.{keys_of};
ghost use Rattle.asg_model.specs.CellLists.{IsRowOf, IsTableOf};
ghost use Rattle.asg_model.specs.Instances.{AreCellsOf, by_places};
ghost use Rattle.asg_model.specs.Limits.{most_rows, most_columns};
ghost use Rattle.asg_model.specs.Live.{cost_at};

use crate::NoMemory;
use crate::cell_edits::put_in_whole;
use crate::parts::{ABSENT, Cost};
use std::alloc::Global;

// How many cells of a list in the order of its rows stand in rows before one.
fn cells_before(cells: &[((u32, u32), Cost)], row: usize) -> usize
    requires { IsNonDecreasingBy (λ cell. cell.0.0) cells.now }
    ensures bound { result ≤ length cells.now }
    ensures point { IsPartitionPoint (λ cell. nat_lt cell.0.0 row ≡ true)
        (λ cell. nat_lt cell.0.0 row ≡ false) cells.now result }
{
    cells.partition_point(|cell: &((u32, u32), Cost)| -> bool { (cell.0.0 as usize) < row })
}

// The cells of a row of an ascending list.
pub(crate) fn cells_of_row(cells: &[((u32, u32), Cost)], row: u32) -> &[((u32, u32), Cost)]
    requires { IsStrictlySortedBy by_places (keys_of cells.now) }
    ensures { IsRowOf cells.now row result.now }
{
    let rest = &cells[cells_before(cells, row as usize)..];
    &rest[..cells_before(rest, row as usize + 1)]
}

// The place of a cell before which the cells of an ascending list stand in earlier rows, or in this
// one in earlier columns.
fn place_for(cells: &[((u32, u32), Cost)], row: u32, col: u32) -> usize {
    cells.partition_point(|cell: &((u32, u32), Cost)| -> bool {
        cell.0.0 < row || (cell.0.0 == row && cell.0.1 < col)
    })
}

// The cost of the cell at a place of an ascending list, where it is that of this row and column.
fn cost_there(cells: &[((u32, u32), Cost)], place: usize, row: u32, col: u32) -> Option<Cost>
    requires { IsStrictlySortedBy by_places (keys_of cells.now) }
    ensures { IfSome result (λ cost. cost_at cells.now row col ≡ Some cost) }
{
    if place >= cells.len() {
        return None;
    }
    let cell = cells[place];
    if cell.0.0 != row || cell.0.1 != col {
        return None;
    }
    Some(cell.1)
}

// The cost of a cell in an ascending list: a cell that is there is found by one search.
pub(crate) fn listed_cell(cells: &[((u32, u32), Cost)], row: u32, col: u32) -> Option<Cost>
    requires { IsStrictlySortedBy by_places (keys_of cells.now) }
    ensures { result ≡ cost_at cells.now row col }
{
    if let Some(cost) = cost_there(cells, place_for(cells, row, col), row, col) {
        return Some(cost);
    }
    cost_in(cells_of_row(cells, row), row, col)
}

// The cost of the first cell of this row and column in a list.
fn cost_in(cells: &[((u32, u32), Cost)], row: u32, col: u32) -> Option<Cost>
    ensures { result ≡ cost_at cells.now row col }
{
    for cell in cells {
        if cell.0.0 == row && cell.0.1 == col {
            return Some(cell.1);
        }
    }
    None
}

// A table of so many rows and columns with the costs of these cells. The error is want of memory.
pub(crate) fn table_of(
    alloc: Global,
    rows: usize,
    columns: usize,
    cells: &[((u32, u32), Cost)],
) -> Result<(Vec<i64>, Vec<i64>), NoMemory>
    requires few_rows { rows ≤ most_rows }
    requires few_columns { columns ≤ most_columns }
    requires cells { AreCellsOf rows columns cells.now }
    requires ascend { IsStrictlySortedBy by_places (keys_of cells.now) }
    ensures { IfOk result (λ parts. IsTableOf rows columns cells.now parts.0.items parts.1.items) }
{
    let mut firsts = vec![in alloc; ABSENT; rows * columns]?;
    let mut seconds = Vec::new(alloc);
    for cell in cells {
        put_in_whole(
            &mut firsts,
            &mut seconds,
            rows,
            columns,
            cell.0,
            Some(cell.1),
        )?;
    }
    Ok((firsts, seconds))
}
