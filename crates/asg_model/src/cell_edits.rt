//! Edits of the cells of an instance, where they stand.

ghost use Rattle.std.specs.Prelude.{◌≡◌, ◌≢◌, ◌<◌, ◌≤◌, ℕ, pos, All, IfSome, OnOk, OnErr, length, slice_index_or};
ghost use Rattle.std.specs.List.Sorted.{IsStrictlySortedBy};
ghost use Rattle.std.specs.Map.{keys_of};
ghost use Rattle.asg_model.specs.CellStores.{cells_in, IsCellStore, IsStoreOf, PutsInTable};
ghost use Rattle.asg_model.specs.Edits.{with_cell};
ghost use Rattle.asg_model.specs.Instances.{IsCostInRange, by_places};
ghost use Rattle.asg_model.specs.Limits.{most_rows, most_columns};
ghost use Rattle.asg_model.specs.Table.{table_cells, IsTable};
ghost use Rattle.asg_model.specs.ValueRange.{IsPartInRange};

use crate::NoMemory;
use crate::cell_lists::table_of;
use crate::cell_store::CellStore;
use crate::parts::{ABSENT, Cost};
use std::collections::BTreeMap;

impl CellStore {
    // Gives the cell at a place, of so many rows and columns, this cost or none. The error is want
    // of memory.
    pub(crate) fn put(
        &mut self,
        rows: usize,
        columns: usize,
        row: u32,
        col: u32,
        cell: Option<Cost>,
    ) -> Result<(), NoMemory>
        requires few { columns ≤ most_columns }
        requires row { row < rows }
        requires col { col < columns }
        requires few_rows { rows ≤ most_rows }
        requires store { IsCellStore rows columns self.old }
        requires range { IfSome cell IsCostInRange }
        ensures put { OnOk result
            (cells_in columns self.new ≡ with_cell (cells_in columns self.old) (row, col) cell) }
        ensures ordered { OnOk result
            (IsStrictlySortedBy by_places (keys_of (cells_in columns self.new))) }
        ensures whole { IsStoreOf rows columns self.new }
        ensures kept { OnErr result (cells_in columns self.new ≡ cells_in columns self.old) }
    {
        match self {
            CellStore::Map(cells) => put_in_map(cells, row, col, cell),
            CellStore::Listed(cells) => {
                let alloc = *cells.allocator();
                let (mut firsts, mut seconds) = table_of(alloc, rows, columns, cells.as_slice())?;
                put_in_whole(&mut firsts, &mut seconds, rows, columns, (row, col), cell)?;
                *self = CellStore::Table { firsts, seconds };
                Ok(())
            }
            CellStore::Table { firsts, seconds } => {
                put_in_whole(firsts, seconds, rows, columns, (row, col), cell)
            }
        }
    }
}

// Gives the cell at a place of a map this cost, or none.
fn put_in_map(
    cells: &mut BTreeMap<(u32, u32), Cost>,
    row: u32,
    col: u32,
    cell: Option<Cost>,
) -> Result<(), NoMemory>
    ensures put { OnOk result
        (cells.new.entries ≡ with_cell cells.old.entries (row, col) cell) }
    ensures ordered { OnOk result (IsStrictlySortedBy by_places (keys_of cells.new.entries)) }
    ensures kept { OnErr result (cells.new.entries ≡ cells.old.entries) }
{
    match cell {
        Some(cost) => {
            cells.insert((row, col), cost)?;
        }
        None => {
            cells.remove(&(row, col));
        }
    }
    Ok(())
}

// Gives the cell at a place of a whole table of so many rows and columns this cost, or none.
pub(crate) fn put_in_whole(
    firsts: &mut Vec<i64>,
    seconds: &mut Vec<i64>,
    rows: usize,
    columns: usize,
    place: (u32, u32),
    cell: Option<Cost>,
) -> Result<(), NoMemory>
    requires few { columns ≤ most_columns }
    requires row { place.0 < rows }
    requires col { place.1 < columns }
    requires table { IsTable rows columns firsts.old.items seconds.old.items }
    requires range { IfSome cell IsCostInRange }
    ensures put { OnOk result (table_cells columns firsts.new.items seconds.new.items
        ≡ with_cell (table_cells columns firsts.old.items seconds.old.items) place cell) }
    ensures table { IsTable rows columns firsts.new.items seconds.new.items }
    ensures kept { OnErr result (table_cells columns firsts.new.items seconds.new.items
        ≡ table_cells columns firsts.old.items seconds.old.items) }
{
    let index = place.0 as usize * columns + place.1 as usize;
    put_in_table(firsts, seconds, index, cell)
}

// Gives the cell at an index of a table this cost, or none. Memory is taken where a second part
// other than 0 stands past the last that is kept.
fn put_in_table(
    firsts: &mut Vec<i64>,
    seconds: &mut Vec<i64>,
    index: usize,
    cell: Option<Cost>,
) -> Result<(), NoMemory>
    requires within { index < length firsts.old.items }
    requires range { IfSome cell IsCostInRange }
    ensures put { OnOk result (PutsInTable index cell firsts.old.items seconds.old.items
        firsts.new.items seconds.new.items) }
    ensures firsts_kept { OnErr result (firsts.new.items ≡ firsts.old.items) }
    ensures seconds_kept { OnErr result (seconds.new.items ≡ seconds.old.items) }
{
    match cell {
        Some(cost) => {
            put_second(seconds, firsts.len(), index, cost.b)?;
            firsts[index] = cost.a;
        }
        None => firsts[index] = ABSENT,
    }
    Ok(())
}

// Gives the second part at an index of a table of so many entries this value.
fn put_second(
    seconds: &mut Vec<i64>,
    count: usize,
    index: usize,
    second: i64,
) -> Result<(), NoMemory>
    requires within { index < count }
    requires range { IsPartInRange second }
    ensures second { OnOk result (slice_index_or seconds.new.items index (pos 0) ≡ second) }
    ensures others { OnOk result ((i : ℕ) → i ≢ index
        → slice_index_or seconds.new.items i (pos 0)
        ≡ slice_index_or seconds.old.items i (pos 0)) }
    ensures in_range { OnOk result
        (All IsPartInRange seconds.old.items → All IsPartInRange seconds.new.items) }
    ensures kept { OnErr result (seconds.new.items ≡ seconds.old.items) }
{
    if index < seconds.len() {
        set_second(seconds, index, second);
        return Ok(());
    }
    if second == 0 {
        return Ok(());
    }
    widen(seconds, count)?;
    set_second(seconds, index, second);
    Ok(())
}

// Gives the second part at an index this value.
fn set_second(seconds: &mut Vec<i64>, index: usize, second: i64)
    requires within { index < length seconds.old.items }
    requires range { IsPartInRange second }
    ensures second { slice_index_or seconds.new.items index (pos 0) ≡ second }
    ensures others { (i : ℕ) → i ≢ index
        → slice_index_or seconds.new.items i (pos 0) ≡ slice_index_or seconds.old.items i (pos 0) }
    ensures in_range { All IsPartInRange seconds.old.items → All IsPartInRange seconds.new.items }
{
    seconds[index] = second;
}

// Appends zeros, so that there are so many second parts.
fn widen(seconds: &mut Vec<i64>, count: usize) -> Result<(), NoMemory>
    requires { length seconds.old.items ≤ count }
    ensures count { OnOk result (length seconds.new.items ≡ count) }
    ensures same { OnOk result ((i : ℕ)
        → slice_index_or seconds.new.items i (pos 0) ≡ slice_index_or seconds.old.items i (pos 0)) }
    ensures in_range { OnOk result
        (All IsPartInRange seconds.old.items → All IsPartInRange seconds.new.items) }
    ensures kept { OnErr result (seconds.new.items ≡ seconds.old.items) }
{
    seconds.resize(count, 0)?;
    Ok(())
}
