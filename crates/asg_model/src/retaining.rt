//! Cells of an instance that are kept, by their places, and all others taken out.

ghost use Rattle.std.specs.Prelude.{◌≡◌, ◌+◌, ◌<◌, ◌≤◌, ◌*◌, length, slice_set, All, if◌then◌else◌};
ghost use Rattle.std.specs.List.Sorted.{IsStrictlySortedBy};
ghost use Rattle.std.specs.Map.{keys_of};
ghost use Rattle.asg_model.specs.CellStores.{cells_in, IsCellStore};
ghost use Rattle.asg_model.specs.Instances.{by_places};
ghost use Rattle.asg_model.specs.Limits.{most_rows, most_columns};
ghost use Rattle.asg_model.specs.Retained.{MayAskEach, RetainsCells, Retains};
ghost use Rattle.asg_model.specs.Table.{absent, RetainsFirsts};

use crate::cell_store::CellStore;
use crate::instances::Instance;
use crate::parts::{ABSENT, Cost};
use std::collections::BTreeMap;

impl Instance {
    /// Keeps each cell, live or not, for which `keep` gives true at the place of its row and that
    /// of its column, and takes out all others. The rows, the columns, the place rule and the costs
    /// of the cells that are kept stay as they were. It takes no memory.
    pub fn retain<F: Fn(u32, u32) -> bool>(&mut self, keep: &F)
        requires { MayAskEach (length self.old.rows) (length self.old.columns) (F.pre keep.now) }
        ensures cells { Retains (F.post keep.now) self.old self.new }
        ensures others { self.new ≡ record self.old { cells = self.new.cells } }
    {
        let rows = self.rows().len();
        let columns = self.columns().len();
        retain_stored(&mut self.store, rows, columns, keep);
    }
}

// Keeps cells of a store of so many rows and columns.
fn retain_stored<F: Fn(u32, u32) -> bool>(
    store: &mut CellStore,
    rows: usize,
    columns: usize,
    keep: &F,
)
    requires few_rows { rows ≤ most_rows }
    requires few_columns { columns ≤ most_columns }
    requires store { IsCellStore rows columns store.old }
    requires may { MayAskEach rows columns (F.pre keep.now) }
    ensures store { IsCellStore rows columns store.new }
    ensures cells { RetainsCells (F.post keep.now) (cells_in columns store.old)
        (cells_in columns store.new) }
{
    match store {
        CellStore::Map(cells) => retain_entries(cells, keep),
        CellStore::Listed(cells) => retain_listed(cells, keep),
        CellStore::Table { firsts, .. } => retain_firsts(firsts, rows, columns, keep),
    }
}

// Keeps cells of a map.
fn retain_entries<F: Fn(u32, u32) -> bool>(cells: &mut BTreeMap<(u32, u32), Cost>, keep: &F)
    requires { All (λ cell. F.pre keep.now cell.0.0 cell.0.1) cells.old.entries }
    ensures ascend { IsStrictlySortedBy by_places (keys_of cells.new.entries) }
    ensures cells { RetainsCells (F.post keep.now) cells.old.entries cells.new.entries }
{
    cells.retain(
        |place: &(u32, u32), _cost: &mut Cost|
            requires { F.pre keep.now place.now.0 place.now.1 }
        { keep(place.0, place.1) },
    );
}

// Keeps cells of a list.
fn retain_listed<F: Fn(u32, u32) -> bool>(cells: &mut Vec<((u32, u32), Cost)>, keep: &F)
    requires { All (λ cell. F.pre keep.now cell.0.0 cell.0.1) cells.old.items }
    ensures { RetainsCells (F.post keep.now) cells.old.items cells.new.items }
{
    let mut kept = 0;
    for place in 0..cells.len() {
        let cell = cells.as_slice()[place];
        let is_kept = keep(cell.0.0, cell.0.1);
        kept = keep_listed(cells, kept, cell, is_kept);
    }
    cells.truncate(kept);
}

// Puts a cell behind those that are kept, or takes it out. How many are kept then.
#[inline]
fn keep_listed(
    cells: &mut Vec<((u32, u32), Cost)>,
    kept: usize,
    cell: ((u32, u32), Cost),
    is_kept: bool,
) -> usize
    requires { kept < length cells.old.items }
    ensures cells { cells.new.items
        ≡ (if is_kept then slice_set cells.old.items kept cell else cells.old.items) }
    ensures count { result ≡ (if is_kept then kept + 1 else kept) }
{
    if is_kept {
        cells[kept] = cell;
        kept + 1
    } else {
        kept
    }
}

// Keeps cells of a table of so many rows and columns, by the first parts of their costs.
fn retain_firsts<F: Fn(u32, u32) -> bool>(
    firsts: &mut Vec<i64>,
    rows: usize,
    columns: usize,
    keep: &F,
)
    requires few_rows { rows ≤ most_rows }
    requires few_columns { columns ≤ most_columns }
    requires whole { length firsts.old.items ≡ rows * columns }
    requires may { MayAskEach rows columns (F.pre keep.now) }
    ensures { RetainsFirsts (F.post keep.now) columns firsts.old.items firsts.new.items }
{
    for k in 0..rows * columns {
        let is_kept = keep((k / columns) as u32, (k % columns) as u32);
        keep_first(firsts, k, is_kept);
    }
}

// Keeps the first part of the cost of a cell, or takes it out.
#[inline]
fn keep_first(firsts: &mut Vec<i64>, k: usize, is_kept: bool)
    requires { k < length firsts.old.items }
    ensures { firsts.new.items
        ≡ (if is_kept then firsts.old.items else slice_set firsts.old.items k absent) }
{
    if !is_kept {
        firsts[k] = ABSENT;
    }
}
