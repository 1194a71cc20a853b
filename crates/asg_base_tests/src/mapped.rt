//! The square of three rows whose cells are kept in a map.

ghost use Rattle.std.specs.Prelude.{◌≡◌, ◌<◌, length, IfOk};
ghost use Rattle.asg_model.specs.Instances.{AreCellsOf};

use asg_model::laws::{insert_law, well_formed_law};
use asg_model::{Cost, Instance, NoMemory};
use asg_text::{Format, read};
use std::alloc::Global;
use std::collections::BTreeMap;

// The square, each of whose second parts is twice the first.
const TEXT: &[u8] = b"3\n4:8 1:2 3:6\n2:4 0:0 5:10\n3:6 2:4 2:4\n";

// Puts the cell at a place of a table, row by row, where it has one.
fn put(cells: &mut BTreeMap<(u32, u32), Cost>, table: &Instance, place: u32) -> Result<(), NoMemory>
    requires kept { AreCellsOf 3 3 cells.old.entries }
    requires place { place < 9 }
    ensures { AreCellsOf 3 3 cells.new.entries }
{
    let Some(cost) = table.live(place / 3, place % 3) else {
        return Ok(());
    };
    cells.insert((place / 3, place % 3), cost)?;
    insert_law();
    Ok(())
}

// The cells of a table.
fn cells_of(alloc: Global, table: &Instance) -> Result<BTreeMap<(u32, u32), Cost>, NoMemory>
    ensures { IfOk result (λ cells. AreCellsOf 3 3 cells.entries) }
{
    let mut cells = BTreeMap::new(alloc);
    for place in 0..9 {
        put(&mut cells, table, place)?;
    }
    Ok(cells)
}

// The instance of a table of three rows and three columns, with its cells in a map.
fn in_map(alloc: Global, table: &Instance) -> Result<Instance, NoMemory>
    requires rows { length table.now.rows ≡ 3 }
    requires columns { length table.now.columns ≡ 3 }
{
    let cells = cells_of(alloc, table)?;
    let rows = Vec::from_slice(alloc, table.rows())?;
    let columns = Vec::from_slice(alloc, table.columns())?;
    well_formed_law();
    Ok(Instance::with(rows, columns, cells, table.place()))
}

// The same, where the table has as many.
fn of_three(alloc: Global, table: &Instance) -> Option<Instance> {
    if table.rows().len() != 3 || table.columns().len() != 3 {
        return None;
    }
    in_map(alloc, table).ok()
}

/// The square.
pub(crate) fn square(alloc: Global) -> Option<Instance> {
    let table = read(alloc, Format::Square, TEXT).ok()?;
    let square = of_three(alloc, &table);
    drop(table);
    square
}
