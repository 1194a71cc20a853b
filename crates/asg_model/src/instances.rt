//! Instances.

ghost use Rattle.std.specs.Prelude.{◌≡◌, ◌<◌, ◌≤◌, ℕ, ◌^◌, [], None, length, All, IfSome, slice_index_or};
ghost use Rattle.std.specs.List.Sorted.{IsStrictlySortedBy};
ghost use Rattle.std.specs.Map.{keys_of};
ghost use Rattle.asg_model.specs.Problem.{problem_of};

use crate::cell_lists::{cells_of_row, listed_cell};
use crate::cell_store::{CellStore, table_cell, table_parts};
use crate::parts::{Column, Cost, Place, Row, RowParts};
use crate::row_rooms::RowRoom;
use std::collections::BTreeMap;
use std::marker::Model;

/// An instance: rows, columns, the costs of cells by the places of their row and column, and a
/// place rule. A place counts from 0.
#[derive(Drop)]
pub struct Instance {
    pub(crate) rows: Vec<Row>,
    pub(crate) columns: Vec<Column>,
    pub(crate) store: CellStore,
    pub(crate) place: Place,
}

impl Model for Instance {
    ghost use Rattle.asg_model.specs.Problem.{Problem};

    ghost Value = { Problem };

    ghost use Rattle.asg_model.specs.CellStores.{stored_problem, IsStored};

    ghost view = { λ i. stored_problem i.rows.items i.columns.items i.store i.place };

    ghost invariant = { λ i. IsStored i.rows.items i.columns.items i.store i.place };
}

impl Instance {
    ghost use Rattle.asg_model.specs.CellLists.{AreRowCells, IsRowOf};
    ghost use Rattle.asg_model.specs.Instances.{IsWellFormed, IsInstance, IsCostInRange, by_places};
    ghost use Rattle.asg_model.specs.Live.{is_active, is_open, cost_at, live_at};
    ghost use Rattle.asg_model.specs.Counts.{active_count, placed, slack, is_counted};
    ghost use Rattle.asg_model.specs.Table.{absent, table_cost, table_cells, IsTable, AreRowParts};

    /// The instance of these parts. It takes no memory.
    pub fn with(
        rows: Vec<Row>,
        columns: Vec<Column>,
        cells: BTreeMap<(u32, u32), Cost>,
        place: Place,
    ) -> Instance
        requires { IsWellFormed (problem_of rows.items columns.items cells.entries place) }
        ensures { result ≡ problem_of rows.items columns.items cells.entries place }
    {
        // What the types and the map give is told by reading.
        read_row_ids(rows.as_slice());
        read_column_ids(columns.as_slice());
        let _size = cells.len();
        Instance {
            rows,
            columns,
            store: CellStore::Map(cells),
            place,
        }
    }

    /// The instance of these rows and columns and of a whole table of costs, row by row: the first
    /// parts, [`ABSENT`] where there is no cell, and the second parts, each 0 past the last that is
    /// given. It takes no memory.
    ///
    /// [`ABSENT`]: crate::ABSENT
    pub fn of_table(
        rows: Vec<Row>,
        columns: Vec<Column>,
        firsts: Vec<i64>,
        seconds: Vec<i64>,
        place: Place,
    ) -> Instance
        requires parts { IsWellFormed (problem_of rows.items columns.items [] place) }
        requires table { IsTable (length rows.items) (length columns.items)
            firsts.items seconds.items }
        ensures { result ≡ problem_of rows.items columns.items
            (table_cells (length columns.items) firsts.items seconds.items) place }
    {
        // What the types give is told by reading.
        read_row_ids(rows.as_slice());
        read_column_ids(columns.as_slice());
        Instance {
            rows,
            columns,
            store: CellStore::Table { firsts, seconds },
            place,
        }
    }

    /// The instance of these rows and columns and of a list of cells with their costs, each by the
    /// places of its row and its column, in order by row and then by column, none twice. It takes
    /// no memory.
    pub fn of_cells(
        rows: Vec<Row>,
        columns: Vec<Column>,
        cells: Vec<((u32, u32), Cost)>,
        place: Place,
    ) -> Instance
        requires parts { IsWellFormed (problem_of rows.items columns.items cells.items place) }
        requires ascend { IsStrictlySortedBy by_places (keys_of cells.items) }
        ensures { result ≡ problem_of rows.items columns.items cells.items place }
    {
        // What the types give is told by reading.
        read_row_ids(rows.as_slice());
        read_column_ids(columns.as_slice());
        Instance {
            rows,
            columns,
            store: CellStore::Listed(cells),
            place,
        }
    }

    /// The rows in order.
    pub fn rows(&self) -> &[Row]
        ensures rows { result.now ≡ self.now.rows }
        ensures instance { IsInstance self.now }
    {
        self.rows.as_slice()
    }

    /// The columns in order.
    pub fn columns(&self) -> &[Column]
        ensures columns { result.now ≡ self.now.columns }
        ensures instance { IsInstance self.now }
    {
        self.columns.as_slice()
    }

    /// The place rule.
    pub fn place(&self) -> Place
        ensures { result ≡ self.now.place }
    {
        self.place
    }

    /// The cost of the cell at the places of a row and a column; `None` exactly where the cell
    /// isn't live, as past the end of the rows or the columns.
    pub fn live(&self, row: u32, col: u32) -> Option<Cost>
        ensures cost { result ≡ live_at self.now row col }
        ensures in_range { IfSome result IsCostInRange }
    {
        if self.is_active(row) && self.is_open(col) {
            self.cell(row, col)
        } else {
            None
        }
    }

    /// How many rows a valid choice places.
    pub fn placed(&self) -> u32
        ensures { result ≡ placed self.now }
    {
        match self.place {
            Place::All => self.active_count(),
            Place::Exactly(count) => count,
        }
    }

    /// How many counted rows a valid choice leaves out: none for `All`, the rows beyond the stated
    /// number for `Exactly`.
    pub fn slack(&self) -> u32
        ensures { result ≡ slack self.now }
    {
        match self.place {
            Place::All => 0,
            Place::Exactly(count) => self.rows.len() as u32 - count,
        }
    }

    // The number of active rows.
    pub(crate) fn active_count(&self) -> u32
        ensures { result ≡ active_count self.now }
    {
        self.rows.iter().filter(|row| row.active).count() as u32
    }

    /// Whether the row at this place is counted: where all rows are placed, it is there and active;
    /// else it is there.
    pub fn is_counted(&self, row: u32) -> bool
        ensures { result ≡ is_counted self.now row }
    {
        match self.place {
            Place::All => self.is_active(row),
            Place::Exactly(_) => (row as usize) < self.rows.len(),
        }
    }

    /// Whether there is a row at this place, and it is active.
    pub fn is_active(&self, row: u32) -> bool
        ensures { result ≡ is_active self.now row }
    {
        match self.rows.get(row as usize) {
            Some(found) => found.active,
            None => false,
        }
    }

    // Whether there is a column at this place, and it is open.
    pub(crate) fn is_open(&self, col: u32) -> bool
        ensures { result ≡ is_open self.now col }
    {
        match self.columns.get(col as usize) {
            Some(found) => found.usable,
            None => false,
        }
    }

    /// Both parts of the costs of the cells of a row, column by column, live or not; `None` exactly
    /// past the last row. A loop over a row needs no look-up then: a table has them side by side,
    /// and from a map they are read into the room.
    pub fn row_parts<'a>(&'a self, row: u32, room: &'a mut RowRoom) -> Option<RowParts<'a>>
        ensures parts { IfSome result (λ parts.
            AreRowParts self.now row parts.firsts.now parts.seconds.now) }
        ensures past { result ≡ None → length self.now.rows ≤ row }
    {
        match &self.store {
            CellStore::Map(_) => self.map_parts(row, room),
            CellStore::Listed(cells) => self.listed_parts(cells.as_slice(), row, room),
            CellStore::Table { firsts, seconds } => table_parts(
                self.rows().len(),
                self.columns().len(),
                firsts.as_slice(),
                seconds.as_slice(),
                row,
            ),
        }
    }

    // The same, read into the room.
    fn map_parts<'a>(&self, row: u32, room: &'a mut RowRoom) -> Option<RowParts<'a>>
        ensures parts { IfSome result (λ parts.
            AreRowParts self.now row parts.firsts.now parts.seconds.now) }
        ensures past { result ≡ None → length self.now.rows ≤ row }
    {
        if (row as usize) < self.rows().len() {
            self.read_row(row, room);
            Some(room.parts(self.columns().len()))
        } else {
            None
        }
    }

    /// The cells of a row, each once, by the places of the row and of their columns, live or not,
    /// where the instance keeps its cells in a list; `None` past the last row, and where it keeps
    /// them otherwise. A loop over them passes over no column without a cell.
    pub fn row_cells(&self, row: u32) -> Option<&[((u32, u32), Cost)]>
        ensures { IfSome result (λ cells. AreRowCells self.now row cells.now) }
    {
        match &self.store {
            CellStore::Listed(cells) => self.listed_row(cells.as_slice(), row),
            _ => None,
        }
    }

    // The cells of a row among all cells of the instance; `None` exactly past the last row.
    fn listed_row<'a>(
        &self,
        cells: &'a [((u32, u32), Cost)],
        row: u32,
    ) -> Option<&'a [((u32, u32), Cost)]>
        requires { cells.now ≡ self.now.cells }
        ensures cells { IfSome result (λ cells. AreRowCells self.now row cells.now) }
        ensures past { result ≡ None → length self.now.rows ≤ row }
    {
        if (row as usize) < self.rows().len() {
            Some(cells_of_row(cells, row))
        } else {
            None
        }
    }

    // Both parts of the costs of a row, read into the room from all cells of the instance.
    fn listed_parts<'a>(
        &self,
        cells: &[((u32, u32), Cost)],
        row: u32,
        room: &'a mut RowRoom,
    ) -> Option<RowParts<'a>>
        requires { cells.now ≡ self.now.cells }
        ensures parts { IfSome result (λ parts.
            AreRowParts self.now row parts.firsts.now parts.seconds.now) }
        ensures past { result ≡ None → length self.now.rows ≤ row }
    {
        let cells = self.listed_row(cells, row)?;
        let columns = self.columns().len();
        room.read(cells);
        Some(room.parts(columns))
    }

    // Reads the costs of a row into the room, cell by cell.
    fn read_row(&self, row: u32, room: &mut RowRoom)
        ensures { (c : ℕ) → c < length self.now.columns → cost_at self.now.cells row c
            ≡ table_cost room.new.seconds c (slice_index_or room.new.firsts c absent) }
    {
        for col in 0..self.columns().len() as u32 {
            room.put(col, self.cell(row, col));
        }
    }

    // The cost of the cell, live or not.
    fn cell(&self, row: u32, col: u32) -> Option<Cost>
        ensures cost { result ≡ cost_at self.now.cells row col }
        ensures in_range { IfSome result IsCostInRange }
    {
        match &self.store {
            CellStore::Map(cells) => cells.get(&(row, col)).copied(),
            CellStore::Listed(cells) => listed_cell(cells.as_slice(), row, col),
            CellStore::Table { firsts, seconds } => table_cell(
                self.rows().len(),
                self.columns().len(),
                firsts.as_slice(),
                seconds.as_slice(),
                row,
                col,
            ),
        }
    }
}

// Tells the proof that an id is below 2^32, as its type says.
fn tell_fits(id: u32)
    ensures { id < 2 ^ 32 }
{
    let _id = id;
}

// Tells the proof that the ids are below 2^32, as their type says.
fn read_row_ids(rows: &[Row])
    ensures { All (λ row. row.id < 2 ^ 32) rows.now }
{
    for row in rows {
        tell_fits(row.id);
    }
}

// Tells the proof that the ids are below 2^32, as their type says.
fn read_column_ids(columns: &[Column])
    ensures { All (λ column. column.id < 2 ^ 32) columns.now }
{
    for column in columns {
        tell_fits(column.id);
    }
}
