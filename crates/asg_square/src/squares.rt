//! Squares.

ghost use Rattle.std.specs.Prelude.{◌≡◌, ◌<◌, ◌≤◌, ◌+◌, ◌*◌, Some, is_some, IsSome, IfOk, slice_get, slice_set};
ghost use Rattle.asg_model.specs.declared.parts.Cost.{Cost};
ghost use Rattle.asg_bit_rows.specs.BitTable.{AreWordsOf};
ghost use Rattle.asg_cell_tables.specs.Changes.{MayMapRow};
ghost use Rattle.asg_square.specs.RowChanges.{MapsRow};
ghost use Rattle.asg_cell_tables.specs.CellTable.{AreValuesOf, AreAllValuesOf};
ghost use Rattle.asg_square.specs.Grid.{Grid, IsGrid, cell_at, IsSquareBy, HasLabelsOf, HasPresenceOf};
ghost use Rattle.asg_cell_tables.specs.LabelledCells.{MayEnterEach};
ghost use Rattle.asg_model.specs.Limits.{most_side};
ghost use Rattle.asg_model.specs.Shapes.{square_side};

use crate::NoMemory;
use crate::labels::{fill_column_labels, fill_row_labels};
use asg_bit_rows::overwrite;
use asg_cell_tables::{CellTable, fill_cells};
use asg_model::{Cost, Instance};
use std::alloc::Global;
use std::marker::Model;

/// A square of optional values, with the instance row that each of its rows stands for and the
/// instance column that each of its columns is a copy of.
#[derive(Drop)]
pub struct Square<V: Copy> {
    rows: u32,
    row_labels: Vec<Option<u32>>,
    column_labels: Vec<Option<u32>>,
    cells: CellTable<V>,
}

impl<V: Copy> Model for Square<V> {
    ghost use Rattle.asg_square.specs.Grid.{Grid, IsGrid, grid_of};

    ghost Value = { Grid V };

    ghost view = { λ s. grid_of s.rows s.row_labels.items s.column_labels.items s.cells };

    ghost invariant = { λ s. IsGrid (grid_of s.rows s.row_labels.items s.column_labels.items s.cells) };
}

impl<V: Copy> Square<V> {
    /// The square of the instance: a live cell holds what its cost enters as, and each free cell
    /// `free`. The error is want of memory.
    pub fn of<E: Fn(Cost) -> V>(
        alloc: Global,
        inst: &Instance,
        free: V,
        enter: &E,
    ) -> Result<Square<V>, NoMemory>
        requires side { square_side inst.now ≤ most_side }
        requires enters { MayEnterEach inst.now (E.pre enter.now) }
        ensures labels { IfOk result (HasLabelsOf inst.now) }
        ensures present { IfOk result (HasPresenceOf inst.now) }
        ensures square { IfOk result (IsSquareBy inst.now free (E.post enter.now)) }
    {
        let side = inst.side();
        let row_labels = vec![in alloc; None; side as usize]?;
        let column_labels = vec![in alloc; None; side as usize]?;
        let cells = CellTable::make(alloc, side, free)?;
        let mut square = Square {
            rows: 0,
            row_labels,
            column_labels,
            cells,
        };
        square.fill(inst, free, enter);
        Ok(square)
    }

    /// Makes this square that of the instance, as [`Square::of`] gives it. The side stays, so it is
    /// the side of the instance's square. It takes no memory.
    pub fn fill<E: Fn(Cost) -> V>(&mut self, inst: &Instance, free: V, enter: &E)
        requires side { self.old.side ≡ square_side inst.now }
        requires enters { MayEnterEach inst.now (E.pre enter.now) }
        ensures labels { HasLabelsOf inst.now self.new }
        ensures present { HasPresenceOf inst.now self.new }
        ensures square { IsSquareBy inst.now free (E.post enter.now) self.new }
    {
        self.rows = inst.rows().len() as u32;
        fill_row_labels(inst, &mut self.row_labels);
        fill_column_labels(inst, &mut self.column_labels);
        let rows = self.row_labels.as_slice();
        let columns = self.column_labels.as_slice();
        fill_cells(inst, free, enter, rows, columns, &mut self.cells);
    }

    /// The side.
    pub fn side(&self) -> u32
        ensures side { result ≡ self.now.side }
        ensures grid { IsGrid self.now }
    {
        self.cells.side()
    }

    /// How many rows the instance has whose square this is.
    pub fn rows(&self) -> u32
        ensures rows { result ≡ self.now.rows }
        ensures grid { IsGrid self.now }
    {
        self.rows
    }

    /// The place of the instance row that this row stands for: of an active row where all are
    /// placed, of any row where the rule says how many are.
    pub fn row_label(&self, r: u32) -> Option<u32>
        requires { r < self.now.side }
        ensures { slice_get self.now.row_labels r ≡ Some result }
    {
        self.row_labels[r as usize]
    }

    /// The place of the instance column that this column is a copy of.
    pub fn column_label(&self, c: u32) -> Option<u32>
        requires { c < self.now.side }
        ensures { slice_get self.now.column_labels c ≡ Some result }
    {
        self.column_labels[c as usize]
    }

    /// The cell.
    pub fn at(&self, r: u32, c: u32) -> Option<V>
        requires row_below { r < self.now.side }
        requires column_below { c < self.now.side }
        ensures { result ≡ cell_at self.now r c }
    {
        self.cells.at(r, c)
    }

    /// Changes one cell. All other cells, the side and the labels stay. It takes no memory.
    pub fn set(&mut self, r: u32, c: u32, cell: Option<V>)
        requires row_below { r < self.old.side }
        requires column_below { c < self.old.side }
        ensures { let place = r * self.old.side + c in
            self.new ≡ record self.old { cells = slice_set self.old.cells place cell } }
    {
        self.cells.set(r, c, cell);
    }

    /// Gives a present cell another value. All other cells, the side and the labels stay. It takes
    /// no memory.
    pub fn replace(&mut self, r: u32, c: u32, value: V)
        requires row_below { r < self.old.side }
        requires column_below { c < self.old.side }
        requires present { IsSome (cell_at self.old r c) }
        ensures { let place = r * self.old.side + c in
            self.new ≡ record self.old { cells = slice_set self.old.cells place (Some value) } }
    {
        self.cells.replace(r, c, value);
    }

    /// Gives each present cell of a row the value that `change` makes of its column and its value.
    /// All other cells, the side and the labels stay. It takes no memory.
    pub fn map_row<F: Fn(u32, V) -> V>(&mut self, r: u32, change: &F)
        requires row { r < self.old.side }
        requires changes { MayMapRow (cell_at self.old r) (F.pre change.now) }
        ensures { MapsRow self.old self.new r (F.post change.now) }
    {
        self.cells.map_row(r, change);
    }

    /// The values of a row, one for each column; that of an absent cell means nothing.
    pub fn row_values(&self, r: u32) -> &[V]
        requires { r < self.now.side }
        ensures { AreValuesOf (cell_at self.now r) self.now.side result.now }
    {
        self.cells.row_values(r)
    }

    /// The values of all cells, row by row; that of an absent cell means nothing.
    pub fn values(&self) -> &[V]
        ensures { AreAllValuesOf self.now.cells result.now }
    {
        self.cells.values()
    }

    /// Which cells of a row are present: bit `c % 64` of word `c / 64` says it of column `c`, and
    /// no bit past the last column is set.
    pub fn row_words(&self, r: u32) -> &[u64]
        requires { r < self.now.side }
        ensures { AreWordsOf (λ c. is_some (cell_at self.now r c)) self.now.side result.now }
    {
        self.cells.row_words(r)
    }

    /// An equal square. The error is want of memory.
    pub fn copy(&self, alloc: Global) -> Result<Square<V>, NoMemory>
        ensures { IfOk result (λ q. q ≡ self.now) }
    {
        let row_labels = Vec::from_slice(alloc, self.row_labels.as_slice())?;
        let column_labels = Vec::from_slice(alloc, self.column_labels.as_slice())?;
        let cells = self.cells.copy(alloc)?;
        Ok(Square {
            rows: self.rows,
            row_labels,
            column_labels,
            cells,
        })
    }

    /// Makes this square equal to one of the same side. It takes no memory.
    pub fn take(&mut self, other: &Square<V>)
        requires { self.old.side ≡ other.now.side }
        ensures { self.new ≡ other.now }
    {
        self.rows = other.rows;
        overwrite(&mut self.row_labels, other.row_labels.as_slice());
        overwrite(&mut self.column_labels, other.column_labels.as_slice());
        self.cells.take(&other.cells);
    }
}
