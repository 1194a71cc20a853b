//! Square tables of optional values: plain values row by row, and rows of bits that say which are
//! there.

ghost use Rattle.std.specs.Prelude.{◌≡◌, ◌<◌, ◌≤◌, ◌+◌, ◌*◌, length, Some, is_some, IsSome, IfOk, IfSome, slice_set};
ghost use Rattle.asg_model.specs.declared.bands.Band.TheVariants.{Whole};
ghost use Rattle.asg_model.specs.declared.parts.Cost.{Cost};
ghost use Rattle.asg_bit_rows.specs.BitTable.{AreWordsOf, word_count};
ghost use Rattle.asg_cell_tables.specs.LabelledCells.{labelled_cell};
ghost use Rattle.asg_cell_tables.specs.Changes.{MapsTableRow, MayMapRow};
ghost use Rattle.asg_cell_tables.specs.CellTable.{CellTable as Table, entry_at, table_at, is_present_at, IsCellTable, AreValuesOf, AreAllValuesOf};
ghost use Rattle.asg_cell_tables.specs.Filling.{IsLiveRow, FillsPiece};
ghost use Rattle.asg_cell_tables.specs.LabelledCells.{MayEnterEach, Entering};
ghost use Rattle.asg_cell_tables.specs.LabelledCells.{is_labelled_within};
ghost use Rattle.asg_model.specs.Limits.{most_side};

use crate::NoMemory;
use crate::row_changes::change_row;
use crate::rows::{ColumnLabels, labelling_of, write_piece};
use asg_bit_rows::{BitRows, overwrite};
use asg_model::{Cost, Instance, RowParts};
use std::alloc::Global;
use std::marker::Model;

/// A square table of optional values.
#[derive(Drop)]
pub struct CellTable<V: Copy> {
    side: u32,
    values: Vec<V>,
    present: BitRows,
}

impl<V: Copy> Model for CellTable<V> {
    ghost use Rattle.asg_cell_tables.specs.CellTable.{CellTable as Table, stored_cells, IsStored};

    ghost Value = { Table V };

    ghost view = { λ t. record { side = t.side; cells = stored_cells t.side t.values.items t.present } };

    ghost invariant = { λ t. IsStored t.side t.values.items t.present };
}

impl<V: Copy> CellTable<V> {
    /// A table with no cell present, of a side of at most 2,000; each place has room for a value, for
    /// now this one. The error is want of memory.
    pub fn make(alloc: Global, side: u32, value: V) -> Result<CellTable<V>, NoMemory>
        requires { side ≤ most_side }
        ensures side { IfOk result (λ t. t.side ≡ side) }
        ensures table { IfOk result IsCellTable }
    {
        let values = vec![in alloc; value; (side * side) as usize]?;
        let present = BitRows::make(alloc, side, side)?;
        Ok(CellTable {
            side,
            values,
            present,
        })
    }

    /// The side. It takes no memory.
    pub fn side(&self) -> u32
        ensures side { result ≡ self.now.side }
        ensures table { IsCellTable self.now }
    {
        self.side
    }

    /// The cell. It takes no memory.
    pub fn at(&self, r: u32, c: u32) -> Option<V>
        requires row_below { r < self.now.side }
        requires column_below { c < self.now.side }
        ensures { result ≡ entry_at self.now.side self.now.cells r c }
    {
        if self.present.has(r, c) {
            Some(self.values[(r * self.side + c) as usize])
        } else {
            None
        }
    }

    /// Changes one cell. It takes no memory.
    pub fn set(&mut self, r: u32, c: u32, cell: Option<V>)
        requires row_below { r < self.old.side }
        requires column_below { c < self.old.side }
        ensures { let place = r * self.old.side + c in
            self.new ≡ record self.old { cells = slice_set self.old.cells place cell } }
    {
        let place = (r * self.side + c) as usize;
        let value = cell.unwrap_or(self.values[place]);
        self.values[place] = value;
        self.present.put(r, c, cell.is_some());
    }

    /// Gives a present cell another value. It takes no memory.
    pub fn replace(&mut self, r: u32, c: u32, value: V)
        requires row_below { r < self.old.side }
        requires column_below { c < self.old.side }
        requires present { IsSome (entry_at self.old.side self.old.cells r c) }
        ensures { let place = r * self.old.side + c in
            self.new ≡ record self.old { cells = slice_set self.old.cells place (Some value) } }
    {
        self.values[(r * self.side + c) as usize] = value;
    }

    /// Gives each present cell of a row another value, by its column. It takes no memory.
    pub fn map_row<F: Fn(u32, V) -> V>(&mut self, r: u32, change: &F)
        requires row { r < self.old.side }
        requires changes { MayMapRow (entry_at self.old.side self.old.cells r) (F.pre change.now) }
        ensures row { MapsTableRow self.old self.new r (F.post change.now) }
        ensures table { IsCellTable self.new }
    {
        let start = (r * self.side) as usize;
        let side = self.side as usize;
        let words = self.present.row(r);
        change_row(&mut self.values, start, side, words, change);
    }

    // Writes 64 cells of a row, fewer at its end: those of a row with this label, by its parts
    // where it is counted.
    pub(crate) fn fill_piece<E: Fn(Cost) -> V>(
        &mut self,
        inst: &Instance,
        free: V,
        enter: &E,
        row: Option<u32>,
        parts: RowParts<'_>,
        columns: &ColumnLabels<'_>,
        r: u32,
        number: u32,
    )
        requires enters { MayEnterEach inst.now (E.pre enter.now) }
        requires live { IfSome row (λ i. IsLiveRow inst.now i parts.firsts.now parts.seconds.now) }
        requires row_below { r < self.old.side }
        requires number_below { number < word_count self.old.side }
        requires count { length columns.now.labels.now ≡ self.old.side }
        ensures side { self.new.side ≡ self.old.side }
        ensures table { IsCellTable self.new }
        ensures piece { Entering inst.now (E.post enter.now) (λ entered.
            FillsPiece self.old.side (table_at self.old) (table_at self.new) r number
            columns.now.labels.now (labelled_cell inst.now free entered row)) }
        ensures present { FillsPiece self.old.side (is_present_at self.old)
            (is_present_at self.new) r number columns.now.labels.now
            (is_labelled_within inst.now Whole row) }
    {
        let first = 64 * number as usize;
        let end = (first + 64).min(self.side as usize);
        let labels = &columns.labels[first..end];
        let labelling = labelling_of(columns, first, end);
        let start = (r * self.side) as usize + first;
        let values = &mut self.values;
        let word = write_piece(
            inst, free, enter, row, parts, first, labelling, labels, values, start,
        );
        self.present.put_word(r, number, word);
    }

    /// The values of a row; those of absent cells mean nothing.
    pub fn row_values(&self, r: u32) -> &[V]
        requires { r < self.now.side }
        ensures { AreValuesOf (entry_at self.now.side self.now.cells r) self.now.side result.now }
    {
        let first = (r * self.side) as usize;
        &self.values[first..first + self.side as usize]
    }

    /// The values of all cells, row by row; those of absent cells mean nothing.
    pub fn values(&self) -> &[V]
        ensures { AreAllValuesOf self.now.cells result.now }
    {
        self.values.as_slice()
    }

    /// The words that say which cells of a row are present.
    pub fn row_words(&self, r: u32) -> &[u64]
        requires { r < self.now.side }
        ensures { let row = entry_at self.now.side self.now.cells r in
            AreWordsOf (λ c. is_some (row c)) self.now.side result.now }
    {
        self.present.row(r)
    }

    /// An equal table. The error is want of memory.
    pub fn copy(&self, alloc: Global) -> Result<CellTable<V>, NoMemory>
        ensures { IfOk result (λ t. t ≡ self.now) }
    {
        let values = Vec::from_slice(alloc, self.values.as_slice())?;
        let present = self.present.copy(alloc)?;
        Ok(CellTable {
            side: self.side,
            values,
            present,
        })
    }

    /// Takes over the cells of a table of the same side. It takes no memory.
    pub fn take(&mut self, other: &CellTable<V>)
        requires { self.old.side ≡ other.now.side }
        ensures { self.new ≡ other.now }
    {
        overwrite(&mut self.values, other.values.as_slice());
        self.present.take(&other.present);
    }
}
