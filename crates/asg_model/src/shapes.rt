//! The shape of an instance: the side of its square, its place rule and its capacities.

ghost use Rattle.std.specs.Prelude.{◌≡◌, ◌≤◌, map, IfOk, OnOk, OnErr};
ghost use Rattle.asg_model.specs.Counts.{total_capacity};
ghost use Rattle.asg_model.specs.Instances.{IsPlaceInRange};
ghost use Rattle.asg_model.specs.Limits.{most_rows, most_columns, most_capacity};
ghost use Rattle.asg_model.specs.CellStores.{IsCopyOf};
ghost use Rattle.asg_model.specs.Shapes.{square_side, with_capacity, shaped, IsPlaceOutOfRange, is_range_of};

use crate::NoMemory;
use crate::cell_store::CellStore;
use crate::instances::Instance;
use crate::parts::{Column, Place, PlaceRange};
use std::alloc::Global;

impl Instance {
    /// The side of the square to whose perfect assignments the valid choices belong. With n rows
    /// and a total capacity S, closed columns included: the greater of n and S for `All`, S + n - k
    /// for `Exactly(k)`. It takes no memory.
    pub fn side(&self) -> u32
        ensures side { result ≡ square_side self.now }
        ensures bound { result ≤ 1001000 }
    {
        let rows = self.rows().len() as u32;
        let capacity = self.total_capacity();
        match self.place() {
            Place::All => if rows < capacity { capacity } else { rows },
            Place::Exactly(count) => capacity + (rows - count),
        }
    }

    // The capacities of all columns, added up.
    fn total_capacity(&self) -> u32
        ensures total { result ≡ total_capacity self.now }
        ensures bound { result ≤ 1000000 }
    {
        let columns = self.columns();
        let mut total = 0;
        for place in 0..columns.len() {
            total += columns[place].cap;
        }
        total
    }

    /// Sets the place rule, and the capacity of each column, 1 to 1,000. The error comes exactly
    /// where the rule is `Exactly(k)` with k = 0, k above the number of rows, or k above the new
    /// total capacity; the instance then stays as it was. It takes no memory.
    pub fn shape(&mut self, place: Place, each: u32) -> Result<(), PlaceRange>
        requires some { 1 ≤ each }
        requires few { each ≤ most_capacity }
        ensures shaped { OnOk result (self.new ≡ shaped self.old place each) }
        ensures in_range { OnOk result (IsPlaceInRange (shaped self.old place each) place) }
        ensures out_of_range { OnErr result (IsPlaceOutOfRange (shaped self.old place each) place) }
        ensures kept { OnErr result (self.new ≡ self.old) }
    {
        let rows = self.rows().len() as u32;
        let columns = self.columns().len() as u32;
        if is_in_range(place, rows, columns * each) {
            set_capacities(&mut self.columns, each);
            self.place = place;
            Ok(())
        } else {
            Err(PlaceRange)
        }
    }

    /// An equal instance. The error is want of memory.
    pub fn copy(&self, alloc: Global) -> Result<Instance, NoMemory>
        ensures { IfOk result (λ copy. copy ≡ self.now) }
    {
        let rows = Vec::from_slice(alloc, self.rows.as_slice())?;
        let columns = Vec::from_slice(alloc, self.columns.as_slice())?;
        let store = self.store.copy(alloc)?;
        Ok(Instance {
            rows,
            columns,
            store,
            place: self.place,
        })
    }
}

impl CellStore {
    // An equal store.
    fn copy(&self, alloc: Global) -> Result<CellStore, NoMemory>
        ensures { IfOk result (λ copy. IsCopyOf self.now copy) }
    {
        match self {
            CellStore::Map(cells) => {
                let cells = cells.clone()?;
                Ok(CellStore::Map(cells))
            }
            CellStore::Listed(cells) => {
                let cells = Vec::from_slice(alloc, cells.as_slice())?;
                Ok(CellStore::Listed(cells))
            }
            CellStore::Table { firsts, seconds } => {
                let firsts = Vec::from_slice(alloc, firsts.as_slice())?;
                let seconds = Vec::from_slice(alloc, seconds.as_slice())?;
                Ok(CellStore::Table { firsts, seconds })
            }
        }
    }
}

// Whether the place rule asks for a number of rows that may be placed.
fn is_in_range(place: Place, rows: u32, capacity: u32) -> bool
    ensures { result ≡ is_range_of place rows capacity }
{
    match place {
        Place::All => true,
        Place::Exactly(count) => 1 <= count && count <= rows && count <= capacity,
    }
}

// Gives each column this capacity.
fn set_capacities(columns: &mut Vec<Column>, each: u32)
    ensures { columns.new.items ≡ map (with_capacity each) columns.old.items }
{
    for place in 0..columns.len() {
        let column = columns[place];
        columns[place] = Column {
            cap: each,
            ..column
        };
    }
}
