//! Edits of an instance, carried out.

ghost use Rattle.std.specs.Prelude.{◌≡◌, ◌≢◌, Some, None, IfSome, IsSome, OnOk, OnErr, IfErr, map};
ghost use Rattle.asg_model.specs.Counts.{active_count};
ghost use Rattle.asg_model.specs.HallSet.{row_place_of, column_place_of};
ghost use Rattle.asg_model.specs.declared.edits.EditRefusal.TheVariants.{NoMemory};
ghost use Rattle.asg_model.specs.Edits.{with_cell_of, with_row_dropped, with_column_closed, edited, refusal_of, dropped, closed};
ghost use Rattle.asg_model.specs.Instances.{IsCostInRange};

use crate::NoMemory;
use crate::edits::{Edit, EditRefusal};
use crate::instances::Instance;
use crate::objectives::Objective;
use crate::parts::{Column, Cost, Row};

impl Instance {
    /// Edits the instance: a cell gets a cost or loses it, a row is dropped, or a column closed.
    /// Errors: the first refusal that applies, as [`Instance::refusal`] tells it, else want of
    /// memory. After an error the instance is as it was. Memory is taken by a cell that is new in a
    /// map, by the first cell put or taken in a list, and by a table's first second part but 0.
    pub fn edit(&mut self, objective: Objective, edit: Edit) -> Result<(), EditRefusal>
        ensures edited { OnOk result (self.new ≡ edited self.old edit) }
        ensures passes { OnOk result (refusal_of objective self.old edit ≡ None) }
        ensures refused { IfErr result
            (λ r. r ≢ NoMemory → refusal_of objective self.old edit ≡ Some r) }
        ensures wanting { IfErr result
            (λ r. r ≡ NoMemory → refusal_of objective self.old edit ≡ None) }
        ensures kept { OnErr result (self.new ≡ self.old) }
    {
        if let Some(refusal) = self.refusal(objective, edit) {
            return Err(refusal);
        }
        match edit {
            Edit::Cost { row, col, cost } => Ok(self.put_cell(row, col, Some(cost))?),
            Edit::Forbid { row, col } => Ok(self.put_cell(row, col, None)?),
            Edit::DropRow { row } => {
                self.drop_row(row);
                Ok(())
            }
            Edit::DropColumn { col } => {
                self.close_column(col);
                Ok(())
            }
        }
    }

    // Gives the cell of the row and the column that have these ids this cost, or none. The error is
    // want of memory.
    fn put_cell(&mut self, row: u32, col: u32, cell: Option<Cost>) -> Result<(), NoMemory>
        requires row { IsSome (row_place_of self.old row) }
        requires col { IsSome (column_place_of self.old col) }
        requires range { IfSome cell IsCostInRange }
        ensures put { OnOk result (self.new ≡ with_cell_of self.old row col cell) }
        ensures kept { OnErr result (self.new ≡ self.old) }
    {
        let r = self.row_place(row).unwrap();
        let c = self.column_place(col).unwrap();
        let rows = self.rows().len();
        let columns = self.columns().len();
        self.store.put(rows, columns, r, c, cell)
    }

    // Drops the row that has the id, which isn't the only active one.
    fn drop_row(&mut self, id: u32)
        requires { active_count self.old ≢ 1 }
        ensures { self.new ≡ with_row_dropped self.old id }
    {
        // What an instance keeps is told by reading.
        let _rows = self.rows();
        drop_row(&mut self.rows, id);
    }

    // Closes the column that has the id.
    fn close_column(&mut self, id: u32)
        ensures { self.new ≡ with_column_closed self.old id }
    {
        // What an instance keeps is told by reading.
        let _rows = self.rows();
        close_column(&mut self.columns, id);
    }
}

// The row, dropped if it has the id.
fn dropped(id: u32, row: Row) -> Row
    ensures { result ≡ dropped id row }
{
    if row.id == id {
        Row {
            active: false,
            ..row
        }
    } else {
        row
    }
}

// Drops the row that has the id.
fn drop_row_of(rows: &mut [Row], id: u32)
    ensures { rows.new ≡ map (dropped id) rows.old }
{
    for row in rows.iter_mut() {
        *row = dropped(id, *row);
    }
}

// Drops the row that has the id.
fn drop_row(rows: &mut Vec<Row>, id: u32)
    ensures { rows.new.items ≡ map (dropped id) rows.old.items }
{
    drop_row_of(rows.as_mut_slice(), id);
}

// Closes the column that has the id.
fn close_column(columns: &mut Vec<Column>, id: u32)
    ensures { columns.new.items ≡ map (closed id) columns.old.items }
{
    close_column_of(columns.as_mut_slice(), id);
}

// The column, closed if it has the id.
fn closed(id: u32, column: Column) -> Column
    ensures { result ≡ closed id column }
{
    if column.id == id {
        Column {
            usable: false,
            ..column
        }
    } else {
        column
    }
}

// Closes the column that has the id.
fn close_column_of(columns: &mut [Column], id: u32)
    ensures { columns.new ≡ map (closed id) columns.old }
{
    for column in columns.iter_mut() {
        *column = closed(id, *column);
    }
}
