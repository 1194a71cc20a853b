//! The places of rows and columns, by their ids.

ghost use Rattle.std.specs.Prelude.{◌≡◌, ◌==◌, ◌<◌, false, IfSome, length, position, slice_get};
ghost use Rattle.std.specs.Option.{option_map_or};
ghost use Rattle.asg_model.specs.Instances.{IsInstance};
ghost use Rattle.asg_model.specs.HallSet.{row_place_of, column_place_of};

use crate::instances::Instance;
use crate::parts::{Column, Row};

impl Instance {
    /// The place of the row that has this id; `None` exactly where no row has it. The place as far
    /// behind the first row as the id is behind its id is looked at first, so that ids which count
    /// up cost no search.
    pub fn row_place(&self, id: u32) -> Option<u32>
        ensures place { result ≡ row_place_of self.now id }
        ensures there { IfSome result (λ row. row < length self.now.rows) }
        ensures instance { IsInstance self.now }
    {
        let rows = self.rows();
        let guess = id.saturating_sub(first_row_id(rows));
        if is_row_at(rows, guess, id) {
            return Some(guess);
        }
        match position_of_row(rows, id) {
            Some(row) => Some(row as u32),
            None => None,
        }
    }

    /// The place of the column that has this id; `None` exactly where no column has it. The place as
    /// far behind the first column as the id is behind its id is looked at first, so that ids which
    /// count up cost no search.
    pub fn column_place(&self, id: u32) -> Option<u32>
        ensures place { result ≡ column_place_of self.now id }
        ensures there { IfSome result (λ col. col < length self.now.columns) }
        ensures instance { IsInstance self.now }
    {
        let columns = self.columns();
        let guess = id.saturating_sub(first_column_id(columns));
        if is_column_at(columns, guess, id) {
            return Some(guess);
        }
        match position_of_column(columns, id) {
            Some(column) => Some(column as u32),
            None => None,
        }
    }
}

// The id of the first row, or 0.
fn first_row_id(rows: &[Row]) -> u32
    ensures { result ≡ option_map_or (λ row. row.id) (slice_get rows.now 0) 0 }
{
    match rows.get(0) {
        Some(row) => row.id,
        None => 0,
    }
}

// The id of the first column, or 0.
fn first_column_id(columns: &[Column]) -> u32
    ensures { result ≡ option_map_or (λ column. column.id) (slice_get columns.now 0) 0 }
{
    match columns.get(0) {
        Some(column) => column.id,
        None => 0,
    }
}

// Whether the row at this place has the id.
fn is_row_at(rows: &[Row], place: u32, id: u32) -> bool
    ensures { result ≡ option_map_or (λ row. row.id == id) (slice_get rows.now place) false }
{
    match rows.get(place as usize) {
        Some(row) => row.id == id,
        None => false,
    }
}

// Whether the column at this place has the id.
fn is_column_at(columns: &[Column], place: u32, id: u32) -> bool
    ensures { result ≡
        option_map_or (λ column. column.id == id) (slice_get columns.now place) false }
{
    match columns.get(place as usize) {
        Some(column) => column.id == id,
        None => false,
    }
}

// The place of the first row that has the id.
fn position_of_row(rows: &[Row], id: u32) -> Option<usize>
    ensures { result ≡ position (λ row. row.id == id) rows.now }
{
    rows.iter().position(|row| row.id == id)
}

// The place of the first column that has the id.
fn position_of_column(columns: &[Column], id: u32) -> Option<usize>
    ensures { result ≡ position (λ column. column.id == id) columns.now }
{
    columns.iter().position(|column| column.id == id)
}
