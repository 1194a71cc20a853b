//! Hall sets: rows that prove that no choice is valid.

ghost use Rattle.std.specs.Prelude.{◌≡◌, ◌≢◌, ◌+◌, ◌<◌, ◌≤◌, ◌↔◌, ℕ, false, ◌&&◌, IsTrue, IfSome, All, AllPairs, length, replicate, slice_index_or, Some, None, if◌then◌else◌, option_and_then};
ghost use Rattle.asg_model.specs.Limits.{most_rows, most_columns};
ghost use Rattle.asg_model.specs.Counts.{slack, is_counted};
ghost use Rattle.asg_model.specs.HallSet.{IsHall, row_place_of, is_counted_id, is_reached, reached_capacity};

use crate::reach::reach_id;
use asg_model::limits::{MOST_COLUMNS, MOST_ROWS};
use asg_model::{Band, Column, Instance, RowRoom};

/// Whether the rows, by id, are a Hall set under the band (Hall's condition with deficiency,
/// [Ore 1955]):
/// counted rows, none named twice, that are more than the columns which they reach by live cells of
/// the band can hold, even where as many of them stay out as a valid choice may leave out. It takes
/// no memory, and time in proportion to the cells of the rows where the costs stand in a table.
pub fn is_hall(inst: &Instance, band: Band, rows: &[u32]) -> bool
    ensures { IsTrue result ↔ IsHall inst.now band rows.now }
{
    are_counted_once(inst, rows) && are_short(inst, band, rows)
}

// Whether the rows are more than the columns that they reach can hold, and than may stay out.
fn are_short(inst: &Instance, band: Band, rows: &[u32]) -> bool
    ensures { IsTrue result ↔
        (reached_capacity inst.now band rows.now + slack inst.now < length rows.now) }
{
    let room = reached_capacity(inst, band, rows);
    let out = inst.slack();
    room + u64::from(out) < rows.len() as u64
}

// Whether each id names a counted row, and no two of them are the same.
fn are_counted_once(inst: &Instance, ids: &[u32]) -> bool
    ensures { IsTrue result ↔
        (AllPairs ◌≢◌ ids.now × All (λ id. IsTrue (is_counted_id inst.now id)) ids.now) }
{
    let mut named = no_rows();
    for id in ids {
        let Some(row) = counted_place(inst, *id) else {
            return false;
        };
        if named[row as usize] {
            return false;
        }
        named[row as usize] = true;
    }
    true
}

// The place of the counted row that has the id.
fn counted_place(inst: &Instance, id: u32) -> Option<u32>
    ensures exact { result ≡
        option_and_then (λ r. if is_counted inst.now r then Some r else None)
        (row_place_of inst.now id) }
    ensures below { IfSome result (λ row. row < most_rows) }
{
    match inst.row_place(id) {
        Some(row) if inst.is_counted(row) => Some(row),
        _ => None,
    }
}

// The capacities of the columns that the rows reach, added up: at most a million.
fn reached_capacity(inst: &Instance, band: Band, rows: &[u32]) -> u64
    ensures exact { result ≡ reached_capacity inst.now band rows.now }
    ensures bound { result ≤ 1000000 }
{
    let reached = reached_columns(inst, band, rows);
    let mut total = 0;
    for (place, column) in inst.columns().iter().enumerate() {
        total += part_of(reached[place], *column);
    }
    total
}

// The capacity of the column where it is reached, else 0.
fn part_of(reached: bool, column: Column) -> u64
    ensures { result ≡ (if reached then column.cap else 0) }
{
    if reached { u64::from(column.cap) } else { 0 }
}

// For each column, whether some row of the list has a live cell of the band in it.
fn reached_columns(inst: &Instance, band: Band, ids: &[u32]) -> [bool; MOST_COLUMNS]
    ensures { (c : ℕ) → c < length inst.now.columns →
        slice_index_or result c false ≡ is_reached inst.now band ids.now c }
{
    let mut room = RowRoom::new();
    let mut reached = no_columns();
    for id in ids {
        reach_id(inst, band, *id, &mut room, &mut reached);
    }
    reached
}

// Marks for each row that an instance may have, none set.
fn no_rows() -> [bool; MOST_ROWS]
    ensures { result ≡ replicate most_rows false }
{
    [false; MOST_ROWS]
}

// Marks for each column that an instance may have, none set.
fn no_columns() -> [bool; MOST_COLUMNS]
    ensures { result ≡ replicate most_columns false }
{
    [false; MOST_COLUMNS]
}
