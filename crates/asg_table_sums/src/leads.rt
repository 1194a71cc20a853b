//! Choices with rises of columns, as a search finds them.

use crate::NoMemory;
use asg_dual_search::{CostTable, Lead};
use asg_model::limits::MOST_COST;
use asg_model::{Choice, Instance, Objective, RowRoom};
use std::alloc::Global;

// Whether each row is active and each column is open.
fn are_all_open(inst: &Instance) -> bool {
    let columns = inst.columns().iter().all(|column| column.usable);
    columns && inst.rows().iter().all(|row| row.active)
}

// Whether each row is placed in a column of its own, of which there are as many.
pub(crate) fn is_plain(inst: &Instance) -> bool {
    let rows = inst.rows().len();
    if inst.placed() as usize != rows || inst.columns().len() != rows || rows < 2 {
        return false;
    }
    are_all_open(inst) && inst.columns().iter().all(|column| column.cap == 1)
}

// The capacity of each column. The error is want of memory.
fn rooms_of(alloc: Global, inst: &Instance) -> Result<Vec<u32>, NoMemory> {
    let columns = inst.columns();
    let mut rooms = Vec::with_capacity(alloc, columns.len())?;
    for column in columns {
        rooms.push(column.cap)?;
    }
    Ok(rooms)
}

// How many rows all columns have room for.
fn total_of(rooms: &[u32]) -> usize {
    let mut total = 0usize;
    for place in 0..rooms.len() {
        total = total.saturating_add(rooms[place] as usize);
    }
    total
}

// The rows of an instance as a table; `None` where a cell is absent, or costs of a row differ by
// too much.
fn table_of(
    alloc: Global,
    objective: Objective,
    inst: &Instance,
) -> Result<Option<CostTable>, NoMemory> {
    let columns = inst.columns().len() as u32;
    let is_max = objective == Objective::SumMax;
    let mut table = CostTable::make(alloc, inst.rows().len() as u32, columns, is_max)?;
    let mut room = RowRoom::new();
    for row in 0..inst.rows().len() as u32 {
        let Some(parts) = inst.row_parts(row, &mut room) else {
            return Ok(None);
        };
        if !table.push(parts.firsts)? {
            return Ok(None);
        }
    }
    Ok(Some(table))
}

/// Columns of the rows of an instance, as many as are placed, with rises of the columns under which
/// each row may have the least of its cells, or the greatest; `None` where none were found, as
/// where a cell is absent. No clause says that they serve. The error is want of memory.
pub fn lead(
    alloc: Global,
    objective: Objective,
    inst: &Instance,
) -> Result<Option<Lead>, NoMemory> {
    let placed = inst.placed() as usize;
    if placed > inst.rows().len() || inst.columns().len() < 2 || !are_all_open(inst) {
        return Ok(None);
    }
    let rooms = rooms_of(alloc, inst)?;
    if total_of(rooms.as_slice()) < placed {
        return Ok(None);
    }
    let outside = inst.rows().len().saturating_sub(placed);
    match table_of(alloc, objective, inst)? {
        Some(table) => table.search(alloc, rooms.as_slice(), outside),
        None => Ok(None),
    }
}

/// The choice of these columns among so many. The error is want of memory.
pub fn choice_of(
    alloc: Global,
    rows: u32,
    columns: &[u32],
    count: usize,
) -> Result<Choice, NoMemory> {
    let mut choice = Choice::make(alloc, rows)?;
    for row in 0..rows {
        if row < choice.len() && (row as usize) < columns.len() {
            let column = columns[row as usize];
            if (column as usize) < count {
                choice.set(row, Some(column));
            }
        }
    }
    Ok(choice)
}

// A cost with what its column rises by; turned round where the greatest sum is searched for.
fn risen(objective: Objective, cost: i64, rise: u32) -> i64 {
    if objective == Objective::SumMax {
        i64::from(rise).wrapping_sub(cost)
    } else {
        i64::from(rise).wrapping_add(cost)
    }
}

/// The greatest cost of a chosen cell once the columns have risen, or the least one, turned round.
pub(crate) fn top_of(objective: Objective, inst: &Instance, choice: &Choice, rises: &[u32]) -> i64 {
    let mut top = -MOST_COST;
    for row in 0..choice.len() {
        if let Some(column) = choice.get(row) {
            if let Some(cost) = inst.live(row, column) {
                let place = column as usize;
                let rise = if place < rises.len() { rises[place] } else { 0 };
                top = top.max(risen(objective, cost.a, rise));
            }
        }
    }
    top
}
