//! Phases of one grade with columns of the rows, from the table of costs. Nothing here is tested.

use crate::NoMemory;
use crate::grade_columns::{Rising, amount_of, rising_at};
use crate::sparse_leads::is_plain;
use asg_dual_numbers::name;
use asg_dual_search::{Bound, LimitTable, Threshold};
use asg_duals::{Duals, short_phases};
use asg_model::limits::MOST_COST;
use asg_model::{Instance, RowRoom};
use asg_proof::Phase;
use std::alloc::Global;

/// The phases to a grade and at it, with the column of each row.
#[derive(Drop)]
pub(crate) struct GradeLead {
    /// The marks of the phase of one step to the grade.
    pub bound: Bound,
    /// The phases of amounts at the grade.
    pub phases: Vec<Phase<u64>>,
    /// The column of each row.
    pub columns: Vec<u32>,
}

// The first parts of all costs as a table of grades; `None` where a cell is absent, or second parts
// are.
fn table_of(alloc: Global, inst: &Instance) -> Result<Option<LimitTable>, NoMemory> {
    let side = inst.rows().len() as u32;
    let mut table = LimitTable::make(alloc, side, -MOST_COST)?;
    let mut room = RowRoom::new();
    for row in 0..side {
        let Some(parts) = inst.row_parts(row, &mut room) else {
            return Ok(None);
        };
        if parts.seconds.len() < parts.firsts.len() || !table.push(parts.firsts)? {
            return Ok(None);
        }
    }
    Ok(Some(table))
}

// By how much a row may fall that has its cell in a column: by the amount of its cost at the grade of
// a limit, with what the column rises by; `None` where the cost is above the limit.
fn fall_of(inst: &Instance, limit: i64, rises: &[u64], row: u32, column: u32) -> Option<u64> {
    let cost = inst.live(row, column)?;
    if cost.a > limit {
        return None;
    }
    let place = column as usize;
    let rise = if place < rises.len() { rises[place] } else { 0 };
    let amount = amount_of(cost.a, cost.b, limit).unsigned_abs();
    Some(amount.wrapping_add(rise))
}

// By how much each row may fall; `None` where its cost is above the limit.
fn falls_of(
    alloc: Global,
    inst: &Instance,
    limit: i64,
    rising: &Rising,
) -> Result<Option<Vec<u64>>, NoMemory> {
    let mut falls = Vec::with_capacity(alloc, rising.columns.len())?;
    for row in 0..rising.columns.len() {
        let column = rising.columns[row];
        let Some(fall) = fall_of(inst, limit, rising.rises.as_slice(), name(row), column) else {
            return Ok(None);
        };
        falls.push(fall)?;
    }
    Ok(Some(falls))
}

// The phases at the grade of a bound; `None` where not all rows have columns within it.
fn lead_at(alloc: Global, inst: &Instance, bound: Bound) -> Result<Option<GradeLead>, NoMemory> {
    let limit = bound.limit.cast_signed().wrapping_sub(MOST_COST);
    let Some(rising) = rising_at(alloc, inst, limit)? else {
        return Ok(None);
    };
    let Some(falls) = falls_of(alloc, inst, limit, &rising)? else {
        return Ok(None);
    };
    let Rising { columns, rises } = rising;
    let duals = Duals::of(Vec::from_slice(alloc, columns.as_slice())?, falls, rises);
    let phases = short_phases(alloc, &duals)?;
    Ok(Some(GradeLead {
        bound,
        phases,
        columns,
    }))
}

// The phases at the least grade within which each row has a column of its own. That is mostly the
// greatest of the rows' and the columns' least grades.
fn lead_of(
    alloc: Global,
    inst: &Instance,
    table: LimitTable,
) -> Result<Option<GradeLead>, NoMemory> {
    let first = table.first_bound(alloc)?;
    let least = first.limit;
    if let Some(lead) = lead_at(alloc, inst, first)? {
        return Ok(Some(lead));
    }
    match table.threshold(alloc)? {
        Some(Threshold { bound, .. }) if bound.limit > least => lead_at(alloc, inst, bound),
        _ => Ok(None),
    }
}

/// The phases of `time-cost` with columns of all rows, where these are as many as columns, all rows
/// are active and placed, all columns are open and hold one row, and no cell is absent; else, and
/// where none are found, `None`. The greatest grade of the columns is the least one within which each
/// row has a column of its own. The error is want of memory.
pub(crate) fn grade_lead(alloc: Global, inst: &Instance) -> Result<Option<GradeLead>, NoMemory> {
    if inst.rows().len() != inst.columns().len() || !is_plain(inst) {
        return Ok(None);
    }
    match table_of(alloc, inst)? {
        Some(table) => lead_of(alloc, inst, table),
        None => Ok(None),
    }
}
