//! Columns of least sum of amounts at a grade, from the table of costs. Nothing here is tested.

use crate::NoMemory;
use crate::rises::{rises_of, widened};
use asg_class_search::{ArcLead, Arcs, lead_by_arcs};
use asg_dual_numbers::name;
use asg_dual_search::CostTable;
use asg_model::{Instance, RowParts, RowRoom};
use std::alloc::Global;

// Of so many cells at most one is within the grade, for lists of them to serve.
const SPARSE: usize = 8;

// So many cells of a row are looked at together.
const PIECE: usize = 8;

// Stands for a cell of a higher grade.
const ABSENT_AMOUNT: i64 = 1 << 29;

// From here on amounts are too great.
const MOST_AMOUNT: i64 = 1 << 24;

/// Columns of rows, with what columns may rise by.
#[derive(Drop)]
pub(crate) struct Rising {
    pub columns: Vec<u32>,
    pub rises: Vec<u64>,
}

/// The amount of a cost at the grade of a limit, 0 where its first part is lower.
#[inline]
pub(crate) fn amount_of(first: i64, second: i64, limit: i64) -> i64 {
    if first < limit {
        0
    } else {
        second.wrapping_abs()
    }
}

// Whether a cost of a piece is within the limit.
#[inline]
fn has_within(piece: &[i64], limit: i64) -> bool {
    let mut has = false;
    for place in 0..piece.len() {
        has |= piece[place] <= limit;
    }
    has
}

// Pushes the costs of a piece within the limit, which begins at a column, and tells how many they
// are.
fn push_piece(
    arcs: &mut Arcs,
    firsts: &[i64],
    seconds: &[i64],
    column: usize,
    limit: i64,
) -> Result<usize, NoMemory> {
    let mut count = 0usize;
    for place in 0..firsts.len().min(seconds.len()) {
        let first = firsts[place];
        if first <= limit {
            let amount = amount_of(first, seconds[place], limit);
            arcs.push(name(column.wrapping_add(place)), amount)?;
            count = count.wrapping_add(1);
        }
    }
    Ok(count)
}

// Pushes the costs of a row within the limit, and tells how many they are.
fn push_row(arcs: &mut Arcs, parts: &RowParts<'_>, limit: i64) -> Result<usize, NoMemory> {
    let columns = parts.firsts.len().min(parts.seconds.len());
    let firsts = &parts.firsts[..columns];
    let seconds = &parts.seconds[..columns];
    let mut count = 0usize;
    for number in 0..columns / PIECE {
        let from = number * PIECE;
        let piece = &firsts[from..from + PIECE];
        if has_within(piece, limit) {
            let pushed = push_piece(arcs, piece, &seconds[from..from + PIECE], from, limit)?;
            count = count.wrapping_add(pushed);
        }
    }
    let rest = columns / PIECE * PIECE;
    let pushed = push_piece(arcs, &firsts[rest..], &seconds[rest..], rest, limit)?;
    arcs.end_row()?;
    Ok(count.wrapping_add(pushed))
}

// The costs within a limit, as arcs with their amounts; `None` where they are many.
fn arcs_within(alloc: Global, inst: &Instance, limit: i64) -> Result<Option<Arcs>, NoMemory> {
    let side = inst.rows().len();
    let most = side.saturating_mul(side) / SPARSE;
    let mut arcs = Arcs::none(alloc, side, most)?;
    let mut count = 0usize;
    let mut room = RowRoom::new();
    for row in 0..side as u32 {
        let Some(parts) = inst.row_parts(row, &mut room) else {
            return Ok(None);
        };
        count = count.saturating_add(push_row(&mut arcs, &parts, limit)?);
        if count > most {
            return Ok(None);
        }
    }
    Ok(Some(arcs))
}

// Columns by lists of the costs within a limit.
fn by_arcs(alloc: Global, inst: &Instance, arcs: Arcs) -> Result<Option<Rising>, NoMemory> {
    match lead_by_arcs(alloc, &arcs, inst.columns().len())? {
        ArcLead::Found { columns, duals } => {
            let rises = rises_of(alloc, duals.as_slice())?;
            Ok(Some(Rising { columns, rises }))
        }
        ArcLead::Short(_) => Ok(None),
    }
}

// Writes the amounts of a row at the grade of a limit; whether none is too great.
fn put_amounts(line: &mut [i64], parts: &RowParts<'_>, limit: i64) -> bool {
    let count = line.len().min(parts.firsts.len()).min(parts.seconds.len());
    let mut greatest = 0;
    for column in 0..count {
        let first = parts.firsts[column];
        let amount = amount_of(first, parts.seconds[column], limit);
        greatest = greatest.max(amount);
        line[column] = if first > limit { ABSENT_AMOUNT } else { amount };
    }
    greatest < MOST_AMOUNT && count == line.len()
}

// The amounts at the grade of a limit, as a table.
fn table_at(alloc: Global, inst: &Instance, limit: i64) -> Result<Option<CostTable>, NoMemory> {
    let side = inst.rows().len() as u32;
    let mut table = CostTable::make(alloc, side, side, false)?;
    let mut line = vec![in alloc; 0i64; side as usize]?;
    let mut room = RowRoom::new();
    for row in 0..side {
        let Some(parts) = inst.row_parts(row, &mut room) else {
            return Ok(None);
        };
        if !put_amounts(line.as_mut_slice(), &parts, limit) || !table.push(line.as_slice())? {
            return Ok(None);
        }
    }
    Ok(Some(table))
}

// Columns by a table of all amounts.
fn by_table(alloc: Global, inst: &Instance, limit: i64) -> Result<Option<Rising>, NoMemory> {
    let Some(table) = table_at(alloc, inst, limit)? else {
        return Ok(None);
    };
    let rooms = vec![in alloc; 1u32; inst.columns().len()]?;
    let Some(lead) = table.search(alloc, rooms.as_slice(), 0)? else {
        return Ok(None);
    };
    let rises = widened(alloc, lead.rises.as_slice())?;
    Ok(Some(Rising {
        columns: lead.columns,
        rises,
    }))
}

/// Columns with the least sum of amounts at the grade of a limit, of which some may be of a higher
/// grade; `None` where none are found. The error is want of memory.
pub(crate) fn rising_at(
    alloc: Global,
    inst: &Instance,
    limit: i64,
) -> Result<Option<Rising>, NoMemory> {
    match arcs_within(alloc, inst, limit)? {
        Some(arcs) => by_arcs(alloc, inst, arcs),
        None => by_table(alloc, inst, limit),
    }
}
