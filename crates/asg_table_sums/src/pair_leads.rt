//! Choices for pairs with rises of columns, as a search finds them: both parts of a cost stand in one
//! number.

use crate::NoMemory;
use crate::leads::is_plain;
use asg_dual_search::{CostTable, Lead};
use asg_model::{ABSENT, Instance, RowParts, RowRoom};
use std::alloc::Global;

// Numbers of pairs stay below this.
const MOST_SPAN: i64 = 1 << 30;

/// What the search of a table of pairs finds: nothing of it is tested.
#[derive(Drop)]
pub struct PairLead {
    /// The column of each row.
    pub columns: Vec<u32>,
    /// By how much the first part of each column may rise.
    pub firsts: Vec<i64>,
    /// By how much the second part of each column may rise, or fall where this is below 0.
    pub seconds: Vec<i64>,
    /// How the parts of the costs lie.
    pub ranges: PairRanges,
}

/// The least first and the least second part of the costs of a table, and by how much others are
/// above them.
#[derive(Clone, Copy, Debug)]
pub struct PairRanges {
    pub first: i64,
    pub second: i64,
    pub first_width: i64,
    pub second_width: i64,
}

// The least and the greatest of numbers, and of two that are known.
fn ends_of(numbers: &[i64], ends: (i64, i64)) -> (i64, i64) {
    let (mut least, mut greatest) = ends;
    for place in 0..numbers.len() {
        let number = numbers[place];
        least = least.min(number);
        greatest = greatest.max(number);
    }
    (least, greatest)
}

// The second part of the cost at a place, 0 past the last that is given.
#[inline]
fn second_at(parts: &RowParts<'_>, place: usize) -> i64 {
    if place < parts.seconds.len() {
        parts.seconds[place]
    } else {
        0
    }
}

// How the parts of the costs of an instance lie; `None` where a cell is absent.
fn ranges_of(inst: &Instance) -> Option<PairRanges> {
    let mut room = RowRoom::new();
    let mut firsts = (i64::MAX, i64::MIN);
    let mut seconds = (0, 0);
    for row in 0..inst.rows().len() as u32 {
        let parts = inst.row_parts(row, &mut room)?;
        if row == 0 && parts.seconds.len() >= parts.firsts.len() {
            seconds = (i64::MAX, i64::MIN);
        }
        if parts.seconds.len() < parts.firsts.len() {
            seconds = (seconds.0.min(0), seconds.1.max(0));
        }
        firsts = ends_of(parts.firsts, firsts);
        seconds = ends_of(parts.seconds, seconds);
    }
    if firsts.0 == ABSENT {
        return None;
    }
    Some(PairRanges {
        first: firsts.0,
        second: seconds.0,
        first_width: firsts.1.wrapping_sub(firsts.0),
        second_width: seconds.1.wrapping_sub(seconds.0),
    })
}

// What a first part is multiplied by, so that no second parts of an assignment come to as much;
// `None` where the numbers would be too great.
fn unit_of(side: u32, ranges: &PairRanges) -> Option<i64> {
    let most = i64::from(side).checked_mul(ranges.second_width)?;
    let unit = most.checked_mul(2)?.checked_add(1)?;
    let span = ranges.first_width.checked_mul(unit)?;
    if span.checked_add(ranges.second_width)? >= MOST_SPAN {
        return None;
    }
    Some(unit)
}

// Writes the numbers of a row of pairs.
fn put_numbers(line: &mut [i64], parts: &RowParts<'_>, ranges: &PairRanges, unit: i64) {
    for column in 0..line.len().min(parts.firsts.len()) {
        let first = parts.firsts[column].wrapping_sub(ranges.first);
        let second = second_at(parts, column).wrapping_sub(ranges.second);
        line[column] = first.wrapping_mul(unit).wrapping_add(second);
    }
}

// The rows of an instance as a table of numbers; `None` where they are too far from one another.
fn table_of(
    alloc: Global,
    inst: &Instance,
    ranges: &PairRanges,
    unit: i64,
) -> Result<Option<CostTable>, NoMemory> {
    let rows = inst.rows().len() as u32;
    let columns = inst.columns().len();
    let mut table = CostTable::make(alloc, rows, columns as u32, false)?;
    let mut line = vec![in alloc; 0i64; columns]?;
    let mut room = RowRoom::new();
    for row in 0..rows {
        let Some(parts) = inst.row_parts(row, &mut room) else {
            return Ok(None);
        };
        put_numbers(line.as_mut_slice(), &parts, ranges, unit);
        if !table.push(line.as_slice())? {
            return Ok(None);
        }
    }
    Ok(Some(table))
}

// A number taken apart: the second part is the nearer to 0 of the two that it may be.
fn parts_of(number: i64, unit: i64) -> (i64, i64) {
    let first = number.wrapping_add(unit / 2).wrapping_div(unit.max(1));
    (first, number.wrapping_sub(first.wrapping_mul(unit)))
}

// A lead whose rises are taken apart.
fn pair_lead_of(
    alloc: Global,
    lead: Lead,
    ranges: PairRanges,
    unit: i64,
) -> Result<PairLead, NoMemory> {
    let mut firsts = Vec::with_capacity(alloc, lead.rises.len())?;
    let mut seconds = Vec::with_capacity(alloc, lead.rises.len())?;
    for rise in &lead.rises {
        let (first, second) = parts_of(i64::from(*rise), unit);
        firsts.push(first)?;
        seconds.push(second)?;
    }
    Ok(PairLead {
        columns: lead.columns,
        firsts,
        seconds,
        ranges,
    })
}

/// Columns of the rows of an instance of pairs, each of its own, of least sum, and by how much both
/// parts of each column may rise; `None` where none were found, as where a cell is absent, rows stay
/// out, a column takes several rows, or the costs are far from one another. No clause says that they
/// serve. The error is want of memory.
pub fn pair_lead(alloc: Global, inst: &Instance) -> Result<Option<PairLead>, NoMemory> {
    if !is_plain(inst) {
        return Ok(None);
    }
    let Some(ranges) = ranges_of(inst) else {
        return Ok(None);
    };
    let Some(unit) = unit_of(inst.rows().len() as u32, &ranges) else {
        return Ok(None);
    };
    let Some(table) = table_of(alloc, inst, &ranges, unit)? else {
        return Ok(None);
    };
    match table.search_apart(alloc)? {
        Some(lead) => Ok(Some(pair_lead_of(alloc, lead, ranges, unit)?)),
        None => Ok(None),
    }
}
