//! Columns for the rows of an instance, and rows that show that none are better, from its own table
//! of costs. Nothing here is tested.

use crate::NoMemory;
use crate::bounds::Bound;
use crate::class_matching::ClassMatching;
use crate::grades::{NO_GRADE, grade};
use crate::limit_marks::LimitMarks;
use crate::table_rows::TableRows;
use crate::thresholds::{middle, wider};
use asg_model::limits::MOST_ROWS;
use asg_model::{Instance, Objective, Place};
use std::alloc::Global;

// No more limits than these are tried.
const MOST_LIMITS: u32 = 100;

/// Columns of rows, and the places of rows that have too few columns by better costs.
#[derive(Drop)]
pub(crate) struct Lead {
    /// The column of each row, `NONE` for one that has none.
    pub(crate) columns: Vec<u32>,
    /// The places of the rows.
    pub(crate) rows: Vec<u32>,
    /// Whether an assignment exists.
    pub(crate) is_found: bool,
}

// The greatest grade of the cells of rows in these columns.
fn greatest_grade(objective: Objective, inst: &Instance, columns: &[u32]) -> u32 {
    let mut greatest = 0;
    for row in 0..columns.len().min(MOST_ROWS) as u32 {
        let column = columns[row as usize];
        if let Some(cost) = inst.live(row, column) {
            greatest = greatest.max(grade(objective, cost));
        }
    }
    greatest
}

// Looks for columns of all active rows by cells of at most the limit, and keeps them, or rows that
// have too few. The error is want of memory.
fn seek(
    marks: &mut LimitMarks,
    matching: &mut ClassMatching,
    lead: &mut Lead,
    inst: &Instance,
    table: &TableRows,
    limit: u32,
) -> Result<bool, NoMemory> {
    marks.mark(inst, table, limit);
    let rows = table.active.as_slice();
    if matching.complete(&marks.bits, rows) {
        marks.keep_greater();
        lead.is_found = true;
        lead.columns.clear();
        lead.columns.extend_from_slice(matching.columns.as_slice())?;
        return Ok(true);
    }
    marks.keep_lesser();
    lead.rows.clear();
    lead.rows.extend_from_slice(matching.tree())?;
    Ok(false)
}

// Narrows the limits between which the least one is at which all active rows have columns, from a
// bound that no such limit is below. Whether it found that one, before too many limits were tried.
// The error is want of memory.
fn narrow_to(
    alloc: Global,
    objective: Objective,
    inst: &Instance,
    table: &TableRows,
    marks: &mut LimitMarks,
    matching: &mut ClassMatching,
    lead: &mut Lead,
    bound: u32,
) -> Result<bool, NoMemory> {
    let mut low = bound;
    let mut high = NO_GRADE;
    let mut step = 0;
    for _ in 0..MOST_LIMITS {
        if low >= high {
            return Ok(true);
        }
        let limit = middle(low, high, step);
        if seek(marks, matching, lead, inst, table, limit)? {
            high = greatest_grade(objective, inst, lead.columns.as_slice());
        } else {
            let rows = lead.rows.as_slice();
            low = table.next_grade(alloc, inst, rows, matching.unseen.as_slice())?;
            step = wider(step);
        }
    }
    Ok(false)
}

// The same with marks of its own.
fn narrow_by(
    alloc: Global,
    objective: Objective,
    inst: &Instance,
    table: &TableRows,
    matching: &mut ClassMatching,
    lead: &mut Lead,
    bound: u32,
) -> Result<bool, NoMemory> {
    let mut marks = LimitMarks::make(alloc, inst)?;
    let is_found = narrow_to(
        alloc, objective, inst, table, &mut marks, matching, lead, bound,
    );
    drop(marks);
    is_found
}

// The same with a matching of its own.
fn narrow_lead(
    alloc: Global,
    objective: Objective,
    inst: &Instance,
    table: &TableRows,
    lead: &mut Lead,
    bound: u32,
) -> Result<bool, NoMemory> {
    let mut matching = ClassMatching::make(alloc, inst, table.open.as_slice())?;
    let is_found = narrow_by(alloc, objective, inst, table, &mut matching, lead, bound);
    drop(matching);
    is_found
}

// Looks for the least limit within which all active rows have columns, from a bound that no such
// limit is below. `None` where too many limits were tried. The error is want of memory.
fn narrow(
    alloc: Global,
    objective: Objective,
    inst: &Instance,
    table: &TableRows,
    bound: Bound,
) -> Result<Option<Lead>, NoMemory> {
    let Bound { grade, rows } = bound;
    let mut lead = Lead {
        columns: Vec::new(alloc),
        rows,
        is_found: false,
    };
    if narrow_lead(alloc, objective, inst, table, &mut lead, grade)? {
        Ok(Some(lead))
    } else {
        Ok(None)
    }
}

/// Columns for all active rows, none of a greater grade than is needed, and rows that show it; or
/// rows that have too few columns by all cells. `None` where rows may stay out. The limits are
/// those of the threshold method [Garfinkel 1971], each over bits that are read off the table. The
/// error is want of memory.
pub(crate) fn table_lead(
    alloc: Global,
    objective: Objective,
    inst: &Instance,
) -> Result<Option<Lead>, NoMemory> {
    if !matches!(inst.place(), Place::All) {
        return Ok(None);
    }
    let table = TableRows::of(alloc, objective, inst)?;
    let bound = table.first_bound(alloc, inst)?;
    narrow(alloc, objective, inst, &table, bound)
}
