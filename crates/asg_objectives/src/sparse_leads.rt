//! Columns for the rows of instances with few live cells, by lists of these, or rows that reach too
//! few columns. Nothing here is tested.

use crate::NoMemory;
use asg_bit_rows::BitRows;
use asg_class_search::{ArcLead, Arcs, lead_by_arcs};
use asg_dual_numbers::name;
use asg_duals::entered;
use asg_live_cells::Marks;
use asg_match::{Pairing, perfect_or_hall};
use asg_model::limits::{MOST_COLUMNS, MOST_ROWS};
use asg_model::{ABSENT, Cost, Instance, Objective, Place, RowRoom};
use std::alloc::Global;

// Of so many cells at most one is live, for lists of them to serve.
const SPARSE: usize = 8;

// So many cells of a row are looked at together.
const PIECE: usize = 16;

// And so many of these where one is there.
const PART: usize = 4;

/// Whether all rows are placed and active, and each column is open and holds one row.
pub(crate) fn is_plain(inst: &Instance) -> bool {
    matches!(inst.place(), Place::All)
        && inst.placed() as usize == inst.rows().len()
        && inst
            .columns()
            .iter()
            .all(|column| column.usable && column.cap == 1)
}

// Whether no cost is there.
#[inline]
fn are_absent(costs: &[i64]) -> bool {
    let mut are_absent = true;
    for place in 0..costs.len() {
        are_absent &= costs[place] == ABSENT;
    }
    are_absent
}

// The live cells of rows, as arcs with what their costs enter as, and by a bit each.
#[derive(Drop)]
struct SparseCells {
    objective: Objective,
    arcs: Arcs,
    bits: BitRows,
    count: usize,
}

impl SparseCells {
    // One more cell.
    fn push(&mut self, row: u32, column: u32, cost: i64) -> Result<(), NoMemory> {
        if row < self.bits.rows() && column < self.bits.columns() {
            self.bits.put(row, column, true);
        }
        self.count = self.count.wrapping_add(1);
        let number = entered(self.objective, cost);
        self.arcs.push(column, number.cast_signed())
    }

    // The costs of a row that are there, from this column on.
    fn push_costs(&mut self, row: u32, costs: &[i64], first: usize) -> Result<(), NoMemory> {
        for place in 0..costs.len() {
            if costs[place] != ABSENT {
                self.push(row, name(first.wrapping_add(place)), costs[place])?;
            }
        }
        Ok(())
    }

    // The same of a piece.
    fn push_piece(&mut self, row: u32, piece: &[i64], first: usize) -> Result<(), NoMemory> {
        for number in 0..piece.len() / PART {
            let start = number * PART;
            let part = &piece[start..start + PART];
            if !are_absent(part) {
                self.push_costs(row, part, first.wrapping_add(start))?;
            }
        }
        Ok(())
    }

    // The cells of a row.
    fn push_cells(&mut self, row: u32, cells: &[((u32, u32), Cost)]) -> Result<(), NoMemory> {
        for cell in cells {
            self.push(row, cell.0.1, cell.1.a)?;
        }
        self.arcs.end_row()
    }

    // The costs of a row that are there.
    fn push_row(&mut self, row: u32, costs: &[i64]) -> Result<(), NoMemory> {
        for number in 0..costs.len() / PIECE {
            let first = number * PIECE;
            let piece = &costs[first..first + PIECE];
            if !are_absent(piece) {
                self.push_piece(row, piece, first)?;
            }
        }
        let rest = costs.len() / PIECE * PIECE;
        self.push_costs(row, &costs[rest..], rest)?;
        self.arcs.end_row()
    }
}

// Takes the live cells of so many rows of an instance, row by row; whether they are at most so many.
fn push_rows(
    inst: &Instance,
    rows: u32,
    most: usize,
    cells: &mut SparseCells,
) -> Result<bool, NoMemory> {
    let mut room = RowRoom::new();
    for row in 0..rows {
        if let Some(list) = inst.row_cells(row) {
            cells.push_cells(row, list)?;
        } else if let Some(parts) = inst.row_parts(row, &mut room) {
            cells.push_row(row, parts.firsts)?;
        } else {
            return Ok(false);
        }
        if cells.count > most {
            return Ok(false);
        }
    }
    Ok(true)
}

// The live cells of an instance; `None` where they are many.
fn live_cells(
    alloc: Global,
    objective: Objective,
    inst: &Instance,
) -> Result<Option<SparseCells>, NoMemory> {
    let rows = inst.rows().len().min(MOST_ROWS);
    let columns = inst.columns().len().min(MOST_COLUMNS);
    let most = rows.saturating_mul(columns) / SPARSE;
    let bits = BitRows::make(alloc, rows as u32, columns as u32)?;
    let arcs = Arcs::none(alloc, rows, most)?;
    let mut cells = SparseCells {
        objective,
        arcs,
        bits,
        count: 0,
    };
    match push_rows(inst, rows as u32, most, &mut cells) {
        Ok(true) => Ok(Some(cells)),
        Ok(false) => {
            drop(cells);
            Ok(None)
        }
        Err(error) => {
            drop(cells);
            Err(error)
        }
    }
}

// Rows that have fewer cells by these bits than they are, where there are as many columns as rows.
fn short_rows(alloc: Global, bits: BitRows) -> Result<Option<Vec<u32>>, NoMemory> {
    let side = bits.rows();
    if bits.columns() != side {
        return Ok(None);
    }
    let marks = Marks { side, bits };
    match perfect_or_hall(alloc, side, &marks)? {
        Pairing::Short(rows) => Ok(Some(rows.into_vec())),
        Pairing::Perfect(_) => Ok(None),
    }
}

/// Columns for the rows of an instance with dual variables of its columns, or rows that reach fewer
/// columns than they are; `None` where many cells are live, a row is inactive or may stay out, a
/// column is closed or holds more than one row. Nothing is tested. The error is want of memory.
pub(crate) fn sparse_lead(
    alloc: Global,
    objective: Objective,
    inst: &Instance,
) -> Result<Option<ArcLead>, NoMemory> {
    if !is_plain(inst) {
        return Ok(None);
    }
    let Some(cells) = live_cells(alloc, objective, inst)? else {
        return Ok(None);
    };
    let SparseCells { arcs, bits, .. } = cells;
    if let Some(rows) = short_rows(alloc, bits)? {
        return Ok(Some(ArcLead::Short(rows)));
    }
    let lead = lead_by_arcs(alloc, &arcs, inst.columns().len())?;
    Ok(Some(lead))
}
