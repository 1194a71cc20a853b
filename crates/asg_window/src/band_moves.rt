//! The cells that a band has, and those that enter or leave where its ends move.

ghost use Rattle.std.specs.Prelude.{◌≡◌, ◌+◌, ◌<◌, ◌≤◌, All, IfOk, length};
ghost use Rattle.asg_live_cells.specs.Marks.{MarksMore, MarksFewer};
ghost use Rattle.asg_window.specs.Bands.{MarksBand, MarksFreeBefore};
ghost use Rattle.asg_live_cells.specs.LiveCells.{AreEntries};

use crate::NoMemory;
use crate::band_cells::BandCells;
use asg_bit_rows::BitRows;
use asg_live_cells::{Entry, LiveCells, Marks, enter, leave};
use asg_square::Square;
use std::alloc::Global;

// Marks the cells from one place on up to another, or takes the marks from those from the other
// place on, where it stands below.
fn shift(bits: &mut BitRows, entries: &[Entry], from: usize, to: usize)
    requires within { All (λ e. (e.row < bits.old.rows) × (e.column < bits.old.columns))
        entries.now }
    requires from_within { from ≤ length entries.now }
    requires to_within { to ≤ length entries.now }
    ensures rows { bits.new.rows ≡ bits.old.rows }
    ensures columns { bits.new.columns ≡ bits.old.columns }
    ensures more { from ≤ to → MarksMore bits.old bits.new entries.now from to }
    ensures fewer { to < from → MarksFewer bits.old bits.new entries.now to from }
{
    if from <= to {
        enter(bits, entries, from, to);
    } else {
        leave(bits, entries, to, from);
    }
}

impl BandCells {
    // Moves the upper end of the band.
    fn move_end(&mut self, cells: &LiveCells<'_>, high: u32)
        requires band { MarksBand cells.now.square.now cells.now.entries.now self.old }
        requires order { self.old.low ≤ high }
        ensures band { MarksBand cells.now.square.now cells.now.entries.now self.new }
        ensures low { self.new.low ≡ self.old.low }
        ensures high { self.new.high ≡ high }
    {
        let end = cells.place_of(high);
        shift(&mut self.marks.bits, cells.entries, self.end, end);
        self.end = end;
        self.high = high;
    }

    // Moves the lower end of the band up.
    fn move_first(&mut self, cells: &LiveCells<'_>, low: u32)
        requires band { MarksBand cells.now.square.now cells.now.entries.now self.old }
        requires up { self.old.low ≤ low }
        requires order { low ≤ self.old.high }
        ensures band { MarksBand cells.now.square.now cells.now.entries.now self.new }
        ensures low { self.new.low ≡ low }
        ensures high { self.new.high ≡ self.old.high }
    {
        let first = cells.place_of(low);
        leave(&mut self.marks.bits, cells.entries, self.first, first);
        self.first = first;
        self.low = low;
    }

    /// Moves the band to these ends, of which the lower one isn't less than it was: marks the cells
    /// that enter, and takes the marks from those that leave. Takes no memory.
    pub(crate) fn move_to(&mut self, cells: &LiveCells<'_>, low: u32, high: u32)
        requires band { MarksBand cells.now.square.now cells.now.entries.now self.old }
        requires up { self.old.low ≤ low }
        requires order { low ≤ high }
        ensures band { MarksBand cells.now.square.now cells.now.entries.now self.new }
        ensures low { self.new.low ≡ low }
        ensures high { self.new.high ≡ high }
    {
        self.move_end(cells, high);
        self.move_first(cells, low);
    }
}

// Marks the free cell at a row and a column, if there is one.
fn mark_free_cell(bits: &mut BitRows, square: &Square<u32>, row: u32, column: u32)
    requires row_below { row < square.now.side }
    requires column_below { column < square.now.side }
    requires rows { bits.old.rows ≡ square.now.side }
    requires columns { bits.old.columns ≡ square.now.side }
    requires before { MarksFreeBefore square.now row column bits.old }
    ensures rows { bits.new.rows ≡ square.now.side }
    ensures columns { bits.new.columns ≡ square.now.side }
    ensures marks { MarksFreeBefore square.now row (column + 1) bits.new }
{
    match square.at(row, column) {
        Some(0) => bits.put(row, column, true),
        _ => {}
    }
}

// Marks the free cells of a row.
fn mark_free_row(bits: &mut BitRows, square: &Square<u32>, row: u32)
    requires row_below { row < square.now.side }
    requires rows { bits.old.rows ≡ square.now.side }
    requires columns { bits.old.columns ≡ square.now.side }
    requires before { MarksFreeBefore square.now row 0 bits.old }
    ensures rows { bits.new.rows ≡ square.now.side }
    ensures columns { bits.new.columns ≡ square.now.side }
    ensures marks { MarksFreeBefore square.now (row + 1) 0 bits.new }
{
    for column in 0..square.side() {
        mark_free_cell(bits, square, row, column);
    }
}

impl BandCells {
    /// The band without grades: the free cells alone are marked. The error is want of memory.
    pub(crate) fn make(alloc: Global, cells: &LiveCells<'_>) -> Result<BandCells, NoMemory>
        requires { AreEntries cells.now.square.now cells.now.entries.now }
        ensures band { IfOk result (MarksBand cells.now.square.now cells.now.entries.now) }
        ensures low { IfOk result (λ band. band.low ≡ 1) }
    {
        let square = cells.square;
        let side = square.side();
        let mut bits = BitRows::make(alloc, side, side)?;
        for row in 0..side {
            mark_free_row(&mut bits, square, row);
        }
        Ok(BandCells {
            marks: Marks { side, bits },
            low: 1,
            high: 1,
            first: 0,
            end: 0,
        })
    }
}
