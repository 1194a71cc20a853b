//! The next grade that helps deficient rows.

ghost use Rattle.std.specs.Prelude.{◌≡◌, ◌⊎◌, ℕ, ◌<◌, ◌≤◌, ◌/◌, false, All, IfOk, IsTrue, length};
ghost use Rattle.std.specs.List.Sorted.{IsNonDecreasingBy};
ghost use Rattle.asg_match.specs.ColumnSet.{HasColumn};
ghost use Rattle.asg_bit_rows.specs.BitTable.{has_bit};
ghost use Rattle.asg_live_cells.specs.declared.live_cells.Entry.{Entry as E};
ghost use Rattle.asg_window.specs.Bands.{MarksBand};
ghost use Rattle.asg_live_cells.specs.LiveCells.{entry_at};
ghost use Rattle.asg_window.specs.Reaching.{HasRoom, IsRowMarked, Reaches, AreReachedBelow};
ghost use Rattle.asg_window.specs.Reaching.{GetNoColumn};

use crate::NoMemory;
use crate::band_cells::BandCells;
use crate::grades::NO_BOUND;
use crate::words::{add_words, clear_words, has_column};
use asg_live_cells::{Entry, LiveCells};
use std::alloc::Global;

/// Some rows of a square, and the columns that they have in a band, as bits. Its memory serves one
/// list of rows after another.
#[derive(Drop)]
pub(crate) struct Reached {
    pub(crate) rows: Vec<bool>,
    pub(crate) columns: Vec<u64>,
}

// Whether the entry's row is one of the rows, and its column one that none of them has.
#[inline]
fn is_new(reached: &Reached, entry: Entry) -> bool
    requires row { entry.row < length reached.now.rows.items }
    requires column { entry.column / 64 < length reached.now.columns.items }
    ensures { result ≡ false → IsRowMarked reached.now entry.row
        → HasColumn reached.now.columns.items entry.column }
{
    reached.rows[usize::from(entry.row)]
        && !has_column(reached.columns.as_slice(), usize::from(entry.column))
}

// The grade of the first entry from a place on whose row is one of the rows and whose column none
// of them has, or no bound.
fn first_new(entries: &[Entry], from: usize, reached: &Reached) -> u32
    requires from_within { from ≤ length entries.now }
    requires rows { All (λ e. e.row < length reached.now.rows.items) entries.now }
    requires columns { All (λ e. e.column / 64 < length reached.now.columns.items) entries.now }
    requires ascending { IsNonDecreasingBy (λ (e : E). e.grade) entries.now }
    ensures least { (bound : ℕ) → bound ≤ 4294967295
        → ((k : ℕ) → from ≤ k → k < length entries.now → bound ≤ (entry_at entries.now k).grade)
        → bound ≤ result }
    ensures reached { AreReachedBelow entries.now from reached.now result }
{
    for place in from..entries.len() {
        let entry = entries[place];
        if is_new(reached, entry) {
            return entry.grade;
        }
    }
    NO_BOUND
}

impl Reached {
    /// No rows. The error is want of memory.
    pub(crate) fn make(alloc: Global, side: u32) -> Result<Reached, NoMemory>
        ensures { IfOk result (HasRoom side) }
    {
        let rows = vec![in alloc; false; side as usize]?;
        let columns = vec![in alloc; 0; side.div_ceil(64) as usize]?;
        Ok(Reached { rows, columns })
    }

    // Takes all rows away, with their columns.
    fn clear(&mut self)
        ensures room { (side : ℕ) → HasRoom side self.old → HasRoom side self.new }
        ensures none { (c : ℕ) → HasColumn self.new.columns.items c → ⊥ }
    {
        self.rows.as_mut_slice().fill(false);
        clear_words(&mut self.columns);
    }

    // Adds a row, with the columns that it has in the band.
    fn add_row(&mut self, band: &BandCells, row: u32)
        requires room { HasRoom band.now.marks.side self.old }
        requires below { row < band.now.marks.side }
        ensures room { HasRoom band.now.marks.side self.new }
        ensures marked { IsRowMarked self.new row }
        ensures kept { (r : ℕ) → IsRowMarked self.old r → IsRowMarked self.new r }
        ensures columns { (c : ℕ) → HasColumn self.new.columns.items c
            → HasColumn self.old.columns.items c ⊎ IsTrue (has_bit band.now.marks.bits row c) }
    {
        self.rows[row as usize] = true;
        add_words(&mut self.columns, band.marks.bits.row(row));
    }

    // Takes these rows, with the columns that they have in the band.
    fn take(&mut self, band: &BandCells, rows: &[u32])
        requires room { HasRoom band.now.marks.side self.old }
        requires below { All (λ r. r < band.now.marks.side) rows.now }
        ensures room { HasRoom band.now.marks.side self.new }
        ensures reaches { Reaches band.now.marks.bits rows.now self.new }
    {
        self.clear();
        for place in 0..rows.len() {
            self.add_row(band, rows[place]);
        }
    }

    /// The least grade above the band of a live cell of these rows in a column that none of them
    /// has in the band, or no bound.
    pub(crate) fn next_grade(
        &mut self,
        cells: &LiveCells<'_>,
        band: &BandCells,
        rows: &[u32],
    ) -> u32
        requires room { HasRoom cells.now.square.now.side self.old }
        requires band { MarksBand cells.now.square.now cells.now.entries.now band.now }
        requires below { All (λ r. r < cells.now.square.now.side) rows.now }
        ensures room { HasRoom cells.now.square.now.side self.new }
        ensures least { band.now.high ≤ result }
        ensures none { GetNoColumn cells.now.square.now band.now.low band.now.high result rows.now }
    {
        self.take(band, rows);
        first_new(cells.entries, band.end, self)
    }
}
