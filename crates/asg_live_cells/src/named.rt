//! Marks of the cells that entries name.

ghost use Rattle.std.specs.Prelude.{◌≡◌, ◌<◌, ◌≤◌, All, length};
ghost use Rattle.asg_live_cells.specs.Marks.{MarksMore, MarksFewer};

use crate::live_cells::Entry;
use asg_bit_rows::BitRows;

/// Marks the cells of the entries from one place to another.
pub fn enter(bits: &mut BitRows, entries: &[Entry], from: usize, to: usize)
    requires order { from ≤ to }
    requires within { All (λ e. (e.row < bits.old.rows) × (e.column < bits.old.columns))
        entries.now }
    requires to_within { to ≤ length entries.now }
    ensures rows { bits.new.rows ≡ bits.old.rows }
    ensures columns { bits.new.columns ≡ bits.old.columns }
    ensures marks { MarksMore bits.old bits.new entries.now from to }
{
    for place in from..to {
        let entry = entries[place];
        let row = u32::from(entry.row);
        let column = u32::from(entry.column);
        bits.put(row, column, true);
    }
}

/// Takes the marks from the cells of the entries from one place to another.
pub fn leave(bits: &mut BitRows, entries: &[Entry], from: usize, to: usize)
    requires order { from ≤ to }
    requires within { All (λ e. (e.row < bits.old.rows) × (e.column < bits.old.columns))
        entries.now }
    requires to_within { to ≤ length entries.now }
    ensures rows { bits.new.rows ≡ bits.old.rows }
    ensures columns { bits.new.columns ≡ bits.old.columns }
    ensures marks { MarksFewer bits.old bits.new entries.now from to }
{
    for place in from..to {
        let entry = entries[place];
        let row = u32::from(entry.row);
        let column = u32::from(entry.column);
        bits.put(row, column, false);
    }
}
