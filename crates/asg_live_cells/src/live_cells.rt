//! The live cells of a square in the order of their grades.

ghost use Rattle.std.specs.Prelude.{◌+◌, ◌*◌, ◌↔◌, ◌<◌, ◌≤◌, IfOk, IsTrue};
ghost use Rattle.asg_model.specs.Limits.{most_side};
ghost use Rattle.std.specs.List.Sorted.{IsNonDecreasingBy};
ghost use Rattle.asg_live_cells.specs.declared.live_cells.Entry.{Entry as E};
ghost use Rattle.asg_bit_rows.specs.BitTable.{word_count};
ghost use Rattle.asg_live_cells.specs.LiveCells.{AddsEntry, AreEntriesBefore, AreEntriesUnder};
ghost use Rattle.asg_live_cells.specs.LiveCells.{IsPlaceOf};

use crate::NoMemory;
use crate::under_words::under_word;
use asg_square::Square;
use std::alloc::Global;

/// A live cell of a square, with the grade of its cost.
#[derive(Clone, Copy)]
pub struct Entry {
    pub grade: u32,
    pub row: u16,
    pub column: u16,
}

/// A square with those of its live cells whose grades are under a limit, in the order of their
/// grades.
#[derive(Clone, Copy)]
pub struct LiveCells<'a> {
    pub square: &'a Square<u32>,
    /// The grades of the entries are under it, and each live cell with a grade under it has one.
    pub limit: u32,
    pub entries: &'a [Entry],
}

// Whether a grade is that of a live cell, and under the limit.
#[inline]
fn is_listed(grade: u32, limit: u32) -> bool
    ensures { IsTrue result ↔ ((0 < grade) × (grade < limit)) }
{
    0 < grade && grade < limit
}

// Adds the live cell at a row and a column, if there is one with a grade under the limit.
#[inline]
fn add_cell(
    entries: &mut Vec<Entry>,
    square: &Square<u32>,
    limit: u32,
    row: u32,
    column: u32,
) -> Result<(), NoMemory>
    requires row_below { row < square.now.side }
    requires column_below { column < square.now.side }
    requires few { square.now.side ≤ most_side }
    ensures { IfOk result
        (λ _. AddsEntry square.now limit row column entries.old.items entries.new.items) }
{
    match square.at(row, column) {
        Some(grade) if is_listed(grade, limit) => {
            entries.push(Entry {
                grade,
                row: row as u16,
                column: column as u16,
            })?;
            Ok(())
        }
        _ => Ok(()),
    }
}

// Adds the live cells of a row with a grade under the limit, from column `64 * number` on and 64 at
// the most.
fn add_word(
    entries: &mut Vec<Entry>,
    square: &Square<u32>,
    limit: u32,
    row: u32,
    number: u32,
) -> Result<(), NoMemory>
    requires row_below { row < square.now.side }
    requires number_below { number < word_count square.now.side }
    requires few { square.now.side ≤ most_side }
    requires before { AreEntriesBefore square.now limit row (64 * number) entries.old.items }
    ensures { IfOk result
        (λ _. AreEntriesBefore square.now limit row (64 * number + 64) entries.new.items) }
{
    let mut rest = under_word(square, row, number, limit);
    'cells: while rest != 0 {
        let k = rest.trailing_zeros();
        add_cell(entries, square, limit, row, 64 * number + k)?;
        rest &= !(1 << k);
    }
    Ok(())
}

// Adds the live cells of a row with a grade under the limit.
fn add_row(
    entries: &mut Vec<Entry>,
    square: &Square<u32>,
    limit: u32,
    row: u32,
) -> Result<(), NoMemory>
    requires row_below { row < square.now.side }
    requires before { AreEntriesBefore square.now limit row 0 entries.old.items }
    ensures { IfOk result (λ _. AreEntriesBefore square.now limit (row + 1) 0 entries.new.items) }
{
    for number in 0..square.side().div_ceil(64) {
        add_word(entries, square, limit, row, number)?;
    }
    Ok(())
}

// The live cells of a square with a grade under the limit, row by row.
fn row_by_row(alloc: Global, square: &Square<u32>, limit: u32) -> Result<Vec<Entry>, NoMemory>
    ensures { IfOk result (λ v. AreEntriesBefore square.now limit square.now.side 0 v.items) }
{
    let side = square.side();
    let mut entries = Vec::with_capacity(alloc, (side * side) as usize)?;
    for row in 0..side {
        add_row(&mut entries, square, limit, row)?;
    }
    Ok(entries)
}

/// The live cells of a square with a grade under the limit, in the order of their grades. The error
/// is want of memory.
pub fn in_order(alloc: Global, square: &Square<u32>, limit: u32) -> Result<Vec<Entry>, NoMemory>
    ensures { IfOk result (λ v. AreEntriesUnder square.now limit v.items) }
{
    let mut entries = row_by_row(alloc, square, limit)?;
    entries.sort_unstable_by_key(|entry| entry.grade);
    Ok(entries)
}

impl LiveCells<'_> {
    /// The place before which the grades are less than the bound, and from which on they aren't.
    pub fn place_of(&self, bound: u32) -> usize
        requires { IsNonDecreasingBy (λ (e : E). e.grade) self.now.entries.now }
        ensures { IsPlaceOf self.now.entries.now bound result }
    {
        self.entries.partition_point(|entry| entry.grade < bound)
    }
}
