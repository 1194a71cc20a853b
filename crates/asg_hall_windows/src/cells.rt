//! One pass over the cells: for each of them, the windows in which its row reaches its column.

ghost use Rattle.std.specs.Prelude.{◌≡◌, ◌≢◌, ℕ, ◌+◌, ◌*◌, ◌/◌, ◌<◌, ◌≤◌, All, IsTrue, length, slice_index, slice_index_or};
ghost use Rattle.asg_bit_rows.specs.WordBits.{HasBit};
ghost use Rattle.asg_model.specs.declared.parts.Column.{Column as C};
ghost use Rattle.asg_model.specs.Limits.{most_columns};
ghost use Rattle.asg_model.specs.Live.{is_active};
ghost use Rattle.asg_model.specs.Table.{absent, IsEntry};
ghost use Rattle.asg_hall_windows.specs.Cells.{IsPassed, IsRowPassed};
ghost use Rattle.asg_hall_windows.specs.Marks.{HasLine, IsMarked, KeepsMarks};
ghost use Rattle.asg_hall_windows.specs.Stretches.{FitsIn};

use crate::marks::Marks;
use crate::stretches::Stretch;
use crate::tables::Table;
use asg_bit_rows::first_bits;
use asg_model::{ABSENT, Column, Instance, RowRoom};

// Marks a column for those windows of a word, of some bits, for which the row is marked.
#[inline]
fn pass_word(
    named: &Marks,
    row: usize,
    reached: &mut Marks,
    column: usize,
    number: usize,
    bits: u64,
)
    requires row_within { row * named.now.width + number < length named.now.words.items }
    requires column_within { column * reached.old.width + number
        < length reached.old.words.items }
    ensures kept { KeepsMarks reached.old reached.new }
    ensures marked { (k : ℕ) → HasBit bits k
        → HasBit (slice_index named.now.words.items (row * named.now.width + number)) k
        → HasBit (slice_index reached.new.words.items (column * reached.old.width + number)) k }
{
    let word = named.words[row * named.width + number];
    reached.add(column, number, word & bits);
}

// Marks a column for those windows of some words, from one on and before another, for which the row
// is marked.
#[inline]
fn pass_words(named: &Marks, row: usize, reached: &mut Marks, column: usize, from: usize, to: usize)
    requires row_within { row * named.now.width + to ≤ length named.now.words.items }
    requires column_within { column * reached.old.width + to ≤ length reached.old.words.items }
    ensures kept { KeepsMarks reached.old reached.new }
    ensures marked { (w : ℕ) → from ≤ w / 64 → w / 64 < to
        → IsMarked named.now row w → IsMarked reached.new column w }
{
    for number in from..to {
        pass_word(named, row, reached, column, number, first_bits(64));
    }
}

// Marks a column for those windows of a stretch for which the row is marked.
#[inline]
fn pass_stretch(named: &Marks, row: usize, reached: &mut Marks, column: usize, stretch: &Stretch)
    requires stretch { FitsIn named.now.width stretch.now }
    requires width { reached.old.width ≡ named.now.width }
    requires row_within { HasLine named.now row }
    requires column_within { HasLine reached.old column }
    ensures kept { KeepsMarks reached.old reached.new }
    ensures marked { (w : ℕ) → stretch.now.from ≤ w → w < stretch.now.to
        → IsMarked named.now row w → IsMarked reached.new column w }
{
    let span = stretch.span;
    let first = span.first as usize;
    let last = span.last as usize;
    pass_word(named, row, reached, column, first, span.low);
    if first == last {
        return;
    }
    pass_words(named, row, reached, column, first + 1, last);
    pass_word(named, row, reached, column, last, span.high);
}

// Marks a column for those windows in which the cost of a row lies and for which the row is marked.
// False where no stretch of costs has it.
#[inline]
fn pass_cost(
    table: &Table,
    named: &Marks,
    row: usize,
    reached: &mut Marks,
    column: usize,
    cost: i64,
) -> bool
    requires stretches { All (FitsIn named.now.width) table.now.stretches.items }
    requires width { reached.old.width ≡ named.now.width }
    requires row_within { HasLine named.now row }
    requires column_within { HasLine reached.old column }
    ensures kept { KeepsMarks reached.old reached.new }
    ensures passed { IsTrue result
        → IsPassed table.now.stretches.items named.now row reached.new column cost }
{
    match table.find(cost) {
        Some(place) => {
            pass_stretch(named, row, reached, column, &table.stretches[place]);
            true
        }
        None => false,
    }
}

// The same for the cost of a row in a column. False where the column is open and there is a cost
// which no stretch has.
#[inline]
fn pass_cell(
    table: &Table,
    named: &Marks,
    row: usize,
    reached: &mut Marks,
    place: usize,
    column: &Column,
    cost: i64,
) -> bool
    requires stretches { All (FitsIn named.now.width) table.now.stretches.items }
    requires width { reached.old.width ≡ named.now.width }
    requires row_within { HasLine named.now row }
    requires column_within { HasLine reached.old place }
    ensures kept { KeepsMarks reached.old reached.new }
    ensures passed { IsTrue result → IsTrue column.now.usable → cost ≢ absent
        → IsPassed table.now.stretches.items named.now row reached.new place cost }
{
    if pass_cost(table, named, row, reached, place, cost) {
        return true;
    }
    cost == ABSENT || !column.usable
}

// The same for each cost of a row.
fn pass_costs(
    table: &Table,
    named: &Marks,
    row: usize,
    reached: &mut Marks,
    columns: &[Column],
    costs: &[i64],
) -> bool
    requires stretches { All (FitsIn named.now.width) table.now.stretches.items }
    requires width { reached.old.width ≡ named.now.width }
    requires row_within { HasLine named.now row }
    requires columns { length reached.old.words.items ≡ length columns.now * reached.old.width }
    requires costs { length costs.now ≡ length columns.now }
    requires entries { All IsEntry costs.now }
    ensures kept { KeepsMarks reached.old reached.new }
    ensures passed { IsTrue result → (c : ℕ) (d : C) → c < length costs.now
        → IsTrue (slice_index_or columns.now c d).usable → slice_index_or costs.now c absent ≢ absent
        → IsPassed table.now.stretches.items named.now row reached.new c
        (slice_index_or costs.now c absent) }
{
    for place in 0..costs.len() {
        if !pass_cell(
            table,
            named,
            row,
            reached,
            place,
            &columns[place],
            costs[place],
        ) {
            return false;
        }
    }
    true
}

// The same for the live cells of a row.
fn pass_row(
    inst: &Instance,
    table: &Table,
    named: &Marks,
    row: u32,
    room: &mut RowRoom,
    reached: &mut Marks,
) -> bool
    requires stretches { All (FitsIn named.now.width) table.now.stretches.items }
    requires width { reached.old.width ≡ named.now.width }
    requires row_within { HasLine named.now row }
    requires columns { length reached.old.words.items
        ≡ length inst.now.columns * reached.old.width }
    ensures kept { KeepsMarks reached.old reached.new }
    ensures passed { IsTrue result
        → IsRowPassed inst.now table.now.stretches.items named.now reached.new row }
{
    if !inst.is_active(row) {
        return true;
    }
    match inst.row_parts(row, room) {
        Some(parts) => pass_costs(
            table,
            named,
            row as usize,
            reached,
            inst.columns(),
            parts.firsts,
        ),
        None => true,
    }
}

// The same for all live cells.
pub(crate) fn pass_cells(inst: &Instance, table: &Table, named: &Marks, reached: &mut Marks) -> bool
    requires stretches { All (FitsIn named.now.width) table.now.stretches.items }
    requires width { reached.old.width ≡ named.now.width }
    requires rows { length named.now.words.items ≡ length inst.now.rows * named.now.width }
    requires columns { length reached.old.words.items
        ≡ length inst.now.columns * reached.old.width }
    ensures kept { KeepsMarks reached.old reached.new }
    ensures passed { IsTrue result → (r : ℕ) → r < length inst.now.rows
        → IsRowPassed inst.now table.now.stretches.items named.now reached.new r }
{
    let mut room = RowRoom::new();
    for row in 0..inst.rows().len() {
        if !pass_row(inst, table, named, row as u32, &mut room, reached) {
            return false;
        }
    }
    true
}
