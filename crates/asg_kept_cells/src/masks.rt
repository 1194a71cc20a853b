//! Which cells of a square a branch keeps, as rows of bits.

ghost use Rattle.std.specs.Prelude.{◌≡◌, ◌+◌, ◌<◌, ◌≤◌, ℕ, true, IfOk, length};
ghost use Rattle.asg_model.specs.declared.parts.Place.TheVariants.{All as PlaceAll};
ghost use Rattle.asg_model.specs.Instances.{IsInstance};
ghost use Rattle.asg_model.specs.Limits.{most_side};
ghost use Rattle.asg_model.specs.Live.{is_active};
ghost use Rattle.asg_model.specs.Problem.{Problem};
ghost use Rattle.asg_model.specs.Shapes.{square_side};
ghost use Rattle.asg_model.specs.Sums.{count_below};
ghost use Rattle.asg_square.specs.Grid.{HasLabelsOf};
ghost use Rattle.asg_kept_cells.specs.Copies.{StandInOrder, keeps_alone, keeps_others};
ghost use Rattle.asg_kept_cells.specs.Kept.{HasSize, IsMaskOf, KeepsAll, KeepsOtherRows, MarksNumbered, MarksRow, MarksRows, IsFront, IsNumbered, keeps_label};

use crate::NoMemory;
use crate::copies::{copies_of, copy_count};
use asg_bit_rows::BitRows;
use asg_model::{Choice, Instance};
use asg_square::Square;
use std::alloc::Global;

/// A row, and the number of active rows before it.
#[derive(Clone, Copy, Debug)]
pub struct Front {
    pub(crate) row: u32,
    pub(crate) number: u32,
}

impl Front {
    /// The first row.
    pub fn first() -> Front
        ensures row { result.row ≡ 0 }
        ensures front { (X : Problem) → IsFront X result }
    {
        Front { row: 0, number: 0 }
    }
}

// Lets a row keep all cells.
fn keep_all<V: Copy>(kept: &mut BitRows, square: &Square<V>, row: u32)
    requires size { HasSize square.now.side kept.old }
    requires row { row < square.now.side }
    ensures { MarksRow square.now.column_labels square.now.side (λ _. true) row kept.old kept.new }
{
    let side = square.side();
    kept.put_columns(row, 0, side, true);
}

// Lets a row keep all cells but those of the copies of the column that it chooses.
fn keep_others<V: Copy>(kept: &mut BitRows, square: &Square<V>, row: u32, chosen: Option<u32>)
    requires size { HasSize square.now.side kept.old }
    requires order { StandInOrder square.now.column_labels }
    requires row { row < square.now.side }
    ensures { MarksRow square.now.column_labels square.now.side (keeps_others chosen) row kept.old
        kept.new }
{
    let copies = copies_of(square, chosen);
    let side = square.side();
    kept.put_columns(row, 0, side, true);
    kept.put_columns(row, copies.from, copies.to, false);
}

// Lets a row keep the cells of the copies of the column that it chooses alone, and those of what is
// no copy of a column.
fn keep_alone<V: Copy>(
    kept: &mut BitRows,
    inst: &Instance,
    square: &Square<V>,
    row: u32,
    chosen: Option<u32>,
)
    requires size { HasSize square.now.side kept.old }
    requires labels { HasLabelsOf inst.now square.now }
    requires row { row < square.now.side }
    ensures { MarksRow square.now.column_labels square.now.side (keeps_alone chosen) row kept.old
        kept.new }
{
    let copies = copies_of(square, chosen);
    let count = copy_count(inst, square);
    let side = square.side();
    kept.put_only(row, copies.from, copies.to);
    kept.put_columns(row, count, side, true);
}

// Sets the bits of a row that stands for an active one to those that a branch keeps, by words.
fn mark_row<V: Copy>(
    kept: &mut BitRows,
    inst: &Instance,
    square: &Square<V>,
    row: u32,
    branch: u32,
    number: u32,
    chosen: Option<u32>,
)
    requires size { HasSize square.now.side kept.old }
    requires labels { HasLabelsOf inst.now square.now }
    requires row { row < square.now.side }
    ensures { MarksRow square.now.column_labels square.now.side (keeps_label branch number chosen)
        row kept.old kept.new }
{
    if branch < number {
        keep_all(kept, square, row);
        return;
    }
    if number < branch {
        keep_alone(kept, inst, square, row, chosen);
        return;
    }
    keep_others(kept, square, row, chosen);
}

// Sets the bits of a row to those that a branch keeps, where it is active and its number is one of
// those from one on up to another, and gives the number of active rows up to it, by that of those
// before it.
fn mark_active<V: Copy>(
    kept: &mut BitRows,
    inst: &Instance,
    square: &Square<V>,
    choice: &Choice,
    branch: u32,
    from: u32,
    to: u32,
    row: u32,
    before: u32,
) -> u32
    requires size { HasSize square.now.side kept.old }
    requires labels { HasLabelsOf inst.now square.now }
    requires choice { length choice.now ≡ length inst.now.rows }
    requires row { row < length inst.now.rows }
    requires within { length inst.now.rows ≤ square.now.side }
    requires before { before ≡ count_below (is_active inst.now) row }
    ensures number { result ≡ count_below (is_active inst.now) (row + 1) }
    ensures marks { MarksNumbered inst.now choice.now square.now.column_labels square.now.side
        branch from to row kept.old kept.new }
{
    if !inst.rows()[row as usize].active {
        return before;
    }
    let number = before + 1;
    if number < from {
        return number;
    }
    if to < number {
        return number;
    }
    mark_row(kept, inst, square, row, branch, number, choice.get(row));
    number
}

// Sets the bits of the active rows whose numbers are those from one on up to another to those that
// a branch keeps, and gives the last row before which there are fewer than the latter. The rows
// before the one to start at have lesser numbers; those after these aren't looked at.
fn mark_rows<V: Copy>(
    kept: &mut BitRows,
    inst: &Instance,
    square: &Square<V>,
    choice: &Choice,
    branch: u32,
    from: u32,
    to: u32,
    start: Front,
) -> Front
    requires size { HasSize square.now.side kept.old }
    requires labels { HasLabelsOf inst.now square.now }
    requires choice { length choice.now ≡ length inst.now.rows }
    requires within { length inst.now.rows ≤ square.now.side }
    requires start { IsFront inst.now start }
    requires apart { (r : ℕ) → r < start.row → IsNumbered inst.now from to r → ⊥ }
    ensures marks { MarksRows inst.now choice.now square.now.column_labels square.now.side branch
        from to (length inst.now.rows) kept.old kept.new }
    ensures front { IsFront inst.now result }
{
    let mut last = start;
    let mut number = start.number;
    for row in start.row..choice.len() {
        if to <= number {
            return last;
        }
        last = Front { row, number };
        number = mark_active(kept, inst, square, choice, branch, from, to, row, number);
    }
    last
}

// The row to start at for the rows whose numbers are those from one on: a known one where fewer
// active rows are before it, or the first.
fn start_of(inst: &Instance, front: Front, from: u32, to: u32) -> Front
    requires { IsFront inst.now front }
    ensures front { IsFront inst.now result }
    ensures apart { (r : ℕ) → r < result.row → IsNumbered inst.now from to r → ⊥ }
{
    let _ = inst;
    let _ = to;
    if front.number < from {
        front
    } else {
        Front::first()
    }
}

/// Bits that keep all cells of a square of this side. The error is want of memory.
pub fn whole_mask(alloc: Global, inst: &Instance) -> Result<BitRows, NoMemory>
    requires { square_side inst.now ≤ most_side }
    ensures { IfOk result (KeepsAll inst.now) }
{
    let _rows = inst.rows();
    let side = inst.side();
    let mut kept = BitRows::make(alloc, side, side)?;
    kept.set_all();
    Ok(kept)
}

/// Sets bits, of which those of rows that stand for no active one keep all cells, to those that a
/// branch keeps.
pub fn make_mask<V: Copy>(
    kept: &mut BitRows,
    inst: &Instance,
    square: &Square<V>,
    choice: &Choice,
    branch: u32,
)
    requires instance { IsInstance inst.now }
    requires place { inst.now.place ≡ PlaceAll }
    requires few { square_side inst.now ≤ most_side }
    requires labels { HasLabelsOf inst.now square.now }
    requires choice { length choice.now ≡ length inst.now.rows }
    requires kept { KeepsOtherRows inst.now kept.old }
    ensures mask { IsMaskOf inst.now choice.now branch kept.new }
    ensures kept { KeepsOtherRows inst.now kept.new }
{
    let start = Front::first();
    let _last = mark_rows(kept, inst, square, choice, branch, 0, u32::MAX, start);
}

/// Sets bits that a branch of the same choice keeps to those of another branch, and gives the last
/// row before which there are fewer active ones than the greater of the two. The time is that of the
/// rows from a known one on, or from the first, and of the words of those whose numbers lie between
/// the branches.
pub fn move_mask<V: Copy>(
    kept: &mut BitRows,
    inst: &Instance,
    square: &Square<V>,
    choice: &Choice,
    before: u32,
    branch: u32,
    front: Front,
) -> Front
    requires instance { IsInstance inst.now }
    requires place { inst.now.place ≡ PlaceAll }
    requires few { square_side inst.now ≤ most_side }
    requires labels { HasLabelsOf inst.now square.now }
    requires choice { length choice.now ≡ length inst.now.rows }
    requires mask { IsMaskOf inst.now choice.now before kept.old }
    requires front { IsFront inst.now front }
    ensures mask { IsMaskOf inst.now choice.now branch kept.new }
    ensures kept { KeepsOtherRows inst.now kept.new }
    ensures front { IsFront inst.now result }
{
    let from = before.min(branch);
    let to = before.max(branch);
    let start = start_of(inst, front, from, to);
    mark_rows(kept, inst, square, choice, branch, from, to, start)
}
