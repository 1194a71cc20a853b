//! Cells that a branch takes out, row by row.

ghost use Rattle.std.specs.Prelude.{◌≡◌, ◌<◌, ◌≤◌, ◌*◌, ◌&&◌, ◌||◌, ℕ, nat_le, not, length};
ghost use Rattle.asg_model.specs.declared.parts.Place.TheVariants.{All as PlaceAll};
ghost use Rattle.asg_model.specs.Shapes.{square_side};
ghost use Rattle.asg_rankings.specs.Masks.{keeps_cell};
ghost use Rattle.asg_bit_rows.specs.BitTable.{is_bit_set, is_from_to};
ghost use Rattle.asg_square.specs.Grid.{HasLabelsOf};
ghost use Rattle.asg_square.specs.Labels.{column_label};
ghost use Rattle.asg_nodes.specs.Cuts.{keeps_copies, cuts_cell, cuts_word, cuts_between, cuts_row, cuts_numbered, PutsRow, LosesCells};

use crate::copies::{Run, copies_of, end_of_copies};
use asg_bit_rows::{BitRows, first_bits};
use asg_model::{Choice, Instance};
use asg_square::Square;

// The bits of a word from one on and before another.
fn bits_between(word: u64, from: u32, to: u32) -> u64
    ensures { (k : ℕ) → k < 64
        → is_bit_set result k ≡ (is_bit_set word k && is_from_to from to k) }
{
    let upto = first_bits(to as usize);
    let before = first_bits(from as usize);
    word & upto & !before
}

// Takes a cell out.
fn cut_cell<V: Copy>(square: &mut Square<V>, row: u32, column: u32)
    requires row { row < square.old.side }
    requires column { column < square.old.side }
    ensures { LosesCells (cuts_cell row column) square.old square.new }
{
    square.side();
    square.set(row, column, None);
}

// Takes out the present cells of one row, of the 64 columns of a word, at those from one on and
// before another.
fn cut_word<V: Copy>(square: &mut Square<V>, row: u32, number: u32, from: u32, to: u32)
    requires row { row < square.old.side }
    requires within { to ≤ square.old.side }
    requires number { 64 * number < to }
    ensures { LosesCells (cuts_word row number from to) square.old square.new }
{
    square.side();
    let first = 64 * number;
    let word = square.row_words(row)[number as usize];
    let mut rest = bits_between(word, from.saturating_sub(first), to - first);
    'bits: while rest != 0 {
        let k = rest.trailing_zeros();
        cut_cell(square, row, first + k);
        rest &= !(1 << k);
    }
}

// Takes out the present cells of one row at the columns from one on and before another.
fn cut_between<V: Copy>(square: &mut Square<V>, row: u32, from: u32, to: u32)
    requires row { row < square.old.side }
    requires within { to ≤ square.old.side }
    ensures { LosesCells (cuts_between row from to) square.old square.new }
{
    square.side();
    'words: for number in from / 64..to.div_ceil(64) {
        cut_word(square, row, number, from, to);
    }
}

// Takes out the cells of one row that it doesn't keep, where it keeps the copies of its column
// alone or loses them.
fn cut_row<V: Copy>(
    square: &mut Square<V>,
    inst: &Instance,
    row: u32,
    chosen: Option<u32>,
    alone: bool,
)
    requires labels { HasLabelsOf inst.now square.old }
    requires row { row < square.old.side }
    ensures { LosesCells (cuts_row square.old row chosen alone) square.old square.new }
{
    square.side();
    let run = copies_of(inst, square, chosen);
    if alone {
        let end = end_of_copies(inst, square);
        cut_between(square, row, 0, run.from);
        cut_between(square, row, run.to, end);
    } else {
        cut_between(square, row, run.from, run.to);
    }
}

/// Takes out the cells that a branch by a choice doesn't keep: of the active rows in order those
/// before number `branch` keep the copies of the chosen column alone, and number `branch` loses
/// them. It takes no memory.
pub(crate) fn cut_branch<V: Copy>(
    square: &mut Square<V>,
    inst: &Instance,
    choice: &Choice,
    branch: u32,
)
    requires labels { HasLabelsOf inst.now square.old }
    requires place { inst.now.place ≡ PlaceAll }
    requires over { length choice.now ≡ length inst.now.rows }
    ensures { LosesCells (keeps_cell inst.now choice.now branch) square.old square.new }
{
    square.side();
    let mut number = 0;
    'rows: for row in 0..choice.len() {
        if inst.is_active(row) {
            number += 1;
            cut_numbered(square, inst, row, choice.get(row), number, branch);
        }
    }
}

// Takes out the cells that a branch doesn't keep of an active row with a number.
fn cut_numbered<V: Copy>(
    square: &mut Square<V>,
    inst: &Instance,
    row: u32,
    chosen: Option<u32>,
    number: u32,
    branch: u32,
)
    requires labels { HasLabelsOf inst.now square.old }
    requires row { row < square.old.side }
    ensures { LosesCells (cuts_numbered square.old row chosen number branch) square.old square.new }
{
    if number <= branch {
        cut_row(square, inst, row, chosen, number < branch);
    }
}

// Lets a row of bits keep these copies alone, and the columns from an end on.
fn put_alone(bits: &mut BitRows, row: u32, run: Run, end: u32)
    requires row { row < bits.old.rows }
    requires within { run.to ≤ bits.old.columns }
    ensures { PutsRow bits.old bits.new row
        (λ k. is_from_to run.from run.to k || nat_le end k) }
{
    let columns = bits.columns();
    bits.put_only(row, run.from, run.to);
    bits.put_columns(row, end, columns, true);
}

// Lets a row of bits keep all columns but these copies.
fn put_others(bits: &mut BitRows, row: u32, run: Run)
    requires row { row < bits.old.rows }
    requires within { run.to ≤ bits.old.columns }
    ensures { PutsRow bits.old bits.new row (λ k. not (is_from_to run.from run.to k)) }
{
    let columns = bits.columns();
    bits.put_columns(row, 0, columns, true);
    bits.put_columns(row, run.from, run.to, false);
}

/// Lets a row of bits keep the copies of its column alone, or all columns but them, by words. It
/// takes no memory.
pub fn put_row<V: Copy>(
    bits: &mut BitRows,
    inst: &Instance,
    square: &Square<V>,
    row: u32,
    chosen: Option<u32>,
    alone: bool,
)
    requires labels { HasLabelsOf inst.now square.now }
    requires row { row < bits.old.rows }
    requires columns { bits.old.columns ≡ square_side inst.now }
    ensures { PutsRow bits.old bits.new row
        (λ k. keeps_copies chosen alone (column_label inst.now k)) }
{
    let run = copies_of(inst, square, chosen);
    if alone {
        let end = end_of_copies(inst, square);
        put_alone(bits, row, run, end);
    } else {
        put_others(bits, row, run);
    }
}
