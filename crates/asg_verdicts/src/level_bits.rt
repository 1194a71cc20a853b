//! The square of a level as rows of bits.

ghost use Rattle.std.specs.Prelude.{◌≡◌, ◌<◌, ◌≤◌, ◌+◌, ◌*◌, ◌&&◌, ℕ, Bool, None, Some};
ghost use Rattle.std.specs.Prelude.{IfOk, if◌then◌else◌, is_some};
ghost use Rattle.asg_model.specs.Instances.{IsInstance};
ghost use Rattle.asg_model.specs.Limits.{most_side};
ghost use Rattle.asg_model.specs.Shapes.{square_side};
ghost use Rattle.asg_bit_rows.specs.BitTable.{has_bit, is_bit_set, word_count, IsBitTable};
ghost use Rattle.asg_square.specs.Grid.{cell_at};
ghost use Rattle.asg_proof.specs.Levels.{is_between, level_square, without};
ghost use Rattle.asg_verdicts.specs.LevelBits.{bits_at, value_in, AreSizedBits, KeepsOthers};
ghost use Rattle.asg_verdicts.specs.LevelWalks.{IsCostSquare, IsLeft, IsSized};

use crate::NoMemory;
use crate::level_walks::{Walk, level_cell, stays};
use asg_bit_rows::BitRows;
use asg_model::Instance;
use asg_proof::Level;
use asg_square::Square;
use std::alloc::Global;

/// The cells of the square of a level that are 0, and those that are 1.
#[derive(Drop)]
pub(crate) struct LevelBits {
    pub(crate) zeros: BitRows,
    pub(crate) ones: BitRows,
}

// Marks a cell that isn't marked as one that is 1, or that is 0.
fn put_value(bits: &mut LevelBits, row: u32, column: u32, is_one: bool)
    requires zero_row { row < bits.old.zeros.rows }
    requires zero_column { column < bits.old.zeros.columns }
    requires one_row { row < bits.old.ones.rows }
    requires one_column { column < bits.old.ones.columns }
    requires clear { bits_at bits.old row column ≡ None }
    ensures zero_rows { bits.new.zeros.rows ≡ bits.old.zeros.rows }
    ensures zero_columns { bits.new.zeros.columns ≡ bits.old.zeros.columns }
    ensures one_rows { bits.new.ones.rows ≡ bits.old.ones.rows }
    ensures one_columns { bits.new.ones.columns ≡ bits.old.ones.columns }
    ensures here { bits_at bits.new row column ≡ Some (if is_one then 1 else 0) }
    ensures others { KeepsOthers bits.old bits.new row column (column + 1) }
{
    if is_one {
        bits.ones.put(row, column, true);
    } else {
        bits.zeros.put(row, column, true);
    }
}

// Marks a cell, if it is left, by what it holds.
fn split_cell(
    bits: &mut LevelBits,
    square: &Square<i64>,
    walk: &Walk,
    level: &Level,
    row: u32,
    column: u32,
)
    requires row_below { row < square.now.side }
    requires column_below { column < square.now.side }
    requires sized { AreSizedBits square.now.side bits.old }
    requires walk { IsSized square.now.side walk.now }
    requires clear { bits_at bits.old row column ≡ None }
    ensures sized { AreSizedBits square.now.side bits.new }
    ensures here { bits_at bits.new row column ≡ value_in square.now walk.now level.now row column }
    ensures others { KeepsOthers bits.old bits.new row column (column + 1) }
{
    if !walk.left.has(row, column) {
        return;
    }
    let cell = square.at(row, column);
    let is_left = stays(true, cell, walk.before, level.cost);
    match level_cell(is_left, cell, level.cost) {
        Some(value) => put_value(bits, row, column, value > 0),
        None => {}
    }
}

// Marks the cells of a word of a row that are left, by what they hold.
fn split_word(
    bits: &mut LevelBits,
    square: &Square<i64>,
    walk: &Walk,
    level: &Level,
    row: u32,
    number: u32,
    word: u64,
)
    requires few { square.now.side ≤ most_side }
    requires row_below { row < square.now.side }
    requires number_below { number < word_count square.now.side }
    requires sized { AreSizedBits square.now.side bits.old }
    requires walk { IsSized square.now.side walk.now }
    requires word { (k : ℕ) → k < 64
        → is_bit_set word k ≡ has_bit walk.now.left row (64 * number + k) }
    requires clear { (c : ℕ) → 64 * number ≤ c → bits_at bits.old row c ≡ None }
    ensures sized { AreSizedBits square.now.side bits.new }
    ensures cells { (c : ℕ) → 64 * number ≤ c → c < 64 * number + 64 → c < square.now.side
        → bits_at bits.new row c ≡ value_in square.now walk.now level.now row c }
    ensures others { KeepsOthers bits.old bits.new row (64 * number) (64 * number + 64) }
{
    if word == 0 {
        return;
    }
    let from = 64 * number;
    let to = square.side().min(from + 64);
    for column in from..to {
        split_cell(bits, square, walk, level, row, column);
    }
}

// Marks the cells of a row that are left, by what they hold.
fn split_row(bits: &mut LevelBits, square: &Square<i64>, walk: &Walk, level: &Level, row: u32)
    requires few { square.now.side ≤ most_side }
    requires row_below { row < square.now.side }
    requires sized { AreSizedBits square.now.side bits.old }
    requires walk { IsSized square.now.side walk.now }
    requires clear { (c : ℕ) → bits_at bits.old row c ≡ None }
    ensures sized { AreSizedBits square.now.side bits.new }
    ensures cells { (c : ℕ) → c < square.now.side
        → bits_at bits.new row c ≡ value_in square.now walk.now level.now row c }
    ensures others { (r c : ℕ) → (r ≡ row → ⊥) → bits_at bits.new r c ≡ bits_at bits.old r c }
{
    let words = walk.left.row(row);
    for number in 0..words.len() as u32 {
        let word = words[number as usize];
        split_word(bits, square, walk, level, row, number, word);
    }
}

// Marks the present cells of a row that are left.
fn copy_row(zeros: &mut BitRows, square: &Square<i64>, left: &BitRows, row: u32)
    requires row_below { row < square.now.side }
    requires rows { zeros.old.rows ≡ square.now.side }
    requires columns { zeros.old.columns ≡ square.now.side }
    requires left_rows { left.now.rows ≡ square.now.side }
    requires left_columns { left.now.columns ≡ square.now.side }
    ensures rows { zeros.new.rows ≡ square.now.side }
    ensures columns { zeros.new.columns ≡ square.now.side }
    ensures cells { (c : ℕ) → c < square.now.side → has_bit zeros.new row c
        ≡ (has_bit left.now row c && is_some (cell_at square.now row c)) }
    ensures others { (r c : ℕ) → (r ≡ row → ⊥) → has_bit zeros.new r c ≡ has_bit zeros.old r c }
{
    let words = left.row(row);
    let present = square.row_words(row);
    for number in 0..words.len() as u32 {
        let place = number as usize;
        let word = words[place] & present[place];
        zeros.put_word(row, number, word);
    }
}

// Marks the cells of a row that are left, by what they hold. Where it stands for no row of the
// instance its cells are free, and hold 0.
fn split_any(
    bits: &mut LevelBits,
    inst: &Instance,
    square: &Square<i64>,
    walk: &Walk,
    level: &Level,
    row: u32,
)
    requires few { square.now.side ≤ most_side }
    requires square { IsCostSquare inst.now square.now }
    requires row_below { row < square.now.side }
    requires sized { AreSizedBits square.now.side bits.old }
    requires walk { IsSized square.now.side walk.now }
    requires clear { (c : ℕ) → bits_at bits.old row c ≡ None }
    ensures sized { AreSizedBits square.now.side bits.new }
    ensures cells { (c : ℕ) → c < square.now.side
        → bits_at bits.new row c ≡ value_in square.now walk.now level.now row c }
    ensures others { (r c : ℕ) → (r ≡ row → ⊥) → bits_at bits.new r c ≡ bits_at bits.old r c }
{
    let _ = inst;
    if square.row_label(row).is_some() {
        split_row(bits, square, walk, level, row);
    } else {
        copy_row(&mut bits.zeros, square, &walk.left, row);
    }
}

// What rows of bits keep.
fn bits_within(bits: &BitRows)
    requires { 0 < bits.now.rows }
    ensures { IsBitTable bits.now }
{
    let _row = bits.row(0);
}

/// The square of a level before any step, of the cells that are left without those whose costs lie
/// between that of the level before, if there is one, and its own. The error is want of memory.
pub(crate) fn level_bits(
    alloc: Global,
    inst: &Instance,
    square: &Square<i64>,
    walk: &Walk,
    level: &Level,
) -> Result<LevelBits, NoMemory>
    requires some { 0 < square_side inst.now }
    requires few { square_side inst.now ≤ most_side }
    requires instance { IsInstance inst.now }
    requires square { IsCostSquare inst.now square.now }
    requires sized { IsSized (square_side inst.now) walk.now }
    ensures sized { IfOk result (AreSizedBits (square_side inst.now)) }
    ensures cells { IfOk result (λ bits. (left : ℕ → ℕ → Bool)
        → IsLeft (square_side inst.now) left walk.now.left
        → (r c : ℕ) → bits_at bits r c ≡ level_square inst.now
        (without inst.now (is_between walk.now.before level.now.cost) left) level.now.cost r c) }
{
    let side = square.side();
    let zeros = BitRows::make(alloc, side, side)?;
    let ones = BitRows::make(alloc, side, side)?;
    let mut bits = LevelBits { zeros, ones };
    for row in 0..side {
        split_any(&mut bits, inst, square, walk, level, row);
    }
    bits_within(&bits.zeros);
    bits_within(&bits.ones);
    Ok(bits)
}
