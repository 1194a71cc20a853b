//! Cells taken out of a square.

ghost use Rattle.std.specs.Prelude.{◌≡◌, ◌<◌, ◌≤◌, ◌+◌, ◌*◌, ◌&&◌, ℕ, None, is_some, not};
ghost use Rattle.asg_admit.specs.Reduced.{KeepsLabels};
ghost use Rattle.asg_admit.specs.Settling.{IsWritten};
ghost use Rattle.asg_bit_rows.specs.BitTable.{has_bit, is_bit_set, word_count};
ghost use Rattle.asg_square.specs.Grid.{cell_at};
ghost use Rattle.asg_square.specs.Masked.{masked_grid};
ghost use Rattle.asg_bit_rows.specs.WordBits.{HasBit};
ghost use Rattle.asg_kept_cells.specs.Kept.{HasSize, TakesOutBits, TakesOutRow};

use asg_bit_rows::BitRows;
use asg_square::Square;

// The bits of a word that another lacks.
#[inline]
fn lacking(word: u64, bits: u64) -> u64
    ensures { (k : ℕ) → k < 64
        → is_bit_set result k ≡ (is_bit_set word k && not (is_bit_set bits k)) }
{
    word & !bits
}

// Of the 64 columns of a word of a row, those whose cells are there and whose bits aren't set.
fn unkept_columns<V: Copy>(square: &Square<V>, kept: &BitRows, row: u32, number: u32) -> u64
    requires size { HasSize square.now.side kept.now }
    requires row { row < square.now.side }
    requires number { number < word_count square.now.side }
    ensures { (k : ℕ) → k < 64 → is_bit_set result k
        ≡ (is_some (cell_at square.now row (64 * number + k))
        && not (has_bit kept.now row (64 * number + k))) }
{
    let _grid = square.side();
    let present = square.row_words(row);
    let bits = kept.row(row);
    lacking(present[number as usize], bits[number as usize])
}

// Takes a cell out.
#[inline]
fn take_out_cell<V: Copy>(square: &mut Square<V>, row: u32, column: u32)
    requires row { row < square.old.side }
    requires column { column < square.old.side }
    ensures { IsWritten square.old square.new row column None }
{
    let _grid = square.side();
    square.set(row, column, None);
}

// Takes the cells of a row out, behind a place, whose bits a word has.
fn take_out_bits<V: Copy>(square: &mut Square<V>, row: u32, first: u32, word: u64)
    requires row { row < square.old.side }
    requires first { first ≤ square.old.side }
    requires inside { (k : ℕ) → k < 64 → HasBit word k → first + k < square.old.side }
    ensures { TakesOutBits row first word square.old square.new }
{
    let _grid = square.side();
    let mut rest = word;
    'bits: while rest != 0 {
        let k = rest.trailing_zeros();
        take_out_cell(square, row, first + k);
        rest &= !(1 << k);
    }
}

// Takes the cells of a row out whose bits aren't set, by words: of the columns only those are
// visited whose cells go.
fn take_out_row<V: Copy>(square: &mut Square<V>, kept: &BitRows, row: u32)
    requires size { HasSize square.old.side kept.now }
    requires row { row < square.old.side }
    ensures { TakesOutRow kept.now row square.old.side square.old square.new }
{
    let side = square.side();
    'words: for number in 0..side.div_ceil(64) {
        let word = unkept_columns(square, kept, row, number);
        take_out_bits(square, row, 64 * number, word);
    }
}

/// Takes the cells out of a square whose bits aren't set. The side and the labels stay. It takes no
/// memory.
pub fn take_out<V: Copy>(square: &mut Square<V>, kept: &BitRows)
    requires { HasSize square.old.side kept.now }
    ensures labels { KeepsLabels square.old square.new }
    ensures cells { (r k : ℕ) → cell_at square.new r k
        ≡ cell_at (masked_grid square.old kept.now.words) r k }
{
    for row in 0..square.side() {
        take_out_row(square, kept, row);
    }
}
