//! Squares without absent cells whose cells are near one another, in one pass.

ghost use Rattle.std.specs.Prelude.{◌≡◌, length};

use asg_dual_numbers::{Number, Sums, amount};

// How far below the first cell the numbers of a table begin; near cells are less than twice as far
// above that.
const NEAR: u64 = 1 << 27;

// Whether the first columns are all present.
pub(crate) fn are_present(words: &[u64], room: usize) -> bool {
    for number in 0..room / 64 {
        if amount(words, number) != u64::MAX {
            return false;
        }
    }
    let last = amount(words, room / 64) | u64::MAX << ((room % 64) as u32);
    last == u64::MAX
}

// Writes the first cells of a row with so much less. Whether they are near.
pub(crate) fn put_near<N: Number>(cells: &mut [N], values: &[u64], count: usize, base: u64) -> bool
    ensures { length cells.new ≡ length cells.old }
{
    let mut bits = 0;
    for column in 0..count.min(values.len()).min(cells.len()) {
        let cell = values[column].wrapping_sub(base);
        bits |= cell;
        cells[column] = N::of(cell);
    }
    bits < 2 * NEAR
}

/// What is taken away from the cells of a square that are near the first one.
pub fn near_base(sums: &Sums<'_>) -> u64 {
    amount(sums.values, 0).saturating_sub(NEAR)
}
