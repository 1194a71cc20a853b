//! Further phases of a conversion: each leaves half of what rows are still to fall and columns are
//! still to have risen.

ghost use Rattle.std.specs.Prelude.{◌≡◌, length};

use crate::spans::Spans;
use asg_dual_numbers::{NONE, amount, at, name, put, put_amount};

// By how much each row falls in a phase, and by how much the column of each row rises.
#[derive(Drop)]
pub(crate) struct Amounts {
    pub falls: Vec<u64>,
    pub rises: Vec<u64>,
}

// What rows are still to fall by, and by how much the column of each row rose too far.
#[derive(Drop)]
pub(crate) struct Left {
    pub rows: Vec<u64>,
    pub columns: Vec<u64>,
    // Rows with something left, and rows whose columns have, one with the most first.
    pub listed_rows: Vec<u32>,
    pub listed_columns: Vec<u32>,
}

impl Left {
    // What the first phase leaves.
    pub(crate) fn after(&mut self, spans: &Spans, amounts: &Amounts) {
        for row in 0..self.rows.len() {
            let high = amount(spans.high.as_slice(), row);
            let fall = amount(amounts.falls.as_slice(), row);
            put_amount(self.rows.as_mut_slice(), row, high.saturating_sub(fall));
            let low = amount(spans.low.as_slice(), row);
            let rise = amount(amounts.rises.as_slice(), row);
            put_amount(self.columns.as_mut_slice(), row, rise.saturating_sub(low));
        }
    }
}

// Lists the places of amounts above 0, one of the greatest first, and tells how many there are;
// with none the first place of the list is no place.
fn list(amounts: &[u64], places: &mut [u32]) -> usize
    ensures { length places.new ≡ length places.old }
{
    let mut count = 0;
    let mut greatest = 0;
    put(places, 0, NONE);
    for place in 0..amounts.len() {
        if amounts[place] > 0 {
            put(places, count, name(place));
            if amounts[place] > greatest {
                greatest = amounts[place];
                let first = at(places, 0);
                put(places, 0, name(place));
                put(places, count, first);
            }
            count = count.saturating_add(1);
        }
    }
    count
}

// The first place from one on at which nothing is left; one past all if there is none.
fn next_clean(amounts: &[u64], from: usize) -> usize {
    for place in from..amounts.len() {
        if amounts[place] == 0 {
            return place;
        }
    }
    amounts.len()
}

// Lets a row fall and a column rise so that one of them has nothing left, and the other all.
fn pair(left: &mut Left, amounts: &mut Amounts, row: u32, column: u32, shift: u64, to_row: bool) {
    let row = row as usize;
    let column = column as usize;
    let fall = amount(left.rows.as_slice(), row);
    let rise = amount(left.columns.as_slice(), column);
    let all = fall.wrapping_add(rise);
    let level = if to_row {
        shift.wrapping_sub(rise)
    } else {
        shift.wrapping_add(fall)
    };
    put_amount(left.rows.as_mut_slice(), row, if to_row { all } else { 0 });
    put_amount(
        left.columns.as_mut_slice(),
        column,
        if to_row { 0 } else { all },
    );
    put_amount(amounts.falls.as_mut_slice(), row, level);
    put_amount(amounts.rises.as_mut_slice(), column, level);
}

// Hands what every other one of the rows from a place of the list on has left to columns that have
// nothing. Whether there was an even number of them.
fn hand_rows(
    left: &mut Left,
    amounts: &mut Amounts,
    count: usize,
    from: usize,
    shift: u64,
) -> bool {
    let mut column = 0;
    let mut hands = true;
    for place in from..count {
        hands = !hands;
        if hands {
            column = next_clean(left.columns.as_slice(), column);
            let row = at(left.listed_rows.as_slice(), place);
            pair(left, amounts, row, name(column), shift, false);
        }
    }
    hands
}

// The same with columns from a place of their list on, to rows that have nothing.
fn hand_columns(
    left: &mut Left,
    amounts: &mut Amounts,
    count: usize,
    from: usize,
    shift: u64,
) -> bool {
    let mut row = 0;
    let mut hands = true;
    for place in from..count {
        hands = !hands;
        if hands {
            row = next_clean(left.rows.as_slice(), row);
            let column = at(left.listed_columns.as_slice(), place);
            pair(left, amounts, name(row), column, shift, true);
        }
    }
    hands
}

// Sets all amounts to one.
fn fill(amounts: &mut Amounts, shift: u64) {
    amounts.falls.as_mut_slice().fill(shift);
    amounts.rises.as_mut_slice().fill(shift);
}

// Lets the row and the column with the most left fall and not rise, so that they have nothing.
fn take_greatest(left: &mut Left, amounts: &mut Amounts, shift: u64) {
    let row = at(left.listed_rows.as_slice(), 0) as usize;
    let fall = amount(left.rows.as_slice(), row);
    put_amount(amounts.falls.as_mut_slice(), row, shift.wrapping_add(fall));
    put_amount(left.rows.as_mut_slice(), row, 0);
    let column = at(left.listed_columns.as_slice(), 0) as usize;
    put_amount(amounts.rises.as_mut_slice(), column, 0);
    put_amount(left.columns.as_mut_slice(), column, 0);
}

// Makes the amounts of the next phase, and changes what is left; whether anything was left. All
// rows and columns move by what the column with the most has left; the rows and columns beside
// these two are paired, and of each pair one hands what it has left to the other, in turn the row
// and the column.
pub(crate) fn merge(left: &mut Left, amounts: &mut Amounts) -> bool {
    let rows = list(left.rows.as_slice(), left.listed_rows.as_mut_slice());
    let columns = list(left.columns.as_slice(), left.listed_columns.as_mut_slice());
    if rows == 0 && columns == 0 {
        return false;
    }
    let most = at(left.listed_columns.as_slice(), 0);
    let shift = amount(left.columns.as_slice(), most as usize);
    fill(amounts, shift);
    let paired = rows.min(columns).max(1);
    let mut to_row = hand_rows(left, amounts, rows, paired, shift);
    if columns > paired {
        to_row = !hand_columns(left, amounts, columns, paired, shift);
    }
    for place in 1..paired {
        let row = at(left.listed_rows.as_slice(), place);
        let column = at(left.listed_columns.as_slice(), place);
        pair(left, amounts, row, column, shift, to_row);
        to_row = !to_row;
    }
    take_greatest(left, amounts, shift);
    true
}
