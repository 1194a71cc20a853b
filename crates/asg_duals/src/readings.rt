//! Ways to read the cells of a square as numbers.

use asg_dual_numbers::NO_NUMBER;

// Stands for all numbers from it on.
const TOO_GREAT: u64 = 1 << 63;

// By what the first part of a pair is multiplied, before its second part is added.
pub(crate) const FIRST_UNIT: u128 = 1 << 42;

// A way to read cells as numbers.
pub(crate) trait Reading {
    // A cell.
    type Cell: Copy;

    // The number of a present cell, or that of none, by its row, its column and its value.
    fn read(&self, row: u32, column: usize, cell: Self::Cell) -> u64;
}

// The number in 64 bits, where it is not too great.
#[inline]
pub(crate) fn narrow(number: u128) -> u64 {
    if number < TOO_GREAT as u128 {
        number as u64
    } else {
        TOO_GREAT
    }
}

// The amount at a place, 0 outside.
#[inline]
pub(crate) fn amount(amounts: &[u64], place: usize) -> u64 {
    if place < amounts.len() {
        amounts[place]
    } else {
        0
    }
}

// Numbers as they are.
#[derive(Clone, Copy)]
pub(crate) struct Whole;

impl Reading for Whole {
    type Cell = u128;

    #[inline]
    fn read(&self, _row: u32, _column: usize, cell: u128) -> u64 {
        narrow(cell)
    }
}

// The first parts of pairs.
#[derive(Clone, Copy)]
pub(crate) struct Firsts;

impl Reading for Firsts {
    type Cell = u128;

    #[inline]
    fn read(&self, _row: u32, _column: usize, cell: u128) -> u64 {
        narrow(cell / FIRST_UNIT)
    }
}

// The second parts of pairs whose first part is 0 once rows have fallen and columns have risen;
// other pairs are absent.
#[derive(Clone, Copy)]
pub(crate) struct Seconds<'a> {
    pub falls: &'a [u64],
    pub rises: &'a [u64],
}

impl<'a> Reading for Seconds<'a> {
    type Cell = u128;

    #[inline]
    fn read(&self, row: u32, column: usize, cell: u128) -> u64 {
        let risen = narrow(cell / FIRST_UNIT).wrapping_add(amount(self.rises, column));
        if risen == amount(self.falls, row as usize) {
            (cell % FIRST_UNIT) as u64
        } else {
            NO_NUMBER
        }
    }
}

// The grades of graded numbers.
#[derive(Clone, Copy)]
pub(crate) struct Grades;

impl Reading for Grades {
    type Cell = (u64, u128);

    #[inline]
    fn read(&self, _row: u32, _column: usize, cell: (u64, u128)) -> u64 {
        cell.0.min(TOO_GREAT)
    }
}

// The amounts of graded numbers at one grade: 0 at a lower grade, and absent at a higher one.
#[derive(Clone, Copy)]
pub(crate) struct AtGrade {
    pub grade: u64,
}

impl Reading for AtGrade {
    type Cell = (u64, u128);

    #[inline]
    fn read(&self, _row: u32, _column: usize, cell: (u64, u128)) -> u64 {
        if cell.0 > self.grade {
            NO_NUMBER
        } else if cell.0 < self.grade {
            0
        } else {
            narrow(cell.1)
        }
    }
}

// Numbers of 64 bits as they are.
#[derive(Clone, Copy)]
pub(crate) struct Peaks;

impl Reading for Peaks {
    type Cell = u64;

    #[inline]
    fn read(&self, _row: u32, _column: usize, cell: u64) -> u64 {
        cell.min(TOO_GREAT)
    }
}
