//! In numbers of which width a square is solved, and what stands for its absent cells.

use asg_class_search::Ranges;

// The most by which cells of a row may differ for numbers of 32 bits: where no cell is absent, and
// where some are.
const MOST_WHOLE: u64 = 1 << 30;

const MOST_HOLED: u64 = 1 << 28;

// The greatest cells that stand for absent ones, in 32 bits and in 64.
const ABSENT: u64 = 1 << 29;

const WIDE_ABSENT: u64 = 1 << 60;

// Whether numbers of 32 bits may do.
pub(crate) fn is_narrow(ranges: &Ranges) -> bool {
    let most = if ranges.is_whole {
        MOST_WHOLE
    } else {
        MOST_HOLED
    };
    ranges.widest < most
}

// What stands for an absent cell where it is not cut short: as much as all cells of the assignment
// can be above the least ones, so that none is taken that need not be.
fn absent_cell(ranges: &Ranges) -> u64 {
    let rows = ranges.leasts.len() as u64;
    ranges
        .widest
        .saturating_add(1)
        .saturating_mul(rows.saturating_add(1))
}

// What stands for an absent cell in 32 bits.
pub(crate) fn narrow_absent(ranges: &Ranges) -> u64 {
    absent_cell(ranges).min(ABSENT)
}

// What stands for an absent cell in 64 bits.
pub(crate) fn wide_absent(ranges: &Ranges) -> u64 {
    absent_cell(ranges).min(WIDE_ABSENT)
}

// Whether numbers of 32 bits do, with nothing cut short.
pub(crate) fn is_settled_narrow(ranges: &Ranges) -> bool {
    is_narrow(ranges) && absent_cell(ranges) <= ABSENT
}
