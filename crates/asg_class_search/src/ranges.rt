//! How far the cells of rows reach, and cells as numbers of which so much is taken away.

ghost use Rattle.std.specs.Prelude.{◌≡◌, length};

use asg_dual_numbers::{Number, put_amount};

// The greatest width of all cells for the least of all to be taken away from each row.
const MOST_WIDTH: u64 = 1 << 28;

// The least and the greatest of some cells, and whether none is absent.
#[derive(Clone, Copy)]
pub(crate) struct Range {
    pub least: u64,
    pub greatest: u64,
    pub is_whole: bool,
}

/// The rows of a square: what is taken away from each, by how much a cell is above that at most, and
/// whether no cell is absent. It is the least cell of all, or that of each row.
#[derive(Drop)]
pub struct Ranges {
    /// What is taken away from each row.
    pub leasts: Vec<u64>,
    /// By how much a cell is above that at most.
    pub widest: u64,
    /// Whether no cell is absent.
    pub is_whole: bool,
}

// The range with the present cells of a word more.
#[inline]
fn with_word(range: Range, values: &[u64], number: usize, word: u64) -> Range {
    let first = number.saturating_mul(64);
    let end = first.saturating_add(64).min(values.len());
    let mut range = range;
    if word == u64::MAX {
        for column in first..end {
            range.least = range.least.min(values[column]);
            range.greatest = range.greatest.max(values[column]);
        }
        return range;
    }
    let mut rest = word;
    for column in first..end {
        if rest & 1 == 1 {
            range.least = range.least.min(values[column]);
            range.greatest = range.greatest.max(values[column]);
        } else {
            range.is_whole = false;
        }
        rest >>= 1;
    }
    range
}

// The range of the present cells of a row.
pub(crate) fn row_range(values: &[u64], words: &[u64]) -> Range {
    let mut range = Range {
        least: u64::MAX,
        greatest: 0,
        is_whole: true,
    };
    for number in 0..words.len() {
        range = with_word(range, values, number, words[number]);
    }
    range
}

// The ranges of rows so far.
#[derive(Clone, Copy)]
pub(crate) struct Spread {
    pub lowest: u64,
    pub highest: u64,
    pub widest: u64,
    pub is_whole: bool,
}

impl Spread {
    // Of no rows.
    pub(crate) fn none() -> Spread {
        Spread {
            lowest: u64::MAX,
            highest: 0,
            widest: 0,
            is_whole: true,
        }
    }

    // The same with a row more.
    pub(crate) fn with(self, range: Range) -> Spread {
        let widest = range.greatest.saturating_sub(range.least);
        Spread {
            lowest: self.lowest.min(range.least),
            highest: self.highest.max(range.greatest),
            widest: self.widest.max(widest),
            is_whole: self.is_whole && range.is_whole,
        }
    }

    // By how much the greatest cell is above the least.
    pub(crate) fn width(self) -> u64 {
        self.highest.saturating_sub(self.lowest)
    }
}

// The ranges of rows with these least cells: the least of all is taken away from each row where all
// rows are to have one, or where numbers of 32 bits serve so.
pub(crate) fn ranges_by(leasts: Vec<u64>, spread: Spread, is_one: bool) -> Ranges {
    let mut leasts = leasts;
    let mut widest = spread.widest;
    if is_one || spread.width() < MOST_WIDTH {
        widest = spread.width();
        for row in 0..leasts.len() {
            put_amount(leasts.as_mut_slice(), row, spread.lowest);
        }
    }
    Ranges {
        leasts,
        widest,
        is_whole: spread.is_whole,
    }
}

// Writes the cells of a word with so much less, and this number for those that are absent.
#[inline]
pub(crate) fn put_word<N: Number>(
    cells: &mut [N],
    values: &[u64],
    number: usize,
    word: u64,
    least: u64,
    absent: u64,
)
    ensures { length cells.new ≡ length cells.old }
{
    let first = number.saturating_mul(64);
    let end = first.saturating_add(64).min(values.len()).min(cells.len());
    if word == u64::MAX {
        for column in first..end {
            cells[column] = N::of(values[column].wrapping_sub(least));
        }
        return;
    }
    let mut rest = word;
    for column in first..end {
        let is_present = rest & 1 == 1;
        let cell = if is_present {
            values[column].wrapping_sub(least)
        } else {
            absent
        };
        cells[column] = N::of(cell);
        rest >>= 1;
    }
}
