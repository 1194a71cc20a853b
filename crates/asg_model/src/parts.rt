//! The parts of an instance.

ghost use Rattle.std.specs.Prelude.{◌≡◌, ◌≢◌, ◌<◌, pos, Some, length, slice_index_or};
ghost use Rattle.asg_model.specs.Table.{absent, table_cost};

use crate::cell_store::{present_cost, second_part};
use std::fmt;

/// What stands in a table of costs where there is no cell.
pub const ABSENT: i64 = i64::MIN;

/// What a cell costs, in two parts. Each part lies between -10^9 and 10^9 in an instance.
#[derive(Clone, Copy, PartialEq, Eq)]
pub struct Cost {
    pub a: i64,
    pub b: i64,
}

/// The costs of the cells of a row of a table, column by column.
#[derive(Clone, Copy)]
pub struct RowParts<'a> {
    /// The first parts, one for each column, [`ABSENT`] exactly where there is no cell.
    pub firsts: &'a [i64],
    /// The second parts, each 0 past the last that is given.
    pub seconds: &'a [i64],
}

impl RowParts<'_> {
    /// The cost in the column at this place; `None` exactly where there is no cell, as past the
    /// last.
    #[inline]
    pub fn cost(&self, d: u32) -> Option<Cost>
        ensures { result ≡ table_cost self.now.seconds.now d
            (slice_index_or self.now.firsts.now d absent) }
    {
        present_cost(self.first(d), self.second(d as usize))
    }

    /// The cost in the column at this place, which has a cell.
    #[inline]
    pub fn present_cost(&self, d: usize) -> Cost
        requires within { d < length self.now.firsts.now }
        requires there { slice_index_or self.now.firsts.now d absent ≢ absent }
        ensures { Some result ≡ table_cost self.now.seconds.now d
            (slice_index_or self.now.firsts.now d absent) }
    {
        Cost {
            a: self.firsts[d],
            b: self.second(d),
        }
    }

    // The second part of the cost in the column at this place, 0 past the last that is given.
    #[inline]
    fn second(&self, d: usize) -> i64
        ensures { result ≡ slice_index_or self.now.seconds.now d (pos 0) }
    {
        second_part(self.seconds, d)
    }

    // The first part in the column at this place, that of no cell past the last.
    #[inline]
    fn first(&self, d: u32) -> i64
        ensures { result ≡ slice_index_or self.now.firsts.now d absent }
    {
        match self.firsts.get(d as usize) {
            Some(a) => *a,
            None => ABSENT,
        }
    }
}

/// A row: the number by which files name it, and whether it is active or dropped.
#[derive(Clone, Copy, PartialEq, Eq)]
pub struct Row {
    pub id: u32,
    pub active: bool,
}

/// A column: the number by which files name it, how many rows may choose it (1 to 1,000 in an
/// instance), and whether it is open.
#[derive(Clone, Copy, PartialEq, Eq)]
pub struct Column {
    pub id: u32,
    pub cap: u32,
    pub usable: bool,
}

/// How many rows a valid choice places: all the active ones, or exactly so many.
#[derive(Clone, Copy, Debug, PartialEq, Eq)]
pub enum Place {
    All,
    Exactly(u32),
}

/// The place rule asks for no row, for more rows than there are, or for more than the columns hold.
#[derive(Clone, Copy, Debug, PartialEq, Eq)]
pub struct PlaceRange;

impl fmt::Display for PlaceRange {
    fn fmt<W: fmt::Write>(&self, f: &mut fmt::Formatter<W>) -> fmt::Result {
        write!(
            f,
            "the rows to be placed are none, or more than there are or the columns hold"
        )
    }
}
