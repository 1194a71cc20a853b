//! A bench on which children are grown.

use crate::children::{Child, EMPTY, FLOOR};
use crate::gaps::measure_in;
use crate::numbers::{RankNumber, amount_of};
use crate::paths::{End, Errand, Reach, search};
use crate::rooms::{Done, Room};
use crate::shifts::shift_path;
use crate::tables::Table;
use asg_dual_numbers::{Lists, NONE, at, name, padded, value};

/// A part of all answers, with an answer in it and dual variables at which it is tight.
#[derive(Clone, Copy)]
pub struct Parent<'a> {
    /// Its name, which no other part bears.
    pub name: u32,
    /// The column of each row.
    pub columns: &'a [u32],
    /// How much each column rose.
    pub rises: &'a [u64],
    /// How much those columns rose that no row has.
    pub floor: u64,
    /// The first row that isn't fixed.
    pub row: usize,
}

/// What came of growing a child.
#[derive(Clone, Copy)]
pub enum Growth {
    /// Its best answer, with dual variables at which it is tight.
    Reached,
    /// No answer in it is within the limit, by the dual variables.
    Beyond,
    /// No answer is in it, by the dual variables: their bound is above every sum.
    Nothing,
    /// Numbers of this width don't do.
    Lost,
}

/// A table of cells, room for children, one at a time, and for the searches that grow them, in
/// numbers less the first dual variables.
#[derive(Drop)]
pub struct Bench<N: RankNumber> {
    /// The numbers.
    pub table: Table<N>,
    room: Room<N>,
    /// The child that was grown last.
    pub child: Child,
    /// How far the child by each row is above the part that was measured, from the part's row on.
    pub gaps: Vec<u64>,
}

// Notes what a search went through, which was to come to a distance.
fn note<N: RankNumber>(child: &mut Child, done: &Done<N>, rows: usize, reach: &Reach<N>, to: u64) {
    child.begin(to);
    for place in 0..reach.count.min(done.columns.len()) {
        let row = at(done.rows.as_slice(), place);
        let reached = if row == NONE {
            let column = at(done.columns.as_slice(), place) as usize;
            name(rows.saturating_add(column))
        } else {
            row
        };
        let distance = value(done.distances.as_slice(), place);
        child.note(reached, amount_of(distance));
    }
    if reach.spare != NONE {
        child.note(FLOOR, amount_of(reach.spare_distance));
    }
}

// Whether what follows from a search may be too great for numbers of a width.
fn is_lost<N: RankNumber>(reach: &Reach<N>) -> bool {
    let fall = amount_of(reach.fall);
    fall.saturating_add(amount_of(reach.distance)) > N::most()
}

// Grows a child in numbers of a width.
fn grow_in<N: RankNumber>(
    child: &mut Child,
    room: &mut Room<N>,
    table: &Table<N>,
    errand: &Errand<'_>,
    limit: u64,
) -> Growth {
    let reach = search(room, table, errand, limit);
    let to = match reach.end {
        End::Lost | End::Nothing => EMPTY,
        End::Far => limit,
        End::Reached => amount_of(reach.distance),
    };
    note(child, &room.done, table.rows, &reach, to);
    match reach.end {
        End::Lost => Growth::Lost,
        End::Nothing => Growth::Nothing,
        End::Far => Growth::Beyond,
        End::Reached => {
            if shift_path(child, &*room, table, errand, &reach) && !is_lost(&reach) {
                Growth::Reached
            } else {
                Growth::Lost
            }
        }
    }
}

impl<N: RankNumber> Bench<N> {
    /// A bench for a table of so many rows, and of a column for each of these rises, without a
    /// number yet. A column that has no row rose by the floor, or more.
    pub fn make(lists: &mut Lists, rows: usize, rises: &[u64], floor: u64) -> Bench<N> {
        Bench {
            table: Table::make(lists, rows, rises, floor),
            room: Room::make(lists, padded(rises.len())),
            child: Child::make(lists, rows, rises.len()),
            gaps: lists.of(0, rows),
        }
    }

    /// Measures how far the children of a part are above it at least, where its row takes none of
    /// those columns that are banned.
    ///
    /// By so much the row of a child may fall further, and its column may rise less, in one pass
    /// over the cells of the rows that aren't fixed.
    pub fn measure(&mut self, parent: Parent<'_>, banned: &[u32]) {
        let gaps = self.gaps.as_mut_slice();
        measure_in(gaps, &mut self.room, &self.table, &parent, banned);
    }

    /// Grows the child of a part in which the rows before one keep their columns, and that row
    /// takes none of those that are banned, nor its own. Where its best answer is as far from the
    /// part's as the limit, or further, it isn't looked for.
    ///
    /// One shortest path is grown, from the row to the column that it loses [Murty 1968; Jonker and
    /// Volgenant 1987].
    pub fn grow(&mut self, parent: Parent<'_>, row: usize, banned: &[u32], limit: u64) -> Growth {
        let errand = Errand {
            parent,
            root: row,
            target: at(parent.columns, row) as usize,
            banned,
            spare_fall: parent.floor.saturating_sub(self.table.floor),
        };
        grow_in(&mut self.child, &mut self.room, &self.table, &errand, limit)
    }
}
