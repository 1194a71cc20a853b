//! Shifts along the path that a search found, which is told by the distances alone.

use crate::children::Child;
use crate::numbers::{RankNumber, capped};
use crate::paths::{Errand, Reach};
use crate::rooms::{Done, Room, number};
use crate::tables::Table;
use asg_dual_numbers::{NONE, at, name, value};

// A column of a path: its distance, and how many columns were done before it.
#[derive(Drop)]
struct Stop<N: RankNumber> {
    column: usize,
    distance: N,
    before: usize,
}

// Whether one of the columns is this one.
fn is_among(columns: &[u32], column: usize) -> bool {
    for place in 0..columns.len() {
        if columns[place] as usize == column {
            return true;
        }
    }
    false
}

// Whether a column is reached from the root itself.
fn is_from_root<N: RankNumber>(
    room: &Room<N>,
    table: &Table<N>,
    errand: &Errand<'_>,
    reach: &Reach<N>,
    stop: &Stop<N>,
) -> bool {
    let numbers = table.row(errand.root);
    let distance = number(numbers, room.raised.as_slice(), stop.column).minus(reach.root_fall);
    !stop.distance.is_less(distance)
        && stop.column != errand.target
        && !is_among(errand.banned, stop.column)
}

// Whether a column with the rest of its distance, less what it rose, is reached by a number that is
// so much less.
#[inline]
fn is_within<N: RankNumber>(number: N, less: N, rest: N) -> bool {
    !rest.is_less(number.minus(less))
}

// The row from which a column is reached, with its own column, `None` where there is none; the row
// behind the last one stands for the columns that no row has.
fn row_before<N: RankNumber>(
    room: &Room<N>,
    table: &Table<N>,
    errand: &Errand<'_>,
    reach: &Reach<N>,
    stop: &Stop<N>,
) -> Option<(u32, Stop<N>)> {
    let rest = stop
        .distance
        .minus(value(room.raised.as_slice(), stop.column));
    let done = &room.done;
    for place in 0..stop.before.min(done.columns.len()) {
        let row = at(done.rows.as_slice(), place);
        if row != NONE {
            let number = table.number(row as usize, stop.column);
            if is_within(number, value(done.less.as_slice(), place), rest) {
                return Some((row, stop_at(done, place, place)));
            }
        } else if at(done.columns.as_slice(), place) == reach.spare {
            let number = table.number(table.rows, stop.column);
            let fall: N = capped(errand.spare_fall);
            let less = fall.minus(value(done.distances.as_slice(), place));
            if is_within(number, less, rest) {
                let before = reach.spare_place;
                return Some((name(table.rows), stop_at(done, place, before)));
            }
        }
    }
    None
}

// The column that was done at a place, so many before it.
fn stop_at<N: RankNumber>(done: &Done<N>, place: usize, before: usize) -> Stop<N> {
    Stop {
        column: at(done.columns.as_slice(), place) as usize,
        distance: value(done.distances.as_slice(), place),
        before,
    }
}

// Gives each row of the path that ends in the column that the root lost the column that was reached
// from it; whether the path begins in the root.
pub(crate) fn shift_path<N: RankNumber>(
    child: &mut Child,
    room: &Room<N>,
    table: &Table<N>,
    errand: &Errand<'_>,
    reach: &Reach<N>,
) -> bool {
    let mut stop = Stop {
        column: errand.target,
        distance: reach.distance,
        before: reach.count,
    };
    for _ in 0..table.rows.saturating_add(1) {
        if is_from_root(room, table, errand, reach, &stop) {
            child.shift(name(errand.root), name(stop.column));
            return true;
        }
        let Some((row, next)) = row_before(room, table, errand, reach, &stop) else {
            return false;
        };
        child.shift(row, name(stop.column));
        stop = next;
    }
    false
}
