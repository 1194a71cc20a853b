//! Shortest paths from a row that loses its column.

use crate::benches::Parent;
use crate::numbers::{RankNumber, capped, open};
use crate::rooms::{Done, Room, number};
use crate::tables::Table;
use asg_dual_numbers::{NONE, at, name, set, value};

// How a search ended, and at which distance.
#[derive(Drop)]
pub(crate) struct Reach<N: RankNumber> {
    pub end: End,
    pub distance: N,
    // How many columns are done.
    pub count: usize,
    // How much the row fell since first, and the greatest fall of the rows that were gone through.
    pub root_fall: N,
    pub fall: N,
    // A column that no row had, where the search came to one, its distance, and how many columns
    // were done before it.
    pub spare: u32,
    pub spare_distance: N,
    pub spare_place: usize,
}

// Why a search ended.
#[derive(Clone, Copy)]
pub(crate) enum End {
    // The column that the row lost is reached.
    Reached,
    // All that is left is further than the limit.
    Far,
    // Nothing that is left can be reached.
    Nothing,
    // The numbers are too great.
    Lost,
}

// What is searched: a path from a row of a part to the column that it has there, by which none of
// the rows before it changes; the row itself doesn't take the columns that are banned.
#[derive(Clone, Copy)]
pub(crate) struct Errand<'a> {
    pub parent: Parent<'a>,
    pub root: usize,
    pub target: usize,
    pub banned: &'a [u32],
    // How much the floor rose since first.
    pub spare_fall: u64,
}

// Lets the columns of a list have a key.
fn put_keys<N: RankNumber>(keys: &mut [N], columns: &[u32], key: N) {
    for place in 0..columns.len() {
        set(keys, columns[place] as usize, key);
    }
}

// Opens a search; how much its row fell since first.
fn begin<N: RankNumber>(room: &mut Room<N>, table: &Table<N>, errand: &Errand<'_>) -> N {
    room.take(table, &errand.parent);
    let numbers = table.row(errand.root);
    let raised = room.raised.as_slice();
    let fall = number(numbers, raised, errand.target);
    let keys = room.keys.as_mut_slice();
    open(numbers, raised, keys, fall);
    let columns = errand.parent.columns;
    put_keys(keys, &columns[..errand.root.min(columns.len())], N::done());
    for column in table.columns..table.wide {
        set(keys, column, N::done());
    }
    put_keys(keys, errand.banned, N::greatest());
    set(keys, errand.target, N::greatest());
    fall
}

// Takes all columns that no row has as done, at a distance, behind so many. How many are done then.
fn note_spare<N: RankNumber>(
    done: &mut Done<N>,
    keys: &mut [N],
    row_of: &[u32],
    columns: usize,
    distance: N,
    count: usize,
) -> usize {
    let mut count = count;
    for column in 0..columns {
        if at(row_of, column) == NONE && N::done().is_less(value(&*keys, column)) {
            done.note(count, column, distance, NONE, distance);
            set(keys, column, N::done());
            count = count.saturating_add(1);
        }
    }
    count
}

// Why a search ends at which all that is left is as far as the limit, or further.
fn end_at<N: RankNumber>(table: &Table<N>, least: N, limit: u64) -> End {
    let further = N::far().minus(capped(N::most()));
    if !least.is_less(N::greatest().minus(N::of(1))) {
        End::Nothing
    } else if limit <= N::most() {
        End::Far
    } else if table.is_exact && !least.is_less(further) {
        End::Nothing
    } else {
        End::Lost
    }
}

// Takes the columns that no row has as done, with the nearest of these, and goes on to those that may
// take their place. Gives the least key, less one.
fn step_spare<N: RankNumber>(
    room: &mut Room<N>,
    table: &Table<N>,
    spare_fall: u64,
    reach: &mut Reach<N>,
    column: usize,
    distance: N,
) -> N {
    reach.spare = name(column);
    reach.spare_distance = distance;
    reach.spare_place = reach.count;
    let keys = room.keys.as_mut_slice();
    let row_of = room.row_of.as_slice();
    let columns = table.columns;
    reach.count = note_spare(&mut room.done, keys, row_of, columns, distance, reach.count);
    let fall: N = capped(spare_fall);
    let base = fall.minus(distance);
    N::relax_row(table.row(table.rows), room.raised.as_slice(), keys, base)
}

// Takes the nearest column as done, and goes on to what its row reaches. Gives the least key, less
// one.
fn step<N: RankNumber>(
    room: &mut Room<N>,
    table: &Table<N>,
    errand: &Errand<'_>,
    reach: &mut Reach<N>,
    distance: N,
) -> N {
    let column = N::find_key(room.keys.as_slice(), distance);
    let row = at(room.row_of.as_slice(), column);
    if row == NONE {
        return step_spare(room, table, errand.spare_fall, reach, column, distance);
    }
    let numbers = table.row(row as usize);
    let raised = room.raised.as_slice();
    let fall = number(numbers, raised, column);
    if reach.fall.is_less(fall) {
        reach.fall = fall;
    }
    let less = fall.minus(distance);
    room.done.note(reach.count, column, distance, row, less);
    reach.count = reach.count.saturating_add(1);
    let keys = room.keys.as_mut_slice();
    set(keys, column, N::done());
    N::relax_row(numbers, raised, keys, less)
}

// A search before its first step, within a limit.
fn opened<N: RankNumber>(fall: N, limit: u64) -> Reach<N> {
    let stop = capped(limit.min(N::most()));
    Reach {
        end: End::Lost,
        distance: stop,
        count: 0,
        root_fall: fall,
        fall,
        spare: NONE,
        spare_distance: stop,
        spare_place: 0,
    }
}

// Grows a tree of shortest paths from a row to the column that it loses, within a limit.
pub(crate) fn search<N: RankNumber>(
    room: &mut Room<N>,
    table: &Table<N>,
    errand: &Errand<'_>,
    limit: u64,
) -> Reach<N> {
    let mut reach = opened(begin(room, table, errand), limit);
    let before = reach.distance.minus(N::of(1));
    let mut nearest = N::least_key(room.keys.as_slice());
    for _ in 0..table.wide.saturating_add(1) {
        if !nearest.is_less(before) {
            reach.end = end_at(table, nearest, limit);
            return reach;
        }
        let distance = nearest.plus(N::of(1));
        if !distance.is_less(value(room.keys.as_slice(), errand.target)) {
            reach.end = End::Reached;
            reach.distance = distance;
            return reach;
        }
        nearest = step(room, table, errand, &mut reach, distance);
    }
    reach
}
