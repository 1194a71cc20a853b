//! Shortest augmenting paths [Jonker and Volgenant 1987]: a guess, of which nothing is known.

use crate::NoMemory;
use crate::guesses::Guess;
use crate::places::{NONE, distance_at, name, name_at, number_at, put_distance, put_name, raise};
use crate::turns::Turn;
use asg_model::{ABSENT, Instance, RowRoom};
use std::alloc::Global;
use std::simd::prelude::*;

// Farther than any column that is reached.
const FAR: i64 = 1 << 62;

// Columns are looked at sixteen at a time.
const SIXTEEN: usize = 16;

/// A tree of shortest paths from a row, and for each column the row that has it.
#[derive(Drop)]
pub(crate) struct Paths {
    pub row_of: Vec<u32>,
    // For each column how far it is, the same without the column's rise, and the row from which it
    // is reached.
    near: Vec<i64>,
    limits: Vec<i64>,
    from: Vec<u32>,
    // The columns that are reached with how far they are, the place of each column among them, and
    // the columns through which paths go on.
    open: Vec<u32>,
    fars: Vec<i64>,
    places: Vec<u32>,
    open_count: usize,
    done: Vec<u32>,
    done_count: usize,
    // The nearest column that no row has, and how far it is.
    end: u32,
    bound: i64,
}

/// A tree over so many columns, none of them had by a row. The error is want of memory.
pub(crate) fn paths_of(alloc: Global, columns: usize) -> Result<Paths, NoMemory> {
    let row_of = vec![in alloc; NONE; columns]?;
    let near = vec![in alloc; FAR; columns]?;
    let limits = vec![in alloc; FAR; columns]?;
    let from = vec![in alloc; NONE; columns]?;
    let open = vec![in alloc; NONE; columns]?;
    let fars = vec![in alloc; FAR; columns]?;
    let places = vec![in alloc; NONE; columns]?;
    let done = vec![in alloc; NONE; columns]?;
    Ok(Paths {
        row_of,
        near,
        limits,
        from,
        open,
        fars,
        places,
        open_count: 0,
        done,
        done_count: 0,
        end: NONE,
        bound: FAR,
    })
}

// A row from which paths go on: how its costs are read, less how far they fall, and its name.
#[derive(Clone, Copy)]
struct Start {
    flip: i64,
    more: i64,
    row: u32,
}

// Lets no column be reached.
fn clear(paths: &mut Paths) {
    for limit in paths.limits.iter_mut() {
        *limit = i64::MAX;
    }
    for from in paths.from.iter_mut() {
        *from = NONE;
    }
    paths.open_count = 0;
    paths.done_count = 0;
    paths.end = NONE;
    paths.bound = FAR;
}

// How far a column is from a row without the column's rise.
#[inline]
fn read(start: Start, first: i64) -> i64 {
    (first ^ start.flip).wrapping_add(start.more)
}

// Lets a column be reached from a row.
fn reach(paths: &mut Paths, start: Start, column: usize, value: i64, rise: i64) {
    if value >= distance_at(paths.limits.as_slice(), column) {
        return;
    }
    let far = value.wrapping_add(rise);
    if far >= paths.bound {
        let limit = paths.bound.wrapping_sub(rise);
        put_distance(&mut paths.limits, column, limit);
        return;
    }
    let was = name_at(paths.from.as_slice(), column);
    put_distance(&mut paths.limits, column, value);
    put_distance(&mut paths.near, column, far);
    put_name(&mut paths.from, column, start.row);
    if name_at(paths.row_of.as_slice(), column) == NONE {
        paths.bound = far;
        paths.end = name(column);
    } else {
        keep_open(paths, column, far, was == NONE);
    }
}

// Keeps a column among those that are reached, where it wasn't at a new place.
fn keep_open(paths: &mut Paths, column: usize, far: i64, is_new: bool) {
    if is_new {
        put_name(&mut paths.open, paths.open_count, name(column));
        put_name(&mut paths.places, column, name(paths.open_count));
        paths.open_count = paths.open_count.saturating_add(1);
    }
    let place = name_at(paths.places.as_slice(), column);
    put_distance(&mut paths.fars, place as usize, far);
}

// Lets a column be reached from a row, if the row has a cell there.
fn reach_cell(paths: &mut Paths, start: Start, firsts: &[i64], rises: &[u64], column: usize) {
    if column >= firsts.len() || firsts[column] == ABSENT {
        return;
    }
    let rise = number_at(rises, column).cast_signed();
    reach(paths, start, column, read(start, firsts[column]), rise);
}

// Lets the columns that no row has be reached from a row.
fn reach_free(paths: &mut Paths, start: Start, firsts: &[i64], rises: &[u64]) {
    for column in 0..firsts.len() {
        if name_at(paths.row_of.as_slice(), column) == NONE {
            reach_cell(paths, start, firsts, rises, column);
        }
    }
}

// A bit for each of sixteen columns from a place on that is nearer by a row.
#[inline]
fn nearer_bits(limits: &[i64], start: Start, firsts: &[i64], first: usize) -> u64 {
    if first >= firsts.len() || first >= limits.len() {
        return 0;
    }
    let firsts = &firsts[first..];
    let limits = &limits[first..];
    if firsts.len() < SIXTEEN || limits.len() < SIXTEEN {
        return 0;
    }
    let flips = i64x8::splat(start.flip);
    let mores = i64x8::splat(start.more);
    let low = (i64x8::from_slice(firsts) ^ flips) + mores;
    let high = (i64x8::from_slice(&firsts[8..]) ^ flips) + mores;
    let is_low = low.simd_lt(i64x8::from_slice(limits));
    let is_high = high.simd_lt(i64x8::from_slice(&limits[8..]));
    if (is_low | is_high).to_bitmask() == 0 {
        return 0;
    }
    is_low.to_bitmask() | is_high.to_bitmask() << 8
}

// Lets paths go on from a row.
fn go_on(paths: &mut Paths, start: Start, firsts: &[i64], rises: &[u64]) {
    let groups = firsts.len() / SIXTEEN;
    for group in 0..groups {
        let first = SIXTEEN * group;
        let mut rest = nearer_bits(paths.limits.as_slice(), start, firsts, first);
        for _ in 0..SIXTEEN {
            if rest == 0 {
                break;
            }
            let column = first.saturating_add(rest.trailing_zeros() as usize);
            rest &= rest.wrapping_sub(1);
            reach_cell(paths, start, firsts, rises, column);
        }
    }
    for column in SIXTEEN * groups..firsts.len() {
        reach_cell(paths, start, firsts, rises, column);
    }
}

// The place among the reached columns of the nearest one, nearer than each that no row has.
fn nearest(paths: &Paths) -> Option<usize> {
    let mut best = paths.bound;
    let mut found = None;
    for place in 0..paths.open_count.min(paths.fars.len()) {
        if paths.fars[place] < best {
            best = paths.fars[place];
            found = Some(place);
        }
    }
    found
}

// Lets paths go on through the reached column at a place, and tells which it is.
fn pass(paths: &mut Paths, place: usize) -> u32 {
    let column = name_at(paths.open.as_slice(), place);
    paths.open_count = paths.open_count.saturating_sub(1);
    let last = name_at(paths.open.as_slice(), paths.open_count);
    let far = distance_at(paths.fars.as_slice(), paths.open_count);
    put_name(&mut paths.open, place, last);
    put_distance(&mut paths.fars, place, far);
    put_name(&mut paths.places, last as usize, name(place));
    put_name(&mut paths.done, paths.done_count, column);
    paths.done_count = paths.done_count.saturating_add(1);
    put_distance(&mut paths.limits, column as usize, i64::MIN);
    column
}

// Grows the tree from a row until no reached column is nearer than one that no row has.
fn grow(
    inst: &Instance,
    turn: Turn,
    room: &mut RowRoom,
    guess: &Guess,
    paths: &mut Paths,
    root: u32,
) {
    let rises = guess.rises.as_slice();
    let mut row = root;
    let mut base = 0i64;
    for _ in 0..guess.columns.len() {
        let fall = number_at(guess.falls.as_slice(), row as usize).cast_signed();
        let more = turn.more.wrapping_add(base).wrapping_sub(fall);
        let flip = turn.flip;
        let start = Start { flip, more, row };
        let Some(parts) = inst.row_parts(row, room) else {
            return;
        };
        if row == root {
            reach_free(paths, start, parts.firsts, rises);
        }
        go_on(paths, start, parts.firsts, rises);
        let Some(place) = nearest(paths) else {
            return;
        };
        let column = pass(paths, place);
        base = distance_at(paths.near.as_slice(), column as usize);
        row = name_at(paths.row_of.as_slice(), column as usize);
    }
}

// Raises the numbers of the rows and the columns of the tree, up to how far its end is.
fn raise_tree(guess: &mut Guess, paths: &Paths, root: u32) {
    raise(&mut guess.falls, root as usize, paths.bound);
    for place in 0..paths.done_count {
        let column = name_at(paths.done.as_slice(), place) as usize;
        let far = distance_at(paths.near.as_slice(), column);
        let by = paths.bound.wrapping_sub(far);
        let row = name_at(paths.row_of.as_slice(), column);
        raise(&mut guess.rises, column, by);
        raise(&mut guess.falls, row as usize, by);
    }
}

/// Gives a row a column.
pub(crate) fn give(guess: &mut Guess, paths: &mut Paths, row: u32, column: u32) {
    put_name(&mut guess.columns, row as usize, column);
    put_name(&mut paths.row_of, column as usize, row);
}

// Gives the rows on the path from a row to the tree's end the columns after them.
fn flip(guess: &mut Guess, paths: &mut Paths, root: u32) {
    let mut column = paths.end;
    for _ in 0..guess.columns.len() {
        let row = name_at(paths.from.as_slice(), column as usize);
        let next = name_at(guess.columns.as_slice(), row as usize);
        give(guess, paths, row, column);
        if row == root || row == NONE {
            return;
        }
        column = next;
    }
}

/// Gives a row a column by a shortest path, and says whether there was one.
pub(crate) fn augment(
    inst: &Instance,
    turn: Turn,
    room: &mut RowRoom,
    guess: &mut Guess,
    paths: &mut Paths,
    row: u32,
) -> bool {
    clear(paths);
    grow(inst, turn, room, guess, paths, row);
    if paths.end == NONE {
        return false;
    }
    raise_tree(guess, paths, row);
    flip(guess, paths, row);
    true
}
