//! Least sums over a table of classes, by shortest augmenting paths.

use crate::bench::{Bench, Leasts};
use crate::class_paths::{augment_from, augment_from_any};
use crate::rows::Rows;
use asg_dual_numbers::{NONE, Number, Table, at, is_marked, name, put, set, value};

// The most classes whose least numbers are found anew class by class.
const FEW: usize = 16;

// Gives each row a class of its least number, where one has room, and lists the other rows; how
// many these are.
fn start<N: Number>(rows: &mut Rows, waiting: &mut [u32], duals: &[N], table: &Table<N>) -> usize {
    let mut count = 0usize;
    for place in 0..rows.class_of.len() {
        let numbers = table.row(name(place));
        let wide = table.wide;
        let least = N::two_least(numbers, duals, wide).least;
        let class = N::find_tie(numbers, duals, rows.free.as_slice(), least, wide, wide);
        if is_marked(rows.free.as_slice(), class) {
            rows.join(name(place), name(class));
            rows.fill(name(class));
        } else {
            put(waiting, count, name(place));
            count = count.saturating_add(1);
        }
    }
    count
}

// Gives each row a class. Whether each has one.
fn place_all<N: Number>(bench: &mut Bench<N>, table: &Table<N>) -> bool {
    let waiting = bench.waiting.as_mut_slice();
    let count = start(&mut bench.rows, waiting, bench.duals.as_slice(), table);
    for place in 0..count {
        let root = at(bench.waiting.as_slice(), place);
        if !augment_from(bench, table, table.side, root, 0) {
            return false;
        }
    }
    true
}

// Lessens the least numbers of all classes to those of the rows without a class.
fn lessen_all<N: Number>(leasts: &mut Leasts<N>, class_of: &[u32], table: &Table<N>) {
    for place in 0..class_of.len() {
        if class_of[place] == NONE {
            let row = name(place);
            N::lessen(
                table.row(row),
                leasts.numbers.as_mut_slice(),
                leasts.rows.as_mut_slice(),
                table.wide,
                N::zero(),
                row,
            );
        }
    }
}

// Finds the least number of a class anew, over the rows without a class.
fn lessen_one<N: Number>(leasts: &mut Leasts<N>, class_of: &[u32], table: &Table<N>, class: usize) {
    let mut least = N::greatest();
    let mut least_row = NONE;
    let mut cell = class;
    for place in 0..class_of.len() {
        if class_of[place] == NONE {
            let number = value(table.cells.as_slice(), cell);
            if number.is_less(least) {
                least = number;
                least_row = name(place);
            }
        }
        cell = cell.wrapping_add(table.wide);
    }
    set(leasts.numbers.as_mut_slice(), class, least);
    put(leasts.rows.as_mut_slice(), class, least_row);
}

// Forgets the least numbers of classes that were a row's, and lists these classes. How many they
// are.
fn forget<N: Number>(leasts: &mut Leasts<N>, listed: &mut [u32], side: usize, row: u32) -> usize {
    let mut count = 0usize;
    for class in 0..side {
        if at(leasts.rows.as_slice(), class) == row {
            set(leasts.numbers.as_mut_slice(), class, N::greatest());
            put(leasts.rows.as_mut_slice(), class, NONE);
            put(listed, count, name(class));
            count = count.saturating_add(1);
        }
    }
    count
}

// Finds the least numbers of classes anew that were a row's.
fn renew<N: Number>(
    leasts: &mut Leasts<N>,
    listed: &mut [u32],
    class_of: &[u32],
    table: &Table<N>,
    row: u32,
) {
    let count = forget(leasts, listed, table.side, row);
    if count > FEW {
        lessen_all(leasts, class_of, table);
        return;
    }
    for place in 0..count {
        lessen_one(leasts, class_of, table, at(&*listed, place) as usize);
    }
}

// Gives all rows but so many a class, one row after the other. Whether these have one.
fn place_all_but<N: Number>(bench: &mut Bench<N>, table: &Table<N>, outside: usize) -> bool {
    lessen_all(&mut bench.leasts, bench.rows.class_of.as_slice(), table);
    for _ in outside..bench.rows.class_of.len() {
        let row = augment_from_any(bench, table);
        if row == NONE {
            return false;
        }
        let listed = bench.tree.done.as_mut_slice();
        let class_of = bench.rows.class_of.as_slice();
        renew(&mut bench.leasts, listed, class_of, table, row);
    }
    true
}

/// Gives all rows but so many a class, with the least sum. Whether these have one.
pub fn place_rows<N: Number>(bench: &mut Bench<N>, table: &Table<N>, outside: usize) -> bool {
    bench.rows.release(table.side);
    if outside == 0 {
        place_all(bench, table)
    } else {
        place_all_but(bench, table, outside)
    }
}
