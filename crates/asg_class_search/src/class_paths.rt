//! Shortest augmenting paths [Jonker and Volgenant 1987] through classes: a class that is full leads
//! on to all its rows.

use crate::bench::Bench;
use crate::rows::Rows;
use crate::trees::Tree;
use asg_dual_numbers::{NONE, Number, Table, at, is_marked, name, padded, put, set, value};

// How a search ended: the class with room and its distance, how many classes were done before it,
// and how many rows were gone through.
#[derive(Drop)]
struct Reach<N: Number> {
    end: u32,
    distance: N,
    count: usize,
    scans: u64,
}

// Takes a class as done, at its distance, and goes on to what its rows reach. How many they are.
fn settle<N: Number>(
    tree: &mut Tree<N>,
    rows: &Rows,
    duals: &[N],
    table: &Table<N>,
    wide: usize,
    class: usize,
    distance: N,
) -> u64 {
    set(tree.reached.as_mut_slice(), class, distance);
    tree.close(class);
    let less = value(duals, class).plus(distance);
    let mut row = at(rows.first_of.as_slice(), class);
    let mut scans = 0u64;
    for _ in 0..rows.class_of.len() {
        if row == NONE {
            break;
        }
        let numbers = table.row(row);
        let base = value(numbers, class).minus(less);
        tree.relax(numbers, duals, wide, base, row);
        scans = scans.wrapping_add(1);
        row = at(rows.later.as_slice(), row as usize);
    }
    scans
}

// Grows a tree of shortest paths to one of the first classes that has room. Of classes that are
// equally near one with room comes first, then those behind the class that was done last, first of
// all those behind a place.
fn search<N: Number>(
    tree: &mut Tree<N>,
    rows: &Rows,
    duals: &[N],
    table: &Table<N>,
    side: usize,
    from: usize,
) -> Reach<N> {
    let mut reach = Reach {
        end: NONE,
        distance: N::zero(),
        count: 0,
        scans: 0,
    };
    let wide = padded(side).min(table.wide);
    let mut from = from;
    for count in 0..side {
        let distance = tree.distance();
        let class = tree.nearest(rows.free.as_slice(), distance, from);
        if class >= side {
            break;
        }
        if is_marked(rows.free.as_slice(), class) {
            reach.end = name(class);
            reach.distance = distance;
            reach.count = count;
            break;
        }
        put(tree.done.as_mut_slice(), count, name(class));
        let scans = settle(tree, rows, duals, table, wide, class, distance);
        reach.scans = reach.scans.wrapping_add(scans);
        from = class.saturating_add(16);
    }
    reach
}

// Lowers the dual variables of the classes that were done by what they are nearer than the end.
fn lower<N: Number>(duals: &mut [N], tree: &Tree<N>, reach: &Reach<N>) {
    for place in 0..reach.count {
        let class = at(tree.done.as_slice(), place) as usize;
        let by = value(tree.reached.as_slice(), class).minus(reach.distance);
        set(duals, class, value(&*duals, class).plus(by));
    }
}

// Changes classes along a shortest path to a class with room, and the dual variables of the classes
// that were done; that of the rows without a class is the distance. The row that had no class
// before, none where there is no path.
fn augment<N: Number>(bench: &mut Bench<N>, table: &Table<N>, side: usize, from: usize) -> u32 {
    let duals = bench.duals.as_slice();
    let reach = search(&mut bench.tree, &bench.rows, duals, table, side, from);
    bench.scans = bench.scans.wrapping_add(reach.scans);
    if reach.end == NONE {
        return NONE;
    }
    lower(bench.duals.as_mut_slice(), &bench.tree, &reach);
    bench.level = reach.distance;
    bench.rows.flip(bench.tree.came.as_slice(), reach.end)
}

/// Gives a row one of the first classes by a shortest path, and changes the dual variables of the
/// classes that were done. Whether it found one. Of classes that are equally near those behind a
/// place come first.
pub fn augment_from<N: Number>(
    bench: &mut Bench<N>,
    table: &Table<N>,
    side: usize,
    root: u32,
    from: usize,
) -> bool {
    let wide = padded(side).min(table.wide);
    let duals = bench.duals.as_slice();
    bench.tree.open(table.row(root), duals, side, wide, root);
    augment(bench, table, side, from) == root
}

// Gives one of the rows without a class one by a path that is the shortest from any of them. The
// row, none where there is no path.
pub(crate) fn augment_from_any<N: Number>(bench: &mut Bench<N>, table: &Table<N>) -> u32 {
    let side = table.side;
    let numbers = bench.leasts.numbers.as_slice();
    let duals = bench.duals.as_slice();
    bench.tree.open(numbers, duals, side, table.wide, NONE);
    for class in 0..side {
        let row = at(bench.leasts.rows.as_slice(), class);
        put(bench.tree.came.as_mut_slice(), class, row);
    }
    augment(bench, table, side, 0)
}
