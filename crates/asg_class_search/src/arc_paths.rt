//! Least sums over lists of arcs, by shortest augmenting paths with a heap.

use crate::arc_bench::{ArcBench, ArcDone, ArcRows, ArcTree, Entry};
use crate::arc_starts::{reduce_columns, reduce_rows};
use crate::arcs::{Arc, Arcs};
use crate::rows::list_waiting;
use asg_dual_numbers::{NONE, at, name, put, set, value};

// Notes that a column is reached from a row by an arc at a distance: a free column is the nearest
// one of these, another one waits in the heap.
fn reach(tree: &mut ArcTree, row_of: &[u32], row: u32, arc: Arc, distance: i64) {
    let column = arc.column as usize;
    if value(tree.keys.as_slice(), column) == i64::MAX {
        put(tree.touched.as_mut_slice(), tree.touches, arc.column);
        tree.touches = tree.touches.saturating_add(1);
    }
    set(tree.keys.as_mut_slice(), column, distance);
    put(tree.came.as_mut_slice(), column, row);
    set(tree.came_by.as_mut_slice(), column, arc.cell);
    if at(row_of, column) == NONE {
        tree.end = arc.column;
        tree.bound = distance;
    } else {
        let _has_room = tree.heap.push(Entry { distance, column }).is_ok();
    }
}

// Lessens the keys of the columns of a row to what it reaches, with so much less. Columns as far as
// the nearest free one are left out.
fn relax(tree: &mut ArcTree, duals: &[i64], row_of: &[u32], arcs: &[Arc], row: u32, base: i64) {
    for number in 0..arcs.len() {
        let arc = arcs[number];
        let column = arc.column as usize;
        let distance = arc
            .cell
            .wrapping_sub(value(duals, column))
            .wrapping_sub(base);
        if distance < tree.bound && distance < value(tree.keys.as_slice(), column) {
            reach(tree, row_of, row, arc, distance);
        }
    }
}

// The nearest open column that a row has, at its key; none where none is nearer than the free one.
fn nearest(tree: &mut ArcTree, room: usize) -> Option<Entry> {
    for _ in 0..room {
        let entry = tree.heap.pop()?;
        if entry.distance >= tree.bound {
            break;
        }
        if value(tree.keys.as_slice(), entry.column) == entry.distance {
            return Some(entry);
        }
    }
    None
}

// Grows a tree of shortest paths from a row to a free column. The column, none where there is no
// path.
fn search(
    tree: &mut ArcTree,
    done: &mut ArcDone,
    rows: &ArcRows,
    duals: &[i64],
    arcs: &Arcs,
    root: u32,
) -> u32 {
    tree.heap.clear();
    tree.end = NONE;
    tree.bound = i64::MAX;
    let mut row = root;
    let mut base = 0;
    for count in 0..duals.len().saturating_add(1) {
        done.count = count;
        relax(
            tree,
            duals,
            rows.row_of.as_slice(),
            arcs.of_row(row),
            row,
            base,
        );
        let Some(entry) = nearest(tree, arcs.count()) else {
            return tree.end;
        };
        let Entry { distance, column } = entry;
        set(done.reached.as_mut_slice(), column, distance);
        set(tree.keys.as_mut_slice(), column, i64::MIN);
        put(done.columns.as_mut_slice(), count, name(column));
        row = at(rows.row_of.as_slice(), column);
        let cell = value(rows.cell_of.as_slice(), row as usize);
        base = cell
            .wrapping_sub(value(duals, column))
            .wrapping_sub(distance);
    }
    NONE
}

// Lowers the dual variables of the columns that were done by what they are nearer than a distance.
fn lower(duals: &mut [i64], done: &ArcDone, distance: i64) {
    for place in 0..done.count {
        let column = at(done.columns.as_slice(), place) as usize;
        let by = distance.wrapping_sub(value(done.reached.as_slice(), column));
        set(duals, column, value(&*duals, column).wrapping_sub(by));
    }
}

// Closes all columns that a search reached to be as before it.
fn forget(tree: &mut ArcTree) {
    for place in 0..tree.touches {
        let column = at(tree.touched.as_slice(), place) as usize;
        set(tree.keys.as_mut_slice(), column, i64::MAX);
    }
    tree.touches = 0;
}

// Gives the columns of the path that ends in a column to the rows that they are reached from.
// Whether it begins in a row.
fn flip(rows: &mut ArcRows, tree: &ArcTree, root: u32) -> bool {
    let mut column = tree.end;
    for _ in 0..rows.row_of.len() {
        let row = at(tree.came.as_slice(), column as usize);
        let cell = value(tree.came_by.as_slice(), column as usize);
        let former = at(rows.column_of.as_slice(), row as usize);
        rows.pair(row, column, cell);
        if row == root {
            return true;
        }
        column = former;
    }
    false
}

// Gives a row a column by a shortest path, and changes the dual variables of the columns that were
// done. Whether it found one.
fn augment(bench: &mut ArcBench, arcs: &Arcs, root: u32) -> bool {
    let duals = bench.duals.as_slice();
    let end = search(
        &mut bench.tree,
        &mut bench.done,
        &bench.rows,
        duals,
        arcs,
        root,
    );
    if end == NONE {
        return false;
    }
    lower(bench.duals.as_mut_slice(), &bench.done, bench.tree.bound);
    let is_root = flip(&mut bench.rows, &bench.tree, root);
    forget(&mut bench.tree);
    is_root
}

// Gives rows columns, and columns dual variables under which each row that has a column has it at
// its least cell.
fn start(bench: &mut ArcBench, arcs: &Arcs) {
    let duals = bench.duals.as_mut_slice();
    if bench.rows.column_of.len() == bench.rows.row_of.len() {
        let keys = bench.tree.keys.as_mut_slice();
        let came = bench.tree.came.as_mut_slice();
        reduce_columns(duals, &mut bench.rows, keys, came, arcs);
    }
    let waiting = bench.waiting.as_mut_slice();
    let delayed = bench.delayed.as_mut_slice();
    let class_of = bench.rows.column_of.as_slice();
    let mut count = list_waiting(waiting, class_of, class_of.len());
    for _ in 0..2 {
        count = reduce_rows(duals, &mut bench.rows, waiting, delayed, arcs, count);
    }
}

// Gives each row one of the columns, of which there are no fewer, and columns dual variables, which
// are 0 at those that no row has. Whether each row has a column.
pub(crate) fn solve_arcs(bench: &mut ArcBench, arcs: &Arcs) -> bool {
    start(bench, arcs);
    for row in 0..bench.rows.column_of.len() {
        let has_none = at(bench.rows.column_of.as_slice(), row) == NONE;
        if has_none && !augment(bench, arcs, name(row)) {
            return false;
        }
    }
    true
}
