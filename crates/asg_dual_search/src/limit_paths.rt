//! Augmenting paths along which the greatest cell is least.

use crate::bounds::Bound;
use asg_class_search::{Bench, Rows, Tree};
use asg_dual_numbers::{NONE, Number, Table, at, is_marked, name, put};

// From where numbers are too great, and what stands for one that is missing.
pub(crate) const MISSING: u64 = (1 << 31) - 3;

// How a search went: the free column that it ended at, the limit within which it was reached, and,
// where the limit rose, how many columns were done when it last did.
#[derive(Clone, Copy)]
struct Climb {
    end: u32,
    limit: i32,
    closed: Option<usize>,
}

// Raises all cells to a limit, so that those within it are equal.
pub(crate) fn lift(table: &mut Table<i32>, limit: i32) {
    let cells = table.cells.as_mut_slice();
    for place in 0..cells.len() {
        cells[place] = cells[place].max(limit);
    }
}

// Gives rows columns at which their cell is the limit, where these are free.
pub(crate) fn pair_at(rows: &mut Rows, duals: &[i32], table: &Table<i32>, limit: i32) {
    for row in 0..table.side {
        let cells = table.row(name(row));
        let wide = table.wide;
        let column = i32::find_tie(cells, duals, rows.free.as_slice(), limit, wide, wide);
        if is_marked(rows.free.as_slice(), column) {
            rows.pair(name(row), name(column));
        }
    }
}

// Grows a tree of paths from a row, along which the greatest cell is least, to a free column. Of
// columns that are equally near a free one comes first.
fn search(
    tree: &mut Tree<i32>,
    rows: &Rows,
    duals: &[i32],
    table: &Table<i32>,
    root: u32,
    limit: i32,
) -> Climb {
    tree.open(table.row(root), duals, table.side, table.wide, root);
    let mut climb = Climb {
        end: NONE,
        limit,
        closed: None,
    };
    let mut from = root as usize;
    for count in 0..table.side {
        let level = tree.distance();
        if level > climb.limit {
            climb.limit = level;
            climb.closed = Some(count);
        }
        let column = tree.nearest(rows.free.as_slice(), level, from);
        let row = at(rows.first_of.as_slice(), column);
        if row == NONE {
            if column < table.side {
                climb.end = name(column);
            }
            return climb;
        }
        put(tree.done.as_mut_slice(), count, name(column));
        tree.close(column);
        tree.relax(table.row(row), duals, table.wide, 0, row);
        from = column.saturating_add(16);
    }
    climb
}

// Marks the tree of a search as it was when the limit rose: its root, and the columns that were
// done by then with their rows.
fn mark_tree(done: &[u32], row_of: &[u32], bound: &mut Bound, root: u32, count: usize) {
    bound.enters.as_mut_slice().fill(1);
    bound.leaves.as_mut_slice().fill(1);
    put(bound.enters.as_mut_slice(), root as usize, 0);
    for place in 0..count {
        let column = at(done, place) as usize;
        put(bound.leaves.as_mut_slice(), column, 0);
        put(bound.enters.as_mut_slice(), at(row_of, column) as usize, 0);
    }
}

// Gives a row a column by a path within the least limit, to which the bound rises; whether it found
// one.
pub(crate) fn serve(
    bench: &mut Bench<i32>,
    table: &mut Table<i32>,
    bound: &mut Bound,
    root: u32,
) -> bool {
    let limit = i32::of(bound.limit);
    let duals = bench.duals.as_slice();
    let climb = search(&mut bench.tree, &bench.rows, duals, &*table, root, limit);
    if climb.end == NONE || climb.limit >= i32::of(MISSING) {
        return false;
    }
    if let Some(count) = climb.closed {
        let done = bench.tree.done.as_slice();
        mark_tree(done, bench.rows.first_of.as_slice(), bound, root, count);
        bound.limit = climb.limit.max(0) as u64;
        lift(table, climb.limit);
    }
    bench.rows.flip(bench.tree.came.as_slice(), climb.end) == root
}
