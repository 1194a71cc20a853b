//! Rows and columns that enter from coarse to fine, for tables on which the starts leave many rows
//! free: first those at every 2^k-th place, then those halfway between them, and so on.

use asg_class_search::{Bench, Rows, Tree, augment_from};
use asg_dual_numbers::{Lists, Number, Table, at, fill, name, put, set, value};

// The most rows that enter first.
const FIRST: usize = 32;

// The places below a side in the order in which they enter, and after how many of them each level
// ends.
#[derive(Drop)]
struct Levels {
    order: Vec<u32>,
    ends: Vec<usize>,
}

// The least k for which few multiples of 2^k lie below a side.
fn first_level(side: usize) -> u32 {
    let mut count = side;
    for level in 0..16u32 {
        if count <= FIRST {
            return level;
        }
        count /= 2;
    }
    16
}

// The level of a place is the greatest k, up to the first level, of which 2^k divides it.
fn levels_of(lists: &mut Lists, side: usize) -> Levels {
    let mut order = lists.room(side);
    let mut ends = lists.room(17);
    let first = first_level(side);
    for level in (0..first.saturating_add(1)).rev() {
        for place in 0..side {
            if place.trailing_zeros().min(first) == level {
                lists.push(&mut order, name(place));
            }
        }
        lists.push(&mut ends, order.len());
    }
    Levels { order, ends }
}

// The table with its rows and columns in an order.
fn ordered<N: Number>(lists: &mut Lists, table: &Table<N>, order: &[u32]) -> Table<N> {
    let mut cells = lists.room(table.cells.len());
    let mut line = lists.of(N::greatest(), table.wide);
    for row in order {
        let numbers = table.row(*row);
        for place in 0..order.len() {
            let number = value(numbers, order[place] as usize);
            set(line.as_mut_slice(), place, number);
        }
        lists.append(&mut cells, line.as_slice());
    }
    drop(line);
    Table {
        side: table.side,
        wide: table.wide,
        cells,
    }
}

// Gives columns that enter the greatest dual variables under which no cell of the rows that have
// columns is below 0; the least of each column where there are none.
fn enter_columns<N: Number>(
    duals: &mut [N],
    tree: &mut Tree<N>,
    class_of: &[u32],
    table: &Table<N>,
    before: usize,
    after: usize,
) {
    fill(tree.keys.as_mut_slice(), N::greatest());
    for row in 0..if before == 0 { after } else { before } {
        let numbers = table.row(name(row));
        let mut base = N::zero();
        if before > 0 {
            let column = at(class_of, row) as usize;
            base = value(numbers, column).minus(value(&*duals, column));
        }
        let keys = tree.keys.as_mut_slice();
        N::lessen(numbers, keys, tree.came.as_mut_slice(), table.wide, base, 0);
    }
    for column in before..after {
        set(duals, column, value(tree.keys.as_slice(), column));
    }
}

// Puts columns and dual variables back where the rows and columns stood before they were ordered.
fn restore<N: Number>(
    duals: &mut [N],
    rows: &mut Rows,
    order: &[u32],
    class_of: &[u32],
    ordered: &[N],
) {
    for place in 0..order.len() {
        let own = order[place];
        let former = at(order, at(class_of, place) as usize);
        rows.pair(own, former);
        set(duals, own as usize, value(ordered, place));
    }
}

// Gives rows columns level by level, of an ordered table; whether each has one.
fn enter_all<N: Number>(bench: &mut Bench<N>, own: &Table<N>, ends: &[usize]) -> bool {
    let mut before = 0;
    for level in 0..ends.len() {
        let after = ends[level];
        let duals = bench.duals.as_mut_slice();
        let class_of = bench.rows.class_of.as_slice();
        enter_columns(duals, &mut bench.tree, class_of, own, before, after);
        for row in before..after {
            if !augment_from(bench, own, after, name(row), row) {
                return false;
            }
        }
        before = after;
    }
    true
}

// Solves a table by its levels, and tells whether each row has a column.
fn refine_by<N: Number>(
    lists: &mut Lists,
    bench: &mut Bench<N>,
    table: &Table<N>,
    levels: &Levels,
) -> bool {
    let order = levels.order.as_slice();
    let own = ordered(lists, table, order);
    bench.rows.release(table.side);
    bench.tree.clear();
    let is_whole = enter_all(bench, &own, levels.ends.as_slice());
    drop(own);
    let class_of = lists.copy_of(bench.rows.class_of.as_slice());
    let ordered = lists.copy_of(bench.duals.as_slice());
    restore(
        bench.duals.as_mut_slice(),
        &mut bench.rows,
        order,
        class_of.as_slice(),
        ordered.as_slice(),
    );
    drop(class_of);
    drop(ordered);
    is_whole
}

// Solves a table from coarse to fine, and tells whether each row has a column.
pub(crate) fn refine<N: Number>(lists: &mut Lists, bench: &mut Bench<N>, table: &Table<N>) -> bool {
    let levels = levels_of(lists, table.side);
    let is_whole = refine_by(lists, bench, table, &levels);
    drop(levels);
    is_whole
}
