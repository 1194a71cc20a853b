//! The starts of Jonker and Volgenant [Jonker and Volgenant 1987]: column reduction, reduction
//! transfer and two passes of augmenting row reduction.

use asg_class_search::{Bench, Rows, Tree, list_waiting, wait_again};
use asg_dual_numbers::{NONE, Number, Served, Table, at, fill, name, put, set, value};

// The most row scans of a pass for each row.
const MOST_SCANS: u64 = 4;

// Column reduction: each column gets its least number as its dual variable, and the row that has
// it gets the column, where it has none. Afterwards `done` counts for each row the columns at
// which it is least.
fn reduce_columns<N: Number>(
    duals: &mut [N],
    rows: &mut Rows,
    tree: &mut Tree<N>,
    table: &Table<N>,
) {
    fill(duals, N::greatest());
    for row in 0..table.side {
        let row = name(row);
        let came = tree.came.as_mut_slice();
        N::lessen(table.row(row), duals, came, table.wide, N::zero(), row);
    }
    for column in table.side..table.wide {
        set(duals, column, N::zero());
    }
    let times = tree.done.as_mut_slice();
    pair_least(rows, times, tree.came.as_slice(), table.side);
}

// Gives each row that is least at columns the last of these, and counts for each row these columns.
fn pair_least(rows: &mut Rows, times: &mut [u32], least_rows: &[u32], side: usize) {
    times.fill(0);
    for back in 0..side {
        let column = side - 1 - back;
        let row = at(least_rows, column);
        let count = at(&*times, row as usize);
        put(times, row as usize, count.saturating_add(1));
        if count == 0 {
            rows.pair(row, name(column));
        }
    }
}

// Reduction transfer: the column of a row that is least in it alone falls by the row's next number.
// The rows that have no column wait; how many they are.
fn transfer<N: Number>(
    duals: &mut [N],
    waiting: &mut [u32],
    times: &[u32],
    class_of: &[u32],
    table: &Table<N>,
) -> usize {
    let mut count = 0;
    for row in 0..table.side {
        let times = at(times, row);
        if times == 0 {
            put(waiting, count, name(row));
            count = count.saturating_add(1);
        } else if times == 1 {
            let two = N::two_least(table.row(name(row)), &*duals, table.wide);
            let column = at(class_of, row);
            let by = if two.place == column {
                two.next
            } else {
                two.least
            };
            let dual = value(&*duals, column as usize);
            set(duals, column as usize, dual.minus(by));
        }
    }
    count
}

// Gives a waiting row its least column, which falls until the next one is as near. Of columns that
// are equally near one that no row has is taken first. Where `may_fall` is false, dual variables
// stay, and a row whose least column is taken waits.
fn serve<N: Number>(
    duals: &mut [N],
    rows: &mut Rows,
    table: &Table<N>,
    row: u32,
    may_fall: bool,
) -> Served {
    let numbers = table.row(row);
    let wide = table.wide;
    let two = N::two_least(numbers, &*duals, wide);
    let mut column = two.place;
    let mut displaced = at(rows.first_of.as_slice(), column as usize);
    let is_nearer = two.least.is_less(two.next);
    let falls = is_nearer && may_fall;
    if falls {
        let by = two.next.minus(two.least);
        let dual = value(&*duals, column as usize);
        set(duals, column as usize, dual.minus(by));
    } else if displaced != NONE {
        if is_nearer {
            return Served::Tied(row);
        }
        let free = rows.free.as_slice();
        let tie = N::find_tie(numbers, &*duals, free, two.next, wide, column as usize);
        if tie < wide {
            column = name(tie);
        }
        displaced = at(rows.first_of.as_slice(), column as usize);
    }
    rows.pair(row, column);
    if displaced == NONE || displaced == row {
        return Served::Alone;
    }
    put(rows.class_of.as_mut_slice(), displaced as usize, NONE);
    if falls {
        Served::Ahead(displaced)
    } else {
        Served::Tied(displaced)
    }
}

// Augmenting row reduction: one pass over the waiting rows; how many wait afterwards.
fn reduce_rows<N: Number>(
    duals: &mut [N],
    rows: &mut Rows,
    waiting: &mut [u32],
    delayed: &mut [u32],
    table: &Table<N>,
    count: usize,
) -> usize {
    let mut later = 0usize;
    let mut next = 0;
    let mut left = MOST_SCANS * (table.side as u64 % 4096);
    for _ in 0..2 * MOST_SCANS * (table.side as u64 % 4096) {
        if next >= count {
            break;
        }
        let row = at(&*waiting, next);
        next += 1;
        match serve(duals, rows, table, row, left > 0) {
            Served::Alone => {}
            Served::Ahead(displaced) => {
                left = left.saturating_sub(1);
                next -= 1;
                put(waiting, next, displaced);
            }
            Served::Tied(waits) => {
                put(delayed, later, waits);
                later = later.saturating_add(1);
            }
        }
    }
    wait_again(waiting, delayed, next, count, later)
}

// Two such passes. How many rows wait afterwards; these are listed.
fn reduce_twice<N: Number>(bench: &mut Bench<N>, table: &Table<N>, count: usize) -> usize {
    let duals = bench.duals.as_mut_slice();
    let waiting = bench.waiting.as_mut_slice();
    let delayed = bench.delayed.as_mut_slice();
    let mut count = count;
    for _ in 0..2 {
        count = reduce_rows(duals, &mut bench.rows, waiting, delayed, table, count);
    }
    let class_of = bench.rows.class_of.as_slice();
    list_waiting(waiting, class_of, class_of.len())
}

// Gives rows columns, and columns dual variables under which each row that has a column has it at
// its least number; how many rows have none.
pub(crate) fn start<N: Number>(bench: &mut Bench<N>, table: &Table<N>) -> usize {
    bench.rows.release(table.side);
    let duals = bench.duals.as_mut_slice();
    reduce_columns(duals, &mut bench.rows, &mut bench.tree, table);
    let waiting = bench.waiting.as_mut_slice();
    let times = bench.tree.done.as_slice();
    let count = transfer(duals, waiting, times, bench.rows.class_of.as_slice(), table);
    reduce_twice(bench, table, count)
}

// The same for a table of no more rows than columns: dual variables are 0 first, and stay so at the
// columns that no row has.
pub(crate) fn start_few<N: Number>(bench: &mut Bench<N>, table: &Table<N>) -> usize {
    bench.rows.release(table.side);
    let waiting = bench.waiting.as_mut_slice();
    let class_of = bench.rows.class_of.as_slice();
    let count = list_waiting(waiting, class_of, class_of.len());
    reduce_twice(bench, table, count)
}
