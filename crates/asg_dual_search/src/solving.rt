//! Least sums over a table, by starts and shortest augmenting paths.

use crate::coarse_to_fine::refine;
use crate::starts::{start, start_few};
use asg_class_search::{Bench, augment_from, place_rows};
use asg_dual_numbers::{Lists, Number, Table, at, value};

// How many rows the paths of all rows may go through for each row, before the table is solved from
// coarse to fine.
const MOST_SCANS: u64 = 48;

// Which rows of a table are to have which classes.
#[derive(Clone, Copy)]
pub(crate) enum Task {
    // All rows are to have columns, of which there are as many.
    Whole,
    // All rows are to have columns, of which there are no fewer.
    Few,
    // All rows but so many are to have classes.
    AllBut(usize),
}

// Gives each row a column, and columns dual variables. Where the starts leave more than half of the
// rows free, or paths go through many rows, it begins anew, from coarse to fine. Whether each row
// has a column.
fn solve_whole<N: Number>(lists: &mut Lists, bench: &mut Bench<N>, table: &Table<N>) -> bool {
    let side = table.side;
    let count = start(bench, table);
    if count > side / 2 {
        return refine(lists, bench, table);
    }
    for place in 0..count.min(side) {
        let root = at(bench.waiting.as_slice(), place);
        if !augment_from(bench, table, side, root, root as usize) {
            return false;
        }
        if bench.scans / MOST_SCANS > side as u64 {
            return refine(lists, bench, table);
        }
    }
    true
}

// Gives each row one of the columns, of which there are no fewer, and columns dual variables, which
// are 0 at those that no row has. Whether each row has a column.
fn solve_few<N: Number>(bench: &mut Bench<N>, table: &Table<N>) -> bool {
    let rows = bench.rows.class_of.len();
    let count = start_few(bench, table);
    for place in 0..count.min(rows) {
        let root = at(bench.waiting.as_slice(), place);
        if !augment_from(bench, table, table.side, root, root as usize) {
            return false;
        }
    }
    true
}

// Does a task over a table by a bench. Whether it could.
pub(crate) fn solve<N: Number>(
    lists: &mut Lists,
    bench: &mut Bench<N>,
    table: &Table<N>,
    task: Task,
) -> bool {
    match task {
        Task::Whole => solve_whole(lists, bench, table),
        Task::Few => solve_few(bench, table),
        Task::AllBut(outside) => place_rows(bench, table, outside),
    }
}

// A number no less than any of these dual variables, to which a task came: where there are as many
// rows as columns, none of them need be 0.
pub(crate) fn greatest_dual<N: Number>(duals: &[N], side: usize, task: Task) -> i64 {
    if !matches!(task, Task::Whole) {
        return 0;
    }
    let mut greatest = i64::MIN;
    for column in 0..side {
        greatest = greatest.max(value(duals, column).to_wide());
    }
    greatest
}
