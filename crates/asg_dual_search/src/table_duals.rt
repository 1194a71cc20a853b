//! Dual variables of squares by tables of their classes.

use crate::solving::{Task, greatest_dual, solve};
use asg_class_search::{Bench, Classes, Placing, found_by};
use asg_dual_numbers::{Found, Lists, Number, Table, amount, at, name, put_amount, value};

// The cells of the rows of a table at their classes, with the least cells of rows that were taken
// away; 0 at rows without a class.
fn cells_of<N: Number>(
    lists: &mut Lists,
    table: &Table<N>,
    class_of: &[u32],
    leasts: &[u64],
) -> Vec<u64> {
    let mut cells = lists.of(0, leasts.len());
    for place in 0..leasts.len() {
        let class = at(class_of, place) as usize;
        if class < table.side {
            let cell = value(table.row(name(place)), class).to_wide().max(0) as u64;
            let cell = cell.wrapping_add(leasts[place]);
            put_amount(cells.as_mut_slice(), place, cell);
        }
    }
    cells
}

// What is asked of the rows of classes.
fn task_of(classes: &Classes, side: usize) -> Task {
    if !classes.is_plain || classes.outside > 0 {
        Task::AllBut(classes.outside)
    } else if classes.are_fewer(side) {
        Task::Few
    } else {
        Task::Whole
    }
}

// By how much columns that are copies of none may rise.
fn outside_rise<N: Number>(classes: &Classes, leasts: &[u64], level: N) -> u64 {
    if classes.outside > 0 {
        (level.to_wide().max(0) as u64).wrapping_add(amount(leasts, 0))
    } else {
        0
    }
}

// What a bench came to.
fn found_on<N: Number>(
    lists: &mut Lists,
    side: u32,
    classes: &Classes,
    table: &Table<N>,
    leasts: &[u64],
    bench: &Bench<N>,
) -> Found {
    let class_of = bench.rows.class_of.as_slice();
    let duals = bench.duals.as_slice();
    let cells = cells_of(lists, table, class_of, leasts);
    let placing = Placing {
        class_of,
        cells: cells.as_slice(),
        duals,
        greatest: greatest_dual(duals, table.side, task_of(classes, side as usize)),
        outside: outside_rise(classes, leasts, bench.level),
    };
    let found = found_by(lists, side, classes, &placing);
    drop(cells);
    found
}

// An assignment of a square of this side with dual variables, by the table of its classes, in which
// so much less stands for each row; `None` where none was found.
pub(crate) fn found_by_table<N: Number>(
    lists: &mut Lists,
    side: u32,
    classes: &Classes,
    table: &Table<N>,
    leasts: &[u64],
) -> Option<Found> {
    let rooms = lists.copy_of(classes.rooms.as_slice());
    let mut bench = Bench::make(lists, table, classes.rows.len(), rooms);
    let task = task_of(classes, side as usize);
    let found = if solve(lists, &mut bench, table, task) {
        Some(found_on(lists, side, classes, table, leasts, &bench))
    } else {
        None
    };
    drop(bench);
    found
}
