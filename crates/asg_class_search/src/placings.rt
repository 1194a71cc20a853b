//! Dual variables of squares by those of classes of their columns.

use crate::classes::Classes;
use asg_dual_numbers::{Found, Lists, NONE, Number, amount, at, name, put, put_amount, value};

/// The classes of the counted rows with their cells, which are 0 at rows without a class, with the
/// dual variables of classes and a number that is no less, and by how much columns that are copies
/// of none may rise.
#[derive(Drop)]
pub struct Placing<'a, N: Number> {
    /// The class of each counted row.
    pub class_of: &'a [u32],
    /// Its cell there.
    pub cells: &'a [u64],
    /// The dual variable of each class.
    pub duals: &'a [N],
    /// A number no less than any dual variable.
    pub greatest: i64,
    /// By how much columns that are copies of none may rise.
    pub outside: u64,
}

// Raises the columns of each class by as much as its dual variable is below the greatest.
fn raise<N: Number>(classes: &Classes, placing: &Placing<'_, N>, rises: &mut [u64]) {
    for class in 0..classes.firsts.len() {
        let first = classes.firsts[class] as usize;
        let end = first.saturating_add(at(classes.rooms.as_slice(), class) as usize);
        let dual = value(placing.duals, class).to_wide();
        let rise = placing.greatest.wrapping_sub(dual).max(0) as u64;
        for column in first..end {
            put_amount(rises, column, rise);
        }
    }
}

// The first place from one on at which there is no name.
pub(crate) fn next_free(names: &[u32], from: usize) -> usize {
    for place in from..names.len() {
        if names[place] == NONE {
            return place;
        }
    }
    names.len()
}

// Gives rows the columns of their classes in order; of each class the next one is kept.
fn place_counted(
    classes: &Classes,
    class_of: &[u32],
    nexts: &mut [u32],
    columns: &mut [u32],
    rows: &mut [u32],
) {
    let mut extra = classes.extra;
    for place in 0..classes.rows.len() {
        let row = classes.rows[place];
        let class = at(class_of, place) as usize;
        let mut column = extra;
        if class < nexts.len() {
            column = nexts[class];
            nexts[class] = column.saturating_add(1);
        } else {
            extra = extra.saturating_add(1);
        }
        put(columns, row as usize, column);
        put(rows, column as usize, row);
    }
}

// Gives the other rows the columns that are left.
fn place_others(columns: &mut [u32], rows: &mut [u32]) {
    let mut column = 0;
    for row in 0..columns.len() {
        if columns[row] == NONE {
            column = next_free(rows, column);
            columns[row] = name(column);
            put(rows, column, name(row));
        }
    }
}

// Lets each counted row fall by its cell and what its column may rise by.
fn lower(classes: &Classes, cells: &[u64], rises: &[u64], columns: &[u32], falls: &mut [u64]) {
    for place in 0..classes.rows.len() {
        let row = classes.rows[place] as usize;
        let rise = amount(rises, at(columns, row) as usize);
        let cell = amount(cells, place);
        put_amount(falls, row, cell.wrapping_add(rise));
    }
}

/// The assignment of a square of this side, and its dual variables, by those of its classes.
pub fn found_by<N: Number>(
    lists: &mut Lists,
    side: u32,
    classes: &Classes,
    placing: &Placing<'_, N>,
) -> Found {
    let side = side as usize;
    let mut nexts = lists.copy_of(classes.firsts.as_slice());
    let mut columns = lists.of(NONE, side);
    let mut rows = lists.of(NONE, side);
    let mut rises = lists.of(placing.outside, side);
    let mut falls = lists.of(0, side);
    let class_of = placing.class_of;
    place_counted(classes, class_of, &mut nexts, &mut columns, &mut rows);
    place_others(&mut columns, &mut rows);
    raise(classes, placing, &mut rises);
    lower(
        classes,
        placing.cells,
        rises.as_slice(),
        columns.as_slice(),
        &mut falls,
    );
    drop(nexts);
    Found {
        columns,
        rows,
        falls,
        rises,
    }
}
