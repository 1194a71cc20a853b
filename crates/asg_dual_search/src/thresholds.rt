//! The least limit within which each row has a column of its own.

use crate::NoMemory;
use crate::bounds::Bound;
use crate::limit_paths::{MISSING, lift, pair_at, serve};
use crate::limit_tables::LimitTable;
use asg_class_search::{Bench, list_waiting};
use asg_dual_numbers::{Lists, Number, Numbers, Table, at};
use std::alloc::Global;

/// The least limit within which there is an assignment, and such an assignment, as a search found
/// them: nothing of it is tested.
#[derive(Drop)]
pub struct Threshold {
    /// The limit, with the marks that show that there is no assignment below it.
    pub bound: Bound,
    /// The column of each row.
    pub columns: Vec<u32>,
}

// Gives each row a column within the least limit, to which the bound rises; whether each has one.
fn serve_all(bench: &mut Bench<i32>, table: &mut Table<i32>, bound: &mut Bound) -> bool {
    if bound.limit >= MISSING {
        return false;
    }
    let limit = i32::of(bound.limit);
    lift(table, limit);
    bench.rows.release(table.side);
    pair_at(&mut bench.rows, bench.duals.as_slice(), &*table, limit);
    let waiting = bench.waiting.as_mut_slice();
    let count = list_waiting(waiting, bench.rows.class_of.as_slice(), table.side);
    for place in 0..count.min(table.side) {
        let root = at(bench.waiting.as_slice(), place);
        if !serve(bench, table, bound, root) {
            return false;
        }
    }
    true
}

// The columns of the rows of a table within the least limit, to which the bound rises; `None` where
// there is none. The error is want of memory.
pub(crate) fn threshold_by(
    alloc: Global,
    table: &mut Table<i32>,
    bound: Bound,
) -> Result<Option<Threshold>, NoMemory> {
    let mut bound = bound;
    let mut lists = Lists::new(alloc);
    let rooms = lists.of(1, table.side);
    let mut bench = Bench::make(&mut lists, &*table, table.side, rooms);
    let is_found = serve_all(&mut bench, table, &mut bound);
    let columns = lists.copy_of(bench.rows.class_of.as_slice());
    drop(bench);
    let threshold = lists.whole(Threshold { bound, columns })?;
    Ok(if is_found { Some(threshold) } else { None })
}

/// The least limit within which each row of a square of numbers has a column of its own; `None`
/// where there is none, and where numbers are too great. The error is want of memory.
///
/// This is the bottleneck assignment problem [Fulkerson, Glicksberg and Gross 1953]. It begins at
/// the greatest of the rows' and the columns' least numbers. Rows get columns by shortest
/// augmenting paths [Jonker and Volgenant 1987] whose length is their greatest number, and the
/// limit rises where a path needs more.
pub fn threshold_of(alloc: Global, numbers: &Numbers) -> Result<Option<Threshold>, NoMemory> {
    let mut table = LimitTable::make(alloc, numbers.side, 0)?;
    for row in 0..numbers.side {
        if !table.push_known(numbers.row(row))? {
            return Ok(None);
        }
    }
    table.threshold(alloc)
}
