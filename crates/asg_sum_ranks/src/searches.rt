//! The search for the answers of the least sums. No clause says that it finds them.

use crate::NoMemory;
use crate::found::{Found, begin_anew, give, keep};
use crate::grounds::Ground;
use crate::settled::Settled;
use asg_dual_bounds::ABSENT;
use asg_dual_numbers::{Heap, Lists, amount, name};
use asg_rank_search::{Bench, Growth, Limit, Parent, RankNumber, Table, Waiting};
use std::alloc::Global;

// Names of children that were grown, in the queue, are their places and this.
const GROWN: u32 = 1 << 31;

// A child is taken to be no more than this above the answer that it comes from before it is grown:
// the tests of an answer's children come to as much.
const MOST_GAP: u64 = 1 << 28;

// What a search works with.
#[derive(Drop)]
struct Tools<N: RankNumber> {
    bench: Bench<N>,
    queue: Heap<Waiting>,
    limit: Limit,
}

// How a search ended.
#[derive(Clone, Copy)]
enum End {
    // As many answers were given as were asked for.
    Full,
    // There are no more.
    Spent,
    // Its numbers were too narrow.
    Lost,
}

// Writes the numbers of a row in 64 bits, those that are absent far above all others.
fn widen(numbers: &mut [u64], row: &[u32]) {
    for (number, slot) in numbers.iter_mut().zip(row.iter()) {
        *number = if *slot == ABSENT {
            u64::MAX
        } else {
            u64::from(*slot)
        };
    }
}

// Enters the numbers of a ground, less what rows fall at first.
fn enter_all<N: RankNumber>(
    table: &mut Table<N>,
    numbers: &mut [u64],
    ground: &Ground<'_>,
    falls: &[u64],
) {
    for row in 0..ground.table.rows() {
        widen(numbers, ground.table.row(row));
        table.enter(row, &*numbers, amount(falls, row));
    }
}

// The tools for answers of a ground from the first one on. The error is want of memory.
fn tools_of<N: RankNumber>(
    alloc: Global,
    ground: &Ground<'_>,
    root: &Settled,
    count: usize,
) -> Result<Tools<N>, NoMemory> {
    let amounts = root.amounts();
    let rows = ground.table.rows();
    let mut lists = Lists::new(alloc);
    let mut tools = Tools {
        bench: Bench::make(&mut lists, rows, amounts.rises(), amounts.floor()),
        queue: Heap::of(Vec::new(alloc)),
        limit: Limit::make(&mut lists, count),
    };
    let mut numbers = lists.of(0, ground.table.columns());
    let table = &mut tools.bench.table;
    enter_all(table, numbers.as_mut_slice(), ground, amounts.falls());
    drop(numbers);
    lists.whole(tools)
}

// An answer's part, as benches take it.
fn parent_of(branch: &Settled, place: usize) -> Parent<'_> {
    Parent {
        name: name(place),
        columns: branch.columns(),
        rises: branch.amounts().rises(),
        floor: branch.amounts().floor(),
        row: branch.row(),
    }
}

// Has something wait that is kept under a name, where there is room for that.
fn wait<N: RankNumber>(lists: &mut Lists, tools: &mut Tools<N>, bound: u64, name: usize) {
    let name = name as u64;
    if name < 1 << 32 {
        let name = name as u32;
        lists.is_short |= tools.queue.push(Waiting { bound, name }).is_err();
    }
}

// Has the children of an answer that was given wait, each with its bound, where that is below the
// limit.
fn wait_children<N: RankNumber>(
    lists: &mut Lists,
    branches: &[Settled],
    place: usize,
    sum: u64,
    tools: &mut Tools<N>,
) {
    let Some(branch) = branches.get(place) else {
        return;
    };
    let limit = tools.limit.limit();
    if limit <= sum {
        return;
    }
    tools
        .bench
        .measure(parent_of(branch, place), branch.banned());
    let rows = branch.columns().len();
    for row in branch.row()..rows {
        let gap = amount(tools.bench.gaps.as_slice(), row);
        let bound = sum.saturating_add(gap.min(MOST_GAP));
        let name = place.saturating_mul(rows).saturating_add(row);
        if bound < limit && name < GROWN as usize {
            wait(lists, tools, bound, name);
        }
    }
}

// Grows the child by a row of an answer's part.
fn grow<N: RankNumber>(
    branch: &Settled,
    place: usize,
    sum: u64,
    row: usize,
    tools: &mut Tools<N>,
) -> Growth {
    let parent = parent_of(branch, place);
    let banned = if row == branch.row() {
        branch.banned()
    } else {
        &[]
    };
    let limit = tools.limit.limit();
    let room = if limit == u64::MAX {
        u64::MAX
    } else {
        limit.saturating_sub(sum)
    };
    tools.bench.grow(parent, row, banned, room)
}

// Keeps a child that was grown to its best answer, and has it wait.
fn keep_reached<N: RankNumber>(
    lists: &mut Lists,
    found: &mut Found,
    tools: &mut Tools<N>,
    sum: u64,
    place: usize,
    row: usize,
) {
    let seed = keep(lists, found, &tools.bench.child, sum, place, row);
    let sum = sum.saturating_add(tools.bench.child.by);
    tools.limit.put(sum);
    if seed < GROWN as usize {
        wait(lists, tools, sum, seed.saturating_add(GROWN as usize));
    }
}

// Grows the child by a row of the part of the answer at a place, and keeps it. Gives whether its
// numbers did.
fn visit<N: RankNumber>(
    lists: &mut Lists,
    found: &mut Found,
    tools: &mut Tools<N>,
    place: usize,
    row: usize,
) -> bool {
    let sum = amount(found.sums.as_slice(), place);
    let Some(branch) = found.branches.get(place) else {
        return false;
    };
    match grow(branch, place, sum, row, tools) {
        Growth::Reached => keep_reached(lists, found, tools, sum, place, row),
        Growth::Beyond | Growth::Nothing => {
            keep(lists, found, &tools.bench.child, sum, place, row);
        }
        Growth::Lost => return false,
    }
    true
}

// Gives the answer of a child that was grown, whose own children then wait. Whether there is one.
fn give_next<N: RankNumber>(
    lists: &mut Lists,
    found: &mut Found,
    tools: &mut Tools<N>,
    seed: usize,
) -> bool {
    let Some(place) = give(lists, found, seed) else {
        return false;
    };
    let sum = amount(found.sums.as_slice(), place);
    wait_children(lists, found.branches.as_slice(), place, sum, tools);
    true
}

// How often a search for so many answers over so many rows takes something that waits: each answer
// has a child wait for each row, a child that was grown waits once more, and once nothing waits.
fn most_turns(count: usize, rows: usize) -> usize {
    count
        .saturating_mul(rows)
        .saturating_mul(2)
        .saturating_add(1)
}

// Takes what waits with the least bound, until as many answers were given as were asked for, or
// memory is wanting.
fn run<N: RankNumber>(
    lists: &mut Lists,
    found: &mut Found,
    tools: &mut Tools<N>,
    count: usize,
) -> End {
    let rows = found.branches.get(0).map_or(1, |root| root.columns().len());
    let rows = rows.max(1);
    'turns: for _ in 0..most_turns(count, rows) {
        if count <= found.branches.len() || lists.is_short {
            return End::Full;
        }
        let Some(next) = tools.queue.pop() else {
            return End::Spent;
        };
        let good = if next.name >= GROWN {
            give_next(lists, found, tools, (next.name - GROWN) as usize)
        } else {
            let name = next.name as usize;
            visit(lists, found, tools, name / rows, name % rows)
        };
        if !good {
            return End::Lost;
        }
    }
    End::Spent
}

// The answers from the first one on, in numbers of a width. The error is want of memory.
fn found_in<N: RankNumber>(
    alloc: Global,
    ground: &Ground<'_>,
    found: &mut Found,
    sum: u64,
    count: usize,
) -> Result<End, NoMemory> {
    let Some(root) = found.branches.get(0) else {
        return Ok(End::Spent);
    };
    let mut tools: Tools<N> = tools_of(alloc, ground, root, count)?;
    let mut lists = Lists::new(alloc);
    tools.limit.put(sum);
    wait_children(&mut lists, found.branches.as_slice(), 0, sum, &mut tools);
    let end = run(&mut lists, found, &mut tools, count);
    drop(tools);
    lists.whole(end)
}

/// So many answers from the first one on, with its sum, each of the least sum that is left. Gives
/// whether they were found. The error is want of memory.
pub(crate) fn search(
    alloc: Global,
    ground: &Ground<'_>,
    found: &mut Found,
    root: Settled,
    sum: u64,
    count: usize,
) -> Result<bool, NoMemory> {
    found.branches.push(root)?;
    found.sums.push(sum)?;
    let mut end = found_in::<i32>(alloc, ground, found, sum, count)?;
    if matches!(end, End::Lost) {
        begin_anew(found);
        end = found_in::<i64>(alloc, ground, found, sum, count)?;
    }
    Ok(matches!(end, End::Full))
}
