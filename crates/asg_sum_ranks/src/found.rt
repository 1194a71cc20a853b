//! What a search found: answers that were given, and children that were grown.

use crate::kept_children::{Kept, Seed};
use crate::settled::Settled;
use asg_dual_numbers::{Lists, at};
use asg_rank_search::Child;
use std::alloc::Global;

/// The answers that were given, each with its sum, and the children that were grown.
#[derive(Drop)]
pub(crate) struct Found {
    pub(crate) branches: Vec<Settled>,
    pub(crate) sums: Vec<u64>,
    pub(crate) kept: Kept,
}

impl Found {
    /// Nothing yet.
    pub(crate) fn make(alloc: Global) -> Found {
        Found {
            branches: Vec::new(alloc),
            sums: Vec::new(alloc),
            kept: Kept::make(alloc),
        }
    }
}

/// Leaves nothing but the first answer.
pub(crate) fn begin_anew(found: &mut Found) {
    found.branches.truncate(1);
    found.sums.truncate(1);
    found.kept.clear();
    if let Some(root) = found.branches.get_mut(0) {
        root.forget();
    }
}

/// Keeps a child that was grown from an answer by a row. Gives its place.
pub(crate) fn keep(
    lists: &mut Lists,
    found: &mut Found,
    grown: &Child,
    sum: u64,
    parent: usize,
    row: usize,
) -> usize {
    let place = found.kept.count();
    found.kept.push(lists, grown, sum, parent, row);
    if let Some(branch) = found.branches.get_mut(parent) {
        branch.note_shown(row, place.saturating_add(1));
    }
    place
}

// What the child by a row of an answer's part bans for that row.
fn banned_of(lists: &mut Lists, branch: &Settled, row: usize) -> Vec<u32> {
    let own = at(branch.columns(), row);
    let mut banned = lists.of(own, 1);
    if row == branch.row() {
        lists.append(&mut banned, branch.banned());
    }
    banned
}

// The answer of a child with its part.
fn settled_of(
    lists: &mut Lists,
    kept: &Kept,
    before: &Settled,
    child: usize,
    seed: Seed,
) -> Settled {
    let row = seed.row as usize;
    let mut columns = lists.copy_of(before.columns());
    kept.shift(child, columns.as_mut_slice());
    let mut amounts = before.amounts().again(lists);
    kept.write(child, before, seed.bound, &mut amounts);
    let banned = banned_of(lists, before, row);
    Settled::of(lists, columns, seed.parent as usize, row, banned, amounts)
}

/// Gives the answer of a child. Gives its place; `None` where there is none.
pub(crate) fn give(lists: &mut Lists, found: &mut Found, child: usize) -> Option<usize> {
    let place = found.branches.len();
    let seed = found.kept.get(child)?;
    let before = found.branches.get_mut(seed.parent as usize)?;
    before.note_child(seed.row as usize, place);
    let settled = settled_of(lists, &found.kept, &*before, child, seed);
    lists.is_short |= found.branches.push(settled).is_err();
    lists.push(&mut found.sums, seed.bound);
    Some(place)
}
