//! Tests of answers that were given: each is in its part, which is a child of an earlier one's.

ghost use Rattle.std.specs.Prelude.{◌≡◌, ◌∷◌, [], ◌==◌, ◌<◌, ◌≤◌, ℕ, Contains, IsTrue, if◌then◌else◌, length, slice_index};
ghost use Rattle.asg_dual_bounds.specs.Parts.{IsIn};
ghost use Rattle.asg_sum_ranks.specs.Branches.{answer_at, part_at, IsChild};

use crate::grounds::Ground;
use crate::settled::{Settled, at};

// Whether a list of columns takes the same columns as another one for the rows before one.
fn agrees(columns: &[u32], other: &[u32], row: usize) -> bool
    ensures { IsTrue result → (k : ℕ) → k < row
        → slice_index columns.now k ≡ slice_index other.now k }
{
    if columns.len() < row || other.len() < row {
        return false;
    }
    'rows: for k in 0..row {
        if columns[k] != other[k] {
            return false;
        }
    }
    true
}

// Whether none of the banned columns is this one.
fn is_free(banned: &[u32], column: u32) -> bool
    ensures { IsTrue result → ¬ Contains banned.now column }
{
    'banned: for k in 0..banned.len() {
        if banned[k] == column {
            return false;
        }
    }
    true
}

// Whether a list of columns is in a part.
#[tactic(auto, using(crate::proofs::Steps::in_part))]
fn is_within(columns: &[u32], fixed: &[u32], row: usize, banned: &[u32]) -> bool
    ensures { IsTrue result → IsIn (record {
      columns = fixed.now;
      row = row;
      banned = banned.now;
    }) columns.now }
{
    if columns.len() <= row || !agrees(columns, fixed, row) {
        return false;
    }
    is_free(banned, columns[row])
}

// Whether a list is another one behind a column.
#[tactic(auto, using(crate::proofs::Steps::behind))]
fn is_behind(banned: &[u32], column: u32, others: &[u32]) -> bool
    ensures { IsTrue result → banned.now ≡ column ∷ others.now }
{
    if banned.len() != others.len() + 1 || banned[0] != column {
        return false;
    }
    'others: for k in 0..others.len() {
        if banned[k + 1] != others[k] {
            return false;
        }
    }
    true
}

// Whether columns are those that the child by a row of a branch's part bans for it.
fn are_banned(banned: &[u32], before: &Settled, row: usize) -> bool
    requires { row < length before.now.columns }
    ensures { IsTrue result → banned.now
        ≡ slice_index before.now.columns row
        ∷ (if row == before.now.row then before.now.banned else []) }
{
    let column = before.columns()[row];
    if row == before.row() {
        is_behind(banned, column, before.banned())
    } else {
        is_behind(banned, column, &[])
    }
}

// Whether the part of an answer is the child by its row of that of one before it, for so many rows.
fn comes_from(branch: &Settled, before: &Settled, rows: usize, place: usize) -> bool
    ensures from { IsTrue result → before.now.row ≤ branch.now.row }
    ensures upto { IsTrue result → branch.now.row < rows }
    ensures named { IsTrue result → slice_index before.now.children branch.now.row ≡ place }
    ensures part { IsTrue result → branch.now.banned ≡ slice_index before.now.columns branch.now.row
        ∷ (if branch.now.row == before.now.row then before.now.banned else []) }
{
    let row = branch.row();
    if row < before.row() || rows <= row || before.columns().len() <= row {
        return false;
    }
    if before.child(row) != place {
        return false;
    }
    are_banned(branch.banned(), before, row)
}

/// Whether the part of the answer at a place is a child of an earlier one's.
pub(crate) fn is_child(ground: &Ground<'_>, branches: &[Settled], place: usize) -> bool
    requires { place < length branches.now }
    ensures { IsTrue result → IsChild ground.now.inst.now branches.now place }
{
    let rows = ground.table.rows();
    let branch = at(branches, place);
    let parent = branch.parent();
    if place <= parent {
        return false;
    }
    comes_from(branch, at(branches, parent), rows, place)
}

/// Whether the answer at a place is in its part.
pub(crate) fn is_in_part(branches: &[Settled], place: usize) -> bool
    requires { place < length branches.now }
    ensures { IsTrue result → IsIn (part_at branches.now place) (answer_at branches.now place) }
{
    let branch = at(branches, place);
    let parent = branch.parent();
    if branches.len() <= parent {
        return false;
    }
    is_within(
        branch.columns(),
        at(branches, parent).columns(),
        branch.row(),
        branch.banned(),
    )
}
