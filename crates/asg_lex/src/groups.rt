//! The cells of one cost: whether they can be left out, and else how many are needed.

ghost use Rattle.std.specs.Prelude.{◌≡◌, ◌↔◌, ◌<◌, ◌≤◌, ℕ, [], false, IsTrue, All, IfOk, length};
ghost use Rattle.std.specs.Prelude.{slice_index};
ghost use Rattle.asg_match.specs.Matching.{IsPerfect, Matches};
ghost use Rattle.asg_model.specs.Limits.{most_side};
ghost use Rattle.asg_bit_rows.specs.BitTable.{IsBitTable};
ghost use Rattle.asg_live_cells.specs.Marks.{IsMarked, IsNamed, MarksFewer};
ghost use Rattle.asg_lex.specs.Groups.{Frees, FreesNamed};
ghost use Rattle.asg_lex.specs.LevelWork.{IsUnderway, AreSized, LeavesOut, TakesLevel};

use crate::NoMemory;
use crate::level_work::{Work, serve_named};
use asg_bit_rows::BitRows;
use asg_live_cells::{Entry, leave};
use asg_match::{Matching, Tree};
use std::alloc::Global;

// Whether the cell of an entry is matched.
fn is_matched(matching: &Matching, entry: Entry) -> bool
    requires { entry.row < length matching.now }
    ensures { IsTrue result ↔ Matches matching.now entry.row entry.column }
{
    matching.column_of(u32::from(entry.row)) == Some(u32::from(entry.column))
}

// Whether some cell from one place to another is matched.
fn has_matched(matching: &Matching, entries: &[Entry], from: usize, to: usize) -> bool
    requires within { All (λ e. e.row < length matching.now) entries.now }
    requires to_within { to ≤ length entries.now }
    ensures { result ≡ false → (r c : ℕ) → IsNamed entries.now from to r c
        → Matches matching.now r c → ⊥ }
{
    for place in from..to {
        if is_matched(matching, entries[place]) {
            return true;
        }
    }
    false
}

// Takes its column from the row of an entry whose cell is matched.
fn free_row(matching: &mut Matching, entry: Entry)
    requires { entry.row < length matching.old }
    ensures { Frees matching.old matching.new entry.row entry.column }
{
    if is_matched(matching, entry) {
        matching.clear(u32::from(entry.row));
    }
}

// Takes their columns from the rows whose matched cells are those of entries from one place to
// another.
fn free_rows(matching: &mut Matching, entries: &[Entry], from: usize, to: usize)
    requires order { from ≤ to }
    requires within { All (λ e. e.row < length matching.old) entries.now }
    requires to_within { to ≤ length entries.now }
    ensures side { length matching.new ≡ length matching.old }
    ensures freed { FreesNamed matching.old matching.new entries.now from to }
{
    for place in from..to {
        free_row(matching, entries[place]);
    }
}

// What rows of bits keep.
fn bits_within(bits: &BitRows)
    requires { 0 < bits.now.rows }
    ensures { IsBitTable bits.now }
{
    let _row = bits.row(0);
}

// Sets all numbers to 0.
fn clear(numbers: &mut Vec<u32>)
    ensures count { length numbers.new.items ≡ length numbers.old.items }
    ensures zeros { (k : ℕ) → slice_index numbers.new.items k ≡ 0 }
{
    for place in 0..numbers.len() {
        numbers[place] = 0;
    }
}

// Begins the work at the cost of the entries from one place to another: their cells are 1.
fn begin(work: &mut Work, entries: &[Entry], from: usize, to: usize, side: u32)
    requires some { 0 < side }
    requires few { side ≤ most_side }
    requires sized { AreSized side work.old }
    requires order { from ≤ to }
    requires within { All (λ e. (e.row < side) × (e.column < side)) entries.now }
    requires to_within { to ≤ length entries.now }
    ensures underway { IsUnderway side work.new }
    ensures none { work.new.phases.items ≡ [] }
    ensures ones { work.new.ones ≡ work.old.marks.bits }
    ensures zeros { MarksFewer work.old.marks.bits work.new.zeros entries.now from to }
    ensures marks { work.new.marks.bits ≡ work.new.zeros }
{
    bits_within(&work.marks.bits);
    work.ones.take(&work.marks.bits);
    leave(&mut work.marks.bits, entries, from, to);
    work.zeros.take(&work.marks.bits);
    clear(&mut work.ins);
    clear(&mut work.outs);
    work.phases.clear();
}

/// Whether the cells of the entries from one place to another, all of one cost, can't be left out:
/// then the phases show how many are needed, and the cells that are 0 after them are marked. Else
/// these cells are no longer marked. The matching is perfect by marked cells, before and after. The
/// error is want of memory.
pub(crate) fn take_group(
    alloc: Global,
    work: &mut Work,
    matching: &mut Matching,
    tree: &mut Tree,
    entries: &[Entry],
    from: usize,
    to: usize,
) -> Result<bool, NoMemory>
    requires some { 0 < length matching.old }
    requires few { length matching.old ≤ most_side }
    requires sized { AreSized (length matching.old) work.old }
    requires order { from ≤ to }
    requires within { All (λ e. (e.row < length matching.old) × (e.column < length matching.old))
        entries.now }
    requires to_within { to ≤ length entries.now }
    requires tree_side { tree.old.side ≡ length matching.old }
    requires perfect { IsPerfect (IsMarked work.old.marks.bits work.old.marks.side)
        (length matching.old) matching.old }
    ensures side { IfOk result (λ _. length matching.new ≡ length matching.old) }
    ensures tree_side { IfOk result (λ _. tree.new.side ≡ tree.old.side) }
    ensures sized { IfOk result (λ _. AreSized (length matching.old) work.new) }
    ensures perfect { IfOk result (λ _. IsPerfect
        (IsMarked work.new.marks.bits work.new.marks.side) (length matching.old) matching.new) }
    ensures left_out { IfOk result (λ is. is ≡ false → LeavesOut (length matching.old)
        work.old.marks.bits work.new.marks.bits entries.now from to) }
    ensures level { IfOk result (λ is. IsTrue is → TakesLevel (length matching.old)
        work.old work.new entries.now from to) }
{
    let side = matching.side();
    if !has_matched(matching, entries, from, to) {
        leave(&mut work.marks.bits, entries, from, to);
        return Ok(false);
    }
    begin(work, entries, from, to, side);
    free_rows(matching, entries, from, to);
    serve_named(alloc, work, matching, tree, entries, from, to)?;
    Ok(!work.phases.is_empty())
}
