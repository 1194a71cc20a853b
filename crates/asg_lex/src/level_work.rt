//! The work at a level.

ghost use Rattle.std.specs.Prelude.{◌≡◌, ◌≢◌, ◌⊎◌, ◌+◌, ◌<◌, ◌≤◌, None, All, AllPairs, IfOk, ℕ};
ghost use Rattle.std.specs.Prelude.{length};
ghost use Rattle.asg_match.specs.Augmentation.{IsStuck};
ghost use Rattle.asg_match.specs.Matching.{AllAllowed, IsMatched, IsPerfect, column_at};
ghost use Rattle.asg_live_cells.specs.Marks.{IsMarked};
ghost use Rattle.asg_lex.specs.LevelWork.{IsUnderway, IsNamedRow, GoesOn, HasPerfect};

use crate::NoMemory;
use crate::unit_phases::unit_phase;
use asg_bit_rows::BitRows;
use asg_levels::{count_zeros, tighten_more};
use asg_live_cells::{Entry, Marks};
use asg_match::{Grown, Matching, Tree, augment};
use asg_monoids::Bounded;
use asg_proof::WrittenPhase;
use asg_proof::laws::phases_law;
use std::alloc::Global;

/// The square of a level as rows of bits, the phases so far, and what they made of it.
#[derive(Drop)]
pub(crate) struct Work {
    /// The cells that are 0 now.
    pub(crate) marks: Marks,
    /// The cells that were 0, and those that were 1.
    pub(crate) zeros: BitRows,
    pub(crate) ones: BitRows,
    /// How many steps each row is in, and how many each column is out of.
    pub(crate) ins: Vec<u32>,
    pub(crate) outs: Vec<u32>,
    pub(crate) phases: Vec<WrittenPhase>,
}

// A step by 1 over the rows of a stuck tree and all columns but theirs. The error is want of
// memory.
fn step(
    alloc: Global,
    work: &mut Work,
    matching: &Matching,
    root: u32,
    rows: &[u32],
) -> Result<(), NoMemory>
    requires underway { IsUnderway (length matching.now) work.old }
    requires few { length work.old.phases.items ≤ length matching.now }
    requires cells { AllAllowed (IsMarked work.old.marks.bits work.old.marks.side) matching.now }
    requires stuck { IsStuck (IsMarked work.old.marks.bits work.old.marks.side) matching.now root
        rows.now }
    requires root { root < length matching.now }
    requires below { All (λ r. r < length matching.now) rows.now }
    requires apart { AllPairs ◌≢◌ rows.now }
    ensures underway { IfOk result (λ _. IsUnderway (length matching.now) work.new) }
    ensures on { IfOk result (λ _. GoesOn work.old work.new) }
    ensures more { IfOk result (λ _. length work.new.phases.items
        ≡ length work.old.phases.items + 1) }
    ensures cells { IfOk result (λ _.
        AllAllowed (IsMarked work.new.marks.bits work.new.marks.side) matching.now) }
{
    let _side = matching.side();
    let _marks = work.marks.bits.rows();
    let phase = unit_phase(alloc, matching, rows)?;
    count_zeros(phase.enters(), &mut work.ins);
    count_zeros(phase.leaves(), &mut work.outs);
    tighten_more(
        &mut work.marks.bits,
        &work.zeros,
        &work.ones,
        phase.enters(),
        phase.leaves(),
        work.ins.as_slice(),
        work.outs.as_slice(),
    );
    work.phases.push(phase)?;
    Ok(())
}

// There are no more phases than rows: a perfect assignment has no more cells of the level's cost.
fn few_phases(work: &Work, side: u32)
    requires underway { IsUnderway side work.now }
    requires perfect { HasPerfect side work.now }
    ensures { length work.now.phases.items ≤ side }
{
    let sums = Bounded { top: 1 << 120 };
    phases_law(&sums);
    let _phases = work.phases.len();
}

// Sees to it that a row without a column gets one, by cells that are 0 after as many steps as it
// takes. The error is want of memory.
fn serve_row(
    alloc: Global,
    work: &mut Work,
    matching: &mut Matching,
    row: u32,
    tree: &mut Tree,
) -> Result<(), NoMemory>
    requires underway { IsUnderway (length matching.old) work.old }
    requires perfect { HasPerfect (length matching.old) work.old }
    requires cells { AllAllowed (IsMarked work.old.marks.bits work.old.marks.side) matching.old }
    requires tree_side { tree.old.side ≡ length matching.old }
    requires row_below { row < length matching.old }
    requires row_free { column_at matching.old row ≡ None }
    ensures side { IfOk result (λ _. length matching.new ≡ length matching.old) }
    ensures tree_side { IfOk result (λ _. tree.new.side ≡ tree.old.side) }
    ensures underway { IfOk result (λ _. IsUnderway (length matching.old) work.new) }
    ensures on { IfOk result (λ _. GoesOn work.old work.new) }
    ensures cells { IfOk result (λ _.
        AllAllowed (IsMarked work.new.marks.bits work.new.marks.side) matching.new) }
    ensures kept { IfOk result (λ _. (r : ℕ) → IsMatched matching.old r → IsMatched matching.new r) }
    ensures served { IfOk result (λ _. IsMatched matching.new row) }
{
    let side = matching.side();
    few_phases(work, side);
    'steps: while augment(&work.marks, matching, row, tree) == Grown::Short {
        step(alloc, work, matching, row, tree.rows())?;
        few_phases(work, side);
    }
    Ok(())
}

// The same of a row that may have a column.
fn serve(
    alloc: Global,
    work: &mut Work,
    matching: &mut Matching,
    row: u32,
    tree: &mut Tree,
) -> Result<(), NoMemory>
    requires underway { IsUnderway (length matching.old) work.old }
    requires perfect { HasPerfect (length matching.old) work.old }
    requires cells { AllAllowed (IsMarked work.old.marks.bits work.old.marks.side) matching.old }
    requires tree_side { tree.old.side ≡ length matching.old }
    requires row_below { row < length matching.old }
    ensures side { IfOk result (λ _. length matching.new ≡ length matching.old) }
    ensures tree_side { IfOk result (λ _. tree.new.side ≡ tree.old.side) }
    ensures underway { IfOk result (λ _. IsUnderway (length matching.old) work.new) }
    ensures on { IfOk result (λ _. GoesOn work.old work.new) }
    ensures cells { IfOk result (λ _.
        AllAllowed (IsMarked work.new.marks.bits work.new.marks.side) matching.new) }
    ensures kept { IfOk result (λ _. (r : ℕ) → IsMatched matching.old r → IsMatched matching.new r) }
    ensures served { IfOk result (λ _. IsMatched matching.new row) }
{
    if matching.column_of(row).is_some() {
        return Ok(());
    }
    serve_row(alloc, work, matching, row, tree)
}

/// Completes the matching by cells that are 0 after as many steps by 1 as it takes, where only rows
/// of the entries from one place to another may be without a column: such a row whose alternating
/// tree is stuck takes a step over the tree, and tries again. The error is want of memory.
pub(crate) fn serve_named(
    alloc: Global,
    work: &mut Work,
    matching: &mut Matching,
    tree: &mut Tree,
    entries: &[Entry],
    from: usize,
    to: usize,
) -> Result<(), NoMemory>
    requires underway { IsUnderway (length matching.old) work.old }
    requires perfect { HasPerfect (length matching.old) work.old }
    requires cells { AllAllowed (IsMarked work.old.marks.bits work.old.marks.side) matching.old }
    requires tree_side { tree.old.side ≡ length matching.old }
    requires within { All (λ e. e.row < length matching.old) entries.now }
    requires to_within { to ≤ length entries.now }
    requires named { (r : ℕ) → r < length matching.old
        → IsMatched matching.old r ⊎ IsNamedRow entries.now from to r }
    ensures side { IfOk result (λ _. length matching.new ≡ length matching.old) }
    ensures tree_side { IfOk result (λ _. tree.new.side ≡ tree.old.side) }
    ensures underway { IfOk result (λ _. IsUnderway (length matching.old) work.new) }
    ensures on { IfOk result (λ _. GoesOn work.old work.new) }
    ensures few { IfOk result (λ _. length work.new.phases.items ≤ length matching.old) }
    ensures perfect { IfOk result (λ _.
        IsPerfect (IsMarked work.new.marks.bits work.new.marks.side) (length matching.old)
        matching.new) }
{
    for place in from..to {
        serve(alloc, work, matching, u32::from(entries[place].row), tree)?;
    }
    let side = matching.side();
    few_phases(work, side);
    Ok(())
}
