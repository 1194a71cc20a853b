//! Phases of one step by 1.

ghost use Rattle.std.specs.Prelude.{◌≡◌, ◌==◌, ◌+◌, ◌≤◌, ◌<◌, ◌∷◌, [], ℕ, All, IfOk, length};
ghost use Rattle.std.specs.Prelude.{slice_index, if◌then◌else◌};
ghost use Rattle.asg_match.specs.Matching.{Matches};
ghost use Rattle.asg_model.specs.Limits.{most_side};
ghost use Rattle.asg_proof.specs.Phases.{IsPhase};
ghost use Rattle.asg_lex.specs.Marked.{IsAmong, IsMatchedAmong, AreZeroAt};
ghost use Rattle.asg_lex.specs.UnitPhases.{SplitsTree};

use crate::NoMemory;
use asg_match::Matching;
use asg_order::Word;
use asg_proof::{StepWords, WrittenPhase};
use std::alloc::Global;

// Sets the numbers at the places of a list to 0.
fn mark_rows(rows: &[u32], enters: &mut Vec<u32>)
    requires below { All (λ r. r < length enters.old.items) rows.now }
    requires ones { (r : ℕ) → r < length enters.old.items → slice_index enters.old.items r ≡ 1 }
    ensures count { length enters.new.items ≡ length enters.old.items }
    ensures zeros { AreZeroAt enters.new.items (length enters.old.items)
        (IsAmong rows.now (length rows.now)) }
{
    for place in 0..rows.len() {
        enters[rows[place] as usize] = 0;
    }
}

// Sets the number at the place of a row's column to 0, if it has one.
fn mark_column(matching: &Matching, row: u32, leaves: &mut Vec<u32>)
    requires row_below { row < length matching.now }
    requires count { length leaves.old.items ≡ length matching.now }
    ensures count { length leaves.new.items ≡ length leaves.old.items }
    ensures zero { (c : ℕ) → Matches matching.now row c → slice_index leaves.new.items c ≡ 0 }
    ensures others { (c : ℕ) → (Matches matching.now row c → ⊥)
        → slice_index leaves.new.items c ≡ slice_index leaves.old.items c }
{
    if let Some(column) = matching.column_of(row) {
        leaves[column as usize] = 0;
    }
}

// Sets the numbers at the places of the rows' columns to 0.
fn mark_columns(matching: &Matching, rows: &[u32], leaves: &mut Vec<u32>)
    requires below { All (λ r. r < length matching.now) rows.now }
    requires count { length leaves.old.items ≡ length matching.now }
    requires ones { (c : ℕ) → c < length matching.now → slice_index leaves.old.items c ≡ 1 }
    ensures count { length leaves.new.items ≡ length leaves.old.items }
    ensures zeros { AreZeroAt leaves.new.items (length matching.now)
        (IsMatchedAmong matching.now rows.now (length rows.now)) }
{
    for place in 0..rows.len() {
        mark_column(matching, rows[place], leaves);
    }
}

/// The phase of one step by 1 over the rows of a tree and all columns but theirs. The error is want
/// of memory.
pub(crate) fn unit_phase(
    alloc: Global,
    matching: &Matching,
    rows: &[u32],
) -> Result<WrittenPhase, NoMemory>
    requires below { All (λ r. r < length matching.now) rows.now }
    ensures steps { IfOk result (λ phase. phase.steps
        ≡ record { grade = 0; amount = 1 } ∷ []) }
    ensures split { IfOk result (λ phase. SplitsTree (length matching.now) matching.now rows.now
        phase.enters phase.leaves) }
    ensures phase { IfOk result IsPhase }
{
    let side = matching.side();
    let mut enters = vec![in alloc; 1; side as usize]?;
    mark_rows(rows, &mut enters);
    let mut leaves = vec![in alloc; 1; side as usize]?;
    mark_columns(matching, rows, &mut leaves);
    let one = Word {
        grade: 0,
        amount: 1,
    };
    let mut steps = StepWords::none(alloc);
    steps.push(one)?;
    let phase = WrittenPhase::of(steps, enters, leaves)?;
    Ok(phase)
}
