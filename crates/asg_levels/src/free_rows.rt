//! Rows of a square after steps by 1 that have no cell which is 0 in a column that stays.

ghost use Rattle.std.specs.Prelude.{◌≡◌, ◌+◌, ◌*◌, ◌<◌, ◌≤◌, ◌&&◌, ◌||◌, ◌==◌, not, true, ℕ, IsTrue};
ghost use Rattle.std.specs.Prelude.{length, slice_index, List};
ghost use Rattle.asg_model.specs.Limits.{most_side};
ghost use Rattle.asg_proof.specs.Phases.{staying_at};
ghost use Rattle.asg_bit_rows.specs.BitTable.{has_bit, is_bit_set, word_count};
ghost use Rattle.asg_levels.specs.MarkWords.{AreMarkWords, words_each};
ghost use Rattle.asg_levels.specs.UnitSteps.{AreFree};
ghost use Rattle.asg_levels.specs.Tight.{tight_bit};

use crate::tight::word_at;
use asg_bit_rows::BitRows;

/// Marks the columns that stay at the first step.
pub(crate) fn mark_staying(leaves: &[u32], stay: &mut BitRows)
    requires rows { stay.old.rows ≡ 1 }
    requires columns { stay.old.columns ≡ length leaves.now }
    requires few { length leaves.now ≤ most_side }
    ensures rows { stay.new.rows ≡ 1 }
    ensures columns { stay.new.columns ≡ length leaves.now }
    ensures bits { (c : ℕ) → c < length leaves.now
        → has_bit stay.new 0 c ≡ staying_at leaves.now 0 c }
{
    for column in 0..leaves.len() as u32 {
        stay.put(0, column, leaves[column as usize] > 0);
    }
}

// Whether no cell of a row that is in so many steps is 0 in a column that stays.
fn is_free(
    zeros: &BitRows,
    ones: &BitRows,
    words: &[u64],
    outs: &[u32],
    stay: &BitRows,
    ins: u32,
    row: u32,
) -> bool
    requires row_below { row < zeros.now.rows }
    requires one_rows { ones.now.rows ≡ zeros.now.rows }
    requires one_columns { ones.now.columns ≡ zeros.now.columns }
    requires stay_rows { stay.now.rows ≡ 1 }
    requires stay_columns { stay.now.columns ≡ zeros.now.columns }
    requires outs { length outs.now ≡ 64 * word_count zeros.now.columns }
    requires few_ins { ins ≤ most_side + 1 }
    requires words { AreMarkWords outs.now words.now }
    requires marks_below { (ins + 1) * words_each outs.now + words_each outs.now
        ≤ length words.now }
    ensures { IsTrue result → (c : ℕ) → c < zeros.now.columns
        → tight_bit zeros.now ones.now outs.now ins row c ≡ true
        → has_bit stay.now 0 c ≡ true → ⊥ }
{
    let zero_words = zeros.row(row);
    let one_words = ones.row(row);
    let stay_words = stay.row(0);
    for number in 0..zero_words.len() as u32 {
        let word = word_at(zero_words, one_words, words, outs, ins, number);
        if word & stay_words[number as usize] != 0 {
            return false;
        }
    }
    true
}

/// Whether no row that has entered at the first step has a cell which is 0 in a column that stays,
/// by how many steps each row is in and how many each column is out of.
pub(crate) fn are_free(
    zeros: &BitRows,
    ones: &BitRows,
    words: &[u64],
    ins: &[u32],
    outs: &[u32],
    stay: &BitRows,
    enters: &[u32],
    most: u32,
) -> bool
    requires rows { zeros.now.rows ≡ length enters.now }
    requires columns { zeros.now.columns ≡ length enters.now }
    requires one_rows { ones.now.rows ≡ length enters.now }
    requires one_columns { ones.now.columns ≡ length enters.now }
    requires stay_rows { stay.now.rows ≡ 1 }
    requires stay_columns { stay.now.columns ≡ length enters.now }
    requires few { length enters.now ≤ most_side }
    requires some { 0 < length enters.now }
    requires ins { length ins.now ≡ length enters.now }
    requires outs { length outs.now ≡ 64 * word_count (length enters.now) }
    requires few_ins { (r : ℕ) → r < length ins.now → slice_index ins.now r ≤ most }
    requires few_steps { most ≤ most_side + 1 }
    requires words { AreMarkWords outs.now words.now }
    requires reach { length words.now ≡ (most + 2) * words_each outs.now }
    ensures { IsTrue result → (leaves : List ℕ)
        → ((c : ℕ) → c < length enters.now → has_bit stay.now 0 c ≡ staying_at leaves 0 c)
        → AreFree zeros.now ones.now ins.now outs.now enters.now leaves (length enters.now)
        (length enters.now) }
{
    for row in 0..enters.len() as u32 {
        let place = row as usize;
        if enters[place] == 0 && !is_free(zeros, ones, words, outs, stay, ins[place], row) {
            return false;
        }
    }
    true
}
