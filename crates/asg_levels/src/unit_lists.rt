//! Lists of phases of one step by 1, applied to a square of cells that are 0 or 1.

ghost use Rattle.std.specs.Prelude.{◌≡◌, ◌∷◌, ◌++◌, ◌*◌, ◌<◌, ◌≤◌, [], ℕ, List, IfOk, false, IsTrue, length};
ghost use Rattle.std.specs.Prelude.{slice_index};
ghost use Rattle.asg_model.specs.Limits.{most_side};
ghost use Rattle.asg_order.specs.declared.words.Word.{Word as W};
ghost use Rattle.asg_proof.specs.Phases.{PhaseOf};
ghost use Rattle.asg_bit_rows.specs.BitTable.{word_count};
ghost use Rattle.asg_levels.specs.UnitLists.{AreCountedUnits, AreUnits, MarkZeros};

use crate::NoMemory;
use crate::free_rows::{are_free, mark_staying};
use crate::mark_words::mark_words;
use crate::tight::tighten;
use crate::unit_phases::{count_zeros, is_unit};
use asg_bit_rows::BitRows;
use asg_model::limits::MOST_SIDE;
use asg_proof::WrittenPhase;
use std::alloc::Global;

// Counts the step of a phase, where it is one by 1 that is admitted after so many others, and tells
// whether it is. The error is want of memory.
fn take_unit(
    alloc: Global,
    zeros: &BitRows,
    ones: &BitRows,
    ins: &mut Vec<u32>,
    outs: &mut Vec<u32>,
    stay: &mut BitRows,
    phase: &WrittenPhase,
    most: u32,
) -> Result<bool, NoMemory>
    requires some { 0 < zeros.now.rows }
    requires few { zeros.now.rows ≤ most_side }
    requires columns { zeros.now.columns ≡ zeros.now.rows }
    requires one_rows { ones.now.rows ≡ zeros.now.rows }
    requires one_columns { ones.now.columns ≡ zeros.now.rows }
    requires stay_rows { stay.old.rows ≡ 1 }
    requires stay_columns { stay.old.columns ≡ zeros.now.rows }
    requires ins { length ins.old.items ≡ zeros.now.rows }
    requires outs { length outs.old.items ≡ 64 * word_count zeros.now.rows }
    requires few_ins { (r : ℕ) → r < zeros.now.rows → slice_index ins.old.items r ≤ most }
    requires few_outs { (c : ℕ) → slice_index outs.old.items c ≤ most }
    requires few_steps { most ≤ most_side }
    ensures ins { IfOk result (λ _. length ins.new.items ≡ zeros.now.rows) }
    ensures outs { IfOk result (λ _. length outs.new.items ≡ 64 * word_count zeros.now.rows) }
    ensures stay_rows { IfOk result (λ _. stay.new.rows ≡ 1) }
    ensures stay_columns { IfOk result (λ _. stay.new.columns ≡ zeros.now.rows) }
    ensures taken { IfOk result (λ is. IsTrue is → (before : List (PhaseOf W)) → length before ≡ most
        → AreCountedUnits zeros.now.rows zeros.now ones.now ins.old.items outs.old.items before
        → AreCountedUnits zeros.now.rows zeros.now ones.now ins.new.items outs.new.items
        (before ++ phase.now ∷ [])) }
{
    let _zeros = zeros.row(0);
    let _ones = ones.row(0);
    let side = ins.len();
    if !is_unit(phase, side) {
        return Ok(false);
    }
    let words = mark_words(alloc, outs.as_slice(), most + 2)?;
    mark_staying(phase.leaves(), stay);
    let are_apart = are_free(
        zeros,
        ones,
        words.as_slice(),
        ins.as_slice(),
        outs.as_slice(),
        stay,
        phase.enters(),
        most,
    );
    if !are_apart {
        return Ok(false);
    }
    count_zeros(phase.enters(), ins);
    count_zeros(phase.leaves(), outs);
    Ok(true)
}

// Counts the steps of phases, up to the first that isn't one by 1 which is admitted after those
// before it, and tells whether there is none. The error is want of memory.
fn take_units(
    alloc: Global,
    zeros: &BitRows,
    ones: &BitRows,
    ins: &mut Vec<u32>,
    outs: &mut Vec<u32>,
    phases: &[WrittenPhase],
) -> Result<bool, NoMemory>
    requires some { 0 < zeros.now.rows }
    requires few { zeros.now.rows ≤ most_side }
    requires columns { zeros.now.columns ≡ zeros.now.rows }
    requires one_rows { ones.now.rows ≡ zeros.now.rows }
    requires one_columns { ones.now.columns ≡ zeros.now.rows }
    requires ins { length ins.old.items ≡ zeros.now.rows }
    requires outs { length outs.old.items ≡ 64 * word_count zeros.now.rows }
    requires few_phases { length phases.now ≤ most_side }
    requires start { AreCountedUnits zeros.now.rows zeros.now ones.now ins.old.items outs.old.items
        [] }
    ensures ins { IfOk result (λ _. length ins.new.items ≡ zeros.now.rows) }
    ensures outs { IfOk result (λ _. length outs.new.items ≡ 64 * word_count zeros.now.rows) }
    ensures taken { IfOk result (λ is. IsTrue is → AreCountedUnits zeros.now.rows zeros.now ones.now
        ins.new.items outs.new.items phases.now) }
{
    let mut stay = BitRows::make(alloc, 1, ins.len() as u32)?;
    for place in 0..phases.len() {
        let most = place as u32;
        if !take_unit(
            alloc,
            zeros,
            ones,
            ins,
            outs,
            &mut stay,
            &phases[place],
            most,
        )? {
            return Ok(false);
        }
    }
    Ok(true)
}

/// Applies phases to the square whose cells of these bits are 0 and 1, where each has one step, by
/// 1, and is admitted after those before it: then the marks are those of the cells that are 0 after
/// them. Otherwise, and where there are more than 2,000 phases, nothing is told, and the marks
/// stay. The time is that of the words of the rows in each phase, and of those of all rows at the
/// end. The error is want of memory.
pub fn apply_units(
    alloc: Global,
    side: u32,
    zeros: &BitRows,
    ones: &BitRows,
    phases: &[WrittenPhase],
    marks: &mut BitRows,
) -> Result<bool, NoMemory>
    requires some { 0 < side }
    requires few { side ≤ most_side }
    requires rows { zeros.now.rows ≡ side }
    requires columns { zeros.now.columns ≡ side }
    requires one_rows { ones.now.rows ≡ side }
    requires one_columns { ones.now.columns ≡ side }
    requires mark_rows { marks.old.rows ≡ side }
    requires mark_columns { marks.old.columns ≡ side }
    ensures units { IfOk result (λ is. IsTrue is
        → AreUnits side zeros.now ones.now phases.now) }
    ensures marks { IfOk result (λ is. IsTrue is
        → MarkZeros side zeros.now ones.now marks.new phases.now) }
    ensures stay { IfOk result (λ is. is ≡ false → marks.new ≡ marks.old) }
{
    if phases.len() > MOST_SIDE as usize {
        return Ok(false);
    }
    let mut ins = vec![in alloc; 0; side as usize]?;
    let mut outs = vec![in alloc; 0; (64 * side.div_ceil(64)) as usize]?;
    if !take_units(alloc, zeros, ones, &mut ins, &mut outs, phases)? {
        return Ok(false);
    }
    let most = phases.len() as u32;
    tighten(
        alloc,
        marks,
        zeros,
        ones,
        ins.as_slice(),
        outs.as_slice(),
        most,
    )?;
    Ok(true)
}
