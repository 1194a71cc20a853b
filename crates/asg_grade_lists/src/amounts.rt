//! Phases of amounts at a grade, taken into totals.

ghost use Rattle.std.specs.Prelude.{◌≡◌, ◌<◌, ◌≤◌, ◌+◌, ◌^◌, ℕ, [], IfOk, IsTrue, drop, length};
ghost use Rattle.asg_phase_totals.specs.PhaseTotals.{AreTotals};
ghost use Rattle.asg_grade_lists.specs.GradeLists.{AreAmountsAt, AreOfGrade, TakesIn};

use crate::NoMemory;
use asg_order::Word;
use asg_phase_totals::PhaseTotals;
use asg_proof::WrittenPhase;

// Whether the word of a step is that of a positive amount at the grade that 64 bits hold.
#[inline]
fn is_amount(word: &Word, grade: u64) -> bool
    ensures grade { IsTrue result → word.now.grade ≡ grade }
    ensures some { IsTrue result → 0 < word.now.amount }
    ensures short { IsTrue result → word.now.amount < 2 ^ 64 }
{
    if word.grade != grade {
        return false;
    }
    if word.amount == 0 {
        return false;
    }
    word.amount < 1 << 64
}

// Reads the steps of a phase as amounts at the grade, up to the first that isn't one; whether all
// are. The error is want of memory.
fn read_amounts(phase: &WrittenPhase, grade: u64, amounts: &mut Vec<u64>) -> Result<bool, NoMemory>
    ensures { IfOk result (λ are. IsTrue are
        → AreAmountsAt grade phase.now.steps amounts.new.items) }
{
    amounts.clear();
    let words = phase.steps();
    'steps: for t in 0..words.len() {
        let word = words.get(t);
        if !is_amount(&word, grade) {
            return Ok(false);
        }
        amounts.push(word.amount as u64)?;
    }
    Ok(true)
}

// Whether a phase has at least one step, and fewer than so many.
fn is_sized(phase: &WrittenPhase, places: usize) -> bool
    ensures some { IsTrue result → 1 ≤ length phase.now.steps }
    ensures few { IsTrue result → length phase.now.steps < places }
{
    let steps = phase.steps().len();
    1 <= steps && steps < places
}

// Takes in a phase that comes before the others, where it is of positive amounts at the grade; and
// tells whether it did. The error is want of memory.
fn put_before(
    totals: &mut PhaseTotals<u64>,
    phase: &WrittenPhase,
    grade: u64,
    amounts: &mut Vec<u64>,
    room: &mut [u64],
) -> Result<bool, NoMemory>
    ensures put { IfOk result (λ is. IsTrue is → (side : ℕ) → length room.old ≡ side + 1
        → length totals.old.rows ≡ side → TakesIn grade side phase.now totals.old totals.new) }
    ensures side { length totals.new.rows ≡ length totals.old.rows }
    ensures room { length room.new ≡ length room.old }
{
    if !is_sized(phase, room.len()) {
        return Ok(false);
    }
    let are_read = read_amounts(phase, grade, amounts)?;
    if !are_read {
        return Ok(false);
    }
    Ok(totals.put_before(amounts.as_slice(), phase.enters(), phase.leaves(), room))
}

/// Takes in all phases but the first, from the last one back, where they are of positive amounts at
/// the grade and count right; and tells whether it did. The error is want of memory.
pub(crate) fn put_others(
    totals: &mut PhaseTotals<u64>,
    phases: &[WrittenPhase],
    grade: u64,
    amounts: &mut Vec<u64>,
    room: &mut [u64],
) -> Result<bool, NoMemory>
    requires none { AreTotals [] totals.old }
    requires room { length room.old ≡ length totals.old.rows + 1 }
    requires some { 0 < length phases.now }
    ensures put { IfOk result (λ are. IsTrue are
        → AreOfGrade grade (length totals.old.rows) (drop 1 phases.now) totals.new) }
    ensures side { IfOk result (λ are. length totals.new.rows ≡ length totals.old.rows) }
{
    let count = phases.len();
    'phases: for back in 0..count - 1 {
        let is_put = put_before(totals, &phases[count - 1 - back], grade, amounts, room)?;
        if !is_put {
            return Ok(false);
        }
    }
    Ok(true)
}
