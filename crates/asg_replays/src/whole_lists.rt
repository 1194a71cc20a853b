//! Whole lists of phases of sums, tested in one pass over the cells of a square.

ghost use Rattle.std.specs.Prelude.{◌≡◌, ◌≤◌, ℕ, [], List, IfOk, IfSome, IsTrue, length, map};
ghost use Rattle.asg_phase_totals.specs.PhaseTotals.{AreTotals};
ghost use Rattle.asg_monoids.specs.BoundedSums.{bounded_sums, bounded_difference, plain_word};
ghost use Rattle.asg_square.specs.Grid.{cell_at};
ghost use Rattle.asg_replays.specs.WholeLists.{AreTotalsOf, HaveIndex, TakesIn};

use crate::NoMemory;
use crate::replays::{make_room, read_steps};
use asg_order::Written;
use asg_phase_totals::{PhaseTotals, SumNumber};
use asg_proof::WrittenPhase;
use asg_square::Square;
use std::alloc::Global;

// Takes in a phase before those that came to the totals, where its steps are sums and it can
// precede them, and tells whether it did. Its steps are read into the list of values, which keeps
// its room from phase to phase, as the other list does. The error is want of memory.
fn take_in<N: SumNumber, M: Written<Value = N>>(
    m: &M,
    totals: &mut PhaseTotals<N>,
    values: &mut Vec<N>,
    room: &mut Vec<N>,
    phase: &WrittenPhase,
) -> Result<bool, NoMemory>
    requires spelled { (xs : List N) → map (M.word_of m.now) xs ≡ map plain_word (N.numbers xs) }
    ensures taken { IfOk result (λ is. IsTrue is → TakesIn phase.now totals.old totals.new) }
    ensures side { IfOk result (λ is. length totals.new.rows ≡ length totals.old.rows) }
{
    if !read_steps(m, phase.steps(), values)? {
        return Ok(false);
    }
    make_room(m, room, values.len())?;
    Ok(totals.put_before(
        values.as_slice(),
        phase.enters(),
        phase.leaves(),
        room.as_mut_slice(),
    ))
}

/// Takes in all phases, from the last one back, up to the first that can't precede those behind it,
/// and tells whether there is none. The words of the steps are read by a monoid of sums, those of
/// one phase at a time. The error is want of memory.
pub fn take_all<N: SumNumber, M: Written<Value = N>>(
    alloc: Global,
    m: &M,
    totals: &mut PhaseTotals<N>,
    phases: &[WrittenPhase],
) -> Result<bool, NoMemory>
    requires spelled { (xs : List N) → map (M.word_of m.now) xs ≡ map plain_word (N.numbers xs) }
    requires none { AreTotals [] totals.old }
    ensures taken { IfOk result (λ is. IsTrue is → AreTotalsOf phases.now totals.new) }
    ensures side { IfOk result (λ is. length totals.new.rows ≡ length totals.old.rows) }
{
    let mut values = Vec::new(alloc);
    let mut room = Vec::new(alloc);
    let count = phases.len();
    'phases: for back in 0..count {
        if !take_in(m, totals, &mut values, &mut room, &phases[count - 1 - back])? {
            return Ok(false);
        }
    }
    Ok(true)
}

/// The index of phases that are admitted in turn from a square, by sums that stop at the top of its
/// numbers or at any greater one, where one pass over the cells tells that they are. That is so
/// where no cell ends below 0 after all, and those after each phase raise no row by more than a
/// column, as those do that lead to an assignment of least sum. Otherwise nothing is told. The words
/// of the steps are read by a monoid of sums. The error is want of memory.
pub fn list_index<N: SumNumber, M: Written<Value = N>>(
    alloc: Global,
    m: &M,
    square: &Square<N>,
    phases: &[WrittenPhase],
) -> Result<Option<N>, NoMemory>
    requires spelled { (xs : List N) → map (M.word_of m.now) xs ≡ map plain_word (N.numbers xs) }
    ensures { IfOk result (λ found. IfSome found (λ index. (top : ℕ) → N.top ≤ top
        → HaveIndex (bounded_sums top) bounded_difference plain_word square.now.side
        (λ r k. N.present (cell_at square.now r k)) (N.number index) phases.now)) }
{
    let mut totals = PhaseTotals::none(alloc, square.side())?;
    if !take_all(alloc, m, &mut totals, phases)? {
        return Ok(None);
    }
    if !totals.fits(square) {
        return Ok(None);
    }
    Ok(Some(totals.sum()))
}
