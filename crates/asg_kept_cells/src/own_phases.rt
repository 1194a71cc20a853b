//! The phases of a node's own, from the kept cells of its parent's square.

ghost use Rattle.std.specs.Prelude.{◌≡◌, ◌∷◌, [], None, IfOk, IfSome};
ghost use Rattle.asg_order.specs.Monoid.{IsValue};
ghost use Rattle.asg_proof.specs.Steps.{HasValues};
ghost use Rattle.asg_square.specs.Grid.{cell_at};
ghost use Rattle.asg_kept_cells.specs.Kept.{HasSize};
ghost use Rattle.asg_kept_cells.specs.MaskedPhases.{AreAdmittedWithin, HaveIndexAfter};

use crate::NoMemory;
use crate::single_steps::admits_kept;
use crate::taking_out::take_out;
use asg_admit::Reduced;
use asg_bit_rows::BitRows;
use asg_order::{Written, fold};
use asg_proof::WrittenPhase;
use asg_replays::{first_bad, read_steps};
use asg_square::Square;
use std::alloc::Global;

// Up to so many times the side are tested cell by cell; more take longer than a copy of the square.
const SHORT: usize = 16;

// Whether the steps of a phase times the rows that enter are few times the side, so that it is
// tested cell by cell in a time that is in proportion to the cells, as that of a copy is.
fn is_short(phase: &WrittenPhase, side: u32) -> bool {
    let steps = phase.steps().len();
    let entering = phase
        .enters()
        .iter()
        .filter(|mark| (**mark as usize) < steps)
        .count();
    entering.saturating_mul(steps) <= SHORT * side as usize
}

// The index of one phase after another, where it is admitted from the kept cells of a square, which
// isn't touched. The error is want of memory.
fn index_of_one<M: Written>(
    alloc: Global,
    m: &M,
    square: &Square<M::Value>,
    kept: &BitRows,
    before: M::Value,
    phase: &WrittenPhase,
) -> Result<Option<M::Value>, NoMemory>
    requires values { HasValues (M.monoid_of m.now) square.now.side (cell_at square.now) }
    requires size { HasSize square.now.side kept.now }
    requires before { IsValue (M.monoid_of m.now) before }
    ensures some { IfOk result (λ found. IfSome found (HaveIndexAfter (M.monoid_of m.now)
        (M.difference m.now) (M.word_of m.now) square.now kept.now before (phase.now ∷ []))) }
    ensures none { IfOk result (λ found. found ≡ None → AreAdmittedWithin (M.monoid_of m.now)
        (M.difference m.now) (M.word_of m.now) square.now kept.now (phase.now ∷ []) → ⊥) }
{
    let mut values = Vec::new(alloc);
    if !read_steps(m, phase.steps(), &mut values)? {
        return Ok(None);
    }
    let steps = values.as_slice();
    if !admits_kept(m, square, kept, steps, phase.enters(), phase.leaves()) {
        return Ok(None);
    }
    Ok(Some(m.op(before, fold(m, steps))))
}

// The index of phases after another, where they are admitted in turn from the kept cells of a
// square; they are replayed on a square of their own. The error is want of memory.
fn index_of_all<M: Written>(
    alloc: Global,
    m: &M,
    square: &Square<M::Value>,
    kept: &BitRows,
    before: M::Value,
    own: &[WrittenPhase],
) -> Result<Option<M::Value>, NoMemory>
    requires values { HasValues (M.monoid_of m.now) square.now.side (cell_at square.now) }
    requires size { HasSize square.now.side kept.now }
    requires before { IsValue (M.monoid_of m.now) before }
    ensures some { IfOk result (λ found. IfSome found (HaveIndexAfter (M.monoid_of m.now)
        (M.difference m.now) (M.word_of m.now) square.now kept.now before own.now)) }
    ensures none { IfOk result (λ found. found ≡ None → AreAdmittedWithin (M.monoid_of m.now)
        (M.difference m.now) (M.word_of m.now) square.now kept.now own.now → ⊥) }
{
    let mut now = square.copy(alloc)?;
    take_out(&mut now, kept);
    let mut reduced = Reduced { now, index: before };
    match first_bad(alloc, m, &mut reduced, own)? {
        Some(_place) => Ok(None),
        None => Ok(Some(reduced.index)),
    }
}

// The index of phases after another, where they are admitted in turn from the kept cells of a
// square, which isn't touched. The error is want of memory.
fn own_index<M: Written>(
    alloc: Global,
    m: &M,
    square: &Square<M::Value>,
    kept: &BitRows,
    before: M::Value,
    own: &[WrittenPhase],
) -> Result<Option<M::Value>, NoMemory>
    requires values { HasValues (M.monoid_of m.now) square.now.side (cell_at square.now) }
    requires size { HasSize square.now.side kept.now }
    requires before { IsValue (M.monoid_of m.now) before }
    ensures some { IfOk result (λ found. IfSome found (HaveIndexAfter (M.monoid_of m.now)
        (M.difference m.now) (M.word_of m.now) square.now kept.now before own.now)) }
    ensures none { IfOk result (λ found. found ≡ None → AreAdmittedWithin (M.monoid_of m.now)
        (M.difference m.now) (M.word_of m.now) square.now kept.now own.now → ⊥) }
{
    if own.is_empty() {
        return Ok(Some(before));
    }
    if own.len() == 1 && is_short(&own[0], square.side()) {
        index_of_one(alloc, m, square, kept, before, &own[0])
    } else {
        index_of_all(alloc, m, square, kept, before, own)
    }
}

/// The index of phases after another, where they are admitted in turn from the kept cells of a
/// square, which isn't touched. Where the index is known it is taken. The error is want of memory.
pub fn told_index<M: Written>(
    alloc: Global,
    m: &M,
    square: &Square<M::Value>,
    kept: &BitRows,
    before: M::Value,
    own: &[WrittenPhase],
    known: Option<M::Value>,
) -> Result<Option<M::Value>, NoMemory>
    requires values { HasValues (M.monoid_of m.now) square.now.side (cell_at square.now) }
    requires size { HasSize square.now.side kept.now }
    requires before { IsValue (M.monoid_of m.now) before }
    requires known { IfSome known (HaveIndexAfter (M.monoid_of m.now) (M.difference m.now)
        (M.word_of m.now) square.now kept.now before own.now) }
    ensures some { IfOk result (λ found. IfSome found (HaveIndexAfter (M.monoid_of m.now)
        (M.difference m.now) (M.word_of m.now) square.now kept.now before own.now)) }
    ensures none { IfOk result (λ found. found ≡ None → AreAdmittedWithin (M.monoid_of m.now)
        (M.difference m.now) (M.word_of m.now) square.now kept.now own.now → ⊥) }
{
    match known {
        Some(index) => Ok(Some(index)),
        None => own_index(alloc, m, square, kept, before, own),
    }
}
