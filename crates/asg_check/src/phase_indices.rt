//! The index of phases as documents have them.

ghost use Rattle.std.specs.Prelude.{◌≡◌, ◌↔◌, ◌∷◌, List, IfOk, IfSome, IsTrue};
ghost use Rattle.asg_model.specs.Refused.{PassesNegative};
ghost use Rattle.asg_order.specs.declared.words.Word.{Word as W};
ghost use Rattle.asg_order.specs.Entering.{LiesWithin};
ghost use Rattle.asg_order.specs.Monoid.{IsValue};
ghost use Rattle.asg_proof.specs.FoldProofs.{ProvesFold};
ghost use Rattle.asg_proof.specs.Phases.{PhaseOf};
ghost use Rattle.asg_verdicts.specs.PhaseReasons.{AreAdmitted};
ghost use Rattle.asg_check.specs.KnownPhases.{HaveTheIndex};

use crate::NoMemory;
use asg_model::{Choice, Instance};
use asg_order::{Kind, Ordered, Written, fold};
use asg_proof::WrittenPhase;
use asg_replays::{chosen_fold, read_steps};
use std::alloc::Global;

// The index of phases behind a phase with its steps, which are read into the list of values; none
// where some step is no value. The error is want of memory.
fn with_phase<M: Written>(
    m: &M,
    phase: &WrittenPhase,
    index: M::Value,
    values: &mut Vec<M::Value>,
) -> Result<Option<M::Value>, NoMemory>
    requires index { IsValue (M.monoid_of m.now) index }
    ensures index { IfOk result (λ found. IfSome found (λ more. (rest : List (PhaseOf W))
        → HaveTheIndex (M.monoid_of m.now) (M.word_of m.now) index rest
        → HaveTheIndex (M.monoid_of m.now) (M.word_of m.now) more (phase.now ∷ rest))) }
    ensures is_value { IfOk result (λ found. IfSome found (IsValue (M.monoid_of m.now))) }
{
    if !read_steps(m, phase.steps(), values)? {
        return Ok(None);
    }
    let steps = fold(m, values.as_slice());
    Ok(Some(m.op(steps, index)))
}

// The index of phases; none where some step is no value. The error is want of memory.
fn index_of<M: Written>(
    alloc: Global,
    m: &M,
    phases: &[WrittenPhase],
) -> Result<Option<M::Value>, NoMemory>
    ensures index { IfOk result (λ found. IfSome found (λ index.
        HaveTheIndex (M.monoid_of m.now) (M.word_of m.now) index phases.now)) }
    ensures is_value { IfOk result (λ found. IfSome found (IsValue (M.monoid_of m.now))) }
{
    let mut values = Vec::new(alloc);
    let mut index = m.unit();
    let count = phases.len();
    'phases: for back in 0..count {
        match with_phase(m, &phases[count - 1 - back], index, &mut values)? {
            Some(more) => index = more,
            None => return Ok(None),
        }
    }
    Ok(Some(index))
}

// Whether two values are the same.
fn is_same<M: Ordered>(m: &M, x: M::Value, y: M::Value) -> bool
    requires left { IsValue (M.monoid_of m.now) x }
    requires right { IsValue (M.monoid_of m.now) y }
    ensures { IsTrue result ↔ (x ≡ y) }
{
    m.le(x, y) && m.le(y, x)
}

/// Whether phases that are admitted from the square of an instance prove a choice of it: their
/// index is its fold. The error is want of memory.
pub(crate) fn has_index<K: Kind>(
    alloc: Global,
    kind: &K,
    inst: &Instance,
    choice: &Choice,
    phases: &[WrittenPhase],
) -> Result<bool, NoMemory>
    requires near { LiesWithin (K.reach kind.now) inst.now }
    requires passes { PassesNegative (K.objective kind.now) inst.now }
    ensures { IfOk result (λ is. IsTrue is
        → AreAdmitted (K.M.monoid_of (K.monoid kind.now)) (K.M.difference (K.monoid kind.now))
        (K.M.word_of (K.monoid kind.now)) (K.entered kind.now) inst.now phases.now
        → ProvesFold (K.M.monoid_of (K.monoid kind.now)) (K.M.difference (K.monoid kind.now))
        (K.M.word_of (K.monoid kind.now)) (K.entered kind.now) inst.now choice.now phases.now) }
{
    let value = chosen_fold(kind, inst, choice);
    let m = kind.monoid();
    match index_of(alloc, m, phases)? {
        Some(index) => Ok(is_same(m, index, value)),
        None => Ok(false),
    }
}
