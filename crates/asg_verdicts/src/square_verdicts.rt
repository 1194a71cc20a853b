//! What stands against phases that are replayed from a square.

ghost use Rattle.std.specs.Prelude.{◌≡◌, ◌≢◌, ◌⊎◌, ◌↔◌, pos, IsTrue, IfOk};
ghost use Rattle.asg_admit.specs.Reduced.{IsReduced};
ghost use Rattle.asg_order.specs.Monoid.{IsValue};
ghost use Rattle.asg_square.specs.Grid.{cell_at};
ghost use Rattle.asg_verdicts.specs.Verdicts.{Tells, phase_reasons};
ghost use Rattle.asg_verdicts.specs.Replays.{StandsFrom};

use crate::known_indices::KnowsIndex;
use crate::{NoMemory, Reason, Verdict};
use asg_admit::Reduced;
use asg_kept::{Keeps, KeptSquare, RowSquare};
use asg_order::Ordered;
use asg_proof::WrittenPhase;
use asg_replays::first_bad;
use std::alloc::Global;

// The verdict on phases that are to be admitted in turn from the square, of which no step was taken
// yet, and to have the value as their index: by few looks at the cells for all of them, and where
// these don't tell it phase by phase. The error is want of memory.
pub(crate) fn square_verdict<M: KnowsIndex>(
    alloc: Global,
    m: &M,
    start: Reduced<M::Value>,
    phases: &[WrittenPhase],
    value: M::Value,
) -> Result<Verdict, NoMemory>
    requires reduced { IsReduced (M.monoid_of m.now) start }
    requires unit { start.index ≡ (M.monoid_of m.now).unit }
    requires value { IsValue (M.monoid_of m.now) value }
    ensures { IfOk result (Tells (StandsFrom (M.monoid_of m.now) (M.difference m.now)
        (M.word_of m.now) start.now.side (cell_at start.now) value phases.now) phase_reasons) }
{
    match m.known_index(alloc, &start.now, phases)? {
        Some(index) => Ok(index_verdict(m, index, value)),
        None => replays_verdict(alloc, m, start, phases, value),
    }
}

// The same phase by phase.
fn replays_verdict<M: Keeps>(
    alloc: Global,
    m: &M,
    start: Reduced<M::Value>,
    phases: &[WrittenPhase],
    value: M::Value,
) -> Result<Verdict, NoMemory>
    requires reduced { IsReduced (M.monoid_of m.now) start }
    requires unit { start.index ≡ (M.monoid_of m.now).unit }
    requires value { IsValue (M.monoid_of m.now) value }
    ensures { IfOk result (Tells (StandsFrom (M.monoid_of m.now) (M.difference m.now)
        (M.word_of m.now) start.now.side (cell_at start.now) value phases.now) phase_reasons) }
{
    let mut square = m.keep(alloc, start)?;
    match first_bad(alloc, m, &mut square, phases)? {
        Some(place) => Ok(Reason::BadPhase.verdict_at_part(place)),
        None => Ok(index_verdict(m, square.index(), value)),
    }
}

// The verdict on an index that is to be the value.
pub(crate) fn index_verdict<M: Ordered>(m: &M, index: M::Value, value: M::Value) -> Verdict
    requires index { IsValue (M.monoid_of m.now) index }
    requires value { IsValue (M.monoid_of m.now) value }
    ensures { ((index ≡ value) × (result ≡ Verdict.Yes))
        ⊎ ((index ≢ value) × (result ≡ Verdict.No 7 (pos 0))) }
{
    if is_same(m, index, value) {
        Verdict::Yes
    } else {
        Reason::IndexDiffers.verdict()
    }
}

// Whether two values are the same.
fn is_same<M: Ordered>(m: &M, x: M::Value, y: M::Value) -> bool
    requires left { IsValue (M.monoid_of m.now) x }
    requires right { IsValue (M.monoid_of m.now) y }
    ensures { IsTrue result ↔ (x ≡ y) }
{
    m.le(x, y) && m.le(y, x)
}
