//! Phases, replayed on the square of an instance.

ghost use Rattle.std.specs.Prelude.{◌≡◌, ◌≢◌, ◌-◌, ◌<◌, ◌≤◌, ◌^◌, false, None, List, length};
ghost use Rattle.std.specs.Prelude.{All, IsTrue, IfOk, IfSome, map};
ghost use Rattle.asg_admit.specs.Reduced.{IsReduced};
ghost use Rattle.asg_order.specs.Monoid.{IsValue};
ghost use Rattle.asg_proof.specs.Phases.{phase_of};
ghost use Rattle.asg_square.specs.Grid.{cell_at};
ghost use Rattle.asg_replays.specs.PhaseParts.{counted_from, first_part, part_of, steps_between};
ghost use Rattle.asg_replays.specs.Replays.{AreReplayed, IsAdmittedFrom, IsFirstBad, IsReplayed};

use crate::NoMemory;
use asg_kept::KeptSquare;
use asg_order::{Ordered, Written};
use asg_proof::{Steps, WrittenPhase};
use std::alloc::Global;

/// Reads the values that have the words, in order, into the list in place of what it had, and tells
/// whether each word has one. The error is want of memory.
pub fn read_steps<M: Written>(
    m: &M,
    words: Steps<'_>,
    values: &mut Vec<M::Value>,
) -> Result<bool, NoMemory>
    ensures words { IfOk result (λ is. IsTrue is
        → map (M.word_of m.now) values.new.items ≡ words.entry) }
    ensures values { IfOk result (λ is. IsTrue is
        → All (IsValue (M.monoid_of m.now)) values.new.items) }
    ensures none { IfOk result (λ is. is ≡ false → (others : List M.Value) →
        All (IsValue (M.monoid_of m.now)) others → map (M.word_of m.now) others ≢ words.entry) }
{
    read_between(m, &words, 0, words.len(), values)
}

// Reads those of the words from one place up to and without another. The error is want of memory.
fn read_between<M: Written>(
    m: &M,
    words: &Steps<'_>,
    from: usize,
    to: usize,
    values: &mut Vec<M::Value>,
) -> Result<bool, NoMemory>
    requires order { from ≤ to }
    requires within { to ≤ length words.now }
    ensures words { IfOk result (λ is. IsTrue is
        → map (M.word_of m.now) values.new.items ≡ steps_between from to words.now) }
    ensures values { IfOk result (λ is. IsTrue is
        → All (IsValue (M.monoid_of m.now)) values.new.items) }
    ensures none { IfOk result (λ is. is ≡ false → (others : List M.Value) →
        All (IsValue (M.monoid_of m.now)) others
        → map (M.word_of m.now) others ≢ steps_between from to words.now) }
{
    values.clear();
    for place in from..to {
        let Some(value) = m.from_word(words.get(place)) else {
            return Ok(false);
        };
        values.push(value)?;
    }
    Ok(true)
}

/// Lets the list have more places than the count. The error is want of memory.
pub fn make_room<M: Ordered>(m: &M, room: &mut Vec<M::Value>, count: usize) -> Result<(), NoMemory>
    requires { count < 2 ^ 63 }
    ensures { IfOk result (λ _. count < length room.new.items) }
{
    if room.len() > count {
        return Ok(());
    }
    room.resize(count + 1, m.unit())
}

// How many steps of a phase are replayed at a time on a square of this side: more than phases need,
// and so many that the time is that of the steps and of the cells.
fn most_steps(side: u32) -> usize
    ensures { 0 < result }
{
    (1 << 14) + (side as usize).saturating_mul(side as usize) / 4
}

/// Whether some phase has more steps than are replayed at a time on a square of this side.
pub fn has_long(phases: &[WrittenPhase], side: u32) -> bool {
    let most = most_steps(side);
    phases.iter().any(|phase| phase.steps().len() > most)
}

// The place of so many steps after a place, or that of the end.
fn end_of(from: usize, most: usize, count: usize) -> usize
    requires from { from ≤ count }
    ensures order { from ≤ result }
    ensures within { result ≤ count }
    ensures more { 0 < most → from < count → from < result }
{
    from + most.min(count - from)
}

// The mark, where steps are counted from a place on.
fn counted(mark: u32, from: usize) -> u32
    ensures { result ≡ mark - from }
{
    (mark as usize).saturating_sub(from) as u32
}

// The marks, where steps are counted from a place on. The error is want of memory.
fn marks_from(alloc: Global, marks: &[u32], from: usize) -> Result<Vec<u32>, NoMemory>
    ensures { IfOk result (λ later. later.items ≡ counted_from from marks.now) }
{
    let mut later = Vec::with_capacity(alloc, marks.len())?;
    for place in 0..marks.len() {
        later.push(counted(marks[place], from))?;
    }
    Ok(later)
}

// Applies the phase of the words from one place up to and without another, and of these marks,
// where it is admitted, and tells whether it is; where it isn't, the square means nothing more. The
// steps are read into the list of values, which keeps its room, as the other list does. The error
// is want of memory.
fn replay_between<M: Written, S: KeptSquare<M>>(
    m: &M,
    square: &mut S,
    values: &mut Vec<M::Value>,
    room: &mut Vec<M::Value>,
    words: &Steps<'_>,
    from: usize,
    to: usize,
    enters: &[u32],
    leaves: &[u32],
) -> Result<bool, NoMemory>
    requires reduced { IsReduced (M.monoid_of m.now) (S.as_reduced square.old) }
    requires order { from ≤ to }
    requires within { to ≤ length words.now }
    ensures applied { let part = phase_of (steps_between from to words.now) enters.now leaves.now in
        IfOk result (λ is. IsTrue is → IsReplayed (M.monoid_of m.now)
        (M.difference m.now) (M.word_of m.now) part (S.as_reduced square.old)
        (S.as_reduced square.new)) }
    ensures refused { let part = phase_of (steps_between from to words.now) enters.now leaves.now in
        IfOk result (λ is. is ≡ false → ¬ IsAdmittedFrom (M.monoid_of m.now)
        (M.difference m.now) (M.word_of m.now) (S.as_reduced square.old).now.side
        (cell_at (S.as_reduced square.old).now) part) }
{
    if !read_between(m, words, from, to, values)? {
        return Ok(false);
    }
    make_room(m, room, values.len())?;
    Ok(square.replay(m, values.as_slice(), enters, leaves, room.as_mut_slice()))
}

// The same of the first so many steps of a phase.
fn replay_first<M: Written, S: KeptSquare<M>>(
    m: &M,
    square: &mut S,
    values: &mut Vec<M::Value>,
    room: &mut Vec<M::Value>,
    phase: &WrittenPhase,
    to: usize,
) -> Result<bool, NoMemory>
    requires reduced { IsReduced (M.monoid_of m.now) (S.as_reduced square.old) }
    requires within { to ≤ length phase.now.steps }
    ensures applied { IfOk result (λ is. IsTrue is → IsReplayed (M.monoid_of m.now)
        (M.difference m.now) (M.word_of m.now) (first_part to phase.now) (S.as_reduced square.old)
        (S.as_reduced square.new)) }
    ensures refused { IfOk result (λ is. is ≡ false → ¬ IsAdmittedFrom (M.monoid_of m.now)
        (M.difference m.now) (M.word_of m.now) (S.as_reduced square.old).now.side
        (cell_at (S.as_reduced square.old).now) (first_part to phase.now)) }
{
    replay_between(
        m,
        square,
        values,
        room,
        &phase.steps(),
        0,
        to,
        phase.enters(),
        phase.leaves(),
    )
}

// The same of the steps of a phase from one place up to and without another.
fn replay_part<M: Written, S: KeptSquare<M>>(
    alloc: Global,
    m: &M,
    square: &mut S,
    values: &mut Vec<M::Value>,
    room: &mut Vec<M::Value>,
    phase: &WrittenPhase,
    from: usize,
    to: usize,
) -> Result<bool, NoMemory>
    requires reduced { IsReduced (M.monoid_of m.now) (S.as_reduced square.old) }
    requires order { from ≤ to }
    requires within { to ≤ length phase.now.steps }
    ensures applied { IfOk result (λ is. IsTrue is → IsReplayed (M.monoid_of m.now)
        (M.difference m.now) (M.word_of m.now) (part_of from to phase.now)
        (S.as_reduced square.old) (S.as_reduced square.new)) }
    ensures refused { IfOk result (λ is. is ≡ false → ¬ IsAdmittedFrom (M.monoid_of m.now)
        (M.difference m.now) (M.word_of m.now) (S.as_reduced square.old).now.side
        (cell_at (S.as_reduced square.old).now) (part_of from to phase.now)) }
{
    let enters = marks_from(alloc, phase.enters(), from)?;
    let leaves = marks_from(alloc, phase.leaves(), from)?;
    replay_between(
        m,
        square,
        values,
        room,
        &phase.steps(),
        from,
        to,
        enters.as_slice(),
        leaves.as_slice(),
    )
}

// Applies a phase where it is admitted, and tells whether it is; where it isn't, the square means
// nothing more. A long one is applied by parts, so that its values never stand in memory all at
// once. The error is want of memory.
fn replay_words<M: Written, S: KeptSquare<M>>(
    alloc: Global,
    m: &M,
    square: &mut S,
    values: &mut Vec<M::Value>,
    room: &mut Vec<M::Value>,
    phase: &WrittenPhase,
) -> Result<bool, NoMemory>
    requires { IsReduced (M.monoid_of m.now) (S.as_reduced square.old) }
    ensures applied { IfOk result (λ is. IsTrue is → IsReplayed (M.monoid_of m.now)
        (M.difference m.now) (M.word_of m.now) phase.now (S.as_reduced square.old)
        (S.as_reduced square.new)) }
    ensures refused { IfOk result (λ is. is ≡ false → ¬ IsAdmittedFrom (M.monoid_of m.now)
        (M.difference m.now) (M.word_of m.now) (S.as_reduced square.old).now.side
        (cell_at (S.as_reduced square.old).now) phase.now) }
{
    let count = phase.steps().len();
    let most = most_steps(square.side());
    let mut to = end_of(0, most, count);
    if !replay_first(m, square, values, room, phase, to)? {
        return Ok(false);
    }
    'parts: while to < count {
        let end = end_of(to, most, count);
        if !replay_part(alloc, m, square, values, room, phase, to, end)? {
            return Ok(false);
        }
        to = end;
    }
    Ok(true)
}

/// Applies phases in turn, up to the first that isn't admitted after those before it, and gives its
/// place. Where all are admitted there is none. The error is want of memory.
pub fn first_bad<M: Written, S: KeptSquare<M>>(
    alloc: Global,
    m: &M,
    square: &mut S,
    phases: &[WrittenPhase],
) -> Result<Option<usize>, NoMemory>
    requires { IsReduced (M.monoid_of m.now) (S.as_reduced square.old) }
    ensures place { IfOk result (λ found. IfSome found (λ place. place < length phases.now)) }
    ensures bad { IfOk result (λ found. IfSome found (IsFirstBad (M.monoid_of m.now)
        (M.difference m.now) (M.word_of m.now) (S.as_reduced square.old).now.side
        (cell_at (S.as_reduced square.old).now) phases.now)) }
    ensures none { IfOk result (λ found. found ≡ None → AreReplayed (M.monoid_of m.now)
        (M.difference m.now) (M.word_of m.now) phases.now (S.as_reduced square.old)
        (S.as_reduced square.new)) }
{
    let mut values = Vec::new(alloc);
    let mut room = Vec::new(alloc);
    for place in 0..phases.len() {
        if !replay_words(alloc, m, square, &mut values, &mut room, &phases[place])? {
            return Ok(Some(place));
        }
    }
    Ok(None)
}
