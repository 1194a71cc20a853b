//! Stretches of costs that lie in the same windows.

ghost use Rattle.std.specs.Prelude.{◌≡◌, ◌↔◌, ◌<◌, ◌≤◌, ◌*◌, ◌+◌, ◌-◌, ◌≤ℤ◌, ◌<ℤ◌, ◌+ℤ◌, ◌-ℤ◌, pos, ℕ, All, IfOk, IsTrue, length, slice_index_or};
ghost use Rattle.asg_model.specs.Limits.{most_cost};
ghost use Rattle.asg_hall_windows.specs.Ascending.{AreAscending};
ghost use Rattle.asg_hall_windows.specs.Limits.{most_windows};
ghost use Rattle.asg_hall_windows.specs.Stretches.{IsStretch, IsHeldBy, EndsBefore, BeginsAfter, HasWords};

use crate::NoMemory;
use crate::spans::Span;
use asg_proof::Window;
use std::alloc::Global;

/// Costs from one to another, both included, which no windows hold but those from one place on and
/// before another, of which the last holds as many costs as the spread from each of them on; and the
/// words that hold these windows.
#[derive(Clone, Copy)]
pub(crate) struct Stretch {
    pub(crate) least: i64,
    pub(crate) most: i64,
    pub(crate) from: u32,
    pub(crate) to: u32,
    pub(crate) span: Span,
}

// Whether the window holds as many costs as the spread from each cost of the stretch on.
fn is_held_by(window: &Window, spread: i128, stretch: &Stretch) -> bool
    requires some { pos 0 <ℤ spread }
    requires few { spread ≤ℤ pos (2 * most_cost) }
    ensures { IsTrue result → IsHeldBy spread stretch.now window.now }
{
    window.lo <= stretch.least && i128::from(stretch.most) + spread - 1 <= i128::from(window.hi)
}

// Whether the window at the place, if there is one, begins above all costs of the stretch.
fn begins_after(windows: &[Window], place: usize, stretch: &Stretch) -> bool
    ensures { IsTrue result → BeginsAfter windows.now place stretch.now }
{
    place >= windows.len() || stretch.most < windows[place].lo
}

// Whether the window before the place, if there is one, ends below all costs of the stretch.
fn ends_before(windows: &[Window], place: usize, stretch: &Stretch) -> bool
    requires { place < length windows.now }
    ensures { IsTrue result → EndsBefore windows.now place stretch.now }
{
    place == 0 || windows[place - 1].hi < stretch.least
}

// Whether this is a stretch of the windows.
fn is_stretch(windows: &[Window], spread: i128, stretch: &Stretch) -> bool
    requires ascending { AreAscending windows.now }
    requires words { HasWords stretch.now.span stretch.now.from stretch.now.to }
    requires some { pos 0 <ℤ spread }
    requires few { spread ≤ℤ pos (2 * most_cost) }
    ensures { IsTrue result → IsStretch windows.now spread stretch.now }
{
    let from = stretch.from as usize;
    let to = stretch.to as usize;
    if from >= to || to > windows.len() {
        return false;
    }
    if !is_held_by(&windows[to - 1], spread, stretch) {
        return false;
    }
    if !begins_after(windows, to, stretch) {
        return false;
    }
    ends_before(windows, from, stretch)
}

// Adds the stretch, if it has a cost and is one of the windows.
fn add_stretch(
    windows: &[Window],
    spread: i128,
    stretches: &mut Vec<Stretch>,
    stretch: Stretch,
) -> Result<(), NoMemory>
    requires ascending { AreAscending windows.now }
    requires some { pos 0 <ℤ spread }
    requires few { spread ≤ℤ pos (2 * most_cost) }
    requires words { HasWords stretch.span stretch.from stretch.to }
    requires before { All (IsStretch windows.now spread) stretches.old.items }
    ensures { IfOk result (λ _. All (IsStretch windows.now spread) stretches.new.items) }
{
    if stretch.least <= stretch.most && is_stretch(windows, spread, &stretch) {
        stretches.push(stretch)?;
    }
    Ok(())
}

// The last cost that is held by the window at the place and by no later one.
fn last_held(windows: &[Window], spread: i128, place: usize) -> i64
    requires { place < length windows.now }
{
    let apart = i64::try_from(spread).unwrap_or(i64::MAX);
    let held = windows[place].hi.saturating_sub(apart).saturating_add(1);
    match windows.get(place + 1) {
        Some(next) => held.min(next.lo.saturating_sub(1)),
        None => held,
    }
}

// Adds the stretches of the costs that are held by the window at a place and by no later one. The
// windows before the first end below these costs; so do those before the answer, and below the
// costs of later windows. The error is want of memory.
fn add_held(
    windows: &[Window],
    spread: i128,
    stretches: &mut Vec<Stretch>,
    first: usize,
    place: usize,
) -> Result<usize, NoMemory>
    requires ascending { AreAscending windows.now }
    requires some { pos 0 <ℤ spread }
    requires few { spread ≤ℤ pos (2 * most_cost) }
    requires within { place < length windows.now }
    requires few_windows { length windows.now ≤ most_windows }
    requires before { All (IsStretch windows.now spread) stretches.old.items }
    ensures { IfOk result (λ _. All (IsStretch windows.now spread) stretches.new.items) }
{
    let last = last_held(windows, spread, place);
    let mut least = windows[place].lo;
    let mut from = first;
    'windows: while from <= place && least <= last {
        let most = last.min(windows[from].hi);
        let to = place as u32 + 1;
        let stretch = Stretch {
            least,
            most,
            from: from as u32,
            to,
            span: Span::of(from as u32, to),
        };
        add_stretch(windows, spread, stretches, stretch)?;
        if windows[from].hi > last {
            return Ok(from);
        }
        least = least.max(most.saturating_add(1));
        from += 1;
    }
    Ok(from)
}

// The stretches of windows, in order. The error is want of memory.
pub(crate) fn stretches_of(
    alloc: Global,
    spread: i128,
    windows: &[Window],
) -> Result<Vec<Stretch>, NoMemory>
    requires ascending { AreAscending windows.now }
    requires some { pos 0 <ℤ spread }
    requires few { spread ≤ℤ pos (2 * most_cost) }
    requires few_windows { length windows.now ≤ most_windows }
    ensures { IfOk result (λ v. All (IsStretch windows.now spread) v.items) }
{
    let mut stretches = Vec::new(alloc);
    let mut from = 0;
    for place in 0..windows.len() {
        from = add_held(windows, spread, &mut stretches, from, place)?;
    }
    Ok(stretches)
}
