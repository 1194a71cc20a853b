//! Where windows leave a gap: the least cost of a live cell from which none holds enough costs.
//!
//! The costs of the live cells are sorted, and where the windows don't begin in order they too, and
//! one pass over both finds it.

ghost use Rattle.std.specs.Prelude.{◌≡◌, ◌↔◌, ◌<◌, ◌≤◌, ◌*◌, ◌++◌, ℕ, ℤ, pos, ◌≤ℤ◌, ◌<ℤ◌};
ghost use Rattle.std.specs.Prelude.{length, map, option_to_list, slice_get, slice_index_or};
ghost use Rattle.std.specs.Prelude.{IfOk, IsTrue};
ghost use Rattle.asg_model.specs.Limits.{most_cost};
ghost use Rattle.asg_check.specs.Spans.{AreCostsUp, AreSpansUp, AreWindowsUp, IsFirstOutside};
ghost use Rattle.asg_check.specs.Spans.{span_of};
ghost use Rattle.asg_check.specs.Spans.{live_part, live_parts, row_parts};
ghost use Rattle.asg_check.specs.WindowReasons.{IsLeastGap};

use crate::NoMemory;
use asg_model::Instance;
use asg_proof::Window;
use std::alloc::Global;

// The costs from `lo` to `last`.
#[derive(Clone, Copy)]
pub(crate) struct Span {
    lo: i64,
    last: i128,
}

// Adds the first part of the cost of a cell where it is live. The error is want of memory.
fn push_live(inst: &Instance, row: u32, column: u32, costs: &mut Vec<i64>) -> Result<(), NoMemory>
    ensures { IfOk result (λ _. costs.new.items
        ≡ costs.old.items ++ option_to_list (live_part inst.now row column)) }
{
    if let Some(cost) = inst.live(row, column) {
        costs.push(cost.a)?;
    }
    Ok(())
}

// Adds those of a row. The error is want of memory.
fn push_row(inst: &Instance, row: u32, costs: &mut Vec<i64>) -> Result<(), NoMemory>
    ensures { IfOk result (λ _. costs.new.items
        ≡ costs.old.items ++ row_parts inst.now row (length inst.now.columns)) }
{
    for column in 0..inst.columns().len() as u32 {
        push_live(inst, row, column, costs)?;
    }
    Ok(())
}

// The first parts of the costs of all live cells. The error is want of memory.
fn live_costs(alloc: Global, inst: &Instance) -> Result<Vec<i64>, NoMemory>
    ensures { IfOk result (λ costs. costs.items
        ≡ live_parts inst.now (length inst.now.rows)) }
{
    let mut costs = Vec::new(alloc);
    for row in 0..inst.rows().len() as u32 {
        push_row(inst, row, &mut costs)?;
    }
    Ok(costs)
}

// Where the span begins.
fn beginning(span: &Span) -> i64
    ensures { result ≡ span.now.lo }
{
    span.lo
}

// The costs from which a window holds as many costs as the spread.
fn span_of(spread: i128, window: &Window) -> Span
    requires some { pos 0 ≤ℤ spread }
    requires few { spread ≤ℤ pos (2 * most_cost) }
    ensures { result ≡ span_of spread window.now }
{
    Span {
        lo: window.lo,
        last: i128::from(window.hi) - spread + 1,
    }
}

// The same of each window. The error is want of memory.
fn spans_of(alloc: Global, spread: i128, windows: &[Window]) -> Result<Vec<Span>, NoMemory>
    requires some { pos 0 ≤ℤ spread }
    requires few { spread ≤ℤ pos (2 * most_cost) }
    ensures { IfOk result (λ spans. spans.items ≡ map (span_of spread) windows.now) }
{
    let mut spans = Vec::with_capacity(alloc, windows.len())?;
    'windows: for window in windows {
        spans.push(span_of(spread, window))?;
    }
    Ok(spans)
}

// Whether there is a cost at the place, and the span begins above it.
fn is_below(costs: &[i64], place: usize, span: &Span) -> bool
    ensures { (d : ℤ) → IsTrue result ↔
        ((place < length costs.now) × (slice_index_or costs.now place d <ℤ span.now.lo)) }
{
    place < costs.len() && costs[place] < span.lo
}

// The first place from one on at which there is no cost or one above the last of the span.
fn past(costs: &[i64], place: usize, span: &Span) -> usize
    requires { place ≤ length costs.now }
    ensures from { place ≤ result }
    ensures within { result ≤ length costs.now }
    ensures before { (k : ℕ) (d : ℤ) → place ≤ k → k < result →
        slice_index_or costs.now k d ≤ℤ span.now.last }
    ensures there { (d : ℤ) → result < length costs.now →
        span.now.last <ℤ slice_index_or costs.now result d }
{
    for at in place..costs.len() {
        if i128::from(costs[at]) > span.last {
            return at;
        }
    }
    costs.len()
}

// The cost at the place, if there is one.
fn cost_at(costs: &[i64], place: usize) -> Option<i64>
    ensures { result ≡ slice_get costs.now place }
{
    costs.get(place).copied()
}

// The first of sorted costs that none of the sorted spans has.
fn first_outside(costs: &[i64], spans: &[Span]) -> Option<i64>
    requires costs { AreCostsUp costs.now }
    requires spans { AreSpansUp spans.now }
    ensures { IsFirstOutside costs.now spans.now result }
{
    let mut place = 0;
    'spans: for span in spans {
        if is_below(costs, place, span) {
            return cost_at(costs, place);
        }
        place = past(costs, place, span);
    }
    cost_at(costs, place)
}

// The first of sorted costs from which no window holds as many costs as the spread, where the
// windows begin in order.
fn first_in_order(costs: &[i64], spread: i128, windows: &[Window]) -> Option<i64>
    requires costs { AreCostsUp costs.now }
    requires windows { AreWindowsUp windows.now }
    requires some { pos 0 ≤ℤ spread }
    requires few { spread ≤ℤ pos (2 * most_cost) }
    ensures { IsFirstOutside costs.now (map (span_of spread) windows.now) result }
{
    let mut place = 0;
    'windows: for window in windows {
        let span = span_of(spread, window);
        if is_below(costs, place, &span) {
            return cost_at(costs, place);
        }
        place = past(costs, place, &span);
    }
    cost_at(costs, place)
}

// Whether a window begins below another one.
fn begins_below(window: &Window, other: &Window) -> bool
    ensures { IsTrue result ↔ (window.now.lo <ℤ other.now.lo) }
{
    window.lo < other.lo
}

// Whether no window begins above a later one.
fn are_up(windows: &[Window]) -> bool
    ensures { IsTrue result → AreWindowsUp windows.now }
{
    for place in 1..windows.len() {
        if begins_below(&windows[place], &windows[place - 1]) {
            return false;
        }
    }
    true
}

// The same of windows in any order; where they begin in order it takes no memory. The error is want
// of memory.
fn first_unheld(
    alloc: Global,
    costs: &[i64],
    spread: i128,
    windows: &[Window],
) -> Result<Option<i64>, NoMemory>
    requires costs { AreCostsUp costs.now }
    requires some { pos 0 ≤ℤ spread }
    requires few { spread ≤ℤ pos (2 * most_cost) }
    ensures { IfOk result (IsFirstOutside costs.now (map (span_of spread) windows.now)) }
{
    if are_up(windows) {
        return Ok(first_in_order(costs, spread, windows));
    }
    let mut spans = spans_of(alloc, spread, windows)?;
    spans.sort_unstable_by_key(beginning);
    Ok(first_outside(costs, spans.as_slice()))
}

// The least cost of a live cell from which no window holds as many costs as the spread. The error
// is want of memory.
pub(crate) fn first_gap(
    alloc: Global,
    inst: &Instance,
    spread: i128,
    windows: &[Window],
) -> Result<Option<i64>, NoMemory>
    requires some { pos 0 ≤ℤ spread }
    requires few { spread ≤ℤ pos (2 * most_cost) }
    ensures { IfOk result (IsLeastGap inst.now spread windows.now) }
{
    let mut costs = live_costs(alloc, inst)?;
    costs.sort_unstable();
    let found = first_unheld(alloc, costs.as_slice(), spread, windows)?;
    Ok(found)
}
