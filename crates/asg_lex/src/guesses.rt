//! A start at a limit near the least one: guessed, and then tested.

ghost use Rattle.std.specs.Prelude.{◌≡◌, ◌<◌, ◌≤◌, IfOk, IfSome, IsTrue, length};
ghost use Rattle.asg_match.specs.Matching.{IsPerfect};
ghost use Rattle.asg_model.specs.Limits.{most_side};
ghost use Rattle.asg_live_cells.specs.Marks.{IsMarked};
ghost use Rattle.asg_live_cells.specs.UnderWords.{MarksUnder};
ghost use Rattle.asg_lex.specs.Guesses.{IsOver};
ghost use Rattle.asg_lex.specs.Starts.{IsStart};

use crate::NoMemory;
use crate::starts::{Start, mark_under, no_marks};
use asg_live_cells::Marks;
use asg_match::{Matching, Tree, complete, prune};
use asg_square::Square;
use std::alloc::Global;

/// What is kept from limit to limit: the marks of the cells under the last one, a matching by them,
/// and the memory of trees.
#[derive(Drop)]
pub(crate) struct Search {
    pub(crate) marks: Marks,
    pub(crate) matching: Matching,
    pub(crate) tree: Tree,
}

// A search over a square of this side. The error is want of memory.
fn new_search(alloc: Global, side: u32) -> Result<Search, NoMemory>
    requires { side ≤ most_side }
    ensures { IfOk result (IsOver side) }
{
    Ok(Search {
        marks: no_marks(alloc, side)?,
        matching: Matching::make(alloc, side)?,
        tree: Tree::make(alloc, side)?,
    })
}

// Whether there is a perfect matching by the cells under a limit, which the search has then. It
// begins with the matching of the limit before.
fn is_served(search: &mut Search, square: &Square<u32>, limit: u32) -> bool
    requires over { IsOver square.now.side search.old }
    requires few { square.now.side ≤ most_side }
    ensures over { IsOver square.now.side search.new }
    ensures cells { MarksUnder square.now limit search.new.marks.bits }
    ensures perfect { IsTrue result → IsPerfect (IsMarked search.new.marks.bits
        search.new.marks.side) square.now.side search.new.matching }
{
    mark_under(&mut search.marks, square, limit);
    prune(&search.marks, &mut search.matching);
    complete(&search.marks, &mut search.matching, &mut search.tree)
}

// The start that a search came to at a limit.
fn into_start(search: Search, limit: u32) -> Start
    ensures limit { result.limit ≡ limit }
    ensures marks { result.marks ≡ search.marks }
    ensures matching { result.matching ≡ search.matching }
{
    let Search {
        marks,
        matching,
        tree,
    } = search;
    drop(tree);
    Start {
        limit,
        marks,
        matching,
    }
}

// The start at a limit, if there is one.
fn tested(search: Search, square: &Square<u32>, limit: u32) -> Option<Start>
    requires over { IsOver square.now.side search }
    requires few { square.now.side ≤ most_side }
    ensures { IfSome result (IsStart square.now) }
{
    let mut search = search;
    if limit > 0 && is_served(&mut search, square, limit) {
        return Some(into_start(search, limit));
    }
    None
}

// The least of some grades.
fn least_of(grades: &[u32]) -> u32 {
    let mut least = u32::MAX;
    for grade in grades {
        least = least.min(*grade);
    }
    least
}

// The greatest of some grades.
fn greatest_of(grades: &[u32]) -> u32 {
    let mut greatest = 0;
    for grade in grades {
        greatest = greatest.max(*grade);
    }
    greatest
}

// The least of some grades that isn't 0.
fn least_live(grades: &[u32]) -> u32 {
    let mut least = u32::MAX;
    for grade in grades {
        let live = if *grade > 0 { *grade } else { u32::MAX };
        least = least.min(live);
    }
    least
}

// Lowers each grade of a list to that of another list.
fn lower(leasts: &mut [u32], grades: &[u32])
    requires { length leasts.old ≡ length grades.now }
    ensures { length leasts.new ≡ length leasts.old }
{
    for k in 0..leasts.len() {
        leasts[k] = leasts[k].min(grades[k]);
    }
}

// The greatest of the least grades of all rows and all columns; where that is 0, the least grade
// that isn't. The error is want of memory.
fn first_bound(alloc: Global, square: &Square<u32>) -> Result<u32, NoMemory> {
    let side = square.side();
    let mut leasts = vec![in alloc; u32::MAX; side as usize]?;
    let mut bound = 0;
    for row in 0..side {
        let grades = square.row_values(row);
        bound = bound.max(least_of(grades));
        lower(leasts.as_mut_slice(), grades);
    }
    bound = bound.max(greatest_of(leasts.as_slice()));
    if bound > 0 {
        return Ok(bound);
    }
    Ok(least_live(square.values()))
}

// How far a search has come: whether it is at an end, a limit under which no perfect matching was
// found, the least one under which one was, 0 for none, and how far up the next step goes.
#[derive(Clone, Copy)]
struct Bounds {
    is_done: bool,
    low: u32,
    high: u32,
    step: u32,
}

// The limit to be tried next.
fn middle(bounds: Bounds) -> u32 {
    if bounds.high == 0 {
        return bounds.low.saturating_add(bounds.step);
    }
    bounds
        .low
        .saturating_add(bounds.high.saturating_sub(bounds.low) / 2)
}

// The grade of the cell that a row is matched with, 0 where it has none.
fn matched_grade(square: &Square<u32>, matching: &Matching, row: u32) -> u32
    requires side { length matching.now ≡ square.now.side }
    requires row_below { row < square.now.side }
{
    match matching.column_of(row) {
        Some(column) => square.at(row, column).unwrap_or(0),
        None => 0,
    }
}

// How many matched cells above a grade are few.
const FEW: u32 = 8;

// The bounds where a perfect matching was found under a limit: one past its greatest grade serves.
fn lowered(square: &Square<u32>, matching: &Matching, bounds: Bounds) -> Bounds
    requires { length matching.now ≡ square.now.side }
{
    let mut greatest = 0;
    let mut above = 0;
    for row in 0..square.side() {
        let grade = matched_grade(square, matching, row);
        greatest = greatest.max(grade);
        above += u32::from(grade >= bounds.low);
    }
    Bounds {
        is_done: above <= FEW,
        high: greatest.saturating_add(1),
        ..bounds
    }
}

// The bounds where none was found under a limit, by the greatest grade of all.
fn raised(bounds: Bounds, limit: u32, top: u32) -> Bounds {
    Bounds {
        is_done: limit > top,
        low: limit,
        step: bounds
            .step
            .saturating_mul(2)
            .max(top.saturating_sub(limit) / 64),
        ..bounds
    }
}

// The bounds after one more limit was tried.
fn next_bounds(search: &mut Search, square: &Square<u32>, bounds: Bounds, top: u32) -> Bounds
    requires over { IsOver square.now.side search.old }
    requires few { square.now.side ≤ most_side }
    ensures over { IsOver square.now.side search.new }
{
    let limit = middle(bounds);
    if is_served(search, square, limit) {
        lowered(square, &search.matching, bounds)
    } else {
        raised(bounds, limit, top)
    }
}

// A limit under which a perfect matching was found, near the least one, 0 for none. Limits are
// tried first up by steps that double, then half-way between the bounds, until few matched cells
// have grades that may be too great.
fn near_limit(search: &mut Search, square: &Square<u32>, bound: u32) -> u32
    requires over { IsOver square.now.side search.old }
    requires few { square.now.side ≤ most_side }
    ensures over { IsOver square.now.side search.new }
{
    let top = greatest_of(square.values());
    let mut bounds = raised(
        Bounds {
            is_done: false,
            low: bound,
            high: 0,
            step: 0,
        },
        bound,
        top,
    );
    for _ in 0..128 {
        if bounds.is_done {
            return bounds.high;
        }
        bounds = next_bounds(search, square, bounds, top);
    }
    bounds.high
}

/// A start at a limit that is the least one or near it, if one is found: often the greatest of the
/// least grades of all rows and columns is the least limit. The error is want of memory.
pub(crate) fn guessed_start(alloc: Global, square: &Square<u32>) -> Result<Option<Start>, NoMemory>
    requires { square.now.side ≤ most_side }
    ensures { IfOk result (λ start. IfSome start (IsStart square.now)) }
{
    let bound = first_bound(alloc, square)?.saturating_add(1);
    let mut search = new_search(alloc, square.side())?;
    if is_served(&mut search, square, bound) {
        return Ok(Some(into_start(search, bound)));
    }
    let limit = near_limit(&mut search, square, bound);
    Ok(tested(search, square, limit))
}
