//! The least spread of an assignment, with the gaps that show it.

ghost use Rattle.std.specs.Prelude.{◌≡◌, ℕ, ◌+◌, ◌<◌, ◌≤◌, IfOk};
ghost use Rattle.std.specs.Bool.{OnTrue, OnFalse};
ghost use Rattle.asg_match.specs.Deficient.{IsDeficient};
ghost use Rattle.asg_window.specs.Assignments.{IsAssignmentWithin, IsSpread};
ghost use Rattle.asg_window.specs.Ascents.{IsAscent, AddsGap};
ghost use Rattle.asg_window.specs.Bands.{IsWithin};
ghost use Rattle.asg_window.specs.Gaps.{IsSwept};
ghost use Rattle.asg_window.specs.Grades.{no_bound};
ghost use Rattle.asg_live_cells.specs.LiveCells.{AreEntries};
ghost use Rattle.asg_window.specs.Seekers.{IsSeeker};

use crate::NoMemory;
use crate::grades::NO_BOUND;
use crate::seeker::Seeker;
use crate::spreads::spread_of;
use asg_live_cells::LiveCells;
use std::alloc::Global;

/// A band of grades, from one on and below another, and rows that are deficient under it.
#[derive(Drop)]
pub(crate) struct Gap {
    pub(crate) low: u32,
    pub(crate) high: u32,
    pub(crate) rows: Vec<u32>,
}

/// How far a sweep has come: the least spread so far, the lower end of the band, and the gaps below
/// it.
#[derive(Drop)]
pub(crate) struct Ascent {
    pub(crate) spread: u32,
    pub(crate) low: u32,
    pub(crate) gaps: Vec<Gap>,
}

/// An assignment of the least spread, and gaps that show it.
#[derive(Drop)]
pub(crate) struct Least {
    pub(crate) spread: u32,
    pub(crate) perm: Vec<u32>,
    pub(crate) gaps: Vec<Gap>,
}

/// What a sweep finds: an assignment of the least spread, or rows that are deficient in the whole
/// square.
#[derive(Drop)]
pub(crate) enum Swept {
    Found(Least),
    Short(Vec<u32>),
}

// Raises the upper end of the band from the least grade on until it has a perfect assignment.
// False: the whole square has none.
fn rise(cells: &LiveCells<'_>, seeker: &mut Seeker) -> Result<bool, NoMemory>
    requires seeker { IsSeeker cells.now.square.now cells.now.entries.now seeker.old }
    requires low { seeker.old.band.low ≡ 1 }
    ensures seeker { IfOk result (λ _.
        IsSeeker cells.now.square.now cells.now.entries.now seeker.new) }
    ensures low { IfOk result (λ _. seeker.new.band.low ≡ 1) }
    ensures assignment { IfOk result (λ yes. OnTrue yes ((high : ℕ)
        × IsAssignmentWithin cells.now.square.now 1 high seeker.new.perm.items)) }
    ensures deficient { IfOk result (λ yes. OnFalse yes
        (IsDeficient (IsWithin cells.now.square.now 1 no_bound) cells.now.square.now.side
        seeker.new.rows.items)) }
{
    let mut high = 1;
    'bounds: while let Some(next) = seeker.test(cells, 1, high)? {
        if next == NO_BOUND {
            return Ok(false);
        }
        high = next + 1;
    }
    Ok(true)
}

// Adds the gap from the lower end of the band on and below a grade. The band moves up until it
// holds that grade.
fn add_gap(alloc: Global, ascent: &mut Ascent, next: u32, rows: &[u32]) -> Result<(), NoMemory>
    requires some { 0 < ascent.old.spread }
    requires above { ascent.old.low + ascent.old.spread ≤ next }
    ensures { IfOk result (λ _. AddsGap ascent.old ascent.new next rows.now) }
{
    let rows = Vec::from_slice(alloc, rows)?;
    ascent.gaps.push(Gap {
        low: ascent.low,
        high: next,
        rows,
    })?;
    ascent.low = next - ascent.spread + 1;
    Ok(())
}

// Looks for an assignment of a less spread in the band of as many grades as the least so far. One
// is the seeker's from then on; where there is none, that is one gap more, and the band moves up.
fn ascend(
    alloc: Global,
    cells: &LiveCells<'_>,
    seeker: &mut Seeker,
    ascent: &mut Ascent,
) -> Result<(), NoMemory>
    requires ascent { IsAscent cells.now.square.now cells.now.entries.now seeker.old ascent.old }
    requires some { 0 < ascent.old.spread }
    requires fits { ascent.old.low + ascent.old.spread ≤ no_bound }
    ensures ascent { IfOk result (λ _.
        IsAscent cells.now.square.now cells.now.entries.now seeker.new ascent.new) }
    ensures nearer { IfOk result (λ _.
        ascent.new.spread + ascent.old.low < ascent.old.spread + ascent.new.low) }
{
    match seeker.test(cells, ascent.low, ascent.low + ascent.spread)? {
        None => {
            let spread = spread_of(cells.square, seeker.perm.as_slice());
            ascent.spread = spread;
            Ok(())
        }
        Some(next) => add_gap(alloc, ascent, next, seeker.rows.as_slice()),
    }
}

// Lessens the spread of the seeker's assignment to the least. The answer has the gaps that show it.
fn lessen(
    alloc: Global,
    cells: &LiveCells<'_>,
    seeker: &mut Seeker,
    first: u32,
) -> Result<Ascent, NoMemory>
    requires seeker { IsSeeker cells.now.square.now cells.now.entries.now seeker.old }
    requires low { seeker.old.band.low ≡ 1 }
    requires spread { IsSpread cells.now.square.now seeker.old.perm.items first }
    ensures ascent { IfOk result
        (IsAscent cells.now.square.now cells.now.entries.now seeker.new) }
    ensures all { IfOk result (λ ascent.
        0 < ascent.spread → no_bound < ascent.low + ascent.spread) }
{
    let mut ascent = Ascent {
        spread: first,
        low: 1,
        gaps: Vec::new(alloc),
    };
    'bands: while ascent.spread > 0 && ascent.low <= NO_BOUND - ascent.spread {
        ascend(alloc, cells, seeker, &mut ascent)?;
    }
    Ok(ascent)
}

// Finds an assignment of the least spread, from the seeker's first one on.
fn found(alloc: Global, cells: &LiveCells<'_>, mut seeker: Seeker) -> Result<Swept, NoMemory>
    requires seeker { IsSeeker cells.now.square.now cells.now.entries.now seeker }
    requires low { seeker.band.low ≡ 1 }
    requires assignment { (high : ℕ)
        × IsAssignmentWithin cells.now.square.now 1 high seeker.perm.items }
    ensures { IfOk result (IsSwept cells.now.square.now) }
{
    let first = spread_of(cells.square, seeker.perm.as_slice());
    let ascent = lessen(alloc, cells, &mut seeker, first)?;
    Ok(Swept::Found(Least {
        spread: ascent.spread,
        perm: seeker.into_perm(),
        gaps: ascent.gaps,
    }))
}

/// An assignment of the least spread of a square, with the gaps that show it, or rows that are
/// deficient in the whole square (the method of two moving ends, [Martello et al. 1984]). The lower
/// end of the band stands at the least grade while the upper one rises to the first band with an
/// assignment. From then on the band holds as many grades as the least spread so far: an assignment
/// in it has a less spread, and where it has none, its deficient rows stay so up to the next grade
/// that helps them, and the band moves up until it holds that grade. Each search begins with the
/// matching that the last one left. The error is want of memory. There are at most twice as many
/// searches as different grades, and the time of one grows with the cube of the side over 64,
/// commonly with its square.
pub(crate) fn sweep(alloc: Global, cells: &LiveCells<'_>) -> Result<Swept, NoMemory>
    requires { AreEntries cells.now.square.now cells.now.entries.now }
    ensures { IfOk result (IsSwept cells.now.square.now) }
{
    let mut seeker = Seeker::make(alloc, cells)?;
    if rise(cells, &mut seeker)? {
        return found(alloc, cells, seeker);
    }
    Ok(Swept::Short(seeker.into_rows()))
}
