//! Small squares, solved row by row.

ghost use Rattle.std.specs.Prelude.{◌≡◌, ◌≤◌, None, IfSome, IfOk, replicate};
ghost use Rattle.asg_admit.specs.Reduced.{IsReduced};
ghost use Rattle.asg_monoids.specs.BoundedSums.{bounded_sums, narrow_top};
ghost use Rattle.asg_pool.specs.Forest.{IsLive};
ghost use Rattle.asg_algebra.specs.Ended.{last_of};

use crate::instances::{Fault, reduced_of};
use asg_admit::Reduced;
use asg_algebra::{Bench, NoMemory, Solved, SolvedSquare, solve, solve_square};
use asg_match::Matching;
use asg_monoids::NarrowSums;
use asg_pool::{Region, Trail};
use std::alloc::Global;
use std::test::Fail;

/// The cells `4 1 3 / 2 0 5 / 3 2 2`, each with a thousand more.
pub(crate) const THREE: &[u8] = b"3 3\n1004 1001 1003\n1002 1000 1005\n1003 1002 1002\n";

/// The columns of the least assignment of the three rows.
pub(crate) const COLUMNS: [u32; 3] = [1, 0, 2];

/// A matching in which no row has a column, a bench, and a region with a record for each row.
#[derive(Drop)]
pub(crate) struct Desk {
    pub matching: Matching,
    pub bench: Bench<u64>,
    pub region: Region<u64>,
}

// A region with a record for each row.
fn region_for(alloc: Global, side: u32) -> Result<Region<u64>, NoMemory>
    ensures side { IfOk result (λ region. region.side ≡ side) }
    ensures spare { IfOk result (λ region. side ≤ region.spare) }
{
    let mut region = Region::make(alloc, side)?;
    region.reserve(side)?;
    Ok(region)
}

/// The desk for this side.
pub(crate) fn desk_for(alloc: Global, side: u32) -> Result<Desk, NoMemory>
    ensures matching { IfOk result (λ desk. desk.matching ≡ replicate side None) }
    ensures bench { IfOk result (λ desk. desk.bench.side ≡ side) }
    ensures region { IfOk result (λ desk. desk.region.side ≡ side) }
    ensures spare { IfOk result (λ desk. side ≤ desk.region.spare) }
{
    let matching = Matching::make(alloc, side)?;
    let bench = Bench::make(alloc, side)?;
    let region = region_for(alloc, side)?;
    Ok(Desk {
        matching,
        bench,
        region,
    })
}

/// Whether each row has this column.
pub(crate) fn has_columns(matching: &Matching, columns: &[u32]) -> bool {
    for r in 0..matching.side() {
        if r as usize >= columns.len() || matching.column_of(r) != Some(columns[r as usize]) {
            return false;
        }
    }
    true
}

// What a solver came to.
#[derive(Drop)]
struct Found {
    reduced: Reduced<u64>,
    desk: Desk,
    ended: Solved,
}

// Solves the square of a text, with no column taken.
fn solved(alloc: Global, text: &[u8]) -> Result<Found, Fault>
    ensures { IfOk result (λ found. IfSome (last_of found.ended) (IsLive found.desk.region)) }
{
    let mut reduced = reduced_of(alloc, text, 1)?;
    let side = reduced.now.side();
    let mut desk = desk_for(alloc, side)?;
    let ended = solve(
        &NarrowSums,
        &mut reduced,
        &mut desk.matching,
        &mut desk.bench,
        &mut desk.region,
        None,
    );
    Ok(Found {
        reduced,
        desk,
        ended,
    })
}

// Whether each row has its column, with this index, and so many records are spare.
fn has_ended(found: &Found, index: u64, columns: &[u32], spare: u32) -> bool {
    matches!(found.ended, Solved::Perfect(_))
        && has_columns(&found.desk.matching, columns)
        && found.reduced.index == index
        && found.desk.region.spare() == spare
}

// The last trail.
fn last(ended: Solved) -> Option<Trail>
    ensures { result ≡ last_of ended }
{
    match ended {
        Solved::Perfect(last) => last,
        Solved::Short(last) => last,
    }
}

// The steps of a phase, and those at which rows enter and columns leave.
type Phase = (&'static [u64], [u32; 3], [u32; 3]);

// The phases of the three rows, the last one first.
const PHASES: [Phase; 3] = [
    (&[1_002], [1, 1, 0], [1, 1, 1]),
    (&[1_000, 2], [1, 0, 2], [2, 1, 2]),
    (&[1_001], [0, 1, 1], [1, 1, 1]),
];

// Whether the last phase of a trail is this.
fn is_phase(region: &Region<u64>, trail: Trail, phase: &Phase) -> bool
    requires { IsLive region.now trail }
{
    region.steps(trail) == phase.0
        && region.enters(trail) == phase.1.as_slice()
        && region.leaves(trail) == phase.2.as_slice()
}

// The trail that a trail grew on.
fn before(region: &Region<u64>, trail: Trail) -> Option<Trail>
    requires { IsLive region.now trail }
    ensures { IfSome result (IsLive region.now) }
{
    region.parent(trail)
}

// Whether the phases of a trail are these, the last one first.
fn are_phases(region: &Region<u64>, last: Option<Trail>, phases: &[Phase]) -> bool
    requires { IfSome last (IsLive region.now) }
{
    let mut next = last;
    for phase in phases {
        let Some(trail) = next else {
            return false;
        };
        if !is_phase(region, trail, phase) {
            return false;
        }
        next = before(region, trail);
    }
    next.is_none()
}

#[test]
fn phases_of_three_rows(rt: HostRuntime) -> Result<(), Fail> {
    let found = solved(rt.alloc(), THREE)?;
    let is_so = has_ended(&found, 3_005, &COLUMNS, 0)
        && are_phases(&found.desk.region, last(found.ended), &PHASES);
    drop(found);
    assert!(rt; is_so);
    Ok(())
}

// Units alone.
#[test]
fn units_take_no_step(rt: HostRuntime) -> Result<(), Fail> {
    let found = solved(rt.alloc(), b"2 2\n0 -\n0 0\n")?;
    let is_so = has_ended(&found, 0, &[0, 1], 2) && last(found.ended).is_none();
    drop(found);
    assert!(rt; is_so);
    Ok(())
}

// Whether the first two rows are short, and the first of them had a phase.
fn are_short(found: &Found) -> bool {
    matches!(found.ended, Solved::Short(_))
        && found.desk.bench.violator() == [1, 0].as_slice()
        && found.reduced.index == 3
        && found.desk.region.spare() == 2
}

#[test]
fn rows_with_one_column_are_short(rt: HostRuntime) -> Result<(), Fail> {
    let found = solved(rt.alloc(), b"3 3\n- 3 -\n- 2 -\n1 1 1\n")?;
    let are_short = are_short(&found);
    drop(found);
    assert!(rt; are_short);
    Ok(())
}

/// The index of a square that was solved, where every row has the column that is expected.
pub(crate) fn told(solved: SolvedSquare<u64>, matching: &Matching, columns: &[u32]) -> Option<u64> {
    let is_expected = matches!(solved.ended, Solved::Perfect(_)) && has_columns(matching, columns);
    let index = solved.reduced.index;
    drop(solved);
    if is_expected { Some(index) } else { None }
}

// The index of a square once it is solved as it is kept, at a desk with no column taken.
fn index_at(
    alloc: Global,
    reduced: Reduced<u64>,
    desk: &mut Desk,
    columns: &[u32],
) -> Result<Option<u64>, NoMemory>
    requires reduced { IsReduced (bounded_sums narrow_top) reduced }
    requires matching { desk.old.matching ≡ replicate reduced.now.side None }
    requires bench { desk.old.bench.side ≡ reduced.now.side }
    requires region { desk.old.region.side ≡ reduced.now.side }
    requires spare { reduced.now.side ≤ desk.old.region.spare }
{
    let solved = solve_square(
        alloc,
        &NarrowSums,
        reduced,
        &mut desk.matching,
        &mut desk.bench,
        &mut desk.region,
        None,
    )?;
    Ok(told(solved, &desk.matching, columns))
}

// The same of the square of a text, whose costs are multiplied by a number.
fn index_of(
    alloc: Global,
    text: &[u8],
    factor: u64,
    columns: &[u32],
) -> Result<Option<u64>, Fault> {
    let reduced = reduced_of(alloc, text, factor)?;
    let mut desk = desk_for(alloc, reduced.now.side())?;
    let index = index_at(alloc, reduced, &mut desk, columns);
    drop(desk);
    Ok(index?)
}

// Of the cells near the top the greater two pass it together.
#[test]
fn sums_far_from_the_top_and_near_it(rt: HostRuntime) -> Result<(), Fail> {
    assert!(rt; index_of(rt.alloc(), THREE, 1, &COLUMNS)? == Some(3_005));
    let high = index_of(rt.alloc(), b"2 2\n3 1\n1 3\n", 1 << 60, &[1, 0])?;
    assert!(rt; high == Some(1 << 61));
    Ok(())
}
