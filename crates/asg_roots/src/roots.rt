//! Squares, solved from the unit on.

ghost use Rattle.std.specs.Prelude.{◌≡◌, ◌≤◌, IfOk, IfSome, length};
ghost use Rattle.asg_proof.specs.Steps.{HasValues};
ghost use Rattle.asg_square.specs.Grid.{cell_at};
ghost use Rattle.asg_roots.specs.Roots.{IsSolvedRoot, root_of};
ghost use Rattle.asg_algebra.specs.Workplaces.{IsFresh};

use crate::NoMemory;
use asg_admit::Reduced;
use asg_algebra::{Bench, Solved, SolvedSquare, Workplace, solve_given, solve_square};
use asg_duals::Guess;
use asg_kept::Keeps;
use asg_match::Matching;
use asg_pool::Region;
use asg_proof::Phase;
use asg_square::Square;
use std::alloc::Global;

/// A square that was solved from the unit on: as its phases led to it, a perfect assignment by
/// absorbed cells or rows with too few columns, the phases, and the memory of the solver.
#[derive(Drop)]
pub struct Root<V: Copy> {
    /// The square as its phases led to it, with the product of their steps.
    pub reduced: Reduced<V>,
    /// What the solver came to, with the trail of the last phase.
    pub ended: Solved,
    /// The column of each row that has one.
    pub matching: Matching,
    /// The memory of the solver, which names the rows with too few columns.
    pub bench: Bench<V>,
    /// The phases, with room for more.
    pub region: Region<V>,
}

// The root of what was solved in a workplace.
fn rooted<V: Copy>(solved: SolvedSquare<V>, place: Workplace<V>) -> Root<V>
    ensures { result ≡ root_of solved place }
{
    let SolvedSquare { reduced, ended } = solved;
    let Workplace {
        matching,
        bench,
        region,
    } = place;
    Root {
        reduced,
        ended,
        matching,
        bench,
        region,
    }
}

// Solves a square from the unit on by the engine, in a fresh workplace. The error is want of
// memory.
fn solve_in<M: Keeps>(
    alloc: Global,
    m: &M,
    square: Square<M::Value>,
    place: &mut Workplace<M::Value>,
) -> Result<SolvedSquare<M::Value>, NoMemory>
    requires values { HasValues (M.monoid_of m.now) square.side (cell_at square) }
    requires fresh { IsFresh square.side place.old }
    requires spare { square.side ≤ place.old.region.spare }
    ensures { IfOk result (λ solved. IsSolvedRoot (M.monoid_of m.now) (M.difference m.now) square
        place.old.region.spare (root_of solved place.new)) }
{
    let reduced = Reduced {
        now: square,
        index: m.unit(),
    };
    let matching = &mut place.matching;
    let bench = &mut place.bench;
    let solved = solve_square(alloc, m, reduced, matching, bench, &mut place.region, None)?;
    Ok(solved)
}

// The same by phases and columns that are given; `None` where they don't pass the tests or don't
// solve it.
fn solve_given_in<M: Keeps>(
    alloc: Global,
    m: &M,
    square: Square<M::Value>,
    place: &mut Workplace<M::Value>,
    phases: &[Phase<M::Value>],
    columns: &[u32],
) -> Result<Option<SolvedSquare<M::Value>>, NoMemory>
    requires values { HasValues (M.monoid_of m.now) square.side (cell_at square) }
    requires fresh { IsFresh square.side place.old }
    requires spare { square.side ≤ place.old.region.spare }
    requires few { length phases.now ≤ square.side }
    ensures { IfOk result (λ found. IfSome found (λ solved. IsSolvedRoot (M.monoid_of m.now)
        (M.difference m.now) square place.old.region.spare (root_of solved place.new))) }
{
    let reduced = Reduced {
        now: square,
        index: m.unit(),
    };
    let matching = &mut place.matching;
    let found = solve_given(
        alloc,
        m,
        reduced,
        matching,
        &mut place.region,
        phases,
        columns,
    )?;
    Ok(found)
}

/// Solves a square from the unit on by the engine, in a region with so many records. The error is
/// want of memory. The time grows with the cube of the side at most.
pub(crate) fn solve_root<M: Keeps>(
    alloc: Global,
    m: &M,
    square: Square<M::Value>,
    records: u32,
) -> Result<Root<M::Value>, NoMemory>
    requires values { HasValues (M.monoid_of m.now) square.side (cell_at square) }
    requires records { square.side ≤ records }
    ensures { IfOk result (IsSolvedRoot (M.monoid_of m.now) (M.difference m.now) square records) }
{
    let mut place = Workplace::make(alloc, square.side(), records)?;
    match solve_in(alloc, m, square, &mut place) {
        Ok(solved) => Ok(rooted(solved, place)),
        Err(error) => {
            drop(place);
            Err(error)
        }
    }
}

// The same by phases and columns that are given; `None` where they don't pass the tests or don't
// solve it.
fn given_root<M: Keeps>(
    alloc: Global,
    m: &M,
    square: Square<M::Value>,
    records: u32,
    phases: &[Phase<M::Value>],
    columns: &[u32],
) -> Result<Option<Root<M::Value>>, NoMemory>
    requires values { HasValues (M.monoid_of m.now) square.side (cell_at square) }
    requires records { square.side ≤ records }
    requires few { length phases.now ≤ square.side }
    ensures { IfOk result (λ found. IfSome found
        (IsSolvedRoot (M.monoid_of m.now) (M.difference m.now) square records)) }
{
    let mut place = Workplace::make(alloc, square.side(), records)?;
    match solve_given_in(alloc, m, square, &mut place, phases, columns) {
        Ok(Some(solved)) => Ok(Some(rooted(solved, place))),
        Ok(None) => {
            drop(place);
            Ok(None)
        }
        Err(error) => {
            drop(place);
            Err(error)
        }
    }
}

/// The same by a hint, whose phases may be more than the rows; `None` where it doesn't solve it.
pub(crate) fn hinted_root<M: Keeps>(
    alloc: Global,
    m: &M,
    square: Square<M::Value>,
    records: u32,
    hint: &Guess<M::Value>,
) -> Result<Option<Root<M::Value>>, NoMemory>
    requires values { HasValues (M.monoid_of m.now) square.side (cell_at square) }
    requires records { square.side ≤ records }
    ensures { IfOk result (λ found. IfSome found
        (IsSolvedRoot (M.monoid_of m.now) (M.difference m.now) square records)) }
{
    let phases = hint.phases();
    if phases.len() > square.side() as usize {
        return Ok(None);
    }
    given_root(alloc, m, square, records, phases, hint.columns())
}
