//! Squares that are solved as they are kept fastest.

ghost use Rattle.std.specs.Prelude.{◌≡◌, ◌≤◌, length, IfOk, IfSome, OnErr};
ghost use Rattle.asg_admit.specs.Reduced.{IsReduced};
ghost use Rattle.asg_match.specs.Matching.{AllAllowed};
ghost use Rattle.asg_pool.specs.Forest.{IsLive};
ghost use Rattle.asg_square.specs.Grid.{cell_at};
ghost use Rattle.asg_algebra.specs.Ended.{last_of, EndsIn};
ghost use Rattle.asg_growth.specs.Growing.{IsAbsorbed};
ghost use Rattle.asg_algebra.specs.Solved.{HasSolved, unmatched};

use crate::NoMemory;
use crate::bench::Bench;
use crate::solving::{Solved, solve};
use asg_admit::Reduced;
use asg_kept::{Keeps, KeptSquare};
use asg_match::Matching;
use asg_pool::{Region, Trail};
use asg_square::Square;
use std::alloc::Global;

/// A reduced square that was solved, and what it came to.
#[derive(Drop)]
pub struct SolvedSquare<V: Copy> {
    /// The square with the index, as the phases led to it.
    pub reduced: Reduced<V>,
    /// What the solver came to, with the last trail.
    pub ended: Solved,
}

/// A square that was solved, without the values of its reduced cells, and what it came to.
#[derive(Drop)]
pub struct AssignedSquare<V: Copy> {
    /// A square with the labels and the present cells of the reduced one.
    pub square: Square<V>,
    /// What the solver came to, with the last trail.
    pub ended: Solved,
}

/// Does what [`solve`] does to a reduced square, under the same conditions, on the square that
/// serves the monoid. The error is want of memory; then the matching, the region and the bench are
/// as they were. The time grows with the cube of the side at most.
pub fn solve_square<M: Keeps>(
    alloc: Global,
    m: &M,
    reduced: Reduced<M::Value>,
    matching: &mut Matching,
    bench: &mut Bench<M::Value>,
    region: &mut Region<M::Value>,
    trail: Option<Trail>,
) -> Result<SolvedSquare<M::Value>, NoMemory>
    requires reduced { IsReduced (M.monoid_of m.now) reduced }
    requires matching_side { length matching.old ≡ reduced.now.side }
    requires absorbed { AllAllowed
        (IsAbsorbed (M.monoid_of m.now) reduced.index (cell_at reduced.now)) matching.old }
    requires bench_side { bench.old.side ≡ reduced.now.side }
    requires region_side { region.old.side ≡ reduced.now.side }
    requires spare { unmatched matching.old ≤ region.old.spare }
    requires live { IfSome trail (IsLive region.old) }
    ensures solved { IfOk result (λ s. HasSolved (M.monoid_of m.now) (M.difference m.now) reduced
        s.reduced matching.old matching.new region.old region.new trail (last_of s.ended)) }
    ensures ends { IfOk result (λ s. EndsIn (M.monoid_of m.now) s.reduced matching.new
        bench.new.rows s.ended) }
    ensures bench_side { bench.new.side ≡ bench.old.side }
    ensures kept_matching { OnErr result (matching.new ≡ matching.old) }
    ensures kept_region { OnErr result (region.new ≡ region.old) }
    ensures kept_bench { OnErr result (bench.new ≡ bench.old) }
{
    let mut square = m.keep(alloc, reduced)?;
    let ended = solve(m, &mut square, matching, bench, region, trail);
    Ok(SolvedSquare {
        reduced: square.into_reduced(),
        ended,
    })
}
