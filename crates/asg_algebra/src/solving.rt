//! All rows, one after another.

ghost use Rattle.std.specs.Prelude.{◌≡◌, ℕ, ◌+◌, ◌<◌, ◌≤◌, None, length, IfSome};
ghost use Rattle.asg_model.specs.Limits.{most_side};
ghost use Rattle.asg_admit.specs.Reduced.{IsReduced};
ghost use Rattle.asg_match.specs.Matching.{AllAllowed, column_at};
ghost use Rattle.asg_pool.specs.Forest.{IsLive};
ghost use Rattle.asg_square.specs.Grid.{cell_at};
ghost use Rattle.asg_algebra.specs.Benches.{IsBench};
ghost use Rattle.asg_algebra.specs.Ended.{last_of, EndsIn};
ghost use Rattle.asg_growth.specs.Growing.{IsAbsorbed};
ghost use Rattle.asg_growth.specs.Rest.{IsRestOf};
ghost use Rattle.asg_algebra.specs.Served.{Serves};
ghost use Rattle.asg_algebra.specs.Solved.{HasSolved, unmatched};
ghost use Rattle.asg_algebra.specs.Stages.{stage_of};

use crate::bench::Bench;
use crate::phases::{Served, augment};
use asg_growth::Growth;
use asg_kept::KeptSquare;
use asg_match::Matching;
use asg_order::DMonoid;
use asg_pool::{Region, Trail};

/// What [`solve`] came to, with the last trail.
#[derive(Clone, Copy)]
pub enum Solved {
    /// Every row has an absorbed cell.
    Perfect(Option<Trail>),
    /// Some rows have fewer columns with present cells than they are.
    Short(Option<Trail>),
}

// Gives a row a column, if it has none.
fn serve<M: DMonoid, S: KeptSquare<M>>(
    m: &M,
    reduced: &mut S,
    matching: &mut Matching,
    growth: &mut Growth<M::Value>,
    region: &mut Region<M::Value>,
    trail: Option<Trail>,
    root: u32,
) -> Served
    requires rest { IsRestOf (M.monoid_of m.now) (S.as_reduced reduced.old) matching.old }
    requires small { (S.as_reduced reduced.old).now.side ≤ most_side }
    requires bench { IsBench (S.as_reduced reduced.old).now.side growth.old }
    requires root { root < (S.as_reduced reduced.old).now.side }
    requires spare { column_at matching.old root ≡ None → 1 ≤ region.old.spare }
    requires live { IfSome trail (IsLive region.old) }
    requires region_side { region.old.side ≡ (S.as_reduced reduced.old).now.side }
    ensures serves { Serves (M.monoid_of m.now) (M.difference m.now)
        (stage_of (S.as_reduced reduced.old) matching.old region.old)
        (stage_of (S.as_reduced reduced.new) matching.new region.new) trail root
        growth.new.tree.rows.items result }
    ensures bench { IsBench (S.as_reduced reduced.old).now.side growth.new }
{
    match matching.column_of(root) {
        Some(_) => Served::Has(trail),
        None => augment(m, reduced, matching, growth, region, trail, root),
    }
}

// Gives each row a column, up to the first whose tree has too few.
fn serve_all<M: DMonoid, S: KeptSquare<M>>(
    m: &M,
    reduced: &mut S,
    matching: &mut Matching,
    growth: &mut Growth<M::Value>,
    region: &mut Region<M::Value>,
    trail: Option<Trail>,
) -> Solved
    requires rest { IsRestOf (M.monoid_of m.now) (S.as_reduced reduced.old) matching.old }
    requires small { (S.as_reduced reduced.old).now.side ≤ most_side }
    requires bench { IsBench (S.as_reduced reduced.old).now.side growth.old }
    requires spare { unmatched matching.old ≤ region.old.spare }
    requires live { IfSome trail (IsLive region.old) }
    requires region_side { region.old.side ≡ (S.as_reduced reduced.old).now.side }
    ensures solved { HasSolved (M.monoid_of m.now) (M.difference m.now) (S.as_reduced reduced.old)
        (S.as_reduced reduced.new) matching.old matching.new region.old region.new trail
        (last_of result) }
    ensures ends { EndsIn (M.monoid_of m.now) (S.as_reduced reduced.new) matching.new
        growth.new.tree.rows.items result }
    ensures bench { IsBench (S.as_reduced reduced.old).now.side growth.new }
{
    let mut last = trail;
    for root in 0..matching.side() {
        match serve(m, reduced, matching, growth, region, last, root) {
            Served::Lacks(same) => return Solved::Short(same),
            Served::Has(next) => last = next,
        }
    }
    Solved::Perfect(last)
}

/// Gives every row a column by an absorbed cell, by shortest augmenting paths
/// ([Tomizawa 1971], [Jonker and Volgenant 1987]) over a d-monoid
/// [Burkard, Hahn and Zimmermann 1977], each followed by at most one phase that is pushed on the
/// trail before it.
///
/// Each present cell and the index of the reduced square are values, however it is kept, each
/// matched cell is absorbed by the index, at least as many records are spare as rows have no column,
/// and the trail is live. The phases are admitted in turn from the old reduced square and lead to
/// the new one; they are at most as many as rows had no column, and each has 1 to side steps. Every
/// other live trail keeps its list and its parent. `Perfect`: every row has an absorbed cell, so
/// that the product of the assignment is the index where the index was the unit at first. `Short`:
/// the bench's violator has rows with fewer columns with present cells than they are. It takes no
/// memory. The time grows with the cube of the side at most.
pub fn solve<M: DMonoid, S: KeptSquare<M>>(
    m: &M,
    square: &mut S,
    matching: &mut Matching,
    bench: &mut Bench<M::Value>,
    region: &mut Region<M::Value>,
    trail: Option<Trail>,
) -> Solved
    requires reduced { IsReduced (M.monoid_of m.now) (S.as_reduced square.old) }
    requires matching_side { length matching.old ≡ (S.as_reduced square.old).now.side }
    requires absorbed { let reduced = S.as_reduced square.old in
        AllAllowed (IsAbsorbed (M.monoid_of m.now) reduced.index (cell_at reduced.now))
        matching.old }
    requires bench_side { bench.old.side ≡ (S.as_reduced square.old).now.side }
    requires region_side { region.old.side ≡ (S.as_reduced square.old).now.side }
    requires spare { unmatched matching.old ≤ region.old.spare }
    requires live { IfSome trail (IsLive region.old) }
    ensures solved { HasSolved (M.monoid_of m.now) (M.difference m.now) (S.as_reduced square.old)
        (S.as_reduced square.new) matching.old matching.new region.old region.new trail
        (last_of result) }
    ensures ends { EndsIn (M.monoid_of m.now) (S.as_reduced square.new) matching.new
        bench.new.rows result }
    ensures bench_side { bench.new.side ≡ bench.old.side }
{
    let _ = (square.side(), matching.side());
    serve_all(m, square, matching, &mut bench.growth, region, trail)
}
