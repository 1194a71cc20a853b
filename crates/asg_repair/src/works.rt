//! What a session solves in.

ghost use Rattle.std.specs.Prelude.{◌≡◌, ◌≤◌, ◌++◌, Bool, List, true, length, IfSome};
ghost use Rattle.asg_admit.specs.Reduced.{IsReduced};
ghost use Rattle.asg_algebra.specs.Ended.{EndsIn, last_of};
ghost use Rattle.asg_growth.specs.Growing.{IsAbsorbed};
ghost use Rattle.asg_algebra.specs.Solved.{HasSolved, unmatched};
ghost use Rattle.asg_match.specs.Matching.{AllAllowed};
ghost use Rattle.asg_model.specs.Shapes.{square_side};
ghost use Rattle.asg_proof.specs.Phases.{PhaseOf, AreAdmittedPhases};
ghost use Rattle.asg_pool.specs.Forest.{IsLive};
ghost use Rattle.asg_square.specs.Cells.{square_cell};
ghost use Rattle.asg_square.specs.Grid.{cell_at};
ghost use Rattle.asg_kept_phases.specs.PhaseChains.{phases_in, IsPhaseChain};
ghost use Rattle.asg_repair.specs.Sessions.{AreAbsorbed, AreAbsorbedAfter, AreTogether};
ghost use Rattle.asg_repair.specs.Sessions.{IsSized};
ghost use Rattle.asg_kept_phases.specs.Led.{IsLed, MaySolve};

use crate::absorbed_cells::prune_absorbed;
use crate::refilled_squares::refill;
use asg_admit::Reduced;
use asg_algebra::{Bench, Solved, solve};
use asg_kept_phases::{PhaseChain, settle_trails};
use asg_match::Matching;
use asg_model::Instance;
use asg_order::{DMonoid, Kind, Ordered};
use asg_pool::{Region, Trail};

/// A reduced square with a matching of its rows, the memory of a solver, a column for each row, and
/// places for the steps of a phase.
#[derive(Drop)]
pub(crate) struct Work<V: Copy> {
    pub(crate) reduced: Reduced<V>,
    pub(crate) matching: Matching,
    pub(crate) bench: Bench<V>,
    pub(crate) columns: Vec<u32>,
    pub(crate) room: Vec<V>,
}

// Makes the square anew from the instance and the phases, the way to the last of which is told, and
// takes its column from each row whose cell isn't absorbed there.
fn rebuild<K: Kind>(
    kind: &K,
    inst: &Instance,
    work: &mut Work<<K::M as Ordered>::Value>,
    phases: &PhaseChain<<K::M as Ordered>::Value>,
)
    requires may_solve { MaySolve (K.M.monoid_of (K.monoid kind.now)) (K.entered kind.now)
        (K.objective kind.now) (K.reach kind.now) inst.now }
    requires sized { IsSized inst.now work.old }
    requires chain { IsPhaseChain phases.now }
    requires told { phases.now.is_told ≡ true }
    requires region_side { phases.now.region.side ≡ square_side inst.now }
    requires admitted { AreAdmittedPhases (K.M.monoid_of (K.monoid kind.now))
        (K.M.difference (K.monoid kind.now)) (square_side inst.now) (phases_in phases.now)
        (square_cell inst.now (K.M.monoid_of (K.monoid kind.now)).unit (K.entered kind.now)) }
    ensures sized { IsSized inst.now work.new }
    ensures led { IsLed (K.M.monoid_of (K.monoid kind.now)) (K.M.difference (K.monoid kind.now))
        (K.entered kind.now) inst.now (phases_in phases.now) work.new.reduced }
    ensures absorbed { AreAbsorbed (K.M.monoid_of (K.monoid kind.now)) work.new.reduced
        work.new.matching }
    ensures fewer { AreAbsorbedAfter (K.M.monoid_of (K.monoid kind.now))
        (K.M.difference (K.monoid kind.now)) (K.entered kind.now) inst.now (phases_in phases.now)
        work.old.matching → unmatched work.new.matching ≤ unmatched work.old.matching }
{
    refill(kind, inst, &mut work.reduced);
    let m = kind.monoid();
    settle_trails(
        m,
        &mut work.reduced,
        &phases.region,
        &phases.way,
        &mut work.room,
    );
    prune_work(m, work);
}

/// Makes the square that of the instance after the phases, where it isn't, and takes its column
/// from each row whose cell isn't absorbed there. It takes no memory. The time is that of filling
/// the square and of settling each phase.
pub(crate) fn lead<K: Kind>(
    kind: &K,
    inst: &Instance,
    work: &mut Work<<K::M as Ordered>::Value>,
    phases: &PhaseChain<<K::M as Ordered>::Value>,
    is_led: bool,
)
    requires may_solve { MaySolve (K.M.monoid_of (K.monoid kind.now)) (K.entered kind.now)
        (K.objective kind.now) (K.reach kind.now) inst.now }
    requires sized { IsSized inst.now work.old }
    requires chain { IsPhaseChain phases.now }
    requires region_side { phases.now.region.side ≡ square_side inst.now }
    requires together { (cut : Bool) × AreTogether (K.M.monoid_of (K.monoid kind.now))
        (K.M.difference (K.monoid kind.now)) (K.entered kind.now) inst.now work.old phases.now
        is_led cut }
    ensures sized { IsSized inst.now work.new }
    ensures led { IsLed (K.M.monoid_of (K.monoid kind.now)) (K.M.difference (K.monoid kind.now))
        (K.entered kind.now) inst.now (phases_in phases.now) work.new.reduced }
    ensures absorbed { AreAbsorbed (K.M.monoid_of (K.monoid kind.now)) work.new.reduced
        work.new.matching }
    ensures fewer { AreAbsorbedAfter (K.M.monoid_of (K.monoid kind.now))
        (K.M.difference (K.monoid kind.now)) (K.entered kind.now) inst.now (phases_in phases.now)
        work.old.matching → unmatched work.new.matching ≤ unmatched work.old.matching }
{
    if !is_led {
        rebuild(kind, inst, work, phases);
    }
}

/// Solves on from the phases, as the engine does: at most one more phase for each row that has no
/// column. It takes no memory.
pub(crate) fn solve_on<K: Kind>(
    kind: &K,
    inst: &Instance,
    work: &mut Work<<K::M as Ordered>::Value>,
    phases: &mut PhaseChain<<K::M as Ordered>::Value>,
) -> Solved
    requires may_solve { MaySolve (K.M.monoid_of (K.monoid kind.now)) (K.entered kind.now)
        (K.objective kind.now) (K.reach kind.now) inst.now }
    requires sized { IsSized inst.now work.old }
    requires chain { IsPhaseChain phases.old }
    requires region_side { phases.old.region.side ≡ square_side inst.now }
    requires spare { square_side inst.now ≤ phases.old.region.spare }
    requires led { IsLed (K.M.monoid_of (K.monoid kind.now)) (K.M.difference (K.monoid kind.now))
        (K.entered kind.now) inst.now (phases_in phases.old) work.old.reduced }
    requires absorbed { AreAbsorbed (K.M.monoid_of (K.monoid kind.now)) work.old.reduced
        work.old.matching }
    ensures more { (more : List (PhaseOf K.M.Value))
        × (phases_in phases.new ≡ phases_in phases.old ++ more)
        × (length more ≤ unmatched work.old.matching) }
    ensures sized { IsSized inst.now work.new }
    ensures chain { IsPhaseChain phases.new }
    ensures region_side { phases.new.region.side ≡ square_side inst.now }
    ensures led { IsLed (K.M.monoid_of (K.monoid kind.now)) (K.M.difference (K.monoid kind.now))
        (K.entered kind.now) inst.now (phases_in phases.new) work.new.reduced }
    ensures absorbed { AreAbsorbed (K.M.monoid_of (K.monoid kind.now)) work.new.reduced
        work.new.matching }
    ensures ends { EndsIn (K.M.monoid_of (K.monoid kind.now)) work.new.reduced work.new.matching
        work.new.bench.rows result }
{
    let _side = inst.side();
    let _spare = phases.region.spare();
    let trail = phases.last;
    let ended = solve_with(
        kind,
        &mut work.reduced,
        &mut work.matching,
        &mut work.bench,
        &mut phases.region,
        trail,
    );
    phases.last = last_trail(&ended);
    phases.is_told = false;
    ended
}

// Solves by the monoid of a kind.
fn solve_with<K: Kind>(
    kind: &K,
    reduced: &mut Reduced<<K::M as Ordered>::Value>,
    matching: &mut Matching,
    bench: &mut Bench<<K::M as Ordered>::Value>,
    region: &mut Region<<K::M as Ordered>::Value>,
    trail: Option<Trail>,
) -> Solved
    requires reduced { IsReduced (K.M.monoid_of (K.monoid kind.now)) reduced.old }
    requires columns { AreAbsorbed (K.M.monoid_of (K.monoid kind.now)) reduced.old matching.old }
    requires bench_side { bench.old.side ≡ reduced.old.now.side }
    requires region_side { region.old.side ≡ reduced.old.now.side }
    requires spare { unmatched matching.old ≤ region.old.spare }
    requires live { IfSome trail (IsLive region.old) }
    ensures solved { HasSolved (K.M.monoid_of (K.monoid kind.now))
        (K.M.difference (K.monoid kind.now)) reduced.old reduced.new matching.old matching.new
        region.old region.new trail (last_of result) }
    ensures ends { EndsIn (K.M.monoid_of (K.monoid kind.now)) reduced.new matching.new
        bench.new.rows result }
    ensures bench_side { bench.new.side ≡ bench.old.side }
{
    solve(kind.monoid(), reduced, matching, bench, region, trail)
}

/// The last trail.
pub(crate) fn last_trail(ended: &Solved) -> Option<Trail>
    ensures { result ≡ last_of ended.now }
{
    match ended {
        Solved::Perfect(last) | Solved::Short(last) => *last,
    }
}

/// Takes its column from each row whose cell isn't absorbed. It takes no memory.
pub(crate) fn prune_work<M: DMonoid>(m: &M, work: &mut Work<M::Value>)
    requires reduced { IsReduced (M.monoid_of m.now) work.old.reduced }
    requires side { length work.old.matching ≡ work.old.reduced.now.side }
    ensures reduced { work.new.reduced ≡ work.old.reduced }
    ensures bench { work.new.bench ≡ work.old.bench }
    ensures columns { work.new.columns ≡ work.old.columns }
    ensures room { work.new.room ≡ work.old.room }
    ensures absorbed { AreAbsorbed (M.monoid_of m.now) work.new.reduced work.new.matching }
    ensures fewer { AllAllowed (IsAbsorbed (M.monoid_of m.now) work.old.reduced.index
        (cell_at work.old.reduced.now)) work.old.matching
        → unmatched work.new.matching ≤ unmatched work.old.matching }
{
    let _side = work.matching.side();
    let index = work.reduced.index;
    prune_absorbed(m, &work.reduced.now, index, &mut work.matching);
    let _side = work.matching.side();
}
