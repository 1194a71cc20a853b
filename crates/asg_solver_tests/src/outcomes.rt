//! Outcomes of an instance with a dropped row and a closed column, which no file has.

ghost use Rattle.std.specs.Prelude.{◌≤◌, IsTrue};
ghost use Rattle.asg_model.specs.Limits.{most_cost};
ghost use Rattle.asg_model.specs.Objectives.{is_algebraic};

use crate::instances::{OUT, edited, has_columns};
use asg_kept::Keeps;
use asg_lex::lexicographic;
use asg_model::limits::MOST_SIDE;
use asg_model::{Instance, NoMemory, Objective};
use asg_monoids::{PeakKind, SumKind, TimeKind};
use asg_objectives::{algebraic, algebraic_assignment};
use asg_order::Kind;
use asg_proof::Outcome;
use asg_thresh::bottleneck;
use asg_values::negative;
use asg_window::balanced;
use std::alloc::Global;
use std::test::Fail;

// The columns of the rows, by their places.
type Columns = [u32; 4];

// The choice of the costs 5, 4 and 1, that of 5, 4 and 9, and that of 3, 7 and 9.
const LEAST: Columns = [2, OUT, 0, 0];

const MIDDLE: Columns = [2, OUT, 0, 2];

const MOST: Columns = [0, OUT, 2, 2];

// Each objective with its one best choice.
static CASES: [(Objective, Columns); 9] = [
    (Objective::Sum, LEAST),
    (Objective::SumMax, MOST),
    (Objective::SumPair, LEAST),
    (Objective::Capped(20), LEAST),
    (Objective::Bottleneck, LEAST),
    (Objective::BottleneckMax, MIDDLE),
    (Objective::TimeCost, LEAST),
    (Objective::Balanced, LEAST),
    (Objective::Lex, LEAST),
];

// These, for a caller that needn't know them.
fn cases() -> &'static [(Objective, Columns)] {
    &CASES
}

// Whether the outcome is a choice of these columns.
fn is_best(outcome: &Outcome, columns: &Columns) -> bool {
    match outcome {
        Outcome::Best { choice, .. } => has_columns(choice, columns),
        Outcome::Nothing { .. } => false,
    }
}

/// The outcome of an instance by the solver of an objective, if it is taken.
pub(crate) fn outcome_of(alloc: Global, objective: Objective, inst: &Instance) -> Option<Outcome> {
    if inst.side() > MOST_SIDE || negative(objective, inst).is_some() {
        return None;
    }
    match objective {
        Objective::Balanced => balanced(alloc, inst).ok(),
        Objective::Lex => lexicographic(alloc, inst).ok(),
        Objective::Bottleneck | Objective::BottleneckMax => {
            bottleneck(alloc, objective, inst).ok()
        }
        _ => algebraic_assignment(alloc, objective, inst).ok(),
    }
}

// Whether that of an objective is.
fn gives(alloc: Global, inst: &Instance, objective: Objective, columns: &Columns) -> bool {
    match outcome_of(alloc, objective, inst) {
        Some(found) => {
            let is_best = is_best(&found, columns);
            drop(found);
            is_best
        }
        None => false,
    }
}

// The first objective whose outcome is another one.
fn first_other(alloc: Global) -> Option<Option<Objective>> {
    let inst = edited(alloc)?;
    for (objective, columns) in cases() {
        if !gives(alloc, &inst, *objective, columns) {
            return Some(Some(*objective));
        }
    }
    Some(None)
}

#[test]
fn of_each_objective(rt: HostRuntime) -> Result<(), Fail> {
    assert_eq!(rt; first_other(rt.alloc()), Some(None));
    Ok(())
}

// Whether the engine gives a choice of these columns for a kind.
fn engine_gives<K: Kind>(
    alloc: Global,
    inst: &Instance,
    kind: &K,
    columns: &Columns,
) -> Result<bool, NoMemory>
where
    K::M: Keeps,
    requires { most_cost ≤ K.reach kind.now }
{
    if inst.side() > MOST_SIDE || negative(kind.objective(), inst).is_some() {
        return Ok(false);
    }
    let found = algebraic(alloc, kind, inst)?;
    let is_best = is_best(&found, columns);
    drop(found);
    Ok(is_best)
}

// Whether it gives the best ones for three kinds.
fn engine_gives_all(alloc: Global, inst: &Instance) -> Result<bool, NoMemory> {
    Ok(
        engine_gives(alloc, inst, &SumKind::of(Objective::SumMax), &MOST)?
            && engine_gives(alloc, inst, &PeakKind::of(Objective::Bottleneck), &LEAST)?
            && engine_gives(alloc, inst, &TimeKind::new(), &LEAST)?,
    )
}

// Whether phases give it for the greatest or the least cost, which the program solves by thresholds.
fn phases_give(
    alloc: Global,
    inst: &Instance,
    objective: Objective,
    columns: &Columns,
) -> Result<bool, NoMemory>
    requires { IsTrue (is_algebraic objective) }
{
    if inst.side() > MOST_SIDE || negative(objective, inst).is_some() {
        return Ok(false);
    }
    let found = algebraic_assignment(alloc, objective, inst)?;
    let is_best = is_best(&found, columns);
    drop(found);
    Ok(is_best)
}

// Whether both ways give the best choices.
fn ways_give(alloc: Global) -> Result<bool, NoMemory> {
    let Some(inst) = edited(alloc) else {
        return Ok(false);
    };
    let give = engine_gives_all(alloc, &inst)?
        && phases_give(alloc, &inst, Objective::Bottleneck, &LEAST)?
        && phases_give(alloc, &inst, Objective::BottleneckMax, &MIDDLE)?;
    drop(inst);
    Ok(give)
}

#[test]
fn by_other_ways(rt: HostRuntime) -> Result<(), Fail> {
    assert!(rt; ways_give(rt.alloc())?);
    Ok(())
}
