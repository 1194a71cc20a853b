//! What stands against phases for a choice of an instance.

ghost use Rattle.std.specs.Prelude.{◌≡◌, ◌≢◌, ◌⊎◌, ◌≤◌, pos, IsTrue, IfOk};
ghost use Rattle.asg_model.specs.declared.objectives.Objective.TheVariants.{TimeCost};
ghost use Rattle.asg_model.specs.Instances.{IsInstance};
ghost use Rattle.asg_model.specs.Limits.{most_side};
ghost use Rattle.asg_model.specs.Objectives.{is_algebraic};
ghost use Rattle.asg_model.specs.Refused.{PassesNegative};
ghost use Rattle.asg_model.specs.Shapes.{square_side};
ghost use Rattle.asg_monoids.specs.BoundedSums.{bounded_sums};
ghost use Rattle.asg_monoids.specs.Entered.{is_sum_objective, sum_entered, top_of};
ghost use Rattle.asg_order.specs.Bridge.{choice_fold};
ghost use Rattle.asg_order.specs.Entering.{LiesWithin};
ghost use Rattle.asg_order.specs.Monoid.{IsValue};
ghost use Rattle.asg_verdicts.specs.Verdicts.{Tells, phase_reasons};
ghost use Rattle.asg_verdicts.specs.Replays.{StandsFor, StandsOver};

use crate::graded_indices::{timed_fold_verdict, timed_index};
use crate::known_indices::KnowsIndex;
use crate::square_verdicts::{index_verdict, square_verdict};
use crate::sum_indices::sum_index;
use crate::{NoMemory, Verdict};
use asg_model::{Choice, Instance, Objective};
use asg_monoids::{PeakKind, SumKind, TimeKind};
use asg_order::Kind;
use asg_proof::WrittenPhase;
use asg_replays::{chosen_fold, start};
use std::alloc::Global;

/// The verdict on phases for a choice, by the reasons against phases in order. The error is want of
/// memory.
pub fn phases_verdict(
    alloc: Global,
    objective: Objective,
    inst: &Instance,
    choice: &Choice,
    phases: &[WrittenPhase],
) -> Result<Verdict, NoMemory>
    requires algebraic { IsTrue (is_algebraic objective) }
    requires side { square_side inst.now ≤ most_side }
    requires passes { PassesNegative objective inst.now }
    ensures { IfOk result (Tells
        (StandsFor objective inst.now choice.now phases.now) phase_reasons) }
{
    // What each instance keeps, on which the reach of its costs rests, is told by a reader.
    let _ = inst.rows();
    match objective {
        Objective::Sum | Objective::SumMax | Objective::SumPair | Objective::Capped(_) => {
            summed_verdict(alloc, objective, inst, choice, phases)
        }
        Objective::Bottleneck | Objective::BottleneckMax => {
            replayed_verdict(alloc, &PeakKind::of(objective), inst, choice, phases)
        }
        Objective::TimeCost => timed_verdict(alloc, inst, choice, phases),
        Objective::Balanced | Objective::Lex => unreachable!(),
    }
}

// The same of an objective of sums.
fn summed_verdict(
    alloc: Global,
    objective: Objective,
    inst: &Instance,
    choice: &Choice,
    phases: &[WrittenPhase],
) -> Result<Verdict, NoMemory>
    requires sums { IsTrue (is_sum_objective objective) }
    requires instance { IsInstance inst.now }
    requires side { square_side inst.now ≤ most_side }
    requires passes { PassesNegative objective inst.now }
    ensures { IfOk result (Tells
        (StandsFor objective inst.now choice.now phases.now) phase_reasons) }
{
    match sum_index(alloc, objective, inst, phases)? {
        Some(index) => Ok(fold_verdict(objective, inst, choice, index)),
        None => replayed_verdict(alloc, &SumKind::of(objective), inst, choice, phases),
    }
}

// The same of `time-cost`.
fn timed_verdict(
    alloc: Global,
    inst: &Instance,
    choice: &Choice,
    phases: &[WrittenPhase],
) -> Result<Verdict, NoMemory>
    requires instance { IsInstance inst.now }
    requires side { square_side inst.now ≤ most_side }
    requires passes { PassesNegative TimeCost inst.now }
    ensures { IfOk result (Tells (StandsFor TimeCost inst.now choice.now phases.now) phase_reasons) }
{
    match timed_index(alloc, inst, phases)? {
        Some(index) => Ok(timed_fold_verdict(inst, choice, index)),
        None => replayed_verdict(alloc, &TimeKind::new(), inst, choice, phases),
    }
}

// The verdict on an index that is to be the fold of the choice.
fn fold_verdict(objective: Objective, inst: &Instance, choice: &Choice, index: u128) -> Verdict
    requires sums { IsTrue (is_sum_objective objective) }
    requires instance { IsInstance inst.now }
    requires passes { PassesNegative objective inst.now }
    requires index { IsValue (bounded_sums (top_of objective)) index }
    ensures { let fold = choice_fold (bounded_sums (top_of objective)) (sum_entered objective)
        inst.now choice.now in
        ((index ≡ fold) × (result ≡ Verdict.Yes))
        ⊎ ((index ≢ fold) × (result ≡ Verdict.No 7 (pos 0))) }
{
    let kind = SumKind::of(objective);
    let fold = chosen_fold(&kind, inst, choice);
    index_verdict(kind.monoid(), index, fold)
}

// The same over the monoid of a kind.
fn replayed_verdict<K: Kind>(
    alloc: Global,
    kind: &K,
    inst: &Instance,
    choice: &Choice,
    phases: &[WrittenPhase],
) -> Result<Verdict, NoMemory>
where
    K::M: KnowsIndex,
    requires side { square_side inst.now ≤ most_side }
    requires near { LiesWithin (K.reach kind.now) inst.now }
    requires passes { PassesNegative (K.objective kind.now) inst.now }
    ensures { IfOk result (Tells (StandsOver (K.M.monoid_of (K.monoid kind.now))
        (K.M.difference (K.monoid kind.now)) (K.M.word_of (K.monoid kind.now))
        (K.entered kind.now) inst.now choice.now phases.now) phase_reasons) }
{
    let start = start(alloc, kind, inst)?;
    let fold = chosen_fold(kind, inst, choice);
    let verdict = square_verdict(alloc, kind.monoid(), start, phases, fold)?;
    Ok(verdict)
}
