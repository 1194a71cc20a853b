//! Phases that are known to be admitted from the square of an instance.

ghost use Rattle.std.specs.Prelude.{◌≡◌, ◌≤◌, IsTrue, IfOk, length};
ghost use Rattle.asg_model.specs.Limits.{most_side};
ghost use Rattle.asg_model.specs.Objectives.{is_algebraic};
ghost use Rattle.asg_model.specs.Refused.{PassesNegative};
ghost use Rattle.asg_model.specs.Shapes.{square_side};
ghost use Rattle.asg_proof.specs.FoldProofs.{ProvesPhases};
ghost use Rattle.asg_verdicts.specs.PhaseReasons.{AreAdmittedFor};
ghost use Rattle.asg_verdicts.specs.Replays.{StandsFor};
ghost use Rattle.asg_verdicts.specs.Verdicts.{Tells, phase_reasons};
ghost use Rattle.asg_check.specs.KnownPhases.{AreKnown, phases_of_claim, phases_of_proof};

use crate::NoMemory;
use crate::phase_indices::has_index;
use asg_doc::{Claim, Document};
use asg_model::{Choice, Instance, Objective};
use asg_monoids::{PeakKind, SumKind, TimeKind};
use asg_proof::{Proof, Steps, WrittenPhase};
use asg_verdicts::{Verdict, phases_verdict};
use std::alloc::Global;

// The phases of a proof; none where it is of another kind.
fn phases_of_proof(proof: &Proof) -> &[WrittenPhase]
    ensures { result.now ≡ phases_of_proof proof.now }
{
    match proof {
        Proof::Phases(phases) => phases.as_slice(),
        Proof::Below(_) => &[],
        Proof::Windows(_) => &[],
        Proof::Levels { .. } => &[],
    }
}

/// The phases of the proof of a document; none where it has no proof, or one of another kind.
pub fn phases_of(doc: &Document) -> &[WrittenPhase]
    ensures { result.now ≡ phases_of_claim doc.now.claim }
{
    match &doc.claim {
        Claim::Best { proof, .. } => phases_of_proof(proof),
        Claim::Nothing { .. } => &[],
        Claim::Ranked { .. } => &[],
    }
}

// Whether two lists of steps are equally long.
fn have_same_count(steps: &Steps<'_>, others: &Steps<'_>) -> bool
    ensures { IsTrue result → length steps.now ≡ length others.now }
{
    steps.len() == others.len()
}

// Whether two lists of steps are the same.
fn are_same_steps(steps: &Steps<'_>, others: &Steps<'_>) -> bool
    ensures { IsTrue result → steps.now ≡ others.now }
{
    if !have_same_count(steps, others) {
        return false;
    }
    'steps: for place in 0..steps.len() {
        if steps.get(place) != others.get(place) {
            return false;
        }
    }
    true
}

// Whether two phases are the same.
fn is_same_phase(phase: &WrittenPhase, other: &WrittenPhase) -> bool
    ensures { IsTrue result → phase.now ≡ other.now }
{
    if phase.enters() != other.enters() {
        return false;
    }
    if phase.leaves() != other.leaves() {
        return false;
    }
    are_same_steps(&phase.steps(), &other.steps())
}

// Whether two lists of phases are the same.
fn are_same(phases: &[WrittenPhase], others: &[WrittenPhase]) -> bool
    ensures { IsTrue result → phases.now ≡ others.now }
{
    if phases.len() != others.len() {
        return false;
    }
    'phases: for place in 0..phases.len() {
        if !is_same_phase(&phases[place], &others[place]) {
            return false;
        }
    }
    true
}

// Whether phases that are admitted from the square of an instance prove a choice of it. The error
// is want of memory.
fn prove(
    alloc: Global,
    objective: Objective,
    inst: &Instance,
    choice: &Choice,
    phases: &[WrittenPhase],
) -> Result<bool, NoMemory>
    requires passes { PassesNegative objective inst.now }
    requires admitted { AreAdmittedFor objective inst.now phases.now }
    ensures { IfOk result (λ is. IsTrue is
        → ProvesPhases objective inst.now choice.now phases.now) }
{
    let _ = inst.rows();
    match objective {
        Objective::Sum | Objective::SumMax | Objective::SumPair | Objective::Capped(_) => {
            has_index(alloc, &SumKind::of(objective), inst, choice, phases)
        }
        Objective::Bottleneck | Objective::BottleneckMax => {
            has_index(alloc, &PeakKind::of(objective), inst, choice, phases)
        }
        Objective::TimeCost => has_index(alloc, &TimeKind::new(), inst, choice, phases),
        Objective::Balanced | Objective::Lex => Ok(false),
    }
}

/// The verdict on phases for a choice, by the reasons against phases in order, where some are known
/// to be admitted: of the same phases the index alone is looked at. The error is want of memory.
pub(crate) fn known_phases_verdict(
    alloc: Global,
    objective: Objective,
    inst: &Instance,
    choice: &Choice,
    phases: &[WrittenPhase],
    known: &[WrittenPhase],
) -> Result<Verdict, NoMemory>
    requires algebraic { IsTrue (is_algebraic objective) }
    requires side { square_side inst.now ≤ most_side }
    requires passes { PassesNegative objective inst.now }
    requires known { AreKnown objective inst.now known.now }
    ensures { IfOk result (Tells
        (StandsFor objective inst.now choice.now phases.now) phase_reasons) }
{
    if !are_same(phases, known) {
        return phases_verdict(alloc, objective, inst, choice, phases);
    }
    if !prove(alloc, objective, inst, choice, phases)? {
        return phases_verdict(alloc, objective, inst, choice, phases);
    }
    Ok(Verdict::Yes)
}
