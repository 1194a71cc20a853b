//! The solver of each objective.

ghost use Rattle.std.specs.Prelude.{◌≡◌, ◌≤◌, IfErr, IfOk, IsTrue};
ghost use Rattle.asg_model.specs.declared.objectives.Objective.TheVariants.{Balanced, Lex};
ghost use Rattle.asg_model.specs.Limits.{most_side};
ghost use Rattle.asg_model.specs.Objectives.{is_algebraic};
ghost use Rattle.asg_model.specs.Refused.{PassesNegative};
ghost use Rattle.asg_model.specs.Shapes.{square_side};
ghost use Rattle.asg_proof.specs.Outcomes.{IsOutcome};
ghost use Rattle.asg_answers.specs.SolverLimits.{SolverTakes};
ghost use Rattle.asg_answers.specs.SolverRefusals.{IsSolverRefusal};
ghost use Rattle.asg_answers.specs.WrittenDocument.{IsPromisedOutcome};

use asg_lex::{LexRefusal, lexicographic};
use asg_model::{Instance, NoMemory, Objective};
use asg_objectives::algebraic_assignment;
use asg_proof::Outcome;
use asg_thresh::bottleneck;
use asg_window::{BalancedRefusal, balanced};
use std::alloc::Global;

/// Why the solver of an objective gives no outcome.
#[derive(Clone, Copy, PartialEq, Eq)]
pub enum SolverRefusal {
    /// The instance is too large: it has so many different costs for `balanced`, or so many rows
    /// for `lex`.
    TooLarge(u32),
    /// There was not enough memory.
    NoMemory,
}

impl From<NoMemory> for SolverRefusal {
    ghost use Rattle.std.specs.Prelude.{◌≡◌};
    ghost use Rattle.asg_answers.specs.declared.solvers.SolverRefusal.TheVariants.{NoMemory};

    ghost from_gives = { λ _ refusal. refusal ≡ NoMemory };

    fn from(_: NoMemory) -> SolverRefusal {
        SolverRefusal::NoMemory
    }
}

// The outcome of an algebraic objective: thresholds solve the two bottleneck ones, and phases of
// steps the others. The error is want of memory.
fn algebraic_outcome(
    alloc: Global,
    objective: Objective,
    inst: &Instance,
) -> Result<Outcome, NoMemory>
    requires objective { IsTrue (is_algebraic objective) }
    requires side { square_side inst.now ≤ most_side }
    requires passes { PassesNegative objective inst.now }
    ensures outcome { IfOk result (IsOutcome objective inst.now) }
    ensures promised { IfOk result (IsPromisedOutcome objective inst.now) }
{
    match objective {
        Objective::Bottleneck | Objective::BottleneckMax => bottleneck(alloc, objective, inst),
        _ => algebraic_assignment(alloc, objective, inst),
    }
}

// The outcome of `balanced`: windows of costs. The errors: the live cells have too many different
// costs, or want of memory.
fn balanced_outcome(alloc: Global, inst: &Instance) -> Result<Outcome, SolverRefusal>
    requires side { square_side inst.now ≤ most_side }
    ensures outcome { IfOk result (IsOutcome Balanced inst.now) }
    ensures promised { IfOk result (IsPromisedOutcome Balanced inst.now) }
    ensures takes { IfOk result (λ _. SolverTakes Balanced inst.now) }
    ensures refusal { IfErr result (IsSolverRefusal Balanced inst.now) }
{
    match balanced(alloc, inst) {
        Ok(outcome) => Ok(outcome),
        Err(BalancedRefusal::TooManyCosts(count)) => Err(SolverRefusal::TooLarge(count)),
        Err(BalancedRefusal::NoMemory) => Err(SolverRefusal::NoMemory),
    }
}

// The outcome of `lex`: levels of costs. The errors: there are too many rows, or want of memory.
fn lexicographic_outcome(alloc: Global, inst: &Instance) -> Result<Outcome, SolverRefusal>
    requires side { square_side inst.now ≤ most_side }
    ensures outcome { IfOk result (IsOutcome Lex inst.now) }
    ensures promised { IfOk result (IsPromisedOutcome Lex inst.now) }
    ensures takes { IfOk result (λ _. SolverTakes Lex inst.now) }
    ensures refusal { IfErr result (IsSolverRefusal Lex inst.now) }
{
    match lexicographic(alloc, inst) {
        Ok(outcome) => Ok(outcome),
        Err(LexRefusal::LexTooLarge(count)) => Err(SolverRefusal::TooLarge(count)),
        Err(LexRefusal::NoMemory) => Err(SolverRefusal::NoMemory),
    }
}

/// The outcome of an objective. The errors: the instance is too large for the objective's solver,
/// or want of memory.
pub fn outcome(
    alloc: Global,
    objective: Objective,
    inst: &Instance,
) -> Result<Outcome, SolverRefusal>
    requires side { square_side inst.now ≤ most_side }
    requires passes { PassesNegative objective inst.now }
    ensures outcome { IfOk result (IsOutcome objective inst.now) }
    ensures promised { IfOk result (IsPromisedOutcome objective inst.now) }
    ensures takes { IfOk result (λ _. SolverTakes objective inst.now) }
    ensures refusal { IfErr result (IsSolverRefusal objective inst.now) }
{
    match objective {
        Objective::Balanced => balanced_outcome(alloc, inst),
        Objective::Lex => lexicographic_outcome(alloc, inst),
        _ => Ok(algebraic_outcome(alloc, objective, inst)?),
    }
}
