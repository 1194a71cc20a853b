//! Requests to solve.

ghost use Rattle.std.specs.Prelude.{◌≡◌, ◌≤◌, IfOk, true};
ghost use Rattle.asg_model.specs.Limits.{most_side};
ghost use Rattle.asg_model.specs.Refused.{PassesNegative};
ghost use Rattle.asg_model.specs.Shapes.{square_side};
ghost use Rattle.asg_proof.specs.Outcomes.{IsOutcome, IsProvedBest};
ghost use Rattle.asg_answers.specs.SolverLimits.{SolverTakes, limit_number};
ghost use Rattle.asg_promises.specs.DueToSolve.{DueToSolve};
ghost use Rattle.asg_words.specs.Bounds.{IsJob};
ghost use Rattle.asg_answers.specs.Replies.{Answers};
ghost use Rattle.asg_answers.specs.WrittenDocument.{IsPromisedOutcome, IsPromisedProof};

use asg_answers::{
    Reply, SolverRefusal, Status, best_text, none_text, outcome, refusal, table_text,
};
use asg_check::Form;
use asg_model::{Choice, Instance, NoMemory, Objective};
use asg_proof::{Ids, Outcome, Proof};
use asg_words::Job;
use std::alloc::{AllocError, Global};

// The number of the refusal of an instance that is too large for the objective's solver.
fn limit_number(objective: Objective) -> u64
    ensures { result ≡ limit_number objective }
{
    match objective {
        Objective::Lex => 17,
        _ => 16,
    }
}

// The reply with a choice that is proved best. The error is want of memory.
fn best_reply(
    alloc: Global,
    job: &Job,
    inst: &Instance,
    choice: &Choice,
    proof: Proof,
) -> Result<Reply, NoMemory>
    requires within { IsJob job.now }
    requires side { square_side inst.now ≤ most_side }
    requires passes { PassesNegative job.now.objective inst.now }
    requires proved { IsProvedBest job.now.objective inst.now choice.now proof }
    requires promised { IsPromisedProof job.now.objective inst.now proof }
    requires takes { SolverTakes job.now.objective inst.now }
    ensures { IfOk result (Answers (DueToSolve job.now inst.now)) }
{
    let text = best_text(alloc, job.brief, job.objective, inst, choice, proof)?;
    Ok(Reply {
        status: Status::Done,
        text,
    })
}

// The reply with a Hall set. The error is want of memory.
fn none_reply(alloc: Global, job: &Job, inst: &Instance, rows: Ids) -> Result<Reply, NoMemory>
    requires within { IsJob job.now }
    requires passes { PassesNegative job.now.objective inst.now }
    requires hall { IsOutcome job.now.objective inst.now (Outcome.Nothing rows) }
    requires takes { SolverTakes job.now.objective inst.now }
    ensures { IfOk result (Answers (DueToSolve job.now inst.now)) }
{
    let text = none_text(alloc, job.brief, job.objective, inst, Form::Solve, rows)?;
    Ok(Reply {
        status: Status::Nothing,
        text,
    })
}

// The reply with an outcome. The error is want of memory.
fn outcome_reply(
    alloc: Global,
    job: &Job,
    inst: &Instance,
    outcome: Outcome,
) -> Result<Reply, NoMemory>
    requires within { IsJob job.now }
    requires side { square_side inst.now ≤ most_side }
    requires passes { PassesNegative job.now.objective inst.now }
    requires outcome { IsOutcome job.now.objective inst.now outcome }
    requires promised { IsPromisedOutcome job.now.objective inst.now outcome }
    requires takes { SolverTakes job.now.objective inst.now }
    ensures { IfOk result (Answers (DueToSolve job.now inst.now)) }
{
    match outcome {
        Outcome::Best { choice, proof } => best_reply(alloc, job, inst, &choice, proof),
        Outcome::Nothing { rows } => none_reply(alloc, job, inst, rows),
    }
}

// The reply by the outcome of the objective's solver. The error is want of memory.
fn solver_reply(alloc: Global, job: &Job, inst: &Instance) -> Result<Reply, NoMemory>
    requires within { IsJob job.now }
    requires side { square_side inst.now ≤ most_side }
    requires passes { PassesNegative job.now.objective inst.now }
    ensures { IfOk result (Answers (DueToSolve job.now inst.now)) }
{
    match outcome(alloc, job.objective, inst) {
        Ok(outcome) => outcome_reply(alloc, job, inst, outcome),
        Err(SolverRefusal::TooLarge(count)) => {
            refusal(alloc, &[limit_number(job.objective), u64::from(count)])
        }
        Err(SolverRefusal::NoMemory) => Err(AllocError),
    }
}

// The reply to a brief request: by the costs as they stand, where that gives a best choice, else by
// the solver. The error is want of memory.
fn brief_reply(alloc: Global, job: &Job, inst: &Instance) -> Result<Reply, NoMemory>
    requires within { IsJob job.now }
    requires brief { job.now.brief ≡ true }
    requires side { square_side inst.now ≤ most_side }
    requires passes { PassesNegative job.now.objective inst.now }
    ensures { IfOk result (Answers (DueToSolve job.now inst.now)) }
{
    match table_text(alloc, job.objective, inst)? {
        Some(text) => Ok(Reply {
            status: Status::Done,
            text,
        }),
        None => solver_reply(alloc, job, inst),
    }
}

// The reply to a request to solve an instance. The error is want of memory.
pub(crate) fn reply(alloc: Global, job: &Job, inst: &Instance) -> Result<Reply, NoMemory>
    requires within { IsJob job.now }
    requires side { square_side inst.now ≤ most_side }
    requires passes { PassesNegative job.now.objective inst.now }
    ensures { IfOk result (Answers (DueToSolve job.now inst.now)) }
{
    if job.brief {
        brief_reply(alloc, job, inst)
    } else {
        solver_reply(alloc, job, inst)
    }
}
