//! Requests to rank.

ghost use Rattle.std.specs.Prelude.{◌≡◌, ◌≤◌, IfErr, IfOk, false, true};
ghost use Rattle.asg_brief.specs.BriefLines.{IsBriefRanking};
ghost use Rattle.asg_check.specs.declared.document_forms.Form.TheVariants.{Rank};
ghost use Rattle.asg_check.specs.DocumentForm.{MayBeAsked};
ghost use Rattle.asg_doc.specs.Words.{HasWord, IsAsked};
ghost use Rattle.asg_model.specs.declared.bands.Band.TheVariants.{Whole};
ghost use Rattle.asg_model.specs.HallSet.{IsHall};
ghost use Rattle.asg_model.specs.Limits.{most_side};
ghost use Rattle.asg_model.specs.Refused.{PassesNegative};
ghost use Rattle.asg_model.specs.Shapes.{square_side};
ghost use Rattle.asg_rank.specs.RankOutcomes.{IsProvedRanking, IsRankOutcome};
ghost use Rattle.asg_rank.specs.Rankings.{IsRefusal, ranking_work};
ghost use Rattle.asg_rank.specs.Rooms.{most_work};
ghost use Rattle.asg_promises.specs.DueToRank.{DueToRank};
ghost use Rattle.asg_answers.specs.Replies.{Answers};

use asg_answers::{Reply, Status, none_text, ranked_document, refusal};
use asg_brief::{BriefRanking, brief_ranking};
use asg_check::Form;
use asg_model::{Instance, NoMemory};
use asg_proof::Ids;
use asg_rank::{Choices, RankOutcome, RankRefusal, ranking};
use asg_rankings::Nodes;
use asg_words::Job;
use std::alloc::{AllocError, Global};

// The reply with a ranking. The error is want of memory.
fn ranked_reply(
    alloc: Global,
    job: &Job,
    inst: &Instance,
    count: u32,
    choices: &Choices,
    nodes: Nodes,
) -> Result<Reply, NoMemory>
    requires whole { job.now.brief ≡ false }
    requires word { HasWord job.now.objective }
    requires count { IsAsked count }
    requires side { square_side inst.now ≤ most_side }
    requires passes { PassesNegative job.now.objective inst.now }
    requires asked { MayBeAsked (Rank count) job.now.objective inst.now }
    requires proved { IsProvedRanking job.now.objective inst.now count choices.now nodes }
    requires few { ranking_work inst.now count ≤ most_work }
    ensures { IfOk result (Answers (DueToRank job.now count inst.now)) }
{
    let document = ranked_document(alloc, job.objective, inst, count, choices, nodes)?;
    Reply::sheet(alloc, Status::Done, document)
}

// The reply with a Hall set. The error is want of memory.
fn none_reply(
    alloc: Global,
    job: &Job,
    inst: &Instance,
    count: u32,
    rows: Ids,
) -> Result<Reply, NoMemory>
    requires word { HasWord job.now.objective }
    requires passes { PassesNegative job.now.objective inst.now }
    requires asked { MayBeAsked (Rank count) job.now.objective inst.now }
    requires hall { IsHall inst.now Whole rows }
    requires few { ranking_work inst.now count ≤ most_work }
    ensures { IfOk result (Answers (DueToRank job.now count inst.now)) }
{
    let text = none_text(
        alloc,
        job.brief,
        job.objective,
        inst,
        Form::Rank(count),
        rows,
    )?;
    Ok(Reply {
        status: Status::Nothing,
        text,
    })
}

// The reply with what the ranking gave. The error is want of memory.
fn outcome_reply(
    alloc: Global,
    job: &Job,
    inst: &Instance,
    count: u32,
    outcome: RankOutcome,
) -> Result<Reply, NoMemory>
    requires whole { job.now.brief ≡ false }
    requires word { HasWord job.now.objective }
    requires count { IsAsked count }
    requires side { square_side inst.now ≤ most_side }
    requires passes { PassesNegative job.now.objective inst.now }
    requires asked { MayBeAsked (Rank count) job.now.objective inst.now }
    requires outcome { IsRankOutcome job.now.objective inst.now count outcome }
    requires few { ranking_work inst.now count ≤ most_work }
    ensures { IfOk result (Answers (DueToRank job.now count inst.now)) }
{
    match outcome {
        RankOutcome::Listed { answers, nodes } => {
            ranked_reply(alloc, job, inst, count, &answers, nodes)
        }
        RankOutcome::Nothing { rows } => none_reply(alloc, job, inst, count, rows),
    }
}

// The reply with the document of a ranking, or that no choice is valid. The errors: so many choices
// are too much to rank, or want of memory.
fn whole_reply(alloc: Global, job: &Job, inst: &Instance, count: u32) -> Result<Reply, RankRefusal>
    requires whole { job.now.brief ≡ false }
    requires word { HasWord job.now.objective }
    requires count { IsAsked count }
    requires side { square_side inst.now ≤ most_side }
    requires passes { PassesNegative job.now.objective inst.now }
    requires asked { MayBeAsked (Rank count) job.now.objective inst.now }
    ensures answers { IfOk result (Answers (DueToRank job.now count inst.now)) }
    ensures refusal { IfErr result (IsRefusal inst.now count) }
{
    let outcome = ranking(alloc, job.objective, inst, count)?;
    Ok(outcome_reply(alloc, job, inst, count, outcome)?)
}

// The reply with a line that was made. It takes no memory.
fn line_reply(job: &Job, inst: &Instance, count: u32, told: BriefRanking) -> Reply
    requires brief { job.now.brief ≡ true }
    requires told { IsBriefRanking job.now.objective inst.now count told }
    requires few { ranking_work inst.now count ≤ most_work }
    ensures { Answers (DueToRank job.now count inst.now) result }
{
    match told {
        BriefRanking::Ranked(line) => Reply::brief(Status::Done, line),
        BriefRanking::Nothing(line) => Reply::brief(Status::Nothing, line),
    }
}

// The reply with the line of a ranking, or that no choice is valid: no document is made, and no
// search tree. The errors: so many choices are too much to rank, or want of memory.
fn brief_reply(alloc: Global, job: &Job, inst: &Instance, count: u32) -> Result<Reply, RankRefusal>
    requires brief { job.now.brief ≡ true }
    requires count { IsAsked count }
    requires side { square_side inst.now ≤ most_side }
    requires passes { PassesNegative job.now.objective inst.now }
    requires asked { MayBeAsked (Rank count) job.now.objective inst.now }
    ensures answers { IfOk result (Answers (DueToRank job.now count inst.now)) }
    ensures refusal { IfErr result (IsRefusal inst.now count) }
{
    let told = brief_ranking(alloc, job.objective, inst, count)?;
    Ok(line_reply(job, inst, count, told))
}

// The reply with a ranking, or that no choice is valid. The errors: so many choices are too much to
// rank, or want of memory.
fn told_reply(alloc: Global, job: &Job, inst: &Instance, count: u32) -> Result<Reply, RankRefusal>
    requires word { HasWord job.now.objective }
    requires count { IsAsked count }
    requires side { square_side inst.now ≤ most_side }
    requires passes { PassesNegative job.now.objective inst.now }
    requires asked { MayBeAsked (Rank count) job.now.objective inst.now }
    ensures answers { IfOk result (Answers (DueToRank job.now count inst.now)) }
    ensures refusal { IfErr result (IsRefusal inst.now count) }
{
    if job.brief {
        brief_reply(alloc, job, inst, count)
    } else {
        whole_reply(alloc, job, inst, count)
    }
}

// The reply to a request to rank so many choices of an instance. The error is want of memory.
pub(crate) fn reply(
    alloc: Global,
    job: &Job,
    inst: &Instance,
    count: u32,
) -> Result<Reply, NoMemory>
    requires word { HasWord job.now.objective }
    requires count { IsAsked count }
    requires side { square_side inst.now ≤ most_side }
    requires passes { PassesNegative job.now.objective inst.now }
    requires asked { MayBeAsked (Rank count) job.now.objective inst.now }
    ensures { IfOk result (Answers (DueToRank job.now count inst.now)) }
{
    match told_reply(alloc, job, inst, count) {
        Ok(reply) => Ok(reply),
        Err(RankRefusal::RankTooLarge(work)) => refusal(alloc, &[18, work]),
        Err(RankRefusal::NoMemory) => Err(AllocError),
    }
}
