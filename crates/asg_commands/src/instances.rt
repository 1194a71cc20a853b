//! The stage of the instance: its file is read, and gets the job's options.

ghost use Rattle.std.specs.Prelude.{◌≡◌, ◌≤◌, IfErr, IfOk, IsErr, MatchOption, length};
ghost use Rattle.asg_model.specs.Limits.{longest_file};
ghost use Rattle.asg_tokens.specs.Faults.{fault_of, refusal_numbers};
ghost use Rattle.asg_promises.specs.InstanceFile.{Holds, fitted, instance_in, passed, rows_asked, sided};
ghost use Rattle.asg_words.specs.Bounds.{IsJob};
ghost use Rattle.asg_answers.specs.Replies.{IsReply};
ghost use Rattle.asg_commands.specs.Stops.{StopsInstance};
ghost use Rattle.asg_answers.specs.Texts.{refused_instance_text};

use crate::stops::{Stop, stopped};
use asg_answers::{Reply, Status, refusal};
use asg_model::limits::MOST_SIDE;
use asg_model::{Instance, NoMemory, Place, PlaceRange};
use asg_promises::laws::refused_cost_law;
use asg_text::read;
use asg_tokens::TextRefusal;
use asg_values::negative;
use asg_words::Job;
use std::alloc::{AllocError, Global};

// The refusal of an instance by its text. The error is want of memory, also where that is what
// refused it.
fn text_refusal(alloc: Global, refused: TextRefusal) -> Result<Reply, NoMemory>
    ensures { MatchOption (fault_of refused) (IsErr result) (λ fault. IfOk result (λ reply.
        IsReply reply Status.Instance (refused_instance_text (refusal_numbers fault)))) }
{
    match refused {
        TextRefusal::NoProblemLine => refusal(alloc, &[1]),
        TextRefusal::SecondProblemLine(line) => refusal(alloc, &[2, line]),
        TextRefusal::BadLine(line) => refusal(alloc, &[3, line]),
        TextRefusal::BadNode(line) => refusal(alloc, &[4, line]),
        TextRefusal::BadArc(line) => refusal(alloc, &[5, line]),
        TextRefusal::CostRange(place) => refusal(alloc, &[6, place]),
        TextRefusal::ArcTwice(line) => refusal(alloc, &[7, line]),
        TextRefusal::ArcCount(stated, found) => refusal(alloc, &[8, stated, found]),
        TextRefusal::TooLarge(rows, columns) => refusal(alloc, &[9, rows, columns]),
        TextRefusal::NoRows => refusal(alloc, &[10]),
        TextRefusal::TokenCount(expected, found) => refusal(alloc, &[11, expected, found]),
        TextRefusal::BadToken(place) => refusal(alloc, &[12, place]),
        TextRefusal::NoMemory => Err(AllocError),
    }
}

// How many rows the place rule asks for, 0 where it asks for all.
fn rows_asked(place: Place) -> u64
    ensures { result ≡ rows_asked place }
{
    match place {
        Place::All => 0,
        Place::Exactly(count) => u64::from(count),
    }
}

// An instance whose square is no larger than the solvers take.
fn sided(alloc: Global, inst: Instance) -> Result<Instance, Stop>
    ensures held { IfOk result (λ held. sided inst ≡ Holds held) }
    ensures stop { IfErr result (StopsInstance (sided inst)) }
{
    let side = inst.side();
    if side > MOST_SIDE {
        return Err(stopped(refusal(alloc, &[15, u64::from(side)])));
    }
    Ok(inst)
}

// An instance of which the job's objective refuses no live cost, and which is no larger than the
// solvers take.
fn passed(alloc: Global, job: &Job, inst: Instance) -> Result<Instance, Stop>
    ensures held { IfOk result (λ held. passed job.now.objective inst ≡ Holds held) }
    ensures stop { IfErr result (StopsInstance (passed job.now.objective inst)) }
{
    refused_cost_law();
    match negative(job.objective, &inst) {
        Some((row, column)) => Err(stopped(refusal(
            alloc,
            &[14, u64::from(row), u64::from(column)],
        ))),
        None => sided(alloc, inst),
    }
}

// The instance that a file spells, with the job's options.
fn fitted(alloc: Global, job: &Job, spelled: Instance) -> Result<Instance, Stop>
    requires { IsJob job.now }
    ensures held { IfOk result (λ held.
        fitted job.now.objective job.now.place job.now.each spelled ≡ Holds held) }
    ensures stop { IfErr result (StopsInstance
        (fitted job.now.objective job.now.place job.now.each spelled)) }
{
    let mut inst = spelled;
    match inst.shape(job.place, job.each) {
        Ok(()) => passed(alloc, job, inst),
        Err(PlaceRange) => Err(stopped(refusal(alloc, &[13, rows_asked(job.place)]))),
    }
}

// The instance that a job's file of these bytes holds.
pub(crate) fn instance(alloc: Global, job: &Job, bytes: &[u8]) -> Result<Instance, Stop>
    requires within { IsJob job.now }
    requires short { length bytes.now ≤ longest_file }
    ensures held { IfOk result (λ held. instance_in job.now bytes.now ≡ Holds held) }
    ensures stop { IfErr result (StopsInstance (instance_in job.now bytes.now)) }
{
    match read(alloc, job.format, bytes) {
        Ok(inst) => fitted(alloc, job, inst),
        Err(refused) => Err(stopped(text_refusal(alloc, refused))),
    }
}
