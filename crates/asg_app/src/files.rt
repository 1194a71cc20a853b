//! Fetches the files that a job names.

ghost use Rattle.std.specs.Prelude.{◌≡◌, ◌<◌, Some, IfOk, IfSome, length, map, string_bytes};
ghost use Rattle.std.specs.Result.{IfErr};
ghost use Rattle.asg_words.specs.declared.requests.Request.TheVariants.{Work};
ghost use Rattle.asg_app.specs.Fetches.{AreGiven, StopsAt, status_of};
ghost use Rattle.asg_promises.specs.Requests.{asked_of, files_of};
ghost use Rattle.asg_words.specs.Bounds.{IsRequest};
ghost use Rattle.asg_promises.specs.Sources.{content_at};

use crate::requests::asked;
use asg_answers::Status;
use asg_commands::Sources;
use asg_io::{FetchFault, Shelf};
use asg_model::limits::LONGEST_FILE;
use asg_words::{Job, Request, Task};
use std::alloc::Global;

// The number of files that a job names.
fn file_count(job: &Job) -> usize
    ensures { result ≡ length (files_of (Some (Work job.now))) }
{
    match &job.task {
        Task::Solve | Task::Rank(_) => 1,
        Task::Edit(_) => 2,
        Task::Check { script: None, .. } => 2,
        Task::Check {
            script: Some(_),
            ..
        } => 3,
    }
}

// The name of a job's file at a place, counted from 0: the instance's is the first.
fn file_name(job: &Job, place: usize) -> &str
    requires { place < length (files_of (Some (Work job.now))) }
    ensures { result.now ≡ content_at (files_of (Some (Work job.now))) place }
{
    match &job.task {
        Task::Edit(script) if place == 1 => script.as_str(),
        Task::Check {
            script: Some(script),
            ..
        } if place == 1 => script.as_str(),
        Task::Check { answer, .. } if place > 0 => answer.as_str(),
        _ => job.instance.as_str(),
    }
}

// The contents of the files that a job names, fetched in their order up to the first that isn't
// given.
fn fetch_all<F: Shelf>(alloc: Global, job: &Job, shelf: &mut F) -> Result<Sources, FetchFault>
    ensures given { IfOk result (λ sources. AreGiven F.told F.asked F.faults
        (files_of (Some (Work job.now))) sources shelf.old shelf.new) }
    ensures stopped { IfErr result (λ fault. StopsAt F.told F.asked F.faults
        (files_of (Some (Work job.now))) fault shelf.old shelf.new) }
{
    let mut sources = Sources::none(alloc);
    for place in 0..file_count(job) {
        let file = shelf.fetch(alloc, file_name(job, place), LONGEST_FILE)?;
        sources.push(file)?;
    }
    Ok(sources)
}

/// What is asked, with the contents of the files that are named.
#[derive(Drop)]
pub(crate) struct Asked {
    pub(crate) request: Option<Request>,
    pub(crate) sources: Sources,
}

// The contents of the files that a request names, fetched in their order up to the first that isn't
// given.
fn fetch_named<F: Shelf>(
    alloc: Global,
    request: &Option<Request>,
    shelf: &mut F,
) -> Result<Sources, FetchFault>
    ensures given { IfOk result (λ sources. AreGiven F.told F.asked F.faults
        (files_of request.now) sources shelf.old shelf.new) }
    ensures stopped { IfErr result (λ fault. StopsAt F.told F.asked F.faults
        (files_of request.now) fault shelf.old shelf.new) }
{
    match request {
        Some(Request::Work(job)) => fetch_all(alloc, job, shelf),
        Some(Request::Make { .. }) | None => Ok(Sources::none(alloc)),
    }
}

// What the words after the program's name ask for, and the files that they name, fetched in their
// order.
pub(crate) fn fetch_asked<F: Shelf>(
    alloc: Global,
    words: &[String],
    shelf: &mut F,
) -> Result<Asked, FetchFault>
    ensures request { IfOk result (λ asked. asked.request ≡ asked_of (map string_bytes words.now)) }
    ensures within { IfOk result (λ asked. IfSome asked.request IsRequest) }
    ensures given { IfOk result (λ asked. AreGiven F.told F.asked F.faults
        (files_of asked.request) asked.sources shelf.old shelf.new) }
    ensures stopped { IfErr result (λ fault. StopsAt F.told F.asked F.faults
        (files_of (asked_of (map string_bytes words.now))) fault shelf.old shelf.new) }
{
    let request = asked(alloc, words)?;
    let sources = fetch_named(alloc, &request, shelf)?;
    Ok(Asked { request, sources })
}

// How a run ends whose files weren't given.
pub(crate) fn unread_status(fault: FetchFault) -> Status
    ensures { result ≡ status_of fault }
{
    match fault {
        FetchFault::Failed => Status::ReadFault,
        FetchFault::TooLong => Status::TooLong,
        FetchFault::NoMemory => Status::NoMemory,
    }
}
