//! What stops a stage of a request.

ghost use Rattle.std.specs.Prelude.{◌≡◌, IfOk};
ghost use Rattle.asg_commands.specs.Stops.{stop_of};

use asg_answers::Reply;
use asg_model::NoMemory;
use std::alloc::AllocError;

/// Why a stage gives nothing to the next one.
#[derive(Drop)]
pub enum Stop {
    /// A file is refused, and this tells it.
    Refused(Reply),
    /// There was not enough memory.
    NoMemory,
}

// The stop of a refusal that was made, unless memory was wanting.
pub(crate) fn stopped(reply: Result<Reply, NoMemory>) -> Stop
    ensures { result ≡ stop_of reply }
{
    match reply {
        Ok(reply) => Stop::Refused(reply),
        Err(_) => Stop::NoMemory,
    }
}

/// The reply of a refusal that stops a stage. The error is want of memory.
pub fn stop_reply(stop: Stop) -> Result<Reply, NoMemory>
    ensures { IfOk result (λ reply. stop ≡ Stop.Refused reply) }
{
    match stop {
        Stop::Refused(reply) => Ok(reply),
        Stop::NoMemory => Err(AllocError),
    }
}
