//! From the words to the request.

ghost use Rattle.std.specs.Prelude.{◌≡◌, ◌≢◌, IfOk, IsErrOf, None, Some, map, string_bytes};
ghost use Rattle.clap.specs.Values.{kind_of};
ghost use Rattle.asg_words.specs.Bounds.{IsRequest};
ghost use Rattle.asg_words.specs.Requests.{request_of};

use crate::command_line::command_line;
use crate::found_words::found_in;
use crate::{Request, WordsRefusal, request};
use clap::Error;
use clap::error::ErrorKind;
use std::alloc::Global;

/// The request that the words after the program's name make.
///
/// `Usage` comes exactly where they make none. A request's numbers are within their bounds, and its
/// options go together.
pub fn parse(alloc: Global, words: &[String]) -> Result<Request, WordsRefusal>
    ensures request { IfOk result (λ request.
        request_of (map string_bytes words.now) ≡ Some request) }
    ensures within { IfOk result IsRequest }
    ensures usage { IsErrOf result WordsRefusal.Usage
        → request_of (map string_bytes words.now) ≡ None }
{
    let command = command_line(alloc)?;
    match command.try_get_matches_from(words) {
        Ok(matches) => request(alloc, &found_in(&matches)),
        Err(error) => Err(refusal(&error)),
    }
}

// What an error of the command comes to.
fn refusal(error: &Error) -> WordsRefusal
    ensures { result ≡ WordsRefusal.Usage → kind_of error.now ≢ ErrorKind.OutOfMemory }
{
    match error.kind() {
        ErrorKind::OutOfMemory => WordsRefusal::NoMemory,
        _ => WordsRefusal::Usage,
    }
}
