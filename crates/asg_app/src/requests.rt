//! What the words ask for.

ghost use Rattle.std.specs.Prelude.{◌≡◌, map, string_bytes, IfOk, IfSome};
ghost use Rattle.asg_promises.specs.Requests.{asked_of};
ghost use Rattle.asg_words.specs.Bounds.{IsRequest};

use asg_model::NoMemory;
use asg_words::{Request, WordsRefusal, parse};
use std::alloc::{AllocError, Global};

// What the words after the program's name ask for; `None` where they are no request. The error is
// want of memory.
pub(crate) fn asked(alloc: Global, words: &[String]) -> Result<Option<Request>, NoMemory>
    ensures asked { IfOk result (λ asked. asked ≡ asked_of (map string_bytes words.now)) }
    ensures within { IfOk result (λ asked. IfSome asked IsRequest) }
{
    match parse(alloc, words) {
        Ok(request) => Ok(Some(request)),
        Err(WordsRefusal::Usage) => Ok(None),
        Err(WordsRefusal::NoMemory) => Err(AllocError),
    }
}
