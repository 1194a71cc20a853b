//! How a run ends.

ghost use Rattle.std.specs.Prelude.{◌≡◌};
ghost use Rattle.asg_answers.specs.Statuses.{code_of};

use std::fmt;

/// How a run of the program ends.
#[derive(Clone, Copy, PartialEq, Eq)]
pub enum Status {
    /// The request was answered.
    Done,
    /// There is no valid choice.
    Nothing,
    /// The words are no request.
    Usage,
    /// The instance's file is refused.
    Instance,
    /// The script is refused.
    Script,
    /// The answer's file is refused.
    Document,
    /// A document doesn't certify.
    No,
    /// A file couldn't be read.
    ReadFault,
    /// The text couldn't be written whole.
    WriteFault,
    /// Memory was wanting.
    NoMemory,
    /// A file is longer than the limit.
    TooLong,
}

impl Status {
    /// The exit status of the process: 0 to 10, in the order of the variants.
    pub fn code(self) -> u8
        ensures { result ≡ code_of self }
    {
        self as u8
    }
}

impl fmt::Display for Status {
    fn fmt<W: fmt::Write>(&self, f: &mut fmt::Formatter<W>) -> fmt::Result {
        f.write_str(match self {
            Status::Done => "the request is answered",
            Status::Nothing => "no choice is valid",
            Status::Usage => "the words are no request",
            Status::Instance => "the instance is refused",
            Status::Script => "the script is refused",
            Status::Document => "the answer's file isn't the documents that are due",
            Status::No => "a document doesn't certify",
            Status::ReadFault => "a file couldn't be read",
            Status::WriteFault => "the text couldn't be written whole",
            Status::NoMemory => "memory was wanting",
            Status::TooLong => "a file is longer than 268,435,456 bytes",
        })
    }
}
