//! Why a part isn't read.

ghost use Rattle.std.specs.Prelude.{◌≡◌};
ghost use Rattle.asg_grammar.specs.declared.faults.Fault.TheVariants.{Refused, NoMemory};

use std::alloc::{AllocError, AllocFailed};
use std::fmt;

/// What stands next is none of the part's texts: the one error of readers that take no memory.
#[derive(Clone, Copy, PartialEq, Eq)]
pub struct Refusal;

impl fmt::Display for Refusal {
    fn fmt<W: fmt::Write>(&self, f: &mut fmt::Formatter<W>) -> fmt::Result {
        write!(f, "what stands next isn't what is to stand there")
    }
}

/// Why a part isn't read by a reader that takes memory.
#[derive(Clone, Copy, PartialEq, Eq)]
pub enum Fault {
    /// What stands next is none of the part's texts.
    Refused,
    /// Want of memory.
    NoMemory,
}

impl fmt::Display for Fault {
    fn fmt<W: fmt::Write>(&self, f: &mut fmt::Formatter<W>) -> fmt::Result {
        match self {
            Fault::Refused => write!(f, "what stands next isn't what is to stand there"),
            Fault::NoMemory => write!(f, "out of memory"),
        }
    }
}

impl From<Refusal> for Fault {
    ghost from_gives = { λ _ fault. fault ≡ Refused };

    fn from(_refusal: Refusal) -> Fault {
        Fault::Refused
    }
}

impl From<AllocError> for Fault {
    ghost from_gives = { λ _ fault. fault ≡ NoMemory };

    fn from(_error: AllocError) -> Fault {
        Fault::NoMemory
    }
}

impl<T: Drop> From<AllocFailed<T>> for Fault {
    ghost from_gives = { λ _ fault. fault ≡ NoMemory };

    fn from(_error: AllocFailed<T>) -> Fault {
        Fault::NoMemory
    }
}
