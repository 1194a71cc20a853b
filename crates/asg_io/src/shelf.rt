//! Where files are fetched by name.

ghost use Rattle.std.specs.Prelude.{◌≡◌, ◌<◌, ◌≤◌, ℕ, List, Option, length, IfOk, IfSome, IsErr};
ghost use Rattle.std.specs.Prelude.{IsErrOf};
ghost use Rattle.asg_io.specs.declared.shelf.FetchFault.TheVariants.{NoMemory};
ghost use Rattle.asg_io.specs.Shelf.{Rose, most_faults, asked_after};

use std::alloc::{AllocError, AllocFailed, Global};
use std::fmt;

/// Why a fetch gave no contents.
#[derive(Clone, Copy, PartialEq, Eq)]
pub enum FetchFault {
    /// Memory was wanting; nothing was asked.
    NoMemory,
    /// The file couldn't be opened or read.
    Failed,
    /// The contents are longer than the limit.
    TooLong,
}

impl fmt::Display for FetchFault {
    fn fmt<W: fmt::Write>(&self, f: &mut fmt::Formatter<W>) -> fmt::Result {
        match self {
            FetchFault::NoMemory => write!(f, "out of memory"),
            FetchFault::Failed => write!(f, "the file can't be opened or read"),
            FetchFault::TooLong => write!(f, "the file is longer than the limit"),
        }
    }
}

impl From<AllocError> for FetchFault {
    ghost from_gives = { λ _ fault. fault ≡ NoMemory };

    fn from(_: AllocError) -> Self {
        FetchFault::NoMemory
    }
}

impl<T: Drop> From<AllocFailed<T>> for FetchFault {
    ghost from_gives = { λ _ fault. fault ≡ NoMemory };

    fn from(_: AllocFailed<T>) -> Self {
        FetchFault::NoMemory
    }
}

/// Holds files, and gives their contents by name.
pub trait Shelf {
    /// The contents by name, where the shelf tells them.
    ghost told: { Self → List ℕ → Option (List ℕ) };

    /// The names asked so far, the first one first.
    ghost asked: { Self → List (List ℕ) };

    /// How often a fetch has failed. The count stands still at 2^64 - 1.
    ghost faults: { Self → ℕ };

    /// Gives the contents of a name, at most `limit` bytes.
    ///
    /// `TooLong` says that they are longer, `Failed` that the shelf had a fault, which is counted,
    /// and `NoMemory` that memory was wanting: then the shelf is as it was, and the name counts as
    /// not asked.
    fn fetch(&mut self, alloc: Global, name: &str, limit: usize) -> Result<Vec<u8>, FetchFault>
        // The answer.
        ensures contents { IfOk result (λ bytes.
            IfSome (told self.old name.now) (λ held. bytes.items ≡ held)) }
        ensures within { IfOk result (λ bytes. length bytes.items ≤ limit) }
        ensures too_long { IsErrOf result FetchFault.TooLong
            → IfSome (told self.old name.now) (λ held. limit < length held) }
        ensures longer { IfSome (told self.old name.now) (λ held.
            limit < length held → IsErr result) }
        ensures failed { IsErrOf result FetchFault.Failed
            → Rose (faults self.old) (faults self.new) }

        // The shelf after the call.
        ensures kept { told self.new ≡ told self.old }
        ensures asked { asked self.new ≡ asked_after (asked self.old) name.now result }
        ensures never_falls { faults self.old ≤ faults self.new }
        ensures at_most { faults self.new ≤ most_faults }
        ensures no_memory { IsErrOf result FetchFault.NoMemory
            → faults self.new ≡ faults self.old };
}
