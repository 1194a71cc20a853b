//! Where bytes are put, one piece after another.

ghost use Rattle.std.specs.Prelude.{◌≡◌, ◌≤◌, ℕ, List, [], Option, IsOk, OnOk, OnErr};
ghost use Rattle.asg_io.specs.Shelf.{Rose, most_faults};
ghost use Rattle.asg_io.specs.Sink.{Puts, PutsPrefix};

use std::fmt;

/// A put failed: the sink had a fault, which is counted.
#[derive(Clone, Copy, PartialEq, Eq)]
pub struct PutFault;

impl fmt::Display for PutFault {
    fn fmt<W: fmt::Write>(&self, f: &mut fmt::Formatter<W>) -> fmt::Result {
        write!(f, "the bytes can't be written")
    }
}

/// Takes bytes, piece by piece.
pub trait Sink {
    /// The bytes written so far, where the sink tells them.
    ghost written: { Self → Option (List ℕ) };

    /// How often a put has failed. The count stands still at 2^64 - 1.
    ghost faults: { Self → ℕ };

    /// Writes a piece whole, or fails after some prefix of it.
    fn put(&mut self, piece: &[u8]) -> Result<(), PutFault>
        // What is written.
        ensures whole { OnOk result (Puts (written self.old) (written self.new) piece.now) }
        ensures prefix { OnErr result (PutsPrefix (written self.old) (written self.new) piece.now) }

        // The count of faults.
        ensures failed { OnErr result (Rose (faults self.old) (faults self.new)) }
        ensures never_falls { faults self.old ≤ faults self.new }
        ensures at_most { faults self.new ≤ most_faults }

        // A put of nothing has no fault.
        ensures empty { piece.now ≡ [] → IsOk result }
        ensures empty_count { piece.now ≡ [] → faults self.new ≡ faults self.old };
}
