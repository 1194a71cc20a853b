//! A writer as a sink.

ghost use Rattle.std.specs.Prelude.{◌≡◌, ◌≤◌, [], length, take, IsTrue, IsOk, OnOk, OnErr, is_ok};
ghost use Rattle.std.specs.Prelude.{if◌then◌else◌};
ghost use Rattle.std.specs.Io.KnownBytes.{Appends};
ghost use Rattle.asg_io.specs.Shelf.{Rose, most_faults, risen};
ghost use Rattle.asg_io.specs.Sink.{Puts, PutsPrefix};

use crate::{PutFault, Sink};
use std::io::{ErrorKind, Write};
use std::marker::Model;

/// A writer, such as the standard output. What was written is what the writer tells that it holds:
/// a file or the standard output tells nothing.
#[derive(Drop)]
pub struct RealSink<W: Write + Drop> {
    out: W,
    faults: u64,
}

impl<W: Write + Drop> Model for RealSink<W> {
    ghost use Rattle.std.specs.Prelude.{◌≤◌};
    ghost use Rattle.asg_io.specs.RealSink.{WriterState};
    ghost use Rattle.asg_io.specs.Shelf.{most_faults};

    ghost Value = { WriterState };

    ghost view = { λ sink. record { written = W.contents sink.out; faults = sink.faults } };

    ghost invariant = { λ sink. sink.faults ≤ most_faults };
}

impl<W: Write + Drop> RealSink<W> {
    /// A sink over the writer, in which nothing was put yet.
    pub fn new(out: W) -> Self
        ensures written { result.written ≡ W.contents out }
        ensures faults { result.faults ≡ 0 }
    {
        RealSink { out, faults: 0 }
    }
}

impl<W: Write + Drop> Sink for RealSink<W> {
    ghost written = { λ sink. sink.written };

    ghost faults = { λ sink. sink.faults };

    /// Writes a piece whole, at once. It fails where the writer does, or takes nothing of what is
    /// left.
    fn put(&mut self, piece: &[u8]) -> Result<(), PutFault>
        // What each sink promises.
        ensures whole { OnOk result (Puts self.old.written self.new.written piece.now) }
        ensures prefix { OnErr result (PutsPrefix self.old.written self.new.written piece.now) }
        ensures failed { OnErr result (Rose self.old.faults self.new.faults) }
        ensures never_falls { self.old.faults ≤ self.new.faults }
        ensures at_most { self.new.faults ≤ most_faults }
        ensures empty { piece.now ≡ [] → IsOk result }
        ensures empty_count { piece.now ≡ [] → self.new.faults ≡ self.old.faults }

        // One more fault where it fails.
        ensures count { self.new.faults
            ≡ (if is_ok result then self.old.faults else risen self.old.faults) }
    {
        if write_whole(&mut self.out, piece) {
            return Ok(());
        }
        self.faults = self.faults.saturating_add(1);
        Err(PutFault)
    }
}

// Whether the writer took the piece whole. Each turn sends a byte at least, or is the last.
fn write_whole<W: Write>(out: &mut W, piece: &[u8]) -> bool
    ensures whole { IsTrue result → Puts (W.contents out.old) (W.contents out.new) piece.now }
    ensures prefix { PutsPrefix (W.contents out.old) (W.contents out.new) piece.now }
    ensures empty { piece.now ≡ [] → IsTrue result }
{
    let mut sent = 0;
    'turns: while sent < piece.len() {
        let count = write_some(out, &piece[sent..]);
        if count == 0 {
            return false;
        }
        sent += count;
    }
    true
}

// How many bytes one write took, none where it failed. It is tried again while it is interrupted.
fn write_some<W: Write>(out: &mut W, piece: &[u8]) -> usize
    ensures within { result ≤ length piece.now }
    ensures bytes { Appends (W.contents out.old) (W.contents out.new) (take result piece.now) }
{
    'tries: for _ in 0..u64::MAX {
        match out.write(piece) {
            Ok(count) => return count,
            Err(error) if error.kind() == ErrorKind::Interrupted => {}
            Err(_) => return 0,
        }
    }
    0
}
