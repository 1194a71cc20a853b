//! A sink in memory, whose puts fail by number and where the room ends.

ghost use Rattle.std.specs.Prelude.{◌≡◌, ◌≤◌, ◌++◌, ◌==◌, [], Some, find, IsOk, IsErr, is_err};
ghost use Rattle.std.specs.Prelude.{is_ok, if◌then◌else◌, IfOk, OnOk, OnErr, length, take};
ghost use Rattle.std.specs.Prelude.{option_map};
ghost use Rattle.asg_io.specs.Shelf.{Rose, most_faults, risen};
ghost use Rattle.asg_io.specs.Sink.{Puts, PutsPrefix};
ghost use Rattle.asg_io.specs.MemorySink.{room_left, puts_after, is_failing_put, taken_by_put};

use crate::{NoMemory, PutFault, Sink};
use std::alloc::Global;
use std::marker::Model;

/// Bytes in memory, with room for so many. Chosen puts fail, as do those of pieces that have no
/// room.
#[derive(Drop)]
pub struct MemorySink {
    bytes: Vec<u8>,
    room: usize,
    puts: u64,
    fails: Vec<(u32, u32)>,
    faults: u64,
}

impl Model for MemorySink {
    ghost use Rattle.std.specs.Prelude.{◌≤◌, vec_len, vec_capacity};
    ghost use Rattle.asg_io.specs.Shelf.{most_faults};
    ghost use Rattle.asg_io.specs.MemorySink.{HeldBytes, most_puts};

    ghost Value = { HeldBytes };

    ghost view = { λ sink. record {
      written = sink.bytes.items;
      room = sink.room;
      puts = sink.puts;
      fails = sink.fails.items;
      faults = sink.faults;
    } };

    ghost invariant = { λ sink. (vec_len sink.bytes ≤ sink.room)
        × (sink.room ≤ vec_capacity sink.bytes)
        × (sink.puts ≤ most_puts) × (sink.faults ≤ most_faults) };
}

impl MemorySink {
    /// An empty sink with room for so many bytes, whose memory it takes at once.
    ///
    /// Puts of pieces that aren't empty are numbered from 1. Those whose number is the first member
    /// of a pair of `fails` fail, and take at most as many bytes as the second member of the first
    /// such pair says.
    pub fn with(alloc: Global, room: u32, fails: Vec<(u32, u32)>) -> Result<Self, NoMemory>
        ensures written { IfOk result (λ sink. sink.written ≡ []) }
        ensures room { IfOk result (λ sink. sink.room ≡ room) }
        ensures puts { IfOk result (λ sink. sink.puts ≡ 0) }
        ensures fails { IfOk result (λ sink. sink.fails ≡ fails.items) }
        ensures faults { IfOk result (λ sink. sink.faults ≡ 0) }
    {
        let room = room as usize;
        Ok(MemorySink {
            bytes: Vec::with_capacity(alloc, room)?,
            room,
            puts: 0,
            fails,
            faults: 0,
        })
    }

    /// What was written.
    pub fn bytes(&self) -> &[u8]
        ensures { result.now ≡ self.now.written }
    {
        &self.bytes
    }

    // Writes a piece that the room has a place for.
    fn append(&mut self, piece: &[u8])
        requires { length piece.now ≤ room_left self.old }
        ensures { self.new ≡ record self.old { written = self.old.written ++ piece.now } }
    {
        let Ok(()) = self.bytes.extend_from_slice(piece) else {
            unreachable!();
        };
    }

    // Fails after so many bytes of the piece.
    fn fail(&mut self, piece: &[u8], taken: usize) -> Result<(), PutFault>
        requires within { taken ≤ length piece.now }
        requires room { taken ≤ room_left self.old }
        ensures answer { IsErr result }
        ensures state { self.new ≡ record self.old {
          written = self.old.written ++ take taken piece.now;
          faults = risen self.old.faults;
        } }
        ensures prefix { PutsPrefix (Some self.old.written) (Some self.new.written) piece.now }
    {
        self.append(&piece[..taken]);
        self.faults = self.faults.saturating_add(1);
        Err(PutFault)
    }
}

impl Sink for MemorySink {
    ghost written = { λ sink. Some sink.written };

    ghost faults = { λ sink. sink.faults };

    /// Writes a piece whole, or fails after some prefix of it. It takes no memory.
    ///
    /// It fails where it is one of the puts that do, or the piece is longer than the room that is
    /// left, and nowhere else.
    fn put(&mut self, piece: &[u8]) -> Result<(), PutFault>
        // What each sink promises.
        ensures whole { OnOk result
            (Puts (Some self.old.written) (Some self.new.written) piece.now) }
        ensures prefix { OnErr result
            (PutsPrefix (Some self.old.written) (Some self.new.written) piece.now) }
        ensures failed { OnErr result (Rose self.old.faults self.new.faults) }
        ensures never_falls { self.old.faults ≤ self.new.faults }
        ensures at_most { self.new.faults ≤ most_faults }
        ensures empty { piece.now ≡ [] → IsOk result }
        ensures empty_count { piece.now ≡ [] → self.new.faults ≡ self.old.faults }

        // When it fails, how much it takes, and what stays.
        ensures fails { is_err result ≡ is_failing_put self.old piece.now }
        ensures taken { self.new.written
            ≡ self.old.written ++ take (taken_by_put self.old piece.now) piece.now }
        ensures count { self.new.faults
            ≡ (if is_ok result then self.old.faults else risen self.old.faults) }
        ensures number { self.new.puts ≡ puts_after self.old piece.now }
        ensures room { self.new.room ≡ self.old.room }
        ensures numbers { self.new.fails ≡ self.old.fails }
    {
        let left = self.room - self.bytes.len();
        if piece.is_empty() {
            return Ok(());
        }
        self.puts = self.puts.saturating_add(1);
        match cut_at(&self.fails, self.puts) {
            None if piece.len() <= left => {
                self.append(piece);
                Ok(())
            }
            None => self.fail(piece, left),
            Some(cut) => self.fail(piece, piece.len().min(left).min(cut as usize)),
        }
    }
}

// The second member of the first pair with the number.
fn cut_at(fails: &[(u32, u32)], number: u64) -> Option<u32>
    ensures { result ≡ option_map (λ fail. fail.1) (find (λ fail. fail.0 == number) fails.now) }
{
    fails
        .iter()
        .find(|fail| u64::from(fail.0) == number)
        .map(|fail| fail.1)
}
