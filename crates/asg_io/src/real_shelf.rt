//! The file system as a shelf.

ghost use Rattle.std.specs.Prelude.{◌≡◌, ◌<◌, ◌≤◌, [], None, length, take, IfOk, IfErr, IfSome};
ghost use Rattle.std.specs.Prelude.{IsErrOf};
ghost use Rattle.std.specs.Io.KnownBytes.{Consumes, IsAtEnd};
ghost use Rattle.asg_io.specs.Shelf.{most_faults, asked_after, faults_after};

use crate::fetch_log::FetchLog;
use crate::{FetchFault, Shelf};
use std::alloc::Global;
use std::fs;
use std::io::{ErrorKind, Read};
use std::marker::Model;
use std::rt::Files;

// How many bytes one read takes at most.
const PIECE: usize = 65536;

/// The files of the file system, by path. What they hold isn't told.
#[derive(Drop)]
pub struct RealShelf<R: Files + Drop> {
    files: R,
    log: FetchLog,
}

impl<R: Files + Drop> Model for RealShelf<R> {
    ghost use Rattle.asg_io.specs.FetchLog.{Fetches};

    ghost Value = { Fetches };

    ghost view = { λ shelf. shelf.log };
}

impl<R: Files + Drop> RealShelf<R> {
    /// A shelf over these files, of which nothing was asked.
    pub fn new(alloc: Global, files: R) -> Self
        ensures asked { result.asked ≡ [] }
        ensures faults { result.faults ≡ 0 }
    {
        RealShelf {
            files,
            log: FetchLog::new(alloc),
        }
    }

    // Opens a file and reads it to its end, or until it is too long.
    fn read(&self, alloc: Global, name: &str, limit: usize) -> Result<Vec<u8>, FetchFault>
        ensures within { IfOk result (λ bytes. length bytes.items ≤ limit) }
    {
        let mut buffer = vec![in alloc; 0u8; PIECE]?;
        let Ok(mut file) = fs::open(&self.files, name) else {
            return Err(FetchFault::Failed);
        };
        read_within(alloc, &mut file, &mut buffer, limit)
    }
}

impl<R: Files + Drop> Shelf for RealShelf<R> {
    ghost told = { λ shelf name. None };

    ghost asked = { λ shelf. shelf.asked };

    ghost faults = { λ shelf. shelf.faults };

    /// Reads a file whole, at most `limit` bytes. It stops with `TooLong` once it has read one byte
    /// more, and fails where the system can't open or read the file.
    fn fetch(&mut self, alloc: Global, name: &str, limit: usize) -> Result<Vec<u8>, FetchFault>
        ensures within { IfOk result (λ bytes. length bytes.items ≤ limit) }
        ensures asked { self.new.asked ≡ asked_after self.old.asked name.now result }
        ensures count { self.new.faults ≡ faults_after self.old.faults result }
        ensures never_falls { self.old.faults ≤ self.new.faults }
        ensures at_most { self.new.faults ≤ most_faults }
    {
        let copy = self.log.prepare(alloc, name)?;
        let answer = self.read(alloc, name, limit);
        self.log.note(copy, answer)
    }
}

// Reads on to the end, or until more than `limit` bytes are read. Each turn but the last reads a
// byte at least.
fn read_within<F: Read>(
    alloc: Global,
    file: &mut F,
    buffer: &mut [u8],
    limit: usize,
) -> Result<Vec<u8>, FetchFault>
    requires { 0 < length buffer.old }
    ensures contents { IfOk result (λ bytes.
        IfSome (F.remaining file.old) (λ held. bytes.items ≡ held)) }
    ensures within { IfOk result (λ bytes. length bytes.items ≤ limit) }
    ensures too_long { IsErrOf result FetchFault.TooLong
        → IfSome (F.remaining file.old) (λ held. limit < length held) }
{
    let mut bytes = Vec::new(alloc);
    'turns: loop {
        let left = limit - bytes.len();
        let most = left.saturating_add(1).min(buffer.len());
        let count = read_some(file, &mut buffer[..most])?;
        if count == 0 {
            return Ok(bytes);
        }
        if count > left {
            return Err(FetchFault::TooLong);
        }
        bytes.extend_from_slice(&buffer[..count])?;
    }
}

// One read, tried again while it is interrupted. It gives no byte only at the end.
fn read_some<F: Read>(file: &mut F, buffer: &mut [u8]) -> Result<usize, FetchFault>
    ensures within { IfOk result (λ count. count ≤ length buffer.new) }
    ensures bytes { IfOk result (λ count.
        Consumes (F.remaining file.old) (F.remaining file.new) (take count buffer.new)) }
    ensures end { IfOk result (λ count.
        count ≡ 0 → 0 < length buffer.new → IsAtEnd (F.remaining file.new)) }
    ensures failed { IfErr result (λ fault. fault ≡ FetchFault.Failed) }
{
    'tries: for _ in 0..u64::MAX {
        match file.read(buffer) {
            Ok(count) => return Ok(count),
            Err(error) if error.kind() == ErrorKind::Interrupted => {}
            Err(_) => return Err(FetchFault::Failed),
        }
    }
    Err(FetchFault::Failed)
}
