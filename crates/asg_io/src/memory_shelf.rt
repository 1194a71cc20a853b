//! A shelf in memory, whose fetches fail by number.

ghost use Rattle.std.specs.Prelude.{◌≡◌, ◌<◌, ◌≤◌, ◌==◌, [], length, map, find, option_map};
ghost use Rattle.std.specs.Prelude.{option_copied, IfOk, IfSome, IsErr, IsErrOf, string_bytes};
ghost use Rattle.std.specs.Prelude.{bytes_eq};
ghost use Rattle.std.specs.List.{list_any};
ghost use Rattle.asg_io.specs.Shelf.{Rose, most_faults, asked_after, faults_after, FailsWhere};
ghost use Rattle.asg_io.specs.Shelf.{AnswersFor};
ghost use Rattle.asg_io.specs.MemoryShelf.{file_bytes, contents_of, fetch_number, is_failing_fetch};

use crate::fetch_log::FetchLog;
use crate::{FetchFault, Shelf};
use std::alloc::Global;
use std::marker::Model;

/// Files in memory by name. Chosen fetches fail, as do those of names that aren't held.
#[derive(Drop)]
pub struct MemoryShelf {
    files: Vec<(String, Vec<u8>)>,
    fails: Vec<u32>,
    log: FetchLog,
}

impl Model for MemoryShelf {
    ghost use Rattle.std.specs.Prelude.{map};
    ghost use Rattle.asg_io.specs.MemoryShelf.{HeldFiles, file_bytes};

    ghost Value = { HeldFiles };

    ghost view = { λ shelf. record {
      files = map file_bytes shelf.files.items;
      fails = shelf.fails.items;
      asked = shelf.log.asked;
      faults = shelf.log.faults;
    } };
}

impl MemoryShelf {
    /// A shelf of these files, of which the first with a name counts. It takes no memory.
    ///
    /// Fetches are numbered from 1, and those whose numbers are in `fails` fail.
    pub fn with(alloc: Global, files: Vec<(String, Vec<u8>)>, fails: Vec<u32>) -> Self
        ensures files { result.files ≡ map file_bytes files.items }
        ensures fails { result.fails ≡ fails.items }
        ensures asked { result.asked ≡ [] }
        ensures faults { result.faults ≡ 0 }
    {
        MemoryShelf {
            files,
            fails,
            log: FetchLog::new(alloc),
        }
    }

    // The contents of the first file with the name.
    #[tactic(auto, using(crate::proofs::Files::held_contents))]
    fn held(&self, name: &str) -> Option<&[u8]>
        ensures { option_map (λ bytes. bytes.now) result ≡ contents_of self.now.files name.now }
    {
        let file = file_named(&self.files, name)?;
        Some(file.1.as_slice())
    }

    // Whether the next fetch is one of those that fail.
    fn is_numbered(&self) -> bool
        ensures { result ≡ list_any (λ n. n == fetch_number self.now) self.now.fails }
    {
        is_listed(&self.fails, self.log.count() + 1)
    }

    // The answer to the next fetch.
    fn answer(&self, alloc: Global, name: &str, limit: usize) -> Result<Vec<u8>, FetchFault>
        ensures fails { FailsWhere (is_failing_fetch self.now name.now) result }
        ensures held { AnswersFor (contents_of self.now.files name.now) limit result }
    {
        if self.is_numbered() {
            return Err(FetchFault::Failed);
        }
        match self.held(name) {
            None => Err(FetchFault::Failed),
            Some(bytes) if bytes.len() > limit => Err(FetchFault::TooLong),
            Some(bytes) => Ok(bytes.to_vec(alloc)?),
        }
    }
}

impl Shelf for MemoryShelf {
    ghost told = { λ shelf. contents_of shelf.files };

    ghost asked = { λ shelf. shelf.asked };

    ghost faults = { λ shelf. shelf.faults };

    /// Gives the contents of the first file with the name, at most `limit` bytes.
    ///
    /// It fails where it is one of the fetches that do, or the name isn't held, and nowhere else.
    fn fetch(&mut self, alloc: Global, name: &str, limit: usize) -> Result<Vec<u8>, FetchFault>
        // What each shelf promises.
        ensures contents { IfOk result (λ bytes.
            IfSome (contents_of self.old.files name.now) (λ held. bytes.items ≡ held)) }
        ensures within { IfOk result (λ bytes. length bytes.items ≤ limit) }
        ensures too_long { IsErrOf result FetchFault.TooLong
            → IfSome (contents_of self.old.files name.now) (λ held. limit < length held) }
        ensures longer { IfSome (contents_of self.old.files name.now) (λ held.
            limit < length held → IsErr result) }
        ensures failed { IsErrOf result FetchFault.Failed → Rose self.old.faults self.new.faults }
        ensures kept { contents_of self.new.files ≡ contents_of self.old.files }
        ensures asked { self.new.asked ≡ asked_after self.old.asked name.now result }
        ensures never_falls { self.old.faults ≤ self.new.faults }
        ensures at_most { self.new.faults ≤ most_faults }
        ensures no_memory { IsErrOf result FetchFault.NoMemory → self.new.faults ≡ self.old.faults }

        // When it fails, and what stays.
        ensures fails { FailsWhere (is_failing_fetch self.old name.now) result }
        ensures count { self.new.faults ≡ faults_after self.old.faults result }
        ensures files { self.new.files ≡ self.old.files }
        ensures numbers { self.new.fails ≡ self.old.fails }
    {
        let copy = self.log.prepare(alloc, name)?;
        let answer = self.answer(alloc, name, limit);
        self.log.note(copy, answer)
    }
}

// The first file with the name.
fn file_named<'a>(files: &'a [(String, Vec<u8>)], name: &str) -> Option<&'a (String, Vec<u8>)>
    ensures { option_copied result
        ≡ find (λ file. bytes_eq (string_bytes file.0) name.now) files.now }
{
    files.iter().find(|file| file.0.as_str() == name)
}

fn is_listed(numbers: &[u32], number: u64) -> bool
    ensures { result ≡ list_any (λ n. n == number) numbers.now }
{
    numbers.iter().any(|n| u64::from(*n) == number)
}
