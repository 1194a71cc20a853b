//! What a shelf keeps of the fetches so far.

ghost use Rattle.std.specs.Prelude.{◌≡◌, ◌⊎◌, ◌<◌, ◌≤◌, ◌^◌, [], length, IfOk, IsErrOf};
ghost use Rattle.std.specs.Prelude.{string_bytes};
ghost use Rattle.asg_io.specs.Shelf.{most_faults, asked_after, faults_after};

use crate::FetchFault;
use std::alloc::{AllocError, Global};
use std::marker::Model;

// The names asked, the first one first, and the count of faults.
#[derive(Drop)]
pub struct FetchLog {
    asked: Vec<String>,
    faults: u64,
}

impl Model for FetchLog {
    ghost use Rattle.std.specs.Prelude.{◌≤◌, map, string_bytes};
    ghost use Rattle.asg_io.specs.Shelf.{most_faults};
    ghost use Rattle.asg_io.specs.FetchLog.{Fetches};

    ghost Value = { Fetches };

    ghost view = { λ log. record {
      asked = map string_bytes log.asked.items;
      faults = log.faults;
    } };

    ghost invariant = { λ log. log.faults ≤ most_faults };
}

impl FetchLog {
    // A log of no fetch.
    pub fn new(alloc: Global) -> Self
        ensures asked { result.asked ≡ [] }
        ensures faults { result.faults ≡ 0 }
    {
        FetchLog {
            asked: Vec::new(alloc),
            faults: 0,
        }
    }

    // How many names were asked, far below the greatest `u64`.
    pub fn count(&self) -> u64
        ensures count { result ≡ length self.now.asked }
        ensures below { result < 2 ^ 63 }
    {
        self.asked.len() as u64
    }

    // Takes the memory for a name, and for a place among those asked.
    pub fn prepare(&mut self, alloc: Global, name: &str) -> Result<String, AllocError>
        ensures copied { IfOk result (λ copy. string_bytes copy ≡ name.now) }
        ensures same { self.new ≡ self.old }
        ensures at_most { self.new.faults ≤ most_faults }
    {
        self.asked.reserve(1)?;
        String::from_str(alloc, name)
    }

    // Notes a fetch of the name, and passes its answer on. One for which memory was wanting leaves
    // no trace.
    pub fn note(
        &mut self,
        name: String,
        answer: Result<Vec<u8>, FetchFault>,
    ) -> Result<Vec<u8>, FetchFault>
        ensures answer { (result ≡ answer) ⊎ IsErrOf result FetchFault.NoMemory }
        ensures asked { self.new.asked ≡ asked_after self.old.asked (string_bytes name) result }
        ensures count { self.new.faults ≡ faults_after self.old.faults result }
        ensures at_most { self.new.faults ≤ most_faults }
    {
        match answer {
            Ok(bytes) => {
                self.asked.push(name)?;
                Ok(bytes)
            }
            Err(FetchFault::NoMemory) => Err(FetchFault::NoMemory),
            Err(FetchFault::TooLong) => {
                self.asked.push(name)?;
                Err(FetchFault::TooLong)
            }
            Err(FetchFault::Failed) => {
                self.asked.push(name)?;
                self.faults = self.faults.saturating_add(1);
                Err(FetchFault::Failed)
            }
        }
    }
}
