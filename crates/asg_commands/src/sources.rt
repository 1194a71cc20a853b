//! The contents of the files of a job.

ghost use Rattle.std.specs.Prelude.{◌≡◌, ◌≢◌, ◌≤◌, ℕ, ◌++◌, ◌∷◌, [], IfOk, length};
ghost use Rattle.asg_model.specs.Limits.{longest_file};
ghost use Rattle.asg_promises.specs.Sources.{AreShort, content_at};

use asg_model::NoMemory;
use std::alloc::Global;
use std::marker::Model;

/// The contents of files, in the order in which they were fetched. None is too long.
#[derive(Drop)]
pub struct Sources {
    files: Vec<Vec<u8>>,
}

impl Model for Sources {
    ghost use Rattle.std.specs.Prelude.{List, ℕ, All, ◌≤◌, length, map};
    ghost use Rattle.asg_model.specs.Limits.{longest_file};

    ghost Value = { List (List ℕ) };

    ghost view = { λ sources. map (λ file. file.items) sources.files.items };

    ghost invariant = { λ sources.
        All (λ file. length file.items ≤ longest_file) sources.files.items };
}

impl Sources {
    /// No file.
    pub fn none(alloc: Global) -> Sources
        ensures { result ≡ [] }
    {
        Sources {
            files: Vec::new(alloc),
        }
    }

    /// Appends the contents of a file. The error is want of memory.
    pub fn push(&mut self, file: Vec<u8>) -> Result<(), NoMemory>
        requires { length file.items ≤ longest_file }
        ensures { IfOk result (λ _. self.new ≡ self.old ++ file.items ∷ []) }
    {
        self.files.push(file)?;
        Ok(())
    }

    /// The contents of the file at a place, counted from 0, which the sources have no longer; no
    /// bytes where there is none. All other contents stay.
    pub fn take(&mut self, alloc: Global, place: usize) -> Vec<u8>
        ensures bytes { result.items ≡ content_at self.old place }
        ensures within { length result.items ≤ longest_file }
        ensures short { AreShort self.old }
        ensures others { (k : ℕ) → k ≢ place → content_at self.new k ≡ content_at self.old k }
    {
        let _ = self.at(place);
        if place < self.files.len() {
            std::mem::replace(&mut self.files[place], Vec::new(alloc))
        } else {
            Vec::new(alloc)
        }
    }

    /// The contents of the file at a place, counted from 0; no bytes where there is none.
    pub fn at(&self, place: usize) -> &[u8]
        ensures bytes { result.now ≡ content_at self.now place }
        ensures within { length result.now ≤ longest_file }
        ensures short { AreShort self.now }
    {
        match self.files.get(place) {
            Some(file) => file.as_slice(),
            None => &[],
        }
    }
}
