//! The names of files.

ghost use Rattle.std.specs.Prelude.{◌≡◌, IfOk, string_bytes};

use std::alloc::{AllocError, Global};
use std::marker::Model;

/// The name of a file, as a word of the command line gives it. It may be empty.
#[derive(Drop)]
pub struct FileName {
    text: String,
}

impl Model for FileName {
    ghost use Rattle.std.specs.Prelude.{List, ℕ, string_bytes};

    ghost Value = { List ℕ };

    ghost view = { λ name. string_bytes name.text };
}

impl FileName {
    /// The name that a word spells. The error is want of memory.
    pub fn from_word(alloc: Global, word: &str) -> Result<FileName, AllocError>
        ensures { IfOk result (λ name. name ≡ word.now) }
    {
        Ok(FileName {
            text: String::from_str(alloc, word)?,
        })
    }

    /// The name as text.
    pub fn as_str(&self) -> &str
        ensures { result.now ≡ self.now }
    {
        self.text.as_str()
    }
}
