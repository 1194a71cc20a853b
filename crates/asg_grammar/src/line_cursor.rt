//! The lines of a file, one after the other.

ghost use Rattle.std.specs.Prelude.{◌≡◌, ◌↔◌, ◌++◌, [], ◌∷◌, ℕ, List, length, IsTrue, MatchOption, MatchResult};
ghost use Rattle.asg_grammar.specs.Lines.{whole_lines, line_ends};
ghost use Rattle.asg_grammar.specs.Parts.{the_line, one_line};
ghost use Rattle.asg_grammar.specs.Reading.{Reads, ReadsOrFails, ReadsLine};
ghost use Rattle.asg_grammar.specs.Spellings.{behind, positive_spelling, signed_spelling, pair_spelling, signed_pair_spelling, list_spelling};

use crate::byte_cuts::{after, cut};
use crate::faults::{Fault, Refusal};
use crate::fields::{leading_pair, numbers, pair, positive, signed_pair};
use crate::list_lines::leading_list;
use crate::number_lists::Numbers;
use crate::numerals::signed_number;
use std::alloc::Global;
use std::marker::Model;

/// The lines of a file that are left, each ended by LF. Bytes after the last LF are no line.
#[derive(Drop)]
pub struct Lines<'a> {
    rest: &'a [u8],
    // How many numbers the list that was read last has: the next one is given room for so many.
    room: usize,
}

impl<'a> Model for Lines<'a> {
    ghost use Rattle.std.specs.Prelude.{List, ℕ};
    ghost use Rattle.asg_grammar.specs.Lines.{whole_lines};

    ghost Value = { List (List ℕ) };

    ghost view = { λ lines. whole_lines lines.rest.now };
}

impl<'a> Lines<'a> {
    /// The lines of a file.
    pub fn of(file: &'a [u8]) -> Lines<'a>
        ensures { result ≡ whole_lines file.now }
    {
        Lines {
            rest: file,
            room: 0,
        }
    }

    // The next line, and the lines after it.
    fn first(&self) -> Option<(&'a [u8], Lines<'a>)>
        ensures { MatchOption result (self.now ≡ []) (λ parts. self.now ≡ parts.0.now ∷ parts.1) }
    {
        let (line, rest) = cut(b'\n', self.rest);
        let rest = after(b"\n", rest)?;
        let room = self.room;
        Some((line, Lines { rest, room }))
    }

    /// Whether no line is left.
    pub fn is_empty(&self) -> bool
        ensures { IsTrue result ↔ (self.now ≡ []) }
    {
        self.first().is_none()
    }

    /// The number of lines that are left. It goes through them.
    pub fn len(&self) -> usize
        ensures { result ≡ length self.now }
    {
        count_ends(self.rest)
    }

    /// What the next line says behind its front, and the lines after it. The error comes where no
    /// line is left or the next begins otherwise.
    pub fn next_behind(&self, front: &[u8]) -> Result<(&'a [u8], Lines<'a>), Refusal>
        ensures { MatchResult result
            (λ parts. self.now ≡ (front.now ++ parts.0.now) ∷ parts.1)
            (λ _. (text : List ℕ) (more : List (List ℕ))
            → self.now ≡ (front.now ++ text) ∷ more → ⊥) }
    {
        let Some((line, left)) = self.first() else {
            return Err(Refusal);
        };
        let Some(text) = after(front, line) else {
            return Err(Refusal);
        };
        Ok((text, left))
    }

    /// Goes past the next line where it is this one; else it stays.
    pub fn pass(&mut self, line: &[u8]) -> Result<(), Refusal>
        ensures { Reads (the_line line.now) self.old self.new result }
    {
        let Some((first, left)) = self.first() else {
            return Err(Refusal);
        };
        if first != line {
            return Err(Refusal);
        }
        *self = left;
        Ok(())
    }

    /// What the next line spells behind its front, as the function tells, and goes past it. It
    /// stays where no line is left, where the next begins otherwise, and where the function tells
    /// nothing.
    pub fn read<T, F: FnOnce(&[u8]) -> Option<T>>(
        &mut self,
        front: &[u8],
        spelled: F,
    ) -> Result<T, Refusal>
        requires { F.IsAlwaysCallable spelled }
        ensures { ReadsLine F.FnOnce spelled front.now self.old self.new result }
    {
        let (text, left) = self.next_behind(front)?;
        let Some(value) = spelled(text) else {
            return Err(Refusal);
        };
        *self = left;
        Ok(value)
    }

    /// The number of 1 to 2^32 - 1 that the next line spells behind its front, and goes past it.
    pub fn positive(&mut self, front: &[u8]) -> Result<u32, Refusal>
        ensures { Reads (one_line (behind front.now positive_spelling)) self.old self.new result }
    {
        self.read(front, positive)
    }

    /// The signed number of 128 bits that the next line spells behind its front, and goes past it.
    pub fn signed(&mut self, front: &[u8]) -> Result<i128, Refusal>
        ensures { Reads (one_line (behind front.now signed_spelling)) self.old self.new result }
    {
        self.read(front, signed_number)
    }

    /// The two signed numbers of 128 bits that the next line spells behind its front, with a colon
    /// between them, and goes past it.
    pub fn signed_pair(&mut self, front: &[u8]) -> Result<(i128, i128), Refusal>
        ensures { Reads (one_line (behind front.now signed_pair_spelling))
            self.old self.new result }
    {
        self.read(front, signed_pair)
    }

    /// The two numbers that the next line spells, with a space between them, and goes past it.
    /// They are read in one pass.
    pub fn pair(&mut self) -> Result<(u32, u32), Refusal>
        ensures { Reads (one_line pair_spelling) self.old self.new result }
    {
        if let Some((pair, rest)) = leading_pair(self.rest) {
            self.rest = rest;
            return Ok(pair);
        }
        self.read(b"", pair)
    }

    /// The numbers that the next line lists behind its front, in which no LF stands, and goes past
    /// it. They alone take memory: at first room for as many as the list read before them has.
    pub fn numbers(&mut self, alloc: Global, front: &[u8]) -> Result<Numbers, Fault>
        requires { line_ends front.now ≡ 0 }
        ensures { ReadsOrFails (one_line (behind front.now list_spelling))
            self.old self.new result }
    {
        if let Some((listed, rest)) = leading_list(alloc, self.room, front, self.rest)? {
            let room = listed.len();
            *self = Lines { rest, room };
            return Ok(listed);
        }
        let (text, left) = self.next_behind(front)?;
        let numbers = numbers(alloc, text)?;
        *self = left;
        Ok(numbers)
    }
}

/// The number of LF.
pub fn count_ends(bytes: &[u8]) -> usize
    ensures { result ≡ line_ends bytes.now }
{
    bytes.iter().filter(|byte| **byte == b'\n').count()
}
