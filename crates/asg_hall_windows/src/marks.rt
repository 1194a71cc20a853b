//! Marks for pairs of numbers, which are set and never taken back.

ghost use Rattle.std.specs.Prelude.{◌≡◌, ◌↔◌, ℕ, ◌+◌, ◌*◌, ◌<◌, ◌≤◌, IfOk, IsTrue, length, slice_index};
ghost use Rattle.asg_bit_rows.specs.WordBits.{HasBit};
ghost use Rattle.asg_hall_windows.specs.Limits.{most_windows};
ghost use Rattle.asg_hall_windows.specs.Marks.{HasRoom, IsMarked, KeepsMarks, word_place};

use crate::NoMemory;
use std::alloc::Global;

// A bit for each line, a row or a column, and each window: as many words a line as the windows
// need, line by line.
#[derive(Drop)]
pub(crate) struct Marks {
    pub(crate) width: usize,
    pub(crate) words: Vec<u64>,
}

impl Marks {
    // For so many lines and windows, none marked. The error is want of memory.
    pub(crate) fn make(alloc: Global, lines: usize, windows: usize) -> Result<Marks, NoMemory>
        requires few_lines { lines ≤ 1000 }
        requires few_windows { windows ≤ most_windows }
        ensures { IfOk result (HasRoom lines windows) }
    {
        let width = windows.div_ceil(64);
        let words = vec![in alloc; 0; lines * width]?;
        Ok(Marks { width, words })
    }

    // Whether the line is marked for the window.
    #[inline]
    pub(crate) fn has(&self, line: usize, window: usize) -> bool
        requires { word_place self.now line window < length self.now.words.items }
        ensures { IsTrue result ↔ IsMarked self.now line window }
    {
        self.words[line * self.width + window / 64] >> (window % 64) & 1 == 1
    }

    // Adds marks of a line, as the bits of one of its words.
    #[inline]
    pub(crate) fn add(&mut self, line: usize, number: usize, bits: u64)
        requires { line * self.old.width + number < length self.old.words.items }
        ensures kept { KeepsMarks self.old self.new }
        ensures added { (k : ℕ) → HasBit bits k
            → HasBit (slice_index self.new.words.items (line * self.old.width + number)) k }
    {
        let place = line * self.width + number;
        let word = self.words[place] | bits;
        self.words[place] = word;
    }
}
