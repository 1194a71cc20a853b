//! The words of a row of a square without some cells.

ghost use Rattle.std.specs.Prelude.{◌≡◌, ◌<◌, ◌≤◌, ◌*◌, ◌+◌, length, is_some, slice_index};
ghost use Rattle.asg_model.specs.Limits.{most_side};
ghost use Rattle.asg_bit_rows.specs.BitTable.{AreWordsOf, word_count};
ghost use Rattle.asg_square.specs.Grid.{cell_at};
ghost use Rattle.asg_square.specs.Masked.{masked_grid, AreBoth};

use crate::squares::Square;

// A word, 0 past the last.
#[inline]
fn word_at(words: &[u64], place: usize) -> u64
    ensures { result ≡ slice_index words.now place }
{
    match words.get(place) {
        Some(word) => *word,
        None => 0,
    }
}

// Writes the bits of words that others from a place on have too.
fn write_both(present: &[u64], words: &[u64], first: usize, both: &mut [u64])
    requires count { length both.old ≡ length present.now }
    requires few { length present.now ≤ most_side }
    requires near { first ≤ most_side * most_side }
    ensures { AreBoth present.now words.now first both.new }
{
    for number in 0..both.len() {
        both[number] = present[number] & word_at(words, first + number);
    }
}

impl<V: Copy> Square<V> {
    /// Writes which cells of a row are present and kept: bit `c % 64` of word `c / 64` says it of
    /// column `c`, and no bit past the last column is set. `words` tells which cells are kept, in
    /// the same way, with as many words for each row, row by row; where one lacks, no cell of its
    /// columns is. It takes no memory.
    pub fn kept_words(&self, r: u32, words: &[u64], kept: &mut [u64])
        requires row { r < self.now.side }
        requires count { length kept.old ≡ word_count self.now.side }
        ensures { let Q = masked_grid self.now words.now in
            AreWordsOf (λ c. is_some (cell_at Q r c)) self.now.side kept.new }
    {
        let _grid = self.side();
        let present = self.row_words(r);
        write_both(present, words, r as usize * present.len(), kept);
    }
}
