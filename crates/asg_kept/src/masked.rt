//! Reduced squares without some cells.

ghost use Rattle.std.specs.Prelude.{◌≡◌, slice_index};

use crate::kept_squares::RowSquare;
use asg_admit::Reduced;
use asg_order::DMonoid;

// A word, 0 past the last.
#[inline]
fn word_at(words: &[u64], place: usize) -> u64
    ensures { result ≡ slice_index words.now place }
{
    match words.get(place) {
        Some(word) => *word,
        None => 0,
    }
}

/// A reduced square with the cells that rows of bits keep: for each row as many words of 64 bits as
/// its columns need. Its rows can be looked at, and no phase is applied to it.
#[derive(Clone, Copy)]
pub struct Masked<'a, V: Copy> {
    /// The square.
    pub square: &'a Reduced<V>,
    /// For each row the words whose bits say which cells it keeps.
    pub words: &'a [u64],
}

impl<'a, M: DMonoid> RowSquare<M> for Masked<'a, M::Value> {
    ghost use Rattle.asg_kept.specs.Masked.{masked_reduced};

    ghost as_reduced = { λ masked. masked_reduced masked.square.now masked.words.now };

    fn side(&self) -> u32 {
        self.square.now.side()
    }

    fn index(&self) -> M::Value {
        self.square.index
    }

    #[inline]
    fn row_word(&self, row: u32, number: u32) -> u64 {
        self.square.now.side();
        let present = self.square.now.row_words(row);
        let place = row as usize * present.len() + number as usize;
        present[number as usize] & word_at(self.words, place)
    }

    #[inline]
    fn value(&self, row: u32, column: u32) -> M::Value {
        self.square.now.row_values(row)[column as usize]
    }
}
