//! Rows of bits, 64 to a word.

ghost use Rattle.std.specs.Prelude.{◌≡◌, ◌≢◌, ◌<◌, ◌≤◌, ◌+◌, ◌*◌, ℕ, IsTrue, false, length, IfOk};
ghost use Rattle.asg_model.specs.Limits.{most_side};
ghost use Rattle.asg_bit_rows.specs.BitTable.{BitTable, is_bit_set, has_bit, word_count, IsBitTable, PutsBit, PutsWord, AreWordsOf};

use crate::NoMemory;
use std::alloc::Global;
use std::marker::Model;

/// Rows of bits, one bit for each column, so that a loop may go over 64 columns at a time.
#[derive(Drop)]
pub struct BitRows {
    rows: u32,
    columns: u32,
    width: u32,
    words: Vec<u64>,
}

impl Model for BitRows {
    ghost use Rattle.std.specs.Prelude.{◌≡◌};
    ghost use Rattle.asg_bit_rows.specs.BitTable.{BitTable, IsBitTable, bit_table, word_count};

    ghost Value = { BitTable };

    ghost view = { λ b. bit_table b.rows b.columns b.words.items };

    ghost invariant = { λ b. (b.width ≡ word_count b.columns) × IsBitTable (bit_table b.rows b.columns b.words.items) };
}

impl BitRows {
    /// So many rows and columns, at most 2,000 each, with no bit set. The error is want of memory.
    pub fn make(alloc: Global, rows: u32, columns: u32) -> Result<BitRows, NoMemory>
        requires few_rows { rows ≤ most_side }
        requires few_columns { columns ≤ most_side }
        ensures rows { IfOk result (λ b. b.rows ≡ rows) }
        ensures columns { IfOk result (λ b. b.columns ≡ columns) }
        ensures clear { IfOk result (λ b. (r c : ℕ) → has_bit b r c ≡ false) }
    {
        let width = columns.div_ceil(64);
        let words = vec![in alloc; 0; (rows * width) as usize]?;
        Ok(BitRows {
            rows,
            columns,
            width,
            words,
        })
    }

    /// Whether the bit is set. It takes no memory.
    pub fn has(&self, r: u32, c: u32) -> bool
        requires row_below { r < self.now.rows }
        requires column_below { c < self.now.columns }
        ensures { result ≡ has_bit self.now r c }
    {
        self.words[(r * self.width + c / 64) as usize] >> (c % 64) & 1 == 1
    }

    /// Sets the bit or clears it. It takes no memory.
    pub fn put(&mut self, r: u32, c: u32, is_set: bool)
        requires row_below { r < self.old.rows }
        requires column_below { c < self.old.columns }
        ensures { PutsBit self.old self.new r c is_set }
    {
        let place = (r * self.width + c / 64) as usize;
        let word = with_bit(self.words[place], c % 64, is_set);
        self.words[place] = word;
    }

    /// Sets or clears the 64 bits of a word of a row at once, those of the columns from `64 *
    /// number` on. The word has no bit past the last column. It takes no memory.
    pub fn put_word(&mut self, r: u32, number: u32, word: u64)
        requires row_below { r < self.old.rows }
        requires number_below { number < word_count self.old.columns }
        requires inside { (k : ℕ) → k < 64 → IsTrue (is_bit_set word k)
            → 64 * number + k < self.old.columns }
        ensures { PutsWord self.old self.new r number word }
    {
        self.words[(r * self.width + number) as usize] = word;
    }

    /// How many rows there are. It takes no memory.
    pub fn rows(&self) -> u32
        ensures rows { result ≡ self.now.rows }
        ensures table { IsBitTable self.now }
    {
        self.rows
    }

    /// How many columns there are. It takes no memory.
    pub fn columns(&self) -> u32
        ensures columns { result ≡ self.now.columns }
        ensures table { IsBitTable self.now }
    {
        self.columns
    }

    /// All words, row by row, as many for each row as its columns need; no bit past the last column
    /// is set. It takes no memory.
    pub fn words(&self) -> &[u64]
        ensures words { result.now ≡ self.now.words }
        ensures table { IsBitTable self.now }
    {
        self.words.as_slice()
    }

    /// The words of a row: bit `c % 64` of word `c / 64` says whether column `c` is set, and no bit
    /// past the last column is. It takes no memory.
    pub fn row(&self, r: u32) -> &[u64]
        requires { r < self.now.rows }
        ensures words { AreWordsOf (has_bit self.now r) self.now.columns result.now }
        ensures table { IsBitTable self.now }
    {
        let first = (r * self.width) as usize;
        &self.words[first..first + self.width as usize]
    }

    /// Equal rows of bits. The error is want of memory.
    pub fn copy(&self, alloc: Global) -> Result<BitRows, NoMemory>
        ensures { IfOk result (λ b. b ≡ self.now) }
    {
        let words = Vec::from_slice(alloc, self.words.as_slice())?;
        Ok(BitRows {
            rows: self.rows,
            columns: self.columns,
            width: self.width,
            words,
        })
    }

    /// Takes over the bits of rows of the same size. It takes no memory.
    pub fn take(&mut self, other: &BitRows)
        requires rows { self.old.rows ≡ other.now.rows }
        requires columns { self.old.columns ≡ other.now.columns }
        ensures { self.new ≡ other.now }
    {
        overwrite(&mut self.words, other.words.as_slice());
    }
}

// The word with this bit set or cleared.
fn with_bit(word: u64, bit: u32, is_set: bool) -> u64
    requires { bit < 64 }
    ensures same { is_bit_set result bit ≡ is_set }
    ensures others { (k : ℕ) → k < 64 → k ≢ bit → is_bit_set result k ≡ is_bit_set word k }
{
    if is_set {
        word | 1 << bit
    } else {
        word & !(1 << bit)
    }
}

/// Takes over the values of a list of the same length. It takes no memory.
pub fn overwrite<T: Copy>(values: &mut Vec<T>, from: &[T])
    requires { length values.old.items ≡ length from.now }
    ensures { values.new.items ≡ from.now }
{
    values.as_mut_slice().copy_from_slice(from);
}
