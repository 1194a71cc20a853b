//! Matchings.

ghost use Rattle.std.specs.Prelude.{◌≡◌, ℕ, ◌+◌, ◌*◌, ◌<◌, ◌↔◌, length, Some, None, List, Option, IfOk};
ghost use Rattle.std.specs.Prelude.{IfSome, IfNone, replicate, slice_set, slice_index};
ghost use Rattle.asg_match.specs.ColumnSet.{HasBit, word_count};
ghost use Rattle.asg_match.specs.Matching.{column_at, Matches, IsMatched, IsMatching, IsFree};

use crate::NoMemory;
use crate::column_set::{add, fill, remove};
use asg_bit_rows::overwrite;
use std::alloc::Global;
use std::marker::Model;

/// A matching of rows with columns, both below a side: each row has at most one column, and no two
/// rows the same.
#[derive(Drop)]
pub struct Matching {
    side: u32,
    columns: Vec<Option<u32>>,
    rows: Vec<Option<u32>>,
    // The columns that no row has: bit `c % 64` of word `c / 64` for column `c`.
    free: Vec<u64>,
}

impl Model for Matching {
    ghost use Rattle.std.specs.Prelude.{ℕ, List, Option};
    ghost use Rattle.asg_match.specs.Paired.{IsPaired, AreFree};

    ghost Value = { List (Option ℕ) };

    ghost view = { λ m. m.columns.items };

    ghost invariant = { λ m. IsPaired m.side m.columns.items m.rows.items
        × AreFree m.side m.rows.items m.free.items };
}

impl Matching {
    /// The matching over a side in which no row has a column.
    pub fn make(alloc: Global, side: u32) -> Result<Matching, NoMemory>
        ensures empty { IfOk result (λ m. m ≡ replicate side None) }
        ensures matching { IfOk result IsMatching }
    {
        let columns = vec![in alloc; None; side as usize]?;
        let rows = vec![in alloc; None; side as usize]?;
        let mut free = vec![in alloc; 0; (side as usize).div_ceil(64)]?;
        fill(&mut free, side as usize);
        Ok(Matching {
            side,
            columns,
            rows,
            free,
        })
    }

    /// How many rows there are, and how many columns.
    pub fn side(&self) -> u32
        ensures side { result ≡ length self.now }
        ensures matching { IsMatching self.now }
    {
        self.side
    }

    /// The column of row `r`, or `None` exactly where it has none.
    #[inline]
    pub fn column_of(&self, r: u32) -> Option<u32>
        requires { r < length self.now }
        ensures value { result ≡ column_at self.now r }
        ensures matching { IsMatching self.now }
    {
        self.columns[r as usize]
    }

    /// The row that has column `c`, or `None` exactly where no row has it.
    #[inline]
    pub fn row_of(&self, c: u32) -> Option<u32>
        requires { c < length self.now }
        ensures taken { IfSome result (λ r. Matches self.now r c) }
        ensures free { IfNone result (IsFree self.now c) }
        ensures matching { IsMatching self.now }
    {
        self.rows[c as usize]
    }

    // How many words hold the columns as bits.
    #[inline]
    pub(crate) fn words(&self) -> u32
        ensures { result ≡ word_count (length self.now) }
    {
        self.side.div_ceil(64)
    }

    // Of the columns `64 * number + k` those that no row has, as bits k of a word.
    #[inline]
    pub(crate) fn free_columns(&self, number: u32) -> u64
        requires { number < word_count (length self.now) }
        ensures below { (k : ℕ) → HasBit result k → 64 * number + k < length self.now }
        ensures free { (k : ℕ) → k < 64 → 64 * number + k < length self.now
            → HasBit result k ↔ IsFree self.now (64 * number + k) }
    {
        self.free[number as usize]
    }

    /// Makes the list that of the columns of the rows, each of which has one.
    pub fn copy_columns(&self, columns: &mut [u32])
        requires count { length columns.old ≡ length self.now }
        requires all { (r : ℕ) → r < length self.now → IsMatched self.now r }
        ensures { (r : ℕ) → r < length self.now → Matches self.now r (slice_index columns.new r) }
    {
        for row in 0..self.side() {
            columns[row as usize] = self.column_of(row).unwrap();
        }
    }

    /// Makes this matching equal to one over the same side. It takes no memory.
    pub fn take(&mut self, other: &Matching)
        requires { length self.old ≡ length other.now }
        ensures { self.new ≡ other.now }
    {
        self.side = other.side;
        overwrite(&mut self.columns, other.columns.as_slice());
        overwrite(&mut self.rows, other.rows.as_slice());
        overwrite(&mut self.free, other.free.as_slice());
    }

    /// Takes its column from row `r`, if it has one. Every other row keeps what it has.
    pub fn clear(&mut self, r: u32)
        requires { r < length self.old }
        ensures { self.new ≡ slice_set self.old r None }
    {
        if let Some(c) = self.columns[r as usize] {
            self.columns[r as usize] = None;
            self.rows[c as usize] = None;
            add(&mut self.free, self.side as usize, c as usize);
        }
    }

    /// Gives column `c` to row `r`. The row has no column and no row has this one. Every other row
    /// keeps what it has.
    pub fn set(&mut self, r: u32, c: u32)
        requires row_below { r < length self.old }
        requires column_below { c < length self.old }
        requires row_free { column_at self.old r ≡ None }
        requires column_free { IsFree self.old c }
        ensures { self.new ≡ slice_set self.old r (Some c) }
    {
        self.columns[r as usize] = Some(c);
        self.rows[c as usize] = Some(r);
        remove(&mut self.free, self.side as usize, c as usize);
    }
}
