//! Answers that were given, with the parts that they come from.

ghost use Rattle.std.specs.Prelude.{◌≡◌, ◌<◌, length, slice_index};
ghost use Rattle.asg_dual_bounds.specs.Views.{duals_of};
ghost use Rattle.asg_sum_ranks.specs.Branches.{branch_at};

use asg_dual_bounds::Duals;
use asg_dual_numbers::Lists;
use asg_rank_search::FIXED;
use std::marker::Model;

/// How much rows fall and columns rise.
#[derive(Drop)]
pub(crate) struct Amounts {
    falls: Vec<u64>,
    rises: Vec<u64>,
    floor: u64,
}

impl Model for Amounts {
    ghost use Rattle.asg_dual_bounds.specs.Bounds.{Duals};

    ghost Value = { Duals };

    ghost view = { λ a. record {
      falls = a.falls.items;
      rises = a.rises.items;
      floor = a.floor;
    } };
}

impl Amounts {
    /// These amounts.
    pub(crate) fn of(lists: &mut Lists, falls: &[u64], rises: &[u64], floor: u64) -> Amounts {
        Amounts {
            falls: lists.copy_of(falls),
            rises: lists.copy_of(rises),
            floor,
        }
    }

    /// The same amounts.
    pub(crate) fn again(&self, lists: &mut Lists) -> Amounts {
        Amounts::of(lists, self.falls(), self.rises(), self.floor)
    }

    /// Lets each row fall and each column rise further.
    pub(crate) fn raise_all(&mut self, more: u64) {
        add_all(self.falls.as_mut_slice(), more);
        add_all(self.rises.as_mut_slice(), more);
    }

    /// Takes the amounts of another list of as many.
    pub(crate) fn copy(&mut self, other: &Amounts) {
        write_all(other.falls(), self.falls.as_mut_slice());
        write_all(other.rises(), self.rises.as_mut_slice());
        self.floor = other.floor;
    }

    /// Fixes the rows from one to before another.
    pub(crate) fn fix(&mut self, columns: &[u32], from: usize, to: usize) {
        let falls = self.falls.as_mut_slice();
        let rises = self.rises.as_mut_slice();
        for row in from..to.min(columns.len()) {
            add(falls, row, FIXED);
            add(rises, columns[row] as usize, FIXED);
        }
    }

    /// Lets a row fall further.
    pub(crate) fn fall(&mut self, row: usize, more: u64) {
        add(self.falls.as_mut_slice(), row, more);
    }

    /// Lets a column rise further.
    pub(crate) fn rise(&mut self, column: usize, more: u64) {
        add(self.rises.as_mut_slice(), column, more);
    }

    /// Lets each column rise by so much more at least.
    pub(crate) fn lift(&mut self, more: u64) {
        self.floor = self.floor.wrapping_add(more);
    }

    /// How much each row falls.
    #[inline]
    pub(crate) fn falls(&self) -> &[u64]
        ensures { result.now ≡ self.now.falls }
    {
        self.falls.as_slice()
    }

    /// How much each column rises.
    #[inline]
    pub(crate) fn rises(&self) -> &[u64]
        ensures { result.now ≡ self.now.rises }
    {
        self.rises.as_slice()
    }

    /// All of them, lent.
    #[inline]
    pub(crate) fn lend(&self) -> Duals<'_>
        ensures { duals_of result.falls.now result.rises.now result.floor ≡ self.now }
    {
        Duals {
            falls: self.falls(),
            rises: self.rises(),
            floor: self.floor,
        }
    }

    /// How much each column rises at least.
    #[inline]
    pub(crate) fn floor(&self) -> u64
        ensures { result ≡ self.now.floor }
    {
        self.floor
    }
}

// Adds to the amount at a place, where there is one.
#[inline]
fn add(amounts: &mut [u64], place: usize, more: u64) {
    if place < amounts.len() {
        amounts[place] = amounts[place].wrapping_add(more);
    }
}

// Adds to all amounts.
fn add_all(amounts: &mut [u64], more: u64) {
    for place in 0..amounts.len() {
        amounts[place] = amounts[place].wrapping_add(more);
    }
}

// Writes the first entries of a list into another.
fn write_all(from: &[u64], to: &mut [u64]) {
    let count = from.len().min(to.len());
    for place in 0..count {
        to[place] = from[place];
    }
}

/// An answer with its part: the child by a row of the part of an earlier one, its parent.
#[derive(Drop)]
pub(crate) struct Settled {
    pub(crate) columns: Vec<u32>,
    pub(crate) parent: usize,
    pub(crate) row: usize,
    pub(crate) banned: Vec<u32>,
    pub(crate) amounts: Amounts,
    // For each row the place of the answer whose part is the child by that row, 0 for none.
    pub(crate) children: Vec<u32>,
    // For each row the place, from 1, of amounts that bound that child, 0 for none.
    pub(crate) shown: Vec<u32>,
}

impl Model for Settled {
    ghost use Rattle.asg_sum_ranks.specs.Branches.{Branch};

    ghost Value = { Branch };

    ghost view = { λ s. record {
      columns = s.columns.items;
      parent = s.parent;
      row = s.row;
      banned = s.banned.items;
      duals = s.amounts;
      children = s.children.items;
      shown = s.shown.items;
    } };
}

impl Settled {
    /// An answer with its part; no child of that is known yet.
    pub(crate) fn of(
        lists: &mut Lists,
        columns: Vec<u32>,
        parent: usize,
        row: usize,
        banned: Vec<u32>,
        amounts: Amounts,
    ) -> Settled {
        let rows = columns.len();
        Settled {
            columns,
            parent,
            row,
            banned,
            amounts,
            children: lists.of(0, rows),
            shown: lists.of(0, rows),
        }
    }

    /// The column of each row.
    #[inline]
    pub(crate) fn columns(&self) -> &[u32]
        ensures { result.now ≡ self.now.columns }
    {
        self.columns.as_slice()
    }

    /// The place of the parent.
    #[inline]
    pub(crate) fn parent(&self) -> usize
        ensures { result ≡ self.now.parent }
    {
        self.parent
    }

    /// The row by which the part is the parent's child.
    #[inline]
    pub(crate) fn row(&self) -> usize
        ensures { result ≡ self.now.row }
    {
        self.row
    }

    /// The columns that the row doesn't take in the part.
    #[inline]
    pub(crate) fn banned(&self) -> &[u32]
        ensures { result.now ≡ self.now.banned }
    {
        self.banned.as_slice()
    }

    /// How much rows fall and columns rise.
    #[inline]
    pub(crate) fn amounts(&self) -> &Amounts
        ensures { result.now ≡ self.now.duals }
    {
        &self.amounts
    }

    /// How much rows fall and columns rise, lent.
    #[inline]
    pub(crate) fn duals(&self) -> Duals<'_>
        ensures { duals_of result.falls.now result.rises.now result.floor ≡ self.now.duals }
    {
        self.amounts.lend()
    }

    /// The place of the answer whose part is the child by a row, 0 where there is none.
    #[inline]
    pub(crate) fn child(&self, row: usize) -> usize
        ensures { result ≡ slice_index self.now.children row }
    {
        entry(self.children.as_slice(), row)
    }

    /// Leaves no note of a child.
    pub(crate) fn forget(&mut self) {
        self.children.as_mut_slice().fill(0);
        self.shown.as_mut_slice().fill(0);
    }

    /// Notes the place of the answer whose part is the child by a row.
    pub(crate) fn note_child(&mut self, row: usize, place: usize) {
        write(self.children.as_mut_slice(), row, place);
    }

    /// Notes the place, from 1, of amounts that bound the child by a row.
    pub(crate) fn note_shown(&mut self, row: usize, place: usize) {
        write(self.shown.as_mut_slice(), row, place);
    }

    /// The place, from 1, of amounts that bound the child by a row, 0 where there are none.
    #[inline]
    pub(crate) fn shown(&self, row: usize) -> usize
        ensures { result ≡ slice_index self.now.shown row }
    {
        entry(self.shown.as_slice(), row)
    }
}

/// The answer at a place with its part.
#[inline]
pub(crate) fn at(branches: &[Settled], place: usize) -> &Settled
    requires { place < length branches.now }
    ensures { result.now ≡ branch_at branches.now place }
{
    &branches[place]
}

// Writes the entry at a place, where there is one.
#[inline]
fn write(entries: &mut [u32], place: usize, entry: usize) {
    if place < entries.len() && entry <= u32::MAX as usize {
        entries[place] = entry as u32;
    }
}

// The entry at a place, 0 outside.
#[inline]
fn entry(entries: &[u32], place: usize) -> usize
    ensures { result ≡ slice_index entries.now place }
{
    if place < entries.len() {
        entries[place] as usize
    } else {
        0
    }
}
