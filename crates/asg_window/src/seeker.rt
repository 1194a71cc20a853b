//! Perfect assignments within one band after another.

ghost use Rattle.std.specs.Prelude.{◌≡◌, ℕ, ◌<◌, ◌≤◌, IfOk, IfSome, IfNone, length, slice_index};
ghost use Rattle.std.specs.Bool.{OnTrue, OnFalse};
ghost use Rattle.asg_match.specs.Matching.{Matches, IsMatched, IsPerfect};
ghost use Rattle.asg_match.specs.Deficient.{IsDeficient};
ghost use Rattle.asg_window.specs.Assignments.{IsAssignmentWithin, IsMarkedAssignment};
ghost use Rattle.asg_window.specs.Bands.{IsWithin};
ghost use Rattle.asg_live_cells.specs.LiveCells.{AreEntries};
ghost use Rattle.asg_live_cells.specs.Marks.{IsMarked};
ghost use Rattle.asg_window.specs.Seekers.{HaveSide, IsSeeker};

use crate::NoMemory;
use crate::band_cells::BandCells;
use crate::empty_lines::{all_rows, empty_column, empty_row};
use crate::next_grades::Reached;
use asg_live_cells::LiveCells;
use asg_match::{Matching, Tree, complete, prune};
use std::alloc::Global;

/// Looks for perfect assignments within one band after another, each time from the matching that
/// the last search left, and keeps what it found.
#[derive(Drop)]
pub(crate) struct Seeker {
    band: BandCells,
    matching: Matching,
    tree: Tree,
    reached: Reached,
    pub(crate) perm: Vec<u32>,
    pub(crate) rows: Vec<u32>,
}

// A matching, and the tree that lengthens it.
#[derive(Drop)]
struct Pairing {
    matching: Matching,
    tree: Tree,
}

impl Pairing {
    // An empty matching.
    fn make(alloc: Global, side: u32) -> Result<Pairing, NoMemory>
        ensures matching { IfOk result (λ it. length it.matching ≡ side) }
        ensures tree { IfOk result (λ it. it.tree.side ≡ side) }
    {
        let matching = Matching::make(alloc, side)?;
        let tree = Tree::make(alloc, side)?;
        Ok(Pairing { matching, tree })
    }
}

// The column of each row, and some rows.
#[derive(Drop)]
struct Lists {
    perm: Vec<u32>,
    rows: Vec<u32>,
}

impl Lists {
    // Some column for each row, and no rows, with room for all.
    fn make(alloc: Global, side: u32) -> Result<Lists, NoMemory>
        ensures { IfOk result (λ it. length it.perm.items ≡ side) }
    {
        let perm = vec![in alloc; 0; side as usize]?;
        let rows = Vec::with_capacity(alloc, side as usize)?;
        Ok(Lists { perm, rows })
    }
}

impl Seeker {
    /// With an empty matching and an empty band. The error is want of memory.
    pub(crate) fn make(alloc: Global, cells: &LiveCells<'_>) -> Result<Seeker, NoMemory>
        requires { AreEntries cells.now.square.now cells.now.entries.now }
        ensures seeker { IfOk result (IsSeeker cells.now.square.now cells.now.entries.now) }
        ensures low { IfOk result (λ s. s.band.low ≡ 1) }
    {
        let band = BandCells::make(alloc, cells)?;
        let Pairing { matching, tree } = Pairing::make(alloc, band.marks.side)?;
        let reached = Reached::make(alloc, band.marks.side)?;
        let Lists { perm, rows } = Lists::make(alloc, band.marks.side)?;
        Ok(Seeker {
            band,
            matching,
            tree,
            reached,
            perm,
            rows,
        })
    }

    /// The list of columns alone.
    pub(crate) fn into_perm(self) -> Vec<u32>
        ensures { result ≡ self.perm }
    {
        self.perm
    }

    /// The rows alone.
    pub(crate) fn into_rows(self) -> Vec<u32>
        ensures { result ≡ self.rows }
    {
        self.rows
    }

    // Whether a row or a column has no marked cell. True: the rows are deficient.
    fn is_blocked(&mut self) -> Result<bool, NoMemory>
        requires sides { HaveSide self.old.band.marks.side self.old }
        ensures sides { HaveSide self.old.band.marks.side self.new }
        ensures band { self.new.band ≡ self.old.band }
        ensures columns_stay { self.new.perm.items ≡ self.old.perm.items }
        ensures deficient { IfOk result (λ yes. OnTrue yes
            (IsDeficient (IsMarked self.old.band.marks.bits self.old.band.marks.side) self.old.band.marks.side
            self.new.rows.items)) }
    {
        if let Some(row) = empty_row(&self.band) {
            self.rows.clear();
            self.rows.push(row)?;
            return Ok(true);
        }
        if let Some(column) = empty_column(&mut self.reached.columns, &self.band) {
            all_rows(&mut self.rows, &self.band, column)?;
            return Ok(true);
        }
        Ok(false)
    }

    // Lengthens the matching as far as the marked cells allow. True: the list of columns is a
    // perfect assignment. False: the rows are deficient, and the columns as before.
    fn is_completed(&mut self) -> Result<bool, NoMemory>
        requires sides { HaveSide self.old.band.marks.side self.old }
        ensures sides { HaveSide self.old.band.marks.side self.new }
        ensures band { self.new.band ≡ self.old.band }
        ensures assignment { IfOk result (λ yes. OnTrue yes
            (IsMarkedAssignment self.old.band.marks.bits self.old.band.marks.side self.new.perm.items)) }
        ensures deficient { IfOk result (λ yes. OnFalse yes
            (IsDeficient (IsMarked self.old.band.marks.bits self.old.band.marks.side) self.old.band.marks.side
            self.new.rows.items)) }
        ensures columns_stay { IfOk result (λ yes. OnFalse yes
            (self.new.perm.items ≡ self.old.perm.items)) }
    {
        prune(&self.band.marks, &mut self.matching);
        if complete(&self.band.marks, &mut self.matching, &mut self.tree) {
            self.matching.copy_columns(&mut self.perm);
            return Ok(true);
        }
        self.rows.clear();
        self.rows.extend_from_slice(self.tree.rows())?;
        Ok(false)
    }

    // Looks for a perfect assignment by marked cells. True: the list of columns is one. False: the
    // rows are deficient, and the columns as before.
    fn seek(&mut self) -> Result<bool, NoMemory>
        requires sides { HaveSide self.old.band.marks.side self.old }
        ensures sides { HaveSide self.old.band.marks.side self.new }
        ensures band { self.new.band ≡ self.old.band }
        ensures assignment { IfOk result (λ yes. OnTrue yes
            (IsMarkedAssignment self.old.band.marks.bits self.old.band.marks.side self.new.perm.items)) }
        ensures deficient { IfOk result (λ yes. OnFalse yes
            (IsDeficient (IsMarked self.old.band.marks.bits self.old.band.marks.side) self.old.band.marks.side
            self.new.rows.items)) }
        ensures columns_stay { IfOk result (λ yes. OnFalse yes
            (self.new.perm.items ≡ self.old.perm.items)) }
    {
        if self.is_blocked()? {
            return Ok(false);
        }
        self.is_completed()
    }

    /// Looks for a perfect assignment within the band from one grade on and below another, of which
    /// the first isn't less than that of the last search. `None`: the list of columns is one. Else
    /// the rows are deficient, and stay so up to the grade, which is at least the upper end; the
    /// columns are as before.
    pub(crate) fn test(
        &mut self,
        cells: &LiveCells<'_>,
        low: u32,
        high: u32,
    ) -> Result<Option<u32>, NoMemory>
        requires seeker { IsSeeker cells.now.square.now cells.now.entries.now self.old }
        requires up { self.old.band.low ≤ low }
        requires order { low ≤ high }
        ensures seeker { IfOk result (λ _.
            IsSeeker cells.now.square.now cells.now.entries.now self.new) }
        ensures low { IfOk result (λ _. self.new.band.low ≡ low) }
        ensures assignment { IfOk result (λ next. IfNone next
            (IsAssignmentWithin cells.now.square.now low high self.new.perm.items)) }
        ensures deficient { IfOk result (λ next. IfSome next (λ bound.
            IsDeficient (IsWithin cells.now.square.now low bound) cells.now.square.now.side
            self.new.rows.items)) }
        ensures above { IfOk result (λ next. IfSome next (λ bound. high ≤ bound)) }
        ensures columns_stay { IfOk result (λ next. IfSome next (λ _.
            self.new.perm.items ≡ self.old.perm.items)) }
    {
        self.band.move_to(cells, low, high);
        if self.seek()? {
            return Ok(None);
        }
        let next = self
            .reached
            .next_grade(cells, &self.band, self.rows.as_slice());
        Ok(Some(next))
    }
}
