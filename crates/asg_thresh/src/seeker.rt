//! Perfect assignments within one limit after another.

ghost use Rattle.std.specs.Prelude.{◌≡◌, ℕ, ◌*◌, ◌<◌, ◌≤◌, Some, IfOk, length, slice_index};
ghost use Rattle.std.specs.Bool.{OnTrue, OnFalse};
ghost use Rattle.asg_model.specs.Limits.{most_side};
ghost use Rattle.asg_match.specs.Matching.{Matches, IsMatched};
ghost use Rattle.asg_match.specs.Deficient.{IsDeficient};
ghost use Rattle.asg_thresh.specs.Grades.{IsUpTo};
ghost use Rattle.asg_thresh.specs.Seekers.{HaveSide};
ghost use Rattle.asg_thresh.specs.Thresholds.{IsAssignmentUpTo};

use crate::NoMemory;
use crate::marked_cells::MarkedCells;
use asg_match::{Matching, Tree, complete, prune};
use std::alloc::Global;

/// Looks for perfect assignments within one limit after another, each time from the matching that
/// the last search left, and keeps what it found.
#[derive(Drop)]
pub(crate) struct Seeker {
    cells: MarkedCells,
    matching: Matching,
    tree: Tree,
    pub(crate) perm: Vec<u32>,
    pub(crate) rows: Vec<u32>,
}

impl Seeker {
    /// With an empty matching, and these rows.
    pub(crate) fn make(alloc: Global, side: u32, rows: Vec<u32>) -> Result<Seeker, NoMemory>
        requires { side ≤ most_side }
        ensures side { IfOk result (HaveSide side) }
        ensures rows { IfOk result (λ s. s.rows.items ≡ rows.items) }
    {
        Ok(Seeker {
            cells: MarkedCells::make(alloc, side)?,
            matching: Matching::make(alloc, side)?,
            tree: Tree::make(alloc, side)?,
            perm: vec![in alloc; 0; side as usize]?,
            rows,
        })
    }

    /// Looks for a perfect assignment by cells of at most the limit. True: the list of columns is
    /// one, and the rows are as before. False: the rows are deficient, and the columns as before.
    pub(crate) fn seek(&mut self, grades: &[u32], side: u32, limit: u32) -> Result<bool, NoMemory>
        requires side { HaveSide side self.old }
        requires square { length grades.now ≡ side * side }
        ensures side { HaveSide side self.new }
        ensures assignment { IfOk result (λ yes. OnTrue yes
            (IsAssignmentUpTo grades.now side limit self.new.perm.items)) }
        ensures rows_stay { IfOk result (λ yes. OnTrue yes
            (self.new.rows.items ≡ self.old.rows.items)) }
        ensures deficient { IfOk result (λ yes. OnFalse yes
            (IsDeficient (IsUpTo grades.now side limit) side self.new.rows.items)) }
        ensures columns_stay { IfOk result (λ yes. OnFalse yes
            (self.new.perm.items ≡ self.old.perm.items)) }
    {
        self.cells.mark(grades, limit);
        prune(&self.cells, &mut self.matching);
        if complete(&self.cells, &mut self.matching, &mut self.tree) {
            self.matching.copy_columns(&mut self.perm);
            return Ok(true);
        }
        self.rows.clear();
        self.rows.extend_from_slice(self.tree.rows())?;
        Ok(false)
    }
}
