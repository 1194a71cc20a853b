//! The index of a list of phases, where few looks at the cells of a square tell it.

ghost use Rattle.std.specs.Prelude.{IfOk, IfSome};
ghost use Rattle.asg_square.specs.Grid.{cell_at};
ghost use Rattle.asg_replays.specs.WholeLists.{HaveIndex};

use crate::NoMemory;
use asg_grade_lists::grade_list_index;
use asg_kept::Keeps;
use asg_monoids::{Bounded, Graded, Greatest};
use asg_proof::WrittenPhase;
use asg_replays::{has_long, list_index};
use asg_square::Square;
use std::alloc::Global;

// A monoid over which phases are judged.
pub(crate) trait KnowsIndex: Keeps {
    // The index of phases that are admitted in turn from a square, where few looks at its cells tell
    // that they are. The error is want of memory.
    fn known_index(
        &self,
        alloc: Global,
        square: &Square<Self::Value>,
        phases: &[WrittenPhase],
    ) -> Result<Option<Self::Value>, NoMemory>
        ensures { IfOk result (λ found. IfSome found (λ index. HaveIndex (Self.monoid_of self.now)
            (Self.difference self.now) (Self.word_of self.now) square.now.side
            (cell_at square.now) index phases.now)) };
}

// By one pass over the cells where none is long: of sums that stop at 2^120 alone.
impl KnowsIndex for Bounded {
    fn known_index(
        &self,
        alloc: Global,
        square: &Square<u128>,
        phases: &[WrittenPhase],
    ) -> Result<Option<u128>, NoMemory> {
        if self.top != 1 << 120 {
            return Ok(None);
        }
        if has_long(phases, square.side()) {
            return Ok(None);
        }
        match list_index(alloc, self, square, phases)? {
            Some(index) => Ok(Some(index)),
            None => Ok(None),
        }
    }
}

// By one pass over the cells where none is long, and all are of one grade: only of sums that stop at
// 2^63 or above.
impl KnowsIndex for Graded<Bounded> {
    fn known_index(
        &self,
        alloc: Global,
        square: &Square<(u64, u128)>,
        phases: &[WrittenPhase],
    ) -> Result<Option<(u64, u128)>, NoMemory> {
        if self.inner.top < 1 << 63 {
            return Ok(None);
        }
        if has_long(phases, square.side()) {
            return Ok(None);
        }
        match grade_list_index(alloc, square, phases)? {
            Some(index) => Ok(Some(index)),
            None => Ok(None),
        }
    }
}

impl KnowsIndex for Greatest {
    fn known_index(
        &self,
        alloc: Global,
        square: &Square<u64>,
        phases: &[WrittenPhase],
    ) -> Result<Option<u64>, NoMemory> {
        let _ = alloc;
        let _ = square;
        let _ = phases;
        Ok(None)
    }
}
