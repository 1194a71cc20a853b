//! The different grades of live cells.

ghost use Rattle.std.specs.Prelude.{◌≡◌, ℕ, ◌<◌, All, IfOk};
ghost use Rattle.std.specs.List.Sorted.{IsNonDecreasingBy};
ghost use Rattle.asg_live_cells.specs.declared.live_cells.Entry.{Entry as E};
ghost use Rattle.asg_window.specs.DistinctGrades.{AreGradesOf};

use crate::NoMemory;
use asg_live_cells::Entry;
use std::alloc::Global;

/// The different grades of live cells that stand in their order. The error is want of memory.
pub(crate) fn distinct_grades(alloc: Global, entries: &[Entry]) -> Result<Vec<u32>, NoMemory>
    requires ascending { IsNonDecreasingBy (λ (e : E). e.grade) entries.now }
    requires live { All (λ e. 0 < e.grade) entries.now }
    ensures { IfOk result (λ v. AreGradesOf entries.now v.items) }
{
    let mut grades = Vec::new(alloc);
    let mut last = 0;
    for place in 0..entries.len() {
        let grade = entries[place].grade;
        if last < grade {
            grades.push(grade)?;
            last = grade;
        }
    }
    Ok(grades)
}
