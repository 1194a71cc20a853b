//! Windows of costs from gaps.

ghost use Rattle.std.specs.Prelude.{ℕ, ◌+◌, ◌<◌, ◌≤◌, pos, All, IfOk, IsTrue, length};
ghost use Rattle.std.specs.Prelude.{slice_index_or};
ghost use Rattle.asg_match.specs.Deficient.{IsDeficient};
ghost use Rattle.asg_match.specs.HallSets.{GivesHallSets};
ghost use Rattle.asg_proof.specs.Windows.{is_held};
ghost use Rattle.asg_square.specs.Grid.{HasLabelsOf};
ghost use Rattle.asg_window.specs.declared.gaps.Gap.{Gap as G};
ghost use Rattle.asg_window.specs.Bands.{IsWithin};
ghost use Rattle.asg_window.specs.CostWindows.{AddsWindow, IsWindowBy, IsBandWindow};
ghost use Rattle.asg_window.specs.Gaps.{IsGap, ShowLeast, low_at};
ghost use Rattle.asg_live_cells.specs.Grades.{cost_of};
ghost use Rattle.asg_window.specs.DistinctGrades.{IsAscending};

use crate::NoMemory;
use crate::cells_within::CellsWithin;
use crate::gaps::Gap;
use crate::grades::cost_under;
use asg_live_cells::cost;
use asg_match::hall_list;
use asg_model::Instance;
use asg_proof::{Ids, Window};
use asg_square::Square;
use std::alloc::Global;

/// The ids of a Hall set, from rows that are deficient under a band.
pub(crate) fn hall_ids(
    alloc: Global,
    inst: &Instance,
    cells: &CellsWithin<'_>,
    rows: &[u32],
) -> Result<Ids, NoMemory>
    requires labels { HasLabelsOf inst.now cells.now.square.now }
    requires short { IsDeficient (IsWithin cells.now.square.now cells.now.low cells.now.high)
        cells.now.square.now.side rows.now }
    ensures { IfOk result (GivesHallSets inst.now
        (IsWithin cells.now.square.now cells.now.low cells.now.high)) }
{
    let ids = hall_list(alloc, cells.square, inst, cells, rows)?;
    Ok(Ids::from_vec(ids))
}

// The window of a gap.
fn window_of(
    alloc: Global,
    inst: &Instance,
    square: &Square<u32>,
    gap: &Gap,
) -> Result<Window, NoMemory>
    requires labels { HasLabelsOf inst.now square.now }
    requires gap { IsGap square.now gap.now }
    ensures { IfOk result (IsWindowBy inst.now square.now gap.now.low gap.now.high) }
{
    let cells = CellsWithin {
        square,
        low: gap.low,
        high: gap.high,
    };
    let lo = cost(gap.low);
    let hi = cost_under(gap.high);
    let rows = hall_ids(alloc, inst, &cells, gap.rows.as_slice())?;
    let _count = rows.len();
    Ok(Window { lo, hi, rows })
}

// The place of the last gap from a place on that begins at a grade or below it.
fn last_gap(gaps: &[Gap], from: usize, grade: u32) -> usize
    requires within { from < length gaps.now }
    requires begun { (d : G) → (slice_index_or gaps.now from d).low ≤ grade }
    ensures within { result < length gaps.now }
    ensures begun { (d : G) → (slice_index_or gaps.now result d).low ≤ grade }
    ensures last { (low : ℕ) → grade < low → grade < low_at gaps.now low (result + 1) }
{
    let mut place = from;
    'gaps: while place + 1 < gaps.len() {
        if gaps[place + 1].low > grade {
            return place;
        }
        place += 1;
    }
    place
}

// Adds the window of the last gap from a place on that begins at a grade or below it. The answer is
// the place of the gap.
fn add_window(
    alloc: Global,
    inst: &Instance,
    square: &Square<u32>,
    gaps: &[Gap],
    windows: &mut Vec<Window>,
    from: usize,
    grade: u32,
) -> Result<usize, NoMemory>
    requires labels { HasLabelsOf inst.now square.now }
    requires each { All (IsGap square.now) gaps.now }
    requires within { from < length gaps.now }
    requires begun { (d : G) → (slice_index_or gaps.now from d).low ≤ grade }
    ensures { IfOk result (AddsWindow inst.now square.now gaps.now grade windows.old.items
        windows.new.items) }
{
    let place = last_gap(gaps, from, grade);
    windows.push(window_of(alloc, inst, square, &gaps[place])?)?;
    Ok(place)
}

/// The windows of those gaps that are needed: for each grade of a list, which ascends, one holds
/// the spread from there on.
pub(crate) fn windows_of(
    alloc: Global,
    inst: &Instance,
    square: &Square<u32>,
    gaps: &[Gap],
    grades: &[u32],
    spread: u32,
) -> Result<Vec<Window>, NoMemory>
    requires labels { HasLabelsOf inst.now square.now }
    requires some { 0 < spread }
    requires gaps { (low : ℕ) × ShowLeast square.now gaps.now low spread
        × All (λ v. (1 ≤ v) × (v < low)) grades.now }
    requires ascending { IsAscending grades.now }
    ensures halls { IfOk result (λ v. All (IsBandWindow inst.now square.now) v.items) }
    ensures held { IfOk result (λ v. All (λ grade.
        IsTrue (is_held v.items (pos spread) (cost_of grade))) grades.now) }
    ensures few { IfOk result (λ v. length v.items ≤ length grades.now) }
{
    let mut windows = Vec::new(alloc);
    let mut place = 0;
    let mut reach = 0;
    for number in 0..grades.len() {
        let grade = grades[number];
        if reach <= grade {
            place = add_window(alloc, inst, square, gaps, &mut windows, place, grade)?;
            reach = gaps[place].high - spread + 1;
        }
    }
    Ok(windows)
}
