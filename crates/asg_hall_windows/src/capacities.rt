//! Whether the rows of windows are more than the columns that they reach can hold.

ghost use Rattle.std.specs.Prelude.{◌≡◌, ℕ, ◌+◌, ◌*◌, ◌/◌, ◌<◌, ◌≤◌, IsTrue, List, length, All, slice_index_or, if◌then◌else◌};
ghost use Rattle.asg_model.specs.declared.bands.Band.{Band as B};
ghost use Rattle.asg_model.specs.declared.parts.Column.{Column as C};
ghost use Rattle.asg_model.specs.Counts.{slack};
ghost use Rattle.asg_model.specs.HallSet.{is_reached, reached_capacity};
ghost use Rattle.asg_proof.specs.declared.windows.Window.{Window as W};
ghost use Rattle.asg_hall_windows.specs.Marks.{HasRoom, IsMarked, word_place};
ghost use Rattle.asg_hall_windows.specs.Capacities.{ReachesMarked};

use crate::marks::Marks;
use asg_model::{Column, Instance};
use asg_proof::Window;

// The capacity of the column where it is open and marked for the window, else 0.
#[inline]
fn part_of(column: &Column, reached: &Marks, place: usize, window: usize) -> u64
    requires { word_place reached.now place window < length reached.now.words.items }
    ensures whole { IsTrue column.now.usable → IsMarked reached.now place window
        → column.now.cap ≤ result }
    ensures bound { result ≤ column.now.cap }
{
    if column.usable && reached.has(place, window) {
        u64::from(column.cap)
    } else {
        0
    }
}

// The capacities of the open columns that are marked for the window, added up.
fn capacity(inst: &Instance, reached: &Marks, window: usize) -> u64
    requires columns { length reached.now.words.items
        ≡ length inst.now.columns * reached.now.width }
    requires window_within { window / 64 < reached.now.width }
    ensures whole { (band : B) (ids : List ℕ) → ReachesMarked inst.now band ids reached.now window
        → reached_capacity inst.now band ids ≤ result }
    ensures bound { result ≤ 1000000 }
{
    let columns = inst.columns();
    let mut total = 0;
    for place in 0..columns.len() {
        total += part_of(&columns[place], reached, place, window);
    }
    total
}

// Whether the rows of each window are more than its marked columns can hold, and than may stay out.
pub(crate) fn are_short(inst: &Instance, windows: &[Window], reached: &Marks) -> bool
    requires { HasRoom (length inst.now.columns) (length windows.now) reached.now }
    ensures { IsTrue result → (w : ℕ) (d : W) (band : B) → w < length windows.now
        → ReachesMarked inst.now band (slice_index_or windows.now w d).rows reached.now w
        → reached_capacity inst.now band (slice_index_or windows.now w d).rows + slack inst.now
        < length (slice_index_or windows.now w d).rows }
{
    let out = u64::from(inst.slack());
    for place in 0..windows.len() {
        let rows = windows[place].rows.len() as u64;
        if capacity(inst, reached, place) + out >= rows {
            return false;
        }
    }
    true
}
