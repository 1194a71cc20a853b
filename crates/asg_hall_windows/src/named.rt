//! The rows that windows name.

ghost use Rattle.std.specs.Prelude.{◌≡◌, ℕ, ◌*◌, ◌/◌, ◌<◌, IsTrue, length};
ghost use Rattle.asg_hall_windows.specs.Cells.{AreAllNamed, AreNamed, Names};
ghost use Rattle.asg_hall_windows.specs.Marks.{HasRoom, IsMarked, KeepsMarks, word_place};

use crate::marks::Marks;
use asg_model::Instance;
use asg_proof::Window;

// Marks the row for the window. True: it wasn't marked.
#[inline]
fn mark_row(named: &mut Marks, row: usize, window: usize) -> bool
    requires { word_place named.old row window < length named.old.words.items }
    ensures kept { KeepsMarks named.old named.new }
    ensures marked { IsMarked named.new row window }
    ensures fresh { IsTrue result → IsMarked named.old row window → ⊥ }
{
    let is_fresh = !named.has(row, window);
    named.add(row, window / 64, 1 << (window % 64));
    is_fresh
}

// Marks the row that has the id for the window. True: it is counted, and wasn't marked.
#[inline]
fn name_row(inst: &Instance, id: u32, window: usize, named: &mut Marks) -> bool
    requires rows { length named.old.words.items ≡ length inst.now.rows * named.old.width }
    requires window_within { window / 64 < named.old.width }
    ensures kept { KeepsMarks named.old named.new }
    ensures names { IsTrue result → Names inst.now id window named.old named.new }
{
    match inst.row_place(id) {
        Some(row) if inst.is_counted(row) => mark_row(named, row as usize, window),
        _ => false,
    }
}

// Marks the rows that have the ids for the window. True: they are counted, and none is named twice.
fn name_rows(inst: &Instance, ids: &[u32], window: usize, named: &mut Marks) -> bool
    requires rows { length named.old.words.items ≡ length inst.now.rows * named.old.width }
    requires window_within { window / 64 < named.old.width }
    ensures kept { KeepsMarks named.old named.new }
    ensures named { IsTrue result → AreNamed inst.now ids.now window named.new }
{
    for id in ids {
        if !name_row(inst, *id, window, named) {
            return false;
        }
    }
    true
}

// Marks for each window the rows that it names. True: they are counted, and none is named twice.
pub(crate) fn name_all(inst: &Instance, windows: &[Window], named: &mut Marks) -> bool
    requires { HasRoom (length inst.now.rows) (length windows.now) named.old }
    ensures kept { KeepsMarks named.old named.new }
    ensures named { IsTrue result → AreAllNamed inst.now windows.now (length windows.now) named.new }
{
    for place in 0..windows.len() {
        if !name_rows(inst, windows[place].rows.as_slice(), place, named) {
            return false;
        }
    }
    true
}
