//! Whether windows follow each other.

ghost use Rattle.std.specs.Prelude.{◌↔◌, ◌≤ℤ◌, IsTrue};
ghost use Rattle.asg_hall_windows.specs.Ascending.{AreAscending};

use asg_proof::Window;

// Whether neither end of a window is below that of another one.
fn follows(window: &Window, other: &Window) -> bool
    ensures { IsTrue result ↔
        ((other.now.lo ≤ℤ window.now.lo) × (other.now.hi ≤ℤ window.now.hi)) }
{
    other.lo <= window.lo && other.hi <= window.hi
}

// Whether neither end of a window is above that of a later one.
pub(crate) fn are_ascending(windows: &[Window]) -> bool
    ensures { IsTrue result → AreAscending windows.now }
{
    for place in 1..windows.len() {
        if !follows(&windows[place], &windows[place - 1]) {
            return false;
        }
    }
    true
}
