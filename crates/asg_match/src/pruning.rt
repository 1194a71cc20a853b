//! Taking columns from rows whose cells are no longer allowed.

ghost use Rattle.std.specs.Prelude.{◌≡◌, ℕ, ◌<◌, ◌↔◌, IsTrue, length};
ghost use Rattle.asg_match.specs.Matching.{Matches, AllAllowed};

use crate::{Allowed, Matching};

// Whether a row may keep what it has: no column, or one by an allowed cell.
fn keeps<A: Allowed>(allowed: &A, matching: &Matching, row: u32) -> bool
    requires side { A.side allowed.now ≡ length matching.now }
    requires row_below { row < length matching.now }
    ensures { IsTrue result
        ↔ ((c : ℕ) → Matches matching.now row c → A.allows allowed.now row c) }
{
    match matching.column_of(row) {
        Some(column) => allowed.has(row, column),
        None => true,
    }
}

/// Takes its column from each row whose matched cell isn't allowed. The other rows keep theirs. So
/// a matching serves again where other cells are allowed, and [`complete`](crate::complete)
/// lengthens what is left. Takes no memory, and looks at one cell a row.
pub fn prune<A: Allowed>(allowed: &A, matching: &mut Matching)
    requires { A.side allowed.now ≡ length matching.old }
    ensures side { length matching.new ≡ length matching.old }
    ensures cells { AllAllowed (A.allows allowed.now) matching.new }
    ensures only { (r c : ℕ) → Matches matching.new r c → Matches matching.old r c }
    ensures kept { (r c : ℕ)
        → Matches matching.old r c → A.allows allowed.now r c → Matches matching.new r c }
{
    for row in 0..matching.side() {
        if !keeps(allowed, matching, row) {
            matching.clear(row);
        }
    }
}
