//! The columns that leave before the end of a phase, one after the other.

ghost use Rattle.std.specs.Prelude.{◌≡◌, ◌<◌, ◌≤◌, length, if◌then◌else◌, nat_lt};
ghost use Rattle.asg_model.specs.Limits.{most_side};
ghost use Rattle.asg_settling.specs.LeftColumns.{ArePassed};

// Writes down for each column which one, of it and those after it, is the first that leaves before
// the end, and the number of columns where none does; the last place is for those after all
// columns.
pub(crate) fn find_left(leaves: &[u32], end: usize, next: &mut [u32])
    requires room { length leaves.now < length next.old }
    requires few { length leaves.now ≤ most_side }
    ensures count { length next.new ≡ length next.old }
    ensures passed { ArePassed leaves.now end next.new }
{
    let side = leaves.len();
    next[side] = side as u32;
    for ahead in 0..side {
        let column = side - 1 - ahead;
        next[column] = first_of(column as u32, leaves[column], end, next[column + 1]);
    }
}

// The column where it leaves before the end, else the later one.
#[inline]
fn first_of(column: u32, leave: u32, end: usize, later: u32) -> u32
    ensures { result ≡ (if nat_lt leave end then column else later) }
{
    if (leave as usize) < end {
        column
    } else {
        later
    }
}
