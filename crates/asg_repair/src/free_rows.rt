//! Rows that have no column.

ghost use Rattle.std.specs.Prelude.{◌≡◌};
ghost use Rattle.asg_algebra.specs.Solved.{unmatched};

use asg_match::Matching;

/// How many rows have no column.
pub(crate) fn free_rows(matching: &Matching) -> u32
    ensures { result ≡ unmatched matching.now }
{
    let mut count = 0;
    for r in 0..matching.side() {
        if matching.column_of(r).is_none() {
            count += 1;
        }
    }
    count
}
