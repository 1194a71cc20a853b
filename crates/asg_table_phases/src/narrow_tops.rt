//! Numbers of columns in 64 bits.

ghost use Rattle.std.specs.Prelude.{◌≡◌, ◌<◌, ◌≤◌, ℕ, IsTrue, length, slice_index};
ghost use Rattle.asg_table_phases.specs.TableRows.{AreLow, AreNarrowed, AreWithin};

use asg_model::limits::MOST_COLUMNS;
use asg_phase_totals::NARROW_TOP;

/// Whether no number is greater.
pub(crate) fn are_within(numbers: &[u128], most: u128) -> bool
    ensures { IsTrue result → AreWithin most numbers.now }
{
    'numbers: for place in 0..numbers.len() {
        if numbers[place] > most {
            return false;
        }
    }
    true
}

/// Writes numbers in 64 bits, and tells whether sums in 64 bits hold them all.
pub(crate) fn put_narrow(tops: &[u128; MOST_COLUMNS], narrow: &mut [u64; MOST_COLUMNS]) -> bool
    ensures low { IsTrue result → AreLow narrow.new }
    ensures same { IsTrue result → AreNarrowed tops.now narrow.new }
{
    'columns: for column in 0..MOST_COLUMNS {
        if tops[column] > u128::from(NARROW_TOP) {
            return false;
        }
        narrow[column] = tops[column] as u64;
    }
    true
}
