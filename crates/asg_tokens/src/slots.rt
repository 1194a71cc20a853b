//! The parts of costs as they stand in a table.

ghost use Rattle.std.specs.Prelude.{◌≡◌, ℕ, ◌<◌, ◌≤◌, pos, All, OnOk, length, slice_index_or};
ghost use Rattle.asg_model.specs.ValueRange.{IsPartInRange};
ghost use Rattle.asg_tokens.specs.Slots.{first_part, second_part, AreSeconds, PutsSecond};

use asg_model::{ABSENT, Cost};
use std::alloc::{AllocError, Global};

/// The first part that stands for a cell of this cost, or for an absent one.
#[inline]
pub(crate) fn first_part(cost: Option<Cost>) -> i64
    ensures { result ≡ first_part cost }
{
    match cost {
        Some(cost) => cost.a,
        None => ABSENT,
    }
}

/// The second part, 0 for an absent cell.
#[inline]
pub(crate) fn second_part(cost: Option<Cost>) -> i64
    ensures { result ≡ second_part cost }
{
    match cost {
        Some(cost) => cost.b,
        None => 0,
    }
}

/// Puts a second part into its place. The list is made, for so many places, where it is empty and
/// the part isn't 0.
#[inline]
pub(crate) fn put_second(
    alloc: Global,
    seconds: &mut Vec<i64>,
    room: usize,
    place: usize,
    second: i64,
) -> Result<(), AllocError>
    requires within { place < room }
    requires seconds { AreSeconds room seconds.old.items }
    requires zero { slice_index_or seconds.old.items place (pos 0) ≡ pos 0 }
    requires in_range { IsPartInRange second }
    ensures put { OnOk result (PutsSecond place second seconds.old.items seconds.new.items) }
    ensures seconds { OnOk result (AreSeconds room seconds.new.items) }
{
    if second == 0 {
        return Ok(());
    }
    fill_seconds(alloc, seconds, room)?;
    seconds[place] = second;
    Ok(())
}

// Makes the list, of zeros, where it is empty.
fn fill_seconds(alloc: Global, seconds: &mut Vec<i64>, room: usize) -> Result<(), AllocError>
    requires { AreSeconds room seconds.old.items }
    ensures whole { OnOk result (length seconds.new.items ≡ room) }
    ensures same { OnOk result ((k : ℕ) →
        slice_index_or seconds.new.items k (pos 0) ≡ slice_index_or seconds.old.items k (pos 0)) }
    ensures in_range { OnOk result (All IsPartInRange seconds.new.items) }
{
    if seconds.is_empty() {
        *seconds = vec![in alloc; 0; room]?;
    }
    Ok(())
}

/// Makes places, with parts that are 0, up to so many.
pub(crate) fn more_seconds(seconds: &mut Vec<i64>, upto: usize) -> Result<(), AllocError>
    requires few { length seconds.old.items ≤ upto }
    requires in_range { All IsPartInRange seconds.old.items }
    ensures whole { OnOk result (length seconds.new.items ≡ upto) }
    ensures same { OnOk result ((k : ℕ) →
        slice_index_or seconds.new.items k (pos 0) ≡ slice_index_or seconds.old.items k (pos 0)) }
    ensures in_range { OnOk result (All IsPartInRange seconds.new.items) }
{
    seconds.resize(upto, 0)
}
