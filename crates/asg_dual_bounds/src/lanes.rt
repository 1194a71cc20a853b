//! Passes over the slots of a row, several columns at a time.

ghost use Rattle.std.specs.Prelude.{◌≡◌, ◌⊎◌, ℕ, ◌<◌, ◌≤◌, ◌+◌, IsTrue, length, slice_index};
ghost use Rattle.asg_dual_bounds.specs.Tables.{absent};
ghost use Rattle.asg_dual_bounds.specs.RowTests.{AreClipped, AreRaised};

use crate::number_tables::ABSENT;

// The lesser of two.
#[inline]
fn lesser(a: u32, b: u32) -> u32
    ensures first { result ≤ a }
    ensures second { result ≤ b }
{
    if a < b { a } else { b }
}

// At most what stands in each column of a row with what the column has.
#[inline]
pub(crate) fn least_of(slots: &[u32], low: &[u32]) -> u32
    requires count { length low.now ≡ length slots.now }
    requires slots { (c : ℕ) → c < length slots.now → slice_index slots.now c ≤ absent }
    requires low { (c : ℕ) → c < length slots.now → slice_index low.now c < absent }
    ensures { (c : ℕ) → c < length slots.now
        → result ≤ slice_index slots.now c + slice_index low.now c }
{
    let mut least = u32::MAX;
    'columns: for column in 0..slots.len() {
        least = lesser(least, slots[column] + low[column]);
    }
    least
}

// A fall, or the greatest number.
#[inline]
fn narrowed(fall: u64) -> u32
    ensures { (result ≡ fall) ⊎ (result ≡ 4294967295) }
{
    if fall < 1 << 32 {
        fall as u32
    } else {
        u32::MAX
    }
}

// The lesser of a number and what another one is above a fall.
#[inline]
fn lessened(least: u32, reach: u32, fall: u32) -> u32
    ensures least { result ≤ least }
    ensures reach { (result ≡ 0) ⊎ (fall + result ≤ reach) }
{
    lesser(least, reach.saturating_sub(fall))
}

// Lessens what each column has to what stands in a row with its low is above a fall.
//
// Not inlined: within another loop LLVM doesn't see that the lists lie apart.
#[inline(never)]
pub(crate) fn lessen(slots: &[u32], low: &[u32], fall: u64, leasts: &mut [u32])
    requires count { length low.now ≡ length slots.now }
    requires slots { (c : ℕ) → c < length slots.now → slice_index slots.now c ≤ absent }
    requires low { (c : ℕ) → c < length slots.now → slice_index low.now c < absent }
    requires leasts { length leasts.old ≡ length slots.now }
    ensures count { length leasts.new ≡ length leasts.old }
    ensures less { (c : ℕ) → slice_index leasts.new c ≤ slice_index leasts.old c }
    ensures each { (c : ℕ) → c < length slots.now → (slice_index leasts.new c ≡ 0)
        ⊎ (fall + slice_index leasts.new c ≤ slice_index slots.now c + slice_index low.now c) }
{
    let base = narrowed(fall);
    'columns: for column in 0..slots.len() {
        leasts[column] = lessened(leasts[column], slots[column] + low[column], base);
    }
}

// A rise, or the greatest number that is below what stands where there is no number.
#[inline]
fn clipped(rise: u64) -> u32
    ensures least { result ≤ rise }
    ensures below { result < absent }
{
    if rise < ABSENT as u64 {
        rise as u32
    } else {
        ABSENT - 1
    }
}

// Writes the rises, each clipped.
pub(crate) fn clip(rises: &[u64], low: &mut [u32])
    requires { length low.old ≡ length rises.now }
    ensures count { length low.new ≡ length low.old }
    ensures low { AreClipped rises.now low.new }
{
    'columns: for column in 0..rises.len() {
        low[column] = clipped(rises[column]);
    }
}

// Whether a column rises by no less than before, nor by less than the floor.
#[inline]
fn is_raised(before: u64, after: u64, floor: u64) -> bool
    ensures before { IsTrue result → before ≤ after }
    ensures floor { IsTrue result → floor ≤ after }
{
    before <= after && floor <= after
}

// Whether each column does. All are looked at, so that it goes several columns at a time.
pub(crate) fn are_raised(before: &[u64], after: &[u64], floor: u64) -> bool
    requires { length before.now ≡ length after.now }
    ensures { IsTrue result → AreRaised before.now after.now floor }
{
    let mut raised = true;
    'columns: for column in 0..after.len() {
        raised = is_raised(before[column], after[column], floor) & raised;
    }
    raised
}

// Whether no column rises by less than the floor; writes the rises, each clipped.
pub(crate) fn are_floored(after: &[u64], floor: u64, low: &mut [u32]) -> bool
    requires { length low.old ≡ length after.now }
    ensures count { length low.new ≡ length low.old }
    ensures low { IsTrue result → AreClipped after.now low.new }
    ensures floored { IsTrue result → (c : ℕ) → c < length after.now
        → floor ≤ slice_index after.now c }
{
    'columns: for column in 0..after.len() {
        if after[column] < floor {
            return false;
        }
        low[column] = clipped(after[column]);
    }
    true
}
