//! Sums of 64 bits and keys, compared 16 at a time.

ghost use Rattle.std.specs.Prelude.{◌≡◌, ◌<◌, ◌≤◌, ◌+◌, ◌^◌, length};
ghost use Rattle.asg_kept.specs.NarrowRows.{AreLesserBits};

use std::simd::prelude::*;

// A bit for each of 64 columns, the first one lowest, by 16 columns at a time.
#[inline]
pub(crate) fn lesser_bits(base: u64, values: &[u64], columns: &[u64], keys: &[u64]) -> u64
    requires values { length values.now ≡ 64 }
    requires columns { length columns.now ≡ 64 }
    requires keys { length keys.now ≡ 64 }
    ensures { AreLesserBits base values.now columns.now keys.now 0 64 result }
{
    let first = lanes_lesser(base, values, columns, keys, 0);
    let second = lanes_lesser(base, values, columns, keys, 16);
    let third = lanes_lesser(base, values, columns, keys, 32);
    let fourth = lanes_lesser(base, values, columns, keys, 48);
    first | second << 16 | third << 32 | fourth << 48
}

// A bit for each of 16 columns from a first one on, that one lowest: 1 where the value with the
// base more and the column's dual variable less is less than the key.
#[inline]
fn lanes_lesser(base: u64, values: &[u64], columns: &[u64], keys: &[u64], first: usize) -> u64
    requires values { first + 16 ≤ length values.now }
    requires columns { first + 16 ≤ length columns.now }
    requires keys { first + 16 ≤ length keys.now }
    ensures bits { AreLesserBits base values.now columns.now keys.now first 16 result }
    ensures few { result < 2 ^ 16 }
{
    let values = Simd::<u64, 16>::from_slice(&values[first..]);
    let columns = Simd::<u64, 16>::from_slice(&columns[first..]);
    let keys = Simd::<u64, 16>::from_slice(&keys[first..]);
    let reached = values + Simd::splat(base) - columns;
    reached.simd_lt(keys).to_bitmask()
}
