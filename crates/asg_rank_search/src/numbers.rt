//! Numbers in which children are searched for, and passes over lists of them.
//!
//! A pass over lists of which one is too short does nothing. A column that is done has the least
//! number as its key.

ghost use Rattle.std.specs.Prelude.{◌≡◌, length};

use asg_dual_numbers::Number;
use std::simd::prelude::*;

/// Numbers of a width, in which paths are searched.
pub trait RankNumber: Number {
    /// What stands for a cell that is absent, or for one with a greater number.
    fn far() -> Self;

    /// How long a path may be, and how far a row or a column may be from where it was at first:
    /// within it, no sum overflows, and no absent cell is nearer.
    fn most() -> u64;

    /// Lessens each open column's key to what a row, with so much less and with what the column
    /// rose, reaches. Gives the least key, less one.
    fn relax_row(row: &[Self], raised: &[Self], keys: &mut [Self], base: Self) -> Self
        ensures { length keys.new ≡ length keys.old };

    /// Lessens the least number of each column to a row's, with so much less and with what the
    /// column rose. Gives the least of the row's, each at least the column's floor.
    fn lessen_row(
        row: &[Self],
        raised: &[Self],
        floors: &[Self],
        leasts: &mut [Self],
        base: Self,
    ) -> Self
        ensures { length leasts.new ≡ length leasts.old };

    /// The least key, less one; keys that are done count as the greatest.
    fn least_key(keys: &[Self]) -> Self;

    /// The first column with this key, else a place past all.
    fn find_key(keys: &[Self], key: Self) -> usize;
}

impl RankNumber for i32 {
    #[inline]
    fn far() -> i32 {
        1 << 30
    }

    #[inline]
    fn most() -> u64 {
        1 << 28
    }

    fn relax_row(row: &[i32], raised: &[i32], keys: &mut [i32], base: i32) -> i32 {
        let wide = row.len();
        let mut least = i32x16::splat(i32::MAX);
        if raised.len() < wide || keys.len() < wide {
            return i32::MAX;
        }
        let bases = i32x16::splat(base);
        let ones = i32x16::splat(1);
        for number in 0..wide / 16 {
            let first = 16 * number;
            let rest = i32x16::from_slice(&row[first..]) - bases;
            let reached = rest + i32x16::from_slice(&raised[first..]);
            let key = reached.simd_min(i32x16::from_slice(&keys[first..]));
            key.copy_to_slice(&mut keys[first..]);
            least = least.simd_min(key - ones);
        }
        least.reduce_min()
    }

    fn lessen_row(
        row: &[i32],
        raised: &[i32],
        floors: &[i32],
        leasts: &mut [i32],
        base: i32,
    ) -> i32 {
        let wide = row.len();
        let mut least = i32x16::splat(i32::far());
        if raised.len() < wide || floors.len() < wide || leasts.len() < wide {
            return i32::far();
        }
        let bases = i32x16::splat(base);
        for number in 0..wide / 16 {
            let first = 16 * number;
            let rest = i32x16::from_slice(&row[first..]) - bases;
            let value = rest + i32x16::from_slice(&raised[first..]);
            let was = i32x16::from_slice(&leasts[first..]);
            value.simd_min(was).copy_to_slice(&mut leasts[first..]);
            least = least.simd_min(value.simd_max(i32x16::from_slice(&floors[first..])));
        }
        least.reduce_min()
    }

    fn least_key(keys: &[i32]) -> i32 {
        let mut least = i32x16::splat(i32::MAX);
        let ones = i32x16::splat(1);
        for number in 0..keys.len() / 16 {
            least = least.simd_min(i32x16::from_slice(&keys[16 * number..]) - ones);
        }
        least.reduce_min()
    }

    fn find_key(keys: &[i32], key: i32) -> usize {
        let wanted = i32x16::splat(key);
        for number in 0..keys.len() / 16 {
            let first = 16 * number;
            let bits = i32x16::from_slice(&keys[first..])
                .simd_eq(wanted)
                .to_bitmask();
            if bits != 0 {
                return first.saturating_add(bits.trailing_zeros() as usize);
            }
        }
        keys.len()
    }
}

impl RankNumber for i64 {
    #[inline]
    fn far() -> i64 {
        1 << 60
    }

    #[inline]
    fn most() -> u64 {
        1 << 58
    }

    fn relax_row(row: &[i64], raised: &[i64], keys: &mut [i64], base: i64) -> i64 {
        let wide = row.len();
        let mut least = i64::MAX;
        if raised.len() < wide || keys.len() < wide {
            return least;
        }
        for column in 0..wide {
            let reached = row[column].wrapping_sub(base).wrapping_add(raised[column]);
            let key = reached.min(keys[column]);
            keys[column] = key;
            least = least.min(key.wrapping_sub(1));
        }
        least
    }

    fn lessen_row(
        row: &[i64],
        raised: &[i64],
        floors: &[i64],
        leasts: &mut [i64],
        base: i64,
    ) -> i64 {
        let wide = row.len();
        let mut least = i64::far();
        if raised.len() < wide || floors.len() < wide || leasts.len() < wide {
            return least;
        }
        for column in 0..wide {
            let value = row[column].wrapping_sub(base).wrapping_add(raised[column]);
            leasts[column] = leasts[column].min(value);
            least = least.min(value.max(floors[column]));
        }
        least
    }

    fn least_key(keys: &[i64]) -> i64 {
        let mut least = i64::MAX;
        for column in 0..keys.len() {
            least = least.min(keys[column].wrapping_sub(1));
        }
        least
    }

    fn find_key(keys: &[i64], key: i64) -> usize {
        for column in 0..keys.len() {
            if keys[column] == key {
                return column;
            }
        }
        keys.len()
    }
}

// The number of an amount up to what stands for an absent cell, and that for a greater one.
#[inline]
pub(crate) fn capped<N: RankNumber>(amount: u64) -> N {
    if amount < amount_of(N::far()) {
        N::of(amount)
    } else {
        N::far()
    }
}

// The amount of a number from 0 on.
#[inline]
pub(crate) fn amount_of<N: Number>(number: N) -> u64 {
    number.to_wide().max(0) as u64
}

// By how much each column rose since first.
pub(crate) fn load<N: Number>(rises: &[u64], bases: &[u64], raised: &mut [N])
    ensures { length raised.new ≡ length raised.old }
{
    let count = rises.len().min(bases.len()).min(raised.len());
    for column in 0..count {
        raised[column] = N::of(rises[column].wrapping_sub(bases[column]));
    }
}

// Opens each column at what a row reaches, with so much less and with what the column rose.
pub(crate) fn open<N: Number>(row: &[N], raised: &[N], keys: &mut [N], base: N)
    ensures { length keys.new ≡ length keys.old }
{
    let wide = row.len();
    if raised.len() < wide || keys.len() < wide {
        return;
    }
    for column in 0..wide {
        keys[column] = row[column].minus(base).plus(raised[column]);
    }
}
