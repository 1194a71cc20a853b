//! Numbers of 32 bits: passes over a row go 16 columns at a time.

ghost use Rattle.std.specs.Prelude.{◌≡◌, length};

use crate::numbers::{Number, Two};
use crate::places::{name, sixteen};
use std::simd::prelude::*;

// The two least of those so far and of sixteen values, the first of which is at a place.
#[inline]
fn with_sixteen(two: Two<i32>, values: i32x16, first: usize) -> Two<i32> {
    let values = values.to_array();
    let mut two = two;
    for lane in 0..16usize {
        let value = values[lane];
        if value < two.least {
            two.next = two.least;
            two.least = value;
            two.place = name(first.wrapping_add(lane));
        } else if value < two.next {
            two.next = value;
        }
    }
    two
}

// The least of sixteen keys, less one; keys that are done count as the greatest.
#[inline]
fn least_of(keys: i32x16) -> i32 {
    (keys - i32x16::splat(1)).reduce_min()
}

// A bit for each column of a sixteen that has a key, the first one's lowest.
#[inline]
fn equal_bits(keys: &[i32], number: usize, key: i32) -> u64 {
    let first = number.saturating_mul(16);
    if first < keys.len() && keys.len() - first >= 16 {
        i32x16::from_slice(&keys[first..])
            .simd_eq(i32x16::splat(key))
            .to_bitmask()
    } else {
        0
    }
}

// The column of the lowest of a sixteen's bits.
#[inline]
fn place_of(number: usize, bits: u64) -> usize {
    number
        .saturating_mul(16)
        .saturating_add(bits.trailing_zeros() as usize)
}

impl Number for i32 {
    #[inline]
    fn zero() -> i32 {
        0
    }

    #[inline]
    fn greatest() -> i32 {
        i32::MAX
    }

    #[inline]
    fn done() -> i32 {
        i32::MIN
    }

    #[inline]
    fn of(amount: u64) -> i32 {
        (amount % (1 << 31)) as i32
    }

    #[inline]
    fn to_wide(self) -> i64 {
        i64::from(self)
    }

    #[inline]
    fn plus(self, other: i32) -> i32 {
        self.wrapping_add(other)
    }

    #[inline]
    fn minus(self, other: i32) -> i32 {
        self.wrapping_sub(other)
    }

    #[inline]
    fn is_less(self, other: i32) -> bool {
        self < other
    }

    fn lessen(
        row: &[i32],
        leasts: &mut [i32],
        rows: &mut [u32],
        wide: usize,
        base: i32,
        from: u32,
    ) {
        if row.len() < wide || leasts.len() < wide || rows.len() < wide {
            return;
        }
        let bases = i32x16::splat(base);
        let froms = u32x16::splat(from);
        for number in 0..wide / 16 {
            let first = 16 * number;
            let values = i32x16::from_slice(&row[first..]) - bases;
            let was = i32x16::from_slice(&leasts[first..]);
            let is = values.simd_lt(was);
            if is.to_bitmask() != 0 {
                let who = u32x16::from_slice(&rows[first..]);
                values.simd_min(was).copy_to_slice(&mut leasts[first..]);
                is.select(froms, who).copy_to_slice(&mut rows[first..]);
            }
        }
    }

    fn open(
        row: &[i32],
        duals: &[i32],
        keys: &mut [i32],
        limits: &mut [i32],
        blocks: &mut [i32],
        came: &mut [u32],
        wide: usize,
        from: u32,
    ) {
        if row.len() < wide || duals.len() < wide || keys.len() < wide {
            return;
        }
        if limits.len() < wide || came.len() < wide || blocks.len() < wide / 16 {
            return;
        }
        let froms = u32x16::splat(from);
        for number in 0..wide / 16 {
            let first = 16 * number;
            let reached = i32x16::from_slice(&row[first..]);
            let key = reached - i32x16::from_slice(&duals[first..]);
            reached.copy_to_slice(&mut limits[first..]);
            key.copy_to_slice(&mut keys[first..]);
            froms.copy_to_slice(&mut came[first..]);
            blocks[number] = least_of(key);
        }
    }

    fn relax(
        row: &[i32],
        duals: &[i32],
        keys: &mut [i32],
        limits: &mut [i32],
        blocks: &mut [i32],
        came: &mut [u32],
        wide: usize,
        base: i32,
        from: u32,
    ) {
        if row.len() < wide || duals.len() < wide || keys.len() < wide {
            return;
        }
        if limits.len() < wide || came.len() < wide || blocks.len() < wide / 16 {
            return;
        }
        let bases = i32x16::splat(base);
        let froms = u32x16::splat(from);
        for number in 0..wide / 16 {
            let first = 16 * number;
            let reached = i32x16::from_slice(&row[first..]) - bases;
            let limit = i32x16::from_slice(&limits[first..]);
            let is = reached.simd_lt(limit);
            if is.to_bitmask() != 0 {
                let was = i32x16::from_slice(&keys[first..]);
                let key = is.select(reached - i32x16::from_slice(&duals[first..]), was);
                let who = u32x16::from_slice(&came[first..]);
                reached.simd_min(limit).copy_to_slice(&mut limits[first..]);
                key.copy_to_slice(&mut keys[first..]);
                is.select(froms, who).copy_to_slice(&mut came[first..]);
                blocks[number] = least_of(key);
            }
        }
    }

    fn block(keys: &[i32], number: usize) -> i32 {
        let first = number.saturating_mul(16);
        if first < keys.len() && keys.len() - first >= 16 {
            least_of(i32x16::from_slice(&keys[first..]))
        } else {
            i32::MAX
        }
    }

    fn least(blocks: &[i32]) -> i32 {
        let mut least = i32x16::splat(i32::MAX);
        for number in 0..blocks.len() / 16 {
            least = least.simd_min(i32x16::from_slice(&blocks[16 * number..]));
        }
        least.reduce_min()
    }

    fn find(keys: &[i32], blocks: &[i32], free: &[u64], key: i32, from: usize) -> usize {
        let groups = blocks.len() / 16;
        let start = (from / 256).min(groups);
        let block = i32x16::splat(key.wrapping_sub(1));
        let mut found = keys.len();
        for k in 0..groups {
            let group = if k < groups - start {
                start + k
            } else {
                k - (groups - start)
            };
            let mut rest = i32x16::from_slice(&blocks[16 * group..])
                .simd_eq(block)
                .to_bitmask();
            for _ in 0..16 {
                if rest == 0 {
                    break;
                }
                let number = (16 * group).wrapping_add(rest.trailing_zeros() as usize);
                rest &= rest.wrapping_sub(1);
                let bits = equal_bits(keys, number, key);
                let open = sixteen(free, number) & bits;
                if open != 0 {
                    return place_of(number, open);
                }
                if found == keys.len() && bits != 0 {
                    found = place_of(number, bits);
                }
            }
        }
        found
    }

    fn two_least(row: &[i32], duals: &[i32], wide: usize) -> Two<i32> {
        let groups = wide.min(row.len()).min(duals.len()) / 16;
        let mut two = Two {
            least: i32::MAX,
            next: i32::MAX,
            place: 0,
        };
        for number in 0..groups {
            let first = 16 * number;
            let values = i32x16::from_slice(&row[first..]) - i32x16::from_slice(&duals[first..]);
            if values.simd_lt(i32x16::splat(two.next)).to_bitmask() != 0 {
                two = with_sixteen(two, values, first);
            }
        }
        two
    }

    fn find_tie(
        row: &[i32],
        duals: &[i32],
        free: &[u64],
        level: i32,
        wide: usize,
        but: usize,
    ) -> usize {
        let groups = wide.min(row.len()).min(duals.len()) / 16;
        let wanted = i32x16::splat(level);
        let mut found = wide;
        for number in 0..groups {
            let first = 16 * number;
            let values = i32x16::from_slice(&row[first..]) - i32x16::from_slice(&duals[first..]);
            let mut bits = values.simd_eq(wanted).to_bitmask();
            if bits != 0 {
                if but / 16 == number {
                    bits &= !(1u64 << ((but % 16) as u32));
                }
                let open = sixteen(free, number) & bits;
                if open != 0 {
                    return first + open.trailing_zeros() as usize;
                }
                if found == wide && bits != 0 {
                    found = first + bits.trailing_zeros() as usize;
                }
            }
        }
        found
    }
}
