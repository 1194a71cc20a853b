//! Numbers of 64 bits: passes over a row go a column at a time.

ghost use Rattle.std.specs.Prelude.{◌≡◌, length};

use crate::numbers::{Number, Two};
use crate::places::{is_marked, name};

impl Number for i64 {
    #[inline]
    fn zero() -> i64 {
        0
    }

    #[inline]
    fn greatest() -> i64 {
        i64::MAX
    }

    #[inline]
    fn done() -> i64 {
        i64::MIN
    }

    #[inline]
    fn of(amount: u64) -> i64 {
        (amount % (1 << 63)) as i64
    }

    #[inline]
    fn to_wide(self) -> i64 {
        self
    }

    #[inline]
    fn plus(self, other: i64) -> i64 {
        self.wrapping_add(other)
    }

    #[inline]
    fn minus(self, other: i64) -> i64 {
        self.wrapping_sub(other)
    }

    #[inline]
    fn is_less(self, other: i64) -> bool {
        self < other
    }

    fn lessen(
        row: &[i64],
        leasts: &mut [i64],
        rows: &mut [u32],
        wide: usize,
        base: i64,
        from: u32,
    ) {
        if row.len() < wide || leasts.len() < wide || rows.len() < wide {
            return;
        }
        for column in 0..wide {
            let value = row[column].wrapping_sub(base);
            if value < leasts[column] {
                leasts[column] = value;
                rows[column] = from;
            }
        }
    }

    fn open(
        row: &[i64],
        duals: &[i64],
        keys: &mut [i64],
        limits: &mut [i64],
        blocks: &mut [i64],
        came: &mut [u32],
        wide: usize,
        from: u32,
    ) {
        if row.len() < wide || duals.len() < wide || keys.len() < wide {
            return;
        }
        if limits.len() < wide || came.len() < wide || blocks.len() < wide / 16 {
            return;
        }
        for column in 0..wide {
            limits[column] = row[column];
            keys[column] = row[column].wrapping_sub(duals[column]);
            came[column] = from;
        }
        for number in 0..wide / 16 {
            blocks[number] = i64::block(keys, number);
        }
    }

    fn relax(
        row: &[i64],
        duals: &[i64],
        keys: &mut [i64],
        limits: &mut [i64],
        blocks: &mut [i64],
        came: &mut [u32],
        wide: usize,
        base: i64,
        from: u32,
    ) {
        if row.len() < wide || duals.len() < wide || keys.len() < wide {
            return;
        }
        if limits.len() < wide || came.len() < wide || blocks.len() < wide / 16 {
            return;
        }
        for column in 0..wide {
            let reached = row[column].wrapping_sub(base);
            if reached < limits[column] {
                limits[column] = reached;
                keys[column] = reached.wrapping_sub(duals[column]);
                came[column] = from;
                let number = column / 16;
                if number < blocks.len() {
                    blocks[number] = blocks[number].min(keys[column].wrapping_sub(1));
                }
            }
        }
    }

    fn block(keys: &[i64], number: usize) -> i64 {
        let first = number.saturating_mul(16);
        let end = first.saturating_add(16).min(keys.len());
        let mut least = i64::MAX;
        for column in first..end {
            least = least.min(keys[column].wrapping_sub(1));
        }
        least
    }

    fn least(blocks: &[i64]) -> i64 {
        let mut least = i64::MAX;
        for number in 0..blocks.len() {
            least = least.min(blocks[number]);
        }
        least
    }

    fn find(keys: &[i64], blocks: &[i64], free: &[u64], key: i64, from: usize) -> usize {
        let count = keys.len().min(16 * (blocks.len() % (1 << 32)));
        let start = from.min(count);
        let mut found = keys.len();
        for k in 0..count {
            let column = if k < count - start {
                start + k
            } else {
                k - (count - start)
            };
            if keys[column] == key {
                if is_marked(free, column) {
                    return column;
                }
                if found == keys.len() {
                    found = column;
                }
            }
        }
        found
    }

    fn two_least(row: &[i64], duals: &[i64], wide: usize) -> Two<i64> {
        let mut two = Two {
            least: i64::MAX,
            next: i64::MAX,
            place: 0,
        };
        for column in 0..wide.min(row.len()).min(duals.len()) {
            let value = row[column].wrapping_sub(duals[column]);
            if value < two.least {
                two.next = two.least;
                two.least = value;
                two.place = name(column);
            } else if value < two.next {
                two.next = value;
            }
        }
        two
    }

    fn find_tie(
        row: &[i64],
        duals: &[i64],
        free: &[u64],
        level: i64,
        wide: usize,
        but: usize,
    ) -> usize {
        let mut found = wide;
        for column in 0..wide.min(row.len()).min(duals.len()) {
            if column != but && row[column].wrapping_sub(duals[column]) == level {
                if is_marked(free, column) {
                    return column;
                }
                if found == wide {
                    found = column;
                }
            }
        }
        found
    }
}
