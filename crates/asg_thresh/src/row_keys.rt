//! The costs of a row as keys: numbers in the order of grades, the greatest of all where there is
//! no cell. Nothing here is tested.

use asg_model::Objective;
use asg_model::limits::MOST_COST;
use std::simd::prelude::*;

// By how much a grade is more than its key.
const SHIFT: i64 = MOST_COST + 2;

/// How costs are read as keys.
#[derive(Clone, Copy)]
pub(crate) struct Keys {
    flip: i64,
    more: i64,
}

/// The grade of a key, that of no cell past those of all costs.
pub(crate) fn grade_of(key: i64) -> u32 {
    let key = key.max(-MOST_COST - 1).min(MOST_COST);
    (key + SHIFT) as u32
}

/// The least key past those of a grade.
pub(crate) fn end_of(grade: u32) -> i64 {
    i64::from(grade) + 1 - SHIFT
}

// The bits of 64 costs, the first one lowest: 1 for a key before the end.
#[inline]
fn full_word(keys: Keys, firsts: &[i64], end: i64) -> u64 {
    if firsts.len() < 64 {
        return 0;
    }
    let flips = Simd::<i64, 64>::splat(keys.flip);
    let mores = Simd::<i64, 64>::splat(keys.more);
    let read = (Simd::<i64, 64>::from_slice(firsts) ^ flips) + mores;
    read.simd_lt(Simd::<i64, 64>::splat(end)).to_bitmask()
}

impl Keys {
    /// Less for a cost that the objective finds better.
    pub(crate) fn of(objective: Objective) -> Keys {
        match objective {
            Objective::BottleneckMax => Keys { flip: -1, more: 0 },
            _ => Keys { flip: 0, more: -1 },
        }
    }

    // The key of a cost.
    #[inline]
    fn key(self, first: i64) -> i64 {
        (first ^ self.flip).wrapping_add(self.more)
    }

    /// The least grade of the costs of a row, whose keys are no less than the columns' floors.
    pub(crate) fn least_grade(self, firsts: &[i64], floors: &[i64]) -> u32 {
        let count = firsts.len().min(floors.len());
        let floors = &floors[..count];
        let mut least = i64::MAX;
        for column in 0..count {
            least = least.min(self.key(firsts[column]).max(floors[column]));
        }
        grade_of(least)
    }

    /// Lowers the key of each column to that of the row's cost.
    pub(crate) fn lower(self, leasts: &mut [i64], firsts: &[i64]) {
        for column in 0..leasts.len().min(firsts.len()) {
            leasts[column] = leasts[column].min(self.key(firsts[column]));
        }
    }

    /// The bits of at most 64 costs, the first one lowest: 1 for a key before the end.
    #[inline]
    pub(crate) fn word_before(self, firsts: &[i64], end: i64) -> u64 {
        if firsts.len() == 64 {
            return full_word(self, firsts, end);
        }
        let mut word = 0u64;
        for place in 0..firsts.len().min(64) {
            word |= u64::from(self.key(firsts[place]) < end) << place;
        }
        word
    }
}
