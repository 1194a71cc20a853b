//! The least sums that are known.

use asg_dual_numbers::{Lists, Ranked, sink};

// A sum that is known; the greatest comes first.
#[derive(Clone, Copy)]
struct Known {
    sum: u64,
}

impl Ranked for Known {
    #[inline]
    fn is_before(self, other: Known) -> bool {
        self.sum > other.sum
    }
}

/// The least so many of the sums that were put in.
///
/// They stand in a binary heap, the greatest in front. What isn't known yet counts as the greatest
/// sum.
#[derive(Drop)]
pub struct Limit {
    sums: Vec<Known>,
}

impl Limit {
    /// The least so many of sums; none is known yet.
    pub fn make(lists: &mut Lists, count: usize) -> Limit {
        Limit {
            sums: lists.of(Known { sum: u64::MAX }, count),
        }
    }

    /// Puts a sum in.
    pub fn put(&mut self, sum: u64) {
        if sum < self.limit() {
            sink(self.sums.as_mut_slice(), Known { sum });
        }
    }

    /// The greatest of the least so many: no answer with as great a sum, or a greater one, is
    /// wanted. `u64::MAX` while fewer are known.
    pub fn limit(&self) -> u64 {
        if self.sums.len() > 0 {
            self.sums[0].sum
        } else {
            u64::MAX
        }
    }
}
