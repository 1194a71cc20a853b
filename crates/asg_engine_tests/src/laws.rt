//! Laws, and lists of ranks in order, for which no command asks.

ghost use Rattle.std.specs.Prelude.{◌<◌};

use asg_match::{Allowed, short_or_perfect};
use asg_monoids::laws::sums_in_range;
use asg_monoids::{Bounded, Graded, compare_ranks};
use asg_order::laws;
use std::cmp::Ordering;

// One row with one cell.
#[derive(Drop)]
struct OneCell;

impl Allowed for OneCell {
    ghost side = { λ _. 1 };

    ghost allows = { λ _ r c. (r < 1) × (c < 1) };

    fn has(&self, r: u32, c: u32) -> bool {
        r < 1 && c < 1
    }

    ghost within = { λ s r c h. (h.0, h.1) };
}

// Each law can be called for a monoid of grades, or for cells.
#[test]
fn laws_at_a_type() {
    let pairs = Graded {
        inner: Bounded { top: 100 },
    };
    laws::rearranged(&pairs);
    laws::joined(&pairs);
    laws::power(&pairs);
    laws::scaled(&pairs);
    laws::raised(&pairs);
    laws::differences(&pairs);
    sums_in_range();
    short_or_perfect(&OneCell);
}

#[test]
fn ranks(rt: HostRuntime) {
    let found = [
        compare_ranks(&[2, 2, 1], &[3, 2, 2]),
        compare_ranks(&[3, 2], &[3]),
        compare_ranks(&[3, 2], &[3, 2]),
    ];
    assert!(rt; found == [Ordering::Less, Ordering::Greater, Ordering::Equal]);
}
