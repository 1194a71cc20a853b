//! What waits in a search, by its bounds.

use asg_dual_numbers::Ranked;

/// Something that waits, by a name, with its bound. The least bound comes first, of equal ones the
/// greater name.
#[derive(Clone, Copy)]
pub struct Waiting {
    /// The least that can come of it.
    pub bound: u64,
    /// Its name.
    pub name: u32,
}

impl Ranked for Waiting {
    #[inline]
    fn is_before(self, other: Waiting) -> bool {
        self.bound < other.bound || self.bound == other.bound && self.name > other.name
    }
}
