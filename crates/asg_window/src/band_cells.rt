//! The cells of a band of grades.

use asg_live_cells::Marks;

/// Marked cells, and the ends of the band of grades that they are of: the free cells and the live
/// ones with a grade from `low` on and below `high`, which stand between the two places among the
/// live cells in order.
#[derive(Drop)]
pub(crate) struct BandCells {
    pub(crate) marks: Marks,
    pub(crate) low: u32,
    pub(crate) high: u32,
    pub(crate) first: usize,
    pub(crate) end: usize,
}
