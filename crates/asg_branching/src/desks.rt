//! What children are grown on.

use asg_admit::Reduced;
use asg_algebra::Bench;
use asg_bit_rows::BitRows;
use asg_match::Matching;

/// The square of a node's part after the phases of its trail, the number of the node, which is 0
/// before there is one, the cells of it that a branch keeps, and the memory of a solver: a
/// matching, a bench, places for the steps of a phase, columns of rows, and ids.
#[derive(Drop)]
pub struct Desk<V: Copy> {
    pub work: Reduced<V>,
    pub node: u32,
    pub bits: BitRows,
    pub bench: Bench<V>,
    pub trial: Matching,
    pub room: Vec<V>,
    pub columns: Vec<u32>,
    pub ids: Vec<u32>,
}
