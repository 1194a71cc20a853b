//! Reduced squares.

use asg_square::Square;

/// A square that steps have changed, with the product of those steps. Of what the square was, each
/// perfect assignment has as its fold the product of the index and of its fold now.
#[derive(Drop)]
pub struct Reduced<V: Copy> {
    /// The square as it is.
    pub now: Square<V>,
    /// The product of the steps that led to it.
    pub index: V,
}
