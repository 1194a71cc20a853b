//! A tree that is judged.

use crate::choice_lists::Choices;
use crate::groups::Groups;
use asg_model::Instance;
use asg_rankings::Node;

/// An instance, answers, of which so many were asked for, and nodes that are judged. The nodes are
/// grouped by the parents that they name and by their answers. The product of the last answer is
/// there where as many are listed as were asked for.
#[derive(Drop)]
pub(crate) struct Tree<'a, V: Copy> {
    pub(crate) inst: &'a Instance,
    pub(crate) count: usize,
    pub(crate) answers: &'a Choices,
    pub(crate) nodes: &'a [Node],
    pub(crate) members: &'a Groups,
    pub(crate) given: &'a Groups,
    pub(crate) last: Option<V>,
}
