//! What is concluded of a tree of which all is known.

ghost use Rattle.std.specs.Prelude.{◌≡◌, None, IfSome, length};
ghost use Rattle.asg_trees.specs.Groups.{AreGroups, answer_keys};
ghost use Rattle.asg_trees.specs.Judged.{AreGiven, IsLacking, conclusion, conclusion_sound};

use crate::choice_lists::Choices;
use crate::groups::Groups;
use crate::verdicts::{Tally, TreeVerdict};
use asg_rankings::Node;

/// The first answer that has no node.
pub(crate) fn first_lacking(given: &Groups, nodes: &[Node], answers: &Choices) -> Option<usize>
    requires { AreGroups (answer_keys nodes.now) (length answers.now) given.now }
    ensures some { IfSome result (IsLacking answers.now nodes.now) }
    ensures none { result ≡ None → AreGiven answers.now nodes.now }
{
    let _ = nodes;
    for before in 0..answers.len() {
        if given.first_of(before + 1) == 0 {
            return Some(before + 1);
        }
    }
    None
}

// The verdict on a tree none of whose nodes is at fault, by the least that is open and may not be,
// and by an answer that has no node.
fn concluded_sound(left: usize, nodes: usize, lacking: Option<usize>) -> TreeVerdict
    ensures { result ≡ conclusion_sound left nodes lacking }
{
    match lacking {
        Some(_) => TreeVerdict::NodeLacks,
        None => {
            if left <= nodes {
                TreeVerdict::OpenAt(left)
            } else {
                TreeVerdict::Tree
            }
        }
    }
}

/// The verdict on a tree of which all is tallied, by an answer that has no node.
pub(crate) fn concluded(tally: Tally, nodes: usize, lacking: Option<usize>) -> TreeVerdict
    ensures { result ≡ conclusion tally nodes lacking }
{
    if tally.fault <= nodes {
        TreeVerdict::FaultAt(tally.fault)
    } else {
        concluded_sound(tally.left, nodes, lacking)
    }
}
