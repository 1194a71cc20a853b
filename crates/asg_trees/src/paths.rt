//! The square of a node, from that of its parent.

ghost use Rattle.std.specs.Prelude.{◌≡◌, ◌+◌, ◌<◌, ◌≤◌, IsTrue, IfOk, length};
ghost use Rattle.asg_rankings.specs.Nodes.{answer_number, node_answer, node_at};
ghost use Rattle.asg_rankings.specs.SearchTrees.{is_answered};
ghost use Rattle.asg_trees.specs.Tallies.{HavePlaces};
ghost use Rattle.asg_trees.specs.Trails.{IsAt};
ghost use Rattle.asg_trees.specs.Trees.{IsReady, IsSound, tree_by};

use crate::NoMemory;
use crate::choice_lists::Choices;
use crate::judged_trees::Tree;
use crate::node_parts::{answer_of, branch_of, own_of, parent_of};
use asg_admit::Reduced;
use asg_bit_rows::BitRows;
use asg_kept_cells::{lead_by, make_mask, take_out};
use asg_model::Choice;
use asg_order::{Kind, Ordered};
use asg_rankings::Node;
use std::alloc::Global;

/// The answer of a node. The error is want of memory.
pub(crate) fn answer_at(
    alloc: Global,
    answers: &Choices,
    nodes: &[Node],
    n: usize,
) -> Result<Choice, NoMemory>
    requires from { 1 ≤ n }
    requires upto { n ≤ length nodes.now }
    requires there { 1 ≤ answer_number (node_at nodes.now n).mark }
    requires given { answer_number (node_at nodes.now n).mark ≤ length answers.now }
    ensures { IfOk result (λ choice. choice ≡ node_answer answers.now nodes.now n) }
{
    answers.choice(alloc, answer_of(nodes, n) - 1)
}

/// Makes the square of a node's parent after its trail that of the node, which is answered: the
/// cells that its branch doesn't keep are taken out, and its own phases are applied. The error is
/// want of memory.
pub(crate) fn go_down<K: Kind>(
    alloc: Global,
    kind: &K,
    tree: &Tree<'_, <<K as Kind>::M as Ordered>::Value>,
    kept: &mut BitRows,
    reduced: &mut Reduced<<<K as Kind>::M as Ordered>::Value>,
    n: usize,
) -> Result<(), NoMemory>
    requires ready { let T = tree_by K.M.monoid_of K.M.difference K.M.word_of K.monoid K.entered
        kind.now tree.now in IsReady T tree.now }
    requires from { 1 < n }
    requires upto { n ≤ length tree.now.nodes.now }
    requires places { let T = tree_by K.M.monoid_of K.M.difference K.M.word_of K.monoid K.entered
        kind.now tree.now in HavePlaces T (n + 1) }
    requires sound { let T = tree_by K.M.monoid_of K.M.difference K.M.word_of K.monoid K.entered
        kind.now tree.now in IsSound T n }
    requires answered { IsTrue (is_answered (node_at tree.now.nodes.now n).mark) }
    requires at { let T = tree_by K.M.monoid_of K.M.difference K.M.word_of K.monoid K.entered
        kind.now tree.now in
        IsAt T (node_at tree.now.nodes.now n).parent reduced.old kept.old }
    ensures { let T = tree_by K.M.monoid_of K.M.difference K.M.word_of K.monoid K.entered
        kind.now tree.now in IfOk result (λ _. IsAt T n reduced.new kept.new) }
{
    let nodes = tree.nodes;
    let choice = answer_at(alloc, tree.answers, nodes, parent_of(nodes, n))?;
    make_mask(kept, tree.inst, &reduced.now, &choice, branch_of(nodes, n));
    take_out(&mut reduced.now, kept);
    lead_by(alloc, kind.monoid(), reduced, own_of(nodes, n))?;
    Ok(())
}
