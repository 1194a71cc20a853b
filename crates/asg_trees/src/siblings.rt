//! The nodes that name one parent, judged on its square.

ghost use Rattle.std.specs.Prelude.{◌≡◌, ◌+◌, ◌<◌, ◌≤◌, IsTrue, IfOk, length};
ghost use Rattle.asg_rankings.specs.Nodes.{node_answer, node_at};
ghost use Rattle.asg_rankings.specs.SearchTrees.{is_answered};
ghost use Rattle.asg_kept_cells.specs.Kept.{IsFront, IsMaskOf, KeepsOtherRows};
ghost use Rattle.asg_trees.specs.Tallies.{Falls, HavePlaces, IsFair, IsTallied, TalliesNode};
ghost use Rattle.asg_trees.specs.Trails.{IsAt, StandsAt};
ghost use Rattle.asg_trees.specs.Trees.{IsReady, tree_by};

use crate::NoMemory;
use crate::judged_trees::Tree;
use crate::node_parts::branch_of;
use crate::paths::answer_at;
use crate::tallies::tally_node;
use crate::verdicts::Tally;
use asg_admit::Reduced;
use asg_bit_rows::BitRows;
use asg_kept_cells::{Front, make_mask, move_mask};
use asg_model::Choice;
use asg_order::{Kind, Ordered};
use std::alloc::Global;

// Judges a node on its parent's square and tallies it: bits that another branch of the parent's
// answer keeps are made those that its own keeps, from a known row on. The error is want of memory.
fn judge_member<K: Kind>(
    alloc: Global,
    kind: &K,
    tree: &Tree<'_, <<K as Kind>::M as Ordered>::Value>,
    reduced: &Reduced<<<K as Kind>::M as Ordered>::Value>,
    kept: &mut BitRows,
    choice: &Choice,
    marked: u32,
    front: &mut Front,
    n: usize,
    so_far: Tally,
) -> Result<Tally, NoMemory>
    requires ready { let T = tree_by K.M.monoid_of K.M.difference K.M.word_of K.monoid K.entered
        kind.now tree.now in IsReady T tree.now }
    requires from { 1 < n }
    requires upto { n ≤ length tree.now.nodes.now }
    requires places { let T = tree_by K.M.monoid_of K.M.difference K.M.word_of K.monoid K.entered
        kind.now tree.now in HavePlaces T (n + 1) }
    requires stands { let T = tree_by K.M.monoid_of K.M.difference K.M.word_of K.monoid K.entered
        kind.now tree.now in
        StandsAt T (node_at T.nodes n).parent reduced.now.now reduced.now.index }
    requires choice { let T = tree_by K.M.monoid_of K.M.difference K.M.word_of K.monoid K.entered
        kind.now tree.now in
        choice.now ≡ node_answer T.answers T.nodes (node_at T.nodes n).parent }
    requires over { length choice.now ≡ length tree.now.inst.now.rows }
    requires mask { IsMaskOf tree.now.inst.now choice.now marked kept.old }
    requires front { IsFront tree.now.inst.now front.old }
    ensures mask { IsMaskOf tree.now.inst.now choice.now (node_at tree.now.nodes.now n).branch
        kept.new }
    ensures kept { KeepsOtherRows tree.now.inst.now kept.new }
    ensures front { IsFront tree.now.inst.now front.new }
    ensures tallied { let T = tree_by K.M.monoid_of K.M.difference K.M.word_of K.monoid K.entered
        kind.now tree.now in IfOk result (TalliesNode T n so_far) }
{
    let square = &reduced.now;
    let branch = branch_of(tree.nodes, n);
    *front = move_mask(kept, tree.inst, square, choice, marked, branch, *front);
    tally_node(
        alloc,
        kind,
        tree,
        square,
        kept,
        reduced.index,
        None,
        n,
        so_far,
    )
}

// Judges the nodes that name a parent one after the other, from bits that the first branch of its
// answer keeps, up to the first at fault, and tallies them. The error is want of memory.
fn judge_members<K: Kind>(
    alloc: Global,
    kind: &K,
    tree: &Tree<'_, <<K as Kind>::M as Ordered>::Value>,
    reduced: &Reduced<<<K as Kind>::M as Ordered>::Value>,
    kept: &mut BitRows,
    choice: &Choice,
    parent: usize,
    so_far: Tally,
) -> Result<Tally, NoMemory>
    requires ready { let T = tree_by K.M.monoid_of K.M.difference K.M.word_of K.monoid K.entered
        kind.now tree.now in IsReady T tree.now }
    requires from { 1 ≤ parent }
    requires upto { parent ≤ length tree.now.nodes.now }
    requires stands { let T = tree_by K.M.monoid_of K.M.difference K.M.word_of K.monoid K.entered
        kind.now tree.now in StandsAt T parent reduced.now.now reduced.now.index }
    requires choice { choice.now ≡ node_answer tree.now.answers.now tree.now.nodes.now parent }
    requires over { length choice.now ≡ length tree.now.inst.now.rows }
    requires mask { IsMaskOf tree.now.inst.now choice.now 1 kept.old }
    requires kept { KeepsOtherRows tree.now.inst.now kept.old }
    requires fair { let T = tree_by K.M.monoid_of K.M.difference K.M.word_of K.monoid K.entered
        kind.now tree.now in IsFair T so_far }
    ensures kept { IfOk result (λ _. KeepsOtherRows tree.now.inst.now kept.new) }
    ensures tallied { let T = tree_by K.M.monoid_of K.M.difference K.M.word_of K.monoid K.entered
        kind.now tree.now in IfOk result (IsTallied T parent (length tree.now.nodes.now + 1)) }
    ensures falls { IfOk result (Falls so_far) }
{
    let mut tally = so_far;
    let mut marked = 1;
    let mut front = Front::first();
    let mut member = tree.members.first_of(parent);
    'members: while member != 0 && member < tally.fault {
        tally = judge_member(
            alloc, kind, tree, reduced, kept, choice, marked, &mut front, member, tally,
        )?;
        marked = branch_of(tree.nodes, member);
        member = tree.members.next_of(member);
    }
    Ok(tally)
}

/// Judges the nodes that name a parent, on its square after its trail, up to the first at fault,
/// and tallies them. The error is want of memory.
pub(crate) fn judge_children<K: Kind>(
    alloc: Global,
    kind: &K,
    tree: &Tree<'_, <<K as Kind>::M as Ordered>::Value>,
    reduced: &Reduced<<<K as Kind>::M as Ordered>::Value>,
    kept: &mut BitRows,
    parent: usize,
    so_far: Tally,
) -> Result<Tally, NoMemory>
    requires ready { let T = tree_by K.M.monoid_of K.M.difference K.M.word_of K.monoid K.entered
        kind.now tree.now in IsReady T tree.now }
    requires from { 1 ≤ parent }
    requires upto { parent ≤ length tree.now.nodes.now }
    requires answered { IsTrue (is_answered (node_at tree.now.nodes.now parent).mark) }
    requires at { let T = tree_by K.M.monoid_of K.M.difference K.M.word_of K.monoid K.entered
        kind.now tree.now in IsAt T parent reduced.now kept.old }
    requires fair { let T = tree_by K.M.monoid_of K.M.difference K.M.word_of K.monoid K.entered
        kind.now tree.now in IsFair T so_far }
    ensures kept { IfOk result (λ _. KeepsOtherRows tree.now.inst.now kept.new) }
    ensures tallied { let T = tree_by K.M.monoid_of K.M.difference K.M.word_of K.monoid K.entered
        kind.now tree.now in IfOk result (IsTallied T parent (length tree.now.nodes.now + 1)) }
    ensures falls { IfOk result (Falls so_far) }
{
    let choice = answer_at(alloc, tree.answers, tree.nodes, parent)?;
    make_mask(kept, tree.inst, &reduced.now, &choice, 1);
    judge_members(alloc, kind, tree, reduced, kept, &choice, parent, so_far)
}
