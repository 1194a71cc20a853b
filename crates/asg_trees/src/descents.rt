//! The nodes below one, each judged on its parent's square. The squares are gone through from a node
//! to its children: the child with most answered nodes below it is the last one, and takes over the
//! square ([Sleator and Tarjan 1983]'s heavy paths); each other one takes a copy. So each answered
//! node is led to once, and the squares that there are at a time are at most as many as the number
//! of answers has binary digits, and one.

ghost use Rattle.std.specs.Prelude.{◌≡◌, ◌≢◌, ◌+◌, ◌<◌, ◌≤◌, IsTrue, IfOk, length};
ghost use Rattle.asg_rankings.specs.Nodes.{node_at};
ghost use Rattle.asg_rankings.specs.SearchTrees.{is_answered};
ghost use Rattle.asg_trees.specs.Descents.{AreSettledBelow, AreSettledBelowEach};
ghost use Rattle.asg_kept_cells.specs.Kept.{KeepsOtherRows};
ghost use Rattle.asg_trees.specs.Tallies.{Falls, IsFair, IsTallied, IsTalliedBy, IsWholeTally};
ghost use Rattle.asg_trees.specs.Trails.{IsAt, StandsAt};
ghost use Rattle.asg_trees.specs.Trees.{IsReady, IsSound, tree_by};

use crate::NoMemory;
use crate::heavy_children::{HeavyChildren, heavy_children, leads_on};
use crate::judged_trees::Tree;
use crate::node_parts::has_answer;
use crate::paths::go_down;
use crate::siblings::judge_children;
use crate::verdicts::Tally;
use asg_admit::Reduced;
use asg_bit_rows::BitRows;
use asg_order::{Kind, Ordered};
use std::alloc::Global;

// Judges the nodes below a child of a node, where it has an answer and isn't the one that takes over
// the square, on a copy of the square. The error is want of memory.
#[cycle(descent)]
fn judge_branch<K: Kind>(
    alloc: Global,
    kind: &K,
    tree: &Tree<'_, <<K as Kind>::M as Ordered>::Value>,
    heavy: &HeavyChildren,
    reduced: &Reduced<<<K as Kind>::M as Ordered>::Value>,
    kept: &mut BitRows,
    heir: usize,
    child: usize,
    so_far: Tally,
) -> Result<Tally, NoMemory>
    requires ready { let T = tree_by K.M.monoid_of K.M.difference K.M.word_of K.monoid K.entered
        kind.now tree.now in IsReady T tree.now }
    requires from { 1 < child }
    requires upto { child ≤ length tree.now.nodes.now }
    requires before { child < so_far.fault }
    requires sound { let T = tree_by K.M.monoid_of K.M.difference K.M.word_of K.monoid K.entered
        kind.now tree.now in IsSound T child }
    requires at { let T = tree_by K.M.monoid_of K.M.difference K.M.word_of K.monoid K.entered
        kind.now tree.now in
        IsAt T (node_at tree.now.nodes.now child).parent reduced.now kept.old }
    requires fair { let T = tree_by K.M.monoid_of K.M.difference K.M.word_of K.monoid K.entered
        kind.now tree.now in IsFair T so_far }
    ensures kept { IfOk result (λ _. KeepsOtherRows tree.now.inst.now kept.new) }
    ensures fair { let T = tree_by K.M.monoid_of K.M.difference K.M.word_of K.monoid K.entered
        kind.now tree.now in IfOk result (IsFair T) }
    ensures falls { IfOk result (Falls so_far) }
    ensures settled { let T = tree_by K.M.monoid_of K.M.difference K.M.word_of K.monoid K.entered
        kind.now tree.now in
        child ≢ heir → IfOk result (AreSettledBelow T child) }
{
    if child == heir {
        return Ok(so_far);
    }
    if !has_answer(tree.nodes, child) {
        return Ok(so_far);
    }
    let now = reduced.now.copy(alloc)?;
    let mut below = Reduced {
        now,
        index: reduced.index,
    };
    go_down(alloc, kind, tree, kept, &mut below, child)?;
    judge_below(alloc, kind, tree, heavy, &mut below, kept, child, so_far)
}

// Judges the nodes below the children of a node, but for the child that takes over the square. The
// error is want of memory.
#[cycle(descent)]
fn judge_branches<K: Kind>(
    alloc: Global,
    kind: &K,
    tree: &Tree<'_, <<K as Kind>::M as Ordered>::Value>,
    heavy: &HeavyChildren,
    reduced: &Reduced<<<K as Kind>::M as Ordered>::Value>,
    kept: &mut BitRows,
    heir: usize,
    parent: usize,
    so_far: Tally,
) -> Result<Tally, NoMemory>
    requires ready { let T = tree_by K.M.monoid_of K.M.difference K.M.word_of K.monoid K.entered
        kind.now tree.now in IsReady T tree.now }
    requires from { 1 ≤ parent }
    requires upto { parent ≤ length tree.now.nodes.now }
    requires at { let T = tree_by K.M.monoid_of K.M.difference K.M.word_of K.monoid K.entered
        kind.now tree.now in IsAt T parent reduced.now kept.old }
    requires children { let T = tree_by K.M.monoid_of K.M.difference K.M.word_of K.monoid K.entered
        kind.now tree.now in IsTallied T parent (length tree.now.nodes.now + 1) so_far }
    ensures kept { IfOk result (λ _. KeepsOtherRows tree.now.inst.now kept.new) }
    ensures fair { let T = tree_by K.M.monoid_of K.M.difference K.M.word_of K.monoid K.entered
        kind.now tree.now in IfOk result (IsFair T) }
    ensures falls { IfOk result (Falls so_far) }
    ensures settled { let T = tree_by K.M.monoid_of K.M.difference K.M.word_of K.monoid K.entered
        kind.now tree.now in
        IfOk result (AreSettledBelowEach T parent heir (length tree.now.nodes.now + 1)) }
{
    let mut tally = so_far;
    let mut member = tree.members.first_of(parent);
    'members: while member != 0 && member < tally.fault {
        tally = judge_branch(alloc, kind, tree, heavy, reduced, kept, heir, member, tally)?;
        member = tree.members.next_of(member);
    }
    Ok(tally)
}

// Judges the nodes below an answered node, whose square is used up. The error is want of memory.
#[cycle(descent)]
fn judge_below<K: Kind>(
    alloc: Global,
    kind: &K,
    tree: &Tree<'_, <<K as Kind>::M as Ordered>::Value>,
    heavy: &HeavyChildren,
    reduced: &mut Reduced<<<K as Kind>::M as Ordered>::Value>,
    kept: &mut BitRows,
    node: usize,
    so_far: Tally,
) -> Result<Tally, NoMemory>
    requires ready { let T = tree_by K.M.monoid_of K.M.difference K.M.word_of K.monoid K.entered
        kind.now tree.now in IsReady T tree.now }
    requires from { 1 ≤ node }
    requires upto { node ≤ length tree.now.nodes.now }
    requires answered { IsTrue (is_answered (node_at tree.now.nodes.now node).mark) }
    requires at { let T = tree_by K.M.monoid_of K.M.difference K.M.word_of K.monoid K.entered
        kind.now tree.now in IsAt T node reduced.old kept.old }
    requires fair { let T = tree_by K.M.monoid_of K.M.difference K.M.word_of K.monoid K.entered
        kind.now tree.now in IsFair T so_far }
    ensures kept { IfOk result (λ _. KeepsOtherRows tree.now.inst.now kept.new) }
    ensures fair { let T = tree_by K.M.monoid_of K.M.difference K.M.word_of K.monoid K.entered
        kind.now tree.now in IfOk result (IsFair T) }
    ensures falls { IfOk result (Falls so_far) }
    ensures settled { let T = tree_by K.M.monoid_of K.M.difference K.M.word_of K.monoid K.entered
        kind.now tree.now in IfOk result (AreSettledBelow T node) }
{
    let mut at = node;
    let mut tally = so_far;
    'down: loop {
        let heir = heavy.child_of(tree.nodes, at);
        let children = judge_children(alloc, kind, tree, reduced, kept, at, tally)?;
        tally = judge_branches(alloc, kind, tree, heavy, reduced, kept, heir, at, children)?;
        if !leads_on(tree.nodes, at, heir, tally.fault) {
            return Ok(tally);
        }
        go_down(alloc, kind, tree, kept, reduced, heir)?;
        at = heir;
    }
}

/// Judges the nodes below the root, of which those before the first at fault are tallied. The
/// root's square after its trail is used up. The error is want of memory.
pub(crate) fn judge_rest<K: Kind>(
    alloc: Global,
    kind: &K,
    tree: &Tree<'_, <<K as Kind>::M as Ordered>::Value>,
    root: &mut Reduced<<<K as Kind>::M as Ordered>::Value>,
    kept: &mut BitRows,
    so_far: Tally,
) -> Result<Tally, NoMemory>
    requires ready { let T = tree_by K.M.monoid_of K.M.difference K.M.word_of K.monoid K.entered
        kind.now tree.now in IsReady T tree.now }
    requires kept { KeepsOtherRows tree.now.inst.now kept.old }
    requires root { let T = tree_by K.M.monoid_of K.M.difference K.M.word_of K.monoid K.entered
        kind.now tree.now in 1 < so_far.fault → StandsAt T 1 root.old.now root.old.index }
    requires tallied { let T = tree_by K.M.monoid_of K.M.difference K.M.word_of K.monoid K.entered
        kind.now tree.now in IsTalliedBy T (λ n. n ≡ 1) so_far }
    ensures { let T = tree_by K.M.monoid_of K.M.difference K.M.word_of K.monoid K.entered
        kind.now tree.now in IfOk result (IsWholeTally T) }
{
    if so_far.fault <= 1 {
        return Ok(so_far);
    }
    if !has_answer(tree.nodes, 1) {
        return Ok(so_far);
    }
    let heavy = heavy_children(alloc, tree.nodes, tree.given, tree.answers.len())?;
    let tally = judge_below(alloc, kind, tree, &heavy, root, kept, 1, so_far)?;
    Ok(tally)
}
