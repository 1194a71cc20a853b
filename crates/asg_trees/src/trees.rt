//! Search trees, judged over the monoid of a kind.

ghost use Rattle.std.specs.Prelude.{◌≡◌, ◌≤◌, IfOk, IfSome, All, length};
ghost use Rattle.asg_model.specs.declared.parts.Place.TheVariants.{All as PlaceAll};
ghost use Rattle.asg_model.specs.Limits.{most_cost, most_side};
ghost use Rattle.asg_model.specs.Refused.{PassesNegative};
ghost use Rattle.asg_model.specs.Shapes.{square_side};
ghost use Rattle.asg_model.specs.ValidChoice.{IsValid};
ghost use Rattle.asg_order.specs.Entering.{LiesWithin};
ghost use Rattle.asg_rankings.specs.Nodes.{node_at};
ghost use Rattle.asg_replays.specs.Replays.{AreReplayed, IsStart};
ghost use Rattle.asg_trees.specs.Judged.{TellsTree};
ghost use Rattle.asg_trees.specs.Trees.{IsLastProduct, IsReady, tree_by};

use crate::NoMemory;
use crate::choice_lists::Choices;
use crate::conclusions::{concluded, first_lacking};
use crate::descents::judge_rest;
use crate::groups::{by_answer, by_parent};
use crate::judged_trees::Tree;
use crate::places::first_misplaced;
use crate::roots::judge_root;
use crate::verdicts::{Tally, TreeVerdict};
use asg_admit::Reduced;
use asg_kept_cells::whole_mask;
use asg_model::Instance;
use asg_order::{Kind, Ordered};
use asg_rankings::Node;
use asg_replays::{chosen_fold, start};
use std::alloc::Global;

// The product of the last answer, where as many are listed as were asked for. The error is want of
// memory.
fn last_product<K: Kind>(
    alloc: Global,
    kind: &K,
    inst: &Instance,
    count: usize,
    answers: &Choices,
) -> Result<Option<<<K as Kind>::M as Ordered>::Value>, NoMemory>
    requires near { LiesWithin (K.reach kind.now) inst.now }
    requires passes { PassesNegative (K.objective kind.now) inst.now }
    requires some { 1 ≤ length answers.now }
    ensures { IfOk result (IsLastProduct (K.M.monoid_of (K.monoid kind.now)) (K.entered kind.now)
        inst.now count answers.now) }
{
    if answers.len() < count {
        return Ok(None);
    }
    let choice = answers.choice(alloc, answers.len() - 1)?;
    Ok(Some(chosen_fold(kind, inst, &choice)))
}

// Judges a tree from the square before any step: the root, the nodes below it, and then whether an
// answer has no node. What the own phases of the root make of the square may be known. The error is
// want of memory.
fn judge_ready<K: Kind>(
    alloc: Global,
    kind: &K,
    tree: &Tree<'_, <<K as Kind>::M as Ordered>::Value>,
    root: &mut Reduced<<<K as Kind>::M as Ordered>::Value>,
    led: &mut Option<Reduced<<<K as Kind>::M as Ordered>::Value>>,
) -> Result<TreeVerdict, NoMemory>
    requires ready { let T = tree_by K.M.monoid_of K.M.difference K.M.word_of K.monoid K.entered
        kind.now tree.now in IsReady T tree.now }
    requires some { 1 ≤ length tree.now.answers.now }
    requires start { IsStart (K.M.monoid_of (K.monoid kind.now)) (K.entered kind.now)
        tree.now.inst.now root.old }
    requires led { IfSome led.old (AreReplayed (K.M.monoid_of (K.monoid kind.now))
        (K.M.difference (K.monoid kind.now)) (K.M.word_of (K.monoid kind.now))
        (node_at tree.now.nodes.now 1).own root.old) }
    ensures { let T = tree_by K.M.monoid_of K.M.difference K.M.word_of K.monoid K.entered
        kind.now tree.now in
        IfOk result (TellsTree T.monoid T.difference T.word_of T.enter T.problem T.count T.answers
        T.nodes) }
{
    let mut kept = whole_mask(alloc, tree.inst)?;
    let first = Tally {
        fault: first_misplaced(tree.nodes, tree.inst.placed()),
        left: tree.nodes.len() + 1,
    };
    let at_root = judge_root(alloc, kind, tree, root, &kept, led, first)?;
    let tally = judge_rest(alloc, kind, tree, root, &mut kept, at_root)?;
    let lacking = first_lacking(tree.given, tree.nodes, tree.answers);
    Ok(concluded(tally, tree.nodes.len(), lacking))
}

/// Judges nodes as [`judge_tree`] does, from the square before any step. What the own phases of the
/// root make of it may be known, and is taken then. The error is want of memory.
pub(crate) fn judge_from<K: Kind>(
    alloc: Global,
    kind: &K,
    inst: &Instance,
    count: usize,
    answers: &Choices,
    nodes: &[Node],
    root: &mut Reduced<<<K as Kind>::M as Ordered>::Value>,
    led: &mut Option<Reduced<<<K as Kind>::M as Ordered>::Value>>,
) -> Result<TreeVerdict, NoMemory>
    requires place { inst.now.place ≡ PlaceAll }
    requires side { square_side inst.now ≤ most_side }
    requires passes { PassesNegative (K.objective kind.now) inst.now }
    requires reach { most_cost ≤ K.reach kind.now }
    requires some { 1 ≤ length answers.now }
    requires valid { All (IsValid inst.now) answers.now }
    requires start { IsStart (K.M.monoid_of (K.monoid kind.now)) (K.entered kind.now) inst.now
        root.old }
    requires led { IfSome led.old (AreReplayed (K.M.monoid_of (K.monoid kind.now))
        (K.M.difference (K.monoid kind.now)) (K.M.word_of (K.monoid kind.now))
        (node_at nodes.now 1).own root.old) }
    ensures { IfOk result (TellsTree (K.M.monoid_of (K.monoid kind.now))
        (K.M.difference (K.monoid kind.now)) (K.M.word_of (K.monoid kind.now))
        (K.entered kind.now) inst.now count answers.now nodes.now) }
{
    // What each instance keeps is told by a reader.
    let _ = inst.rows();
    let last = last_product(alloc, kind, inst, count, answers)?;
    let members = by_parent(alloc, nodes)?;
    let given = by_answer(alloc, nodes, answers.len())?;
    let tree = Tree {
        inst,
        count,
        answers,
        nodes,
        members: &members,
        given: &given,
        last,
    };
    judge_ready(alloc, kind, &tree, root, led)
}

/// Judges whether nodes are a search tree of answers that are valid, of which so many were asked
/// for, over the monoid of a kind: the verdict tells the first node at fault; where none is,
/// whether some answer has no node; where each has one, the first node that is open and may not be;
/// and where there is none, that they are a search tree. The error is want of memory.
pub fn judge_tree<K: Kind>(
    alloc: Global,
    kind: &K,
    inst: &Instance,
    count: usize,
    answers: &Choices,
    nodes: &[Node],
) -> Result<TreeVerdict, NoMemory>
    requires place { inst.now.place ≡ PlaceAll }
    requires side { square_side inst.now ≤ most_side }
    requires passes { PassesNegative (K.objective kind.now) inst.now }
    requires reach { most_cost ≤ K.reach kind.now }
    requires some { 1 ≤ length answers.now }
    requires valid { All (IsValid inst.now) answers.now }
    ensures { IfOk result (TellsTree (K.M.monoid_of (K.monoid kind.now))
        (K.M.difference (K.monoid kind.now)) (K.M.word_of (K.monoid kind.now))
        (K.entered kind.now) inst.now count answers.now nodes.now) }
{
    // What each instance keeps is told by a reader.
    let _ = inst.rows();
    let mut root = start(alloc, kind, inst)?;
    judge_from(
        alloc, kind, inst, count, answers, nodes, &mut root, &mut None,
    )
}
