//! The root of a search tree, judged on the square of the instance.

ghost use Rattle.std.specs.Prelude.{◌≡◌, ◌<◌, IfOk, IfSome};
ghost use Rattle.std.specs.Option.{option_map};
ghost use Rattle.asg_rankings.specs.Nodes.{node_at};
ghost use Rattle.asg_replays.specs.Replays.{AreReplayed, IsStart};
ghost use Rattle.asg_replays.specs.WholeLists.{HaveIndex};
ghost use Rattle.asg_square.specs.Grid.{cell_at};
ghost use Rattle.asg_kept_cells.specs.Kept.{KeepsAll};
ghost use Rattle.asg_trees.specs.Tallies.{IsFair, IsTalliedBy};
ghost use Rattle.asg_trees.specs.Trails.{StandsAt};
ghost use Rattle.asg_trees.specs.Trees.{IsReady, tree_by};

use crate::NoMemory;
use crate::judged_trees::Tree;
use crate::node_parts::own_of;
use crate::tallies::tally_node;
use crate::verdicts::Tally;
use asg_admit::Reduced;
use asg_bit_rows::BitRows;
use asg_kept_cells::stand_after;
use asg_order::{Kind, Ordered};
use std::alloc::Global;

// The index of a square, if it is known.
fn led_index<V: Copy>(led: &Option<Reduced<V>>) -> Option<V>
    ensures { result ≡ option_map (λ l. l.index) led.now }
{
    match led {
        Some(reduced) => Some(reduced.index),
        None => None,
    }
}

// Judges the root, where it has its place, on the square before any step. The index after its own
// phases may be known. The error is want of memory.
fn tally_root<K: Kind>(
    alloc: Global,
    kind: &K,
    tree: &Tree<'_, <<K as Kind>::M as Ordered>::Value>,
    root: &Reduced<<<K as Kind>::M as Ordered>::Value>,
    kept: &BitRows,
    known: Option<<<K as Kind>::M as Ordered>::Value>,
    so_far: Tally,
) -> Result<Tally, NoMemory>
    requires ready { let T = tree_by K.M.monoid_of K.M.difference K.M.word_of K.monoid K.entered
        kind.now tree.now in IsReady T tree.now }
    requires start { IsStart (K.M.monoid_of (K.monoid kind.now)) (K.entered kind.now)
        tree.now.inst.now root.now }
    requires kept { KeepsAll tree.now.inst.now kept.now }
    requires known { IfSome known (λ index. HaveIndex (K.M.monoid_of (K.monoid kind.now))
        (K.M.difference (K.monoid kind.now)) (K.M.word_of (K.monoid kind.now)) root.now.now.side
        (cell_at root.now.now) index (node_at tree.now.nodes.now 1).own) }
    requires fair { let T = tree_by K.M.monoid_of K.M.difference K.M.word_of K.monoid K.entered
        kind.now tree.now in IsFair T so_far }
    ensures { let T = tree_by K.M.monoid_of K.M.difference K.M.word_of K.monoid K.entered
        kind.now tree.now in IfOk result (IsTalliedBy T (λ n. n ≡ 1)) }
{
    if so_far.fault <= 1 {
        return Ok(so_far);
    }
    tally_node(
        alloc, kind, tree, &root.now, kept, root.index, known, 1, so_far,
    )
}

/// Judges the root, where it has its place, on the square before any step, and where it is sound
/// leads the square over its trail. What its own phases make of the square may be known, and is
/// taken then. The error is want of memory.
pub(crate) fn judge_root<K: Kind>(
    alloc: Global,
    kind: &K,
    tree: &Tree<'_, <<K as Kind>::M as Ordered>::Value>,
    root: &mut Reduced<<<K as Kind>::M as Ordered>::Value>,
    kept: &BitRows,
    led: &mut Option<Reduced<<<K as Kind>::M as Ordered>::Value>>,
    so_far: Tally,
) -> Result<Tally, NoMemory>
    requires ready { let T = tree_by K.M.monoid_of K.M.difference K.M.word_of K.monoid K.entered
        kind.now tree.now in IsReady T tree.now }
    requires start { IsStart (K.M.monoid_of (K.monoid kind.now)) (K.entered kind.now)
        tree.now.inst.now root.old }
    requires kept { KeepsAll tree.now.inst.now kept.now }
    requires led { IfSome led.old (AreReplayed (K.M.monoid_of (K.monoid kind.now))
        (K.M.difference (K.monoid kind.now)) (K.M.word_of (K.monoid kind.now))
        (node_at tree.now.nodes.now 1).own root.old) }
    requires fair { let T = tree_by K.M.monoid_of K.M.difference K.M.word_of K.monoid K.entered
        kind.now tree.now in IsFair T so_far }
    ensures tallied { let T = tree_by K.M.monoid_of K.M.difference K.M.word_of K.monoid K.entered
        kind.now tree.now in IfOk result (IsTalliedBy T (λ n. n ≡ 1)) }
    ensures stands { let T = tree_by K.M.monoid_of K.M.difference K.M.word_of K.monoid K.entered
        kind.now tree.now in
        IfOk result (λ tally. 1 < tally.fault → StandsAt T 1 root.new.now root.new.index) }
{
    let known = led_index(led);
    let tally = tally_root(alloc, kind, tree, root, kept, known, so_far)?;
    if tally.fault <= 1 {
        return Ok(tally);
    }
    stand_after(alloc, kind.monoid(), root, led, own_of(tree.nodes, 1))?;
    Ok(tally)
}
