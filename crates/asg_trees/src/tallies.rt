//! Nodes judged one by one, and the tally of them.

ghost use Rattle.std.specs.Prelude.{◌≡◌, ◌+◌, ◌≤◌, IfOk, IfSome, length};
ghost use Rattle.asg_model.specs.Shapes.{square_side};
ghost use Rattle.asg_rankings.specs.Nodes.{node_at};
ghost use Rattle.asg_proof.specs.Steps.{HasValues};
ghost use Rattle.asg_square.specs.Grid.{cell_at};
ghost use Rattle.asg_kept_cells.specs.Kept.{HasSize};
ghost use Rattle.asg_kept_cells.specs.MaskedPhases.{HaveIndexAfter};
ghost use Rattle.asg_trees.specs.Tallies.{HavePlaces, TalliesNode, with_judgement};
ghost use Rattle.asg_trees.specs.Trails.{StandsAbove};
ghost use Rattle.asg_trees.specs.Trees.{IsReady, tree_by};

use crate::NoMemory;
use crate::judged_trees::Tree;
use crate::marks::judge_mark;
use crate::verdicts::{Judgement, Tally};
use asg_bit_rows::BitRows;
use asg_order::{Kind, Ordered};
use asg_square::Square;
use asg_square::laws::square_law;
use std::alloc::Global;

// The tally with a judgement of a node.
fn tallied(tally: Tally, n: usize, judgement: Judgement) -> Tally
    ensures { result ≡ with_judgement tally n judgement }
{
    match judgement {
        Judgement::AtFault => Tally {
            fault: n,
            left: tally.left,
        },
        Judgement::LeftOpen => Tally {
            fault: tally.fault,
            left: tally.left.min(n),
        },
        Judgement::Fine => tally,
    }
}

/// Judges a node that has its place, as those before it have, on the cells of its parent's square
/// that its branch keeps, and tallies it. The index after its own phases may be known. The error is
/// want of memory.
pub(crate) fn tally_node<K: Kind>(
    alloc: Global,
    kind: &K,
    tree: &Tree<'_, <<K as Kind>::M as Ordered>::Value>,
    square: &Square<<<K as Kind>::M as Ordered>::Value>,
    kept: &BitRows,
    before: <<K as Kind>::M as Ordered>::Value,
    known: Option<<<K as Kind>::M as Ordered>::Value>,
    n: usize,
    so_far: Tally,
) -> Result<Tally, NoMemory>
    requires ready { let T = tree_by K.M.monoid_of K.M.difference K.M.word_of K.monoid K.entered
        kind.now tree.now in IsReady T tree.now }
    requires from { 1 ≤ n }
    requires upto { n ≤ length tree.now.nodes.now }
    requires places { let T = tree_by K.M.monoid_of K.M.difference K.M.word_of K.monoid K.entered
        kind.now tree.now in HavePlaces T (n + 1) }
    requires above { let T = tree_by K.M.monoid_of K.M.difference K.M.word_of K.monoid K.entered
        kind.now tree.now in StandsAbove T n square.now kept.now before }
    requires values { HasValues (K.M.monoid_of (K.monoid kind.now)) square.now.side
        (cell_at square.now) }
    requires size { HasSize (square_side tree.now.inst.now) kept.now }
    requires known { IfSome known (HaveIndexAfter (K.M.monoid_of (K.monoid kind.now))
        (K.M.difference (K.monoid kind.now)) (K.M.word_of (K.monoid kind.now)) square.now kept.now
        before (node_at tree.now.nodes.now n).own) }
    ensures { let T = tree_by K.M.monoid_of K.M.difference K.M.word_of K.monoid K.entered
        kind.now tree.now in IfOk result (TalliesNode T n so_far) }
{
    square_law::<<<K as Kind>::M as Ordered>::Value>();
    let judgement = judge_mark(alloc, kind.monoid(), tree, square, kept, before, known, n)?;
    Ok(tallied(so_far, n, judgement))
}
