//! Nodes judged by their marks, on the kept cells of their parent's square.

ghost use Rattle.std.specs.Prelude.{◌≡◌, ◌↔◌, ◌≤◌, [], Some, if◌then◌else◌, IsTrue, IfOk, IfSome, All, length};
ghost use Rattle.asg_model.specs.declared.parts.Place.TheVariants.{All as PlaceAll};
ghost use Rattle.asg_model.specs.Limits.{most_side};
ghost use Rattle.asg_model.specs.Shapes.{square_side};
ghost use Rattle.asg_order.specs.Monoid.{IsLe, IsValue};
ghost use Rattle.asg_rankings.specs.Nodes.{node_at};
ghost use Rattle.asg_proof.specs.Steps.{HasValues};
ghost use Rattle.asg_rankings.specs.declared.nodes.Mark.TheVariants.{Answered, Open};
ghost use Rattle.asg_square.specs.Grid.{cell_at};
ghost use Rattle.asg_square.specs.HallColumns.{OutnumberColumns};
ghost use Rattle.asg_trees.specs.Groups.{AreGroups, answer_keys, parent_keys};
ghost use Rattle.asg_kept_cells.specs.Kept.{HasSize, kept_cells};
ghost use Rattle.asg_kept_cells.specs.MaskedPhases.{HaveIndexAfter};
ghost use Rattle.asg_trees.specs.Marks.{marked_tree, JudgesMark, JudgesOpen, MarkHolds};

use crate::NoMemory;
use crate::judged_trees::Tree;
use crate::node_parts::{mark_of, own_of};
use crate::own_answers::has_own_answer;
use crate::verdicts::Judgement;
use asg_bit_rows::BitRows;
use asg_kept_cells::{chooses_kept, outnumber, told_index};
use asg_order::{Ordered, Written};
use asg_proof::WrittenPhase;
use asg_rankings::Mark;
use asg_square::Square;
use std::alloc::Global;

// Whether the product of the last answer, if as many are listed as were asked for, is at most an
// index.
fn is_at_most<M: Ordered>(m: &M, last: Option<M::Value>, index: M::Value) -> bool
    requires last { IfSome last (IsValue (M.monoid_of m.now)) }
    requires index { IsValue (M.monoid_of m.now) index }
    ensures { IsTrue result ↔ ((z : M.Value) × (last ≡ Some z) × IsLe (M.monoid_of m.now) z index) }
{
    match last {
        Some(product) => m.le(product, index),
        None => false,
    }
}

// Whether what its answer asks of a node holds.
fn answered_holds<M: Written>(
    alloc: Global,
    m: &M,
    tree: &Tree<'_, M::Value>,
    square: &Square<M::Value>,
    kept: &BitRows,
    before: M::Value,
    known: Option<M::Value>,
    n: usize,
    answer: u32,
) -> Result<bool, NoMemory>
    requires side { square.now.side ≡ square_side tree.now.inst.now }
    requires few { square_side tree.now.inst.now ≤ most_side }
    requires rows { All (λ f. length f ≤ square_side tree.now.inst.now) tree.now.answers.now }
    requires members { AreGroups (parent_keys tree.now.nodes.now) (length tree.now.nodes.now)
        tree.now.members.now }
    requires given { AreGroups (answer_keys tree.now.nodes.now) (length tree.now.answers.now)
        tree.now.given.now }
    requires values { HasValues (M.monoid_of m.now) square.now.side (cell_at square.now) }
    requires size { HasSize square.now.side kept.now }
    requires before { IsValue (M.monoid_of m.now) before }
    requires known { IfSome known (HaveIndexAfter (M.monoid_of m.now) (M.difference m.now)
        (M.word_of m.now) square.now kept.now before (node_at tree.now.nodes.now n).own) }
    requires from { 1 ≤ n }
    requires upto { n ≤ length tree.now.nodes.now }
    requires mark { (node_at tree.now.nodes.now n).mark ≡ Answered answer }
    ensures { IfOk result (λ is. IsTrue is ↔ MarkHolds (M.monoid_of m.now) (M.difference m.now)
        (M.word_of m.now) tree.now.inst.now tree.now.answers.now tree.now.nodes.now square.now
        kept.now n (Answered answer)) }
{
    let (nodes, members, given) = (tree.nodes, tree.members, tree.given);
    let answers = tree.answers.len();
    let branches = tree.inst.placed();
    if !has_own_answer(nodes, members, given, answers, branches, n, answer) {
        return Ok(false);
    }
    let choice = tree.answers.choice(alloc, answer as usize - 1)?;
    if !chooses_kept(square, kept, &choice) {
        return Ok(false);
    }
    let found = told_index(alloc, m, square, kept, before, own_of(nodes, n), known)?;
    Ok(found.is_some())
}

// Judges an open node by the phases of its own.
fn judge_open<M: Written>(
    alloc: Global,
    m: &M,
    last: Option<M::Value>,
    square: &Square<M::Value>,
    kept: &BitRows,
    before: M::Value,
    own: &[WrittenPhase],
    known: Option<M::Value>,
) -> Result<Judgement, NoMemory>
    requires few { square.now.side ≤ most_side }
    requires last { IfSome last (IsValue (M.monoid_of m.now)) }
    requires values { HasValues (M.monoid_of m.now) square.now.side (cell_at square.now) }
    requires size { HasSize square.now.side kept.now }
    requires before { IsValue (M.monoid_of m.now) before }
    requires known { IfSome known (HaveIndexAfter (M.monoid_of m.now) (M.difference m.now)
        (M.word_of m.now) square.now kept.now before own.now) }
    ensures { IfOk result (JudgesOpen (M.monoid_of m.now) (M.difference m.now) (M.word_of m.now)
        last square.now kept.now before own.now) }
{
    match told_index(alloc, m, square, kept, before, own, known)? {
        Some(index) => Ok(open_judgement(is_at_most(m, last, index))),
        None => Ok(Judgement::AtFault),
    }
}

// The judgement of an open node by whether it may be open.
fn open_judgement(may_be: bool) -> Judgement
    ensures { result ≡ (if may_be then Judgement.Fine else Judgement.LeftOpen) }
{
    if may_be {
        Judgement::Fine
    } else {
        Judgement::LeftOpen
    }
}

// The judgement of another node by whether what its mark asks holds.
fn other_judgement(holds: bool) -> Judgement
    ensures { result ≡ (if holds then Judgement.Fine else Judgement.AtFault) }
{
    if holds {
        Judgement::Fine
    } else {
        Judgement::AtFault
    }
}

// Whether the rows of an empty node are more than the columns in which they have kept cells, and it
// has no phases of its own.
fn empty_holds<V: Copy>(
    alloc: Global,
    tree: &Tree<'_, V>,
    square: &Square<V>,
    kept: &BitRows,
    n: usize,
    rows: &[u32],
) -> Result<bool, NoMemory>
    requires place { tree.now.inst.now.place ≡ PlaceAll }
    requires side { square.now.side ≡ square_side tree.now.inst.now }
    requires size { HasSize square.now.side kept.now }
    requires from { 1 ≤ n }
    requires upto { n ≤ length tree.now.nodes.now }
    ensures { IfOk result (λ is. IsTrue is
        ↔ (OutnumberColumns tree.now.inst.now (kept_cells square.now kept.now) rows.now
        × ((node_at tree.now.nodes.now n).own ≡ []))) }
{
    if !own_of(tree.nodes, n).is_empty() {
        return Ok(false);
    }
    outnumber(alloc, tree.inst, square, kept, rows)
}

/// Judges a node by its mark, on the cells of a square that are kept, which has the index so far.
/// The index after its own phases may be known. The error is want of memory.
pub(crate) fn judge_mark<M: Written>(
    alloc: Global,
    m: &M,
    tree: &Tree<'_, M::Value>,
    square: &Square<M::Value>,
    kept: &BitRows,
    before: M::Value,
    known: Option<M::Value>,
    n: usize,
) -> Result<Judgement, NoMemory>
    requires place { tree.now.inst.now.place ≡ PlaceAll }
    requires side { square.now.side ≡ square_side tree.now.inst.now }
    requires few { square_side tree.now.inst.now ≤ most_side }
    requires rows { All (λ f. length f ≤ square_side tree.now.inst.now) tree.now.answers.now }
    requires members { AreGroups (parent_keys tree.now.nodes.now) (length tree.now.nodes.now)
        tree.now.members.now }
    requires given { AreGroups (answer_keys tree.now.nodes.now) (length tree.now.answers.now)
        tree.now.given.now }
    requires last { IfSome tree.now.last (IsValue (M.monoid_of m.now)) }
    requires values { HasValues (M.monoid_of m.now) square.now.side (cell_at square.now) }
    requires size { HasSize square.now.side kept.now }
    requires before { IsValue (M.monoid_of m.now) before }
    requires known { IfSome known (HaveIndexAfter (M.monoid_of m.now) (M.difference m.now)
        (M.word_of m.now) square.now kept.now before (node_at tree.now.nodes.now n).own) }
    requires from { 1 ≤ n }
    requires upto { n ≤ length tree.now.nodes.now }
    ensures { IfOk result (JudgesMark (M.monoid_of m.now) (M.difference m.now) (M.word_of m.now)
        (marked_tree tree.now) square.now kept.now before n (node_at tree.now.nodes.now n).mark) }
{
    match mark_of(tree.nodes, n) {
        Mark::Answered(answer) => {
            let holds = answered_holds(alloc, m, tree, square, kept, before, known, n, *answer)?;
            Ok(other_judgement(holds))
        }
        Mark::Open => judge_open(
            alloc,
            m,
            tree.last,
            square,
            kept,
            before,
            own_of(tree.nodes, n),
            known,
        ),
        Mark::Empty(rows) => {
            let holds = empty_holds(alloc, tree, square, kept, n, rows.as_slice())?;
            Ok(other_judgement(holds))
        }
    }
}
