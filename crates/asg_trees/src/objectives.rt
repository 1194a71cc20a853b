//! Search trees, judged by objective.

ghost use Rattle.std.specs.Prelude.{◌≡◌, ◌≤◌, IsTrue, IfOk, IfSome, All, length};
ghost use Rattle.asg_admit.specs.Reduced.{IsReduced};
ghost use Rattle.asg_model.specs.declared.objectives.Objective.TheVariants.{TimeCost};
ghost use Rattle.asg_model.specs.declared.parts.Place.TheVariants.{All as PlaceAll};
ghost use Rattle.asg_model.specs.Limits.{most_side};
ghost use Rattle.asg_model.specs.Objectives.{is_algebraic, is_bottleneck};
ghost use Rattle.asg_model.specs.Refused.{PassesNegative};
ghost use Rattle.asg_model.specs.Shapes.{square_side};
ghost use Rattle.asg_model.specs.ValidChoice.{IsValid};
ghost use Rattle.asg_monoids.specs.BoundedSums.{bounded_sums, bounded_difference, plain_word, narrow_top};
ghost use Rattle.asg_monoids.specs.Entered.{is_sum_objective, sum_entered};
ghost use Rattle.asg_monoids.specs.NarrowObjectives.{is_narrow_objective};
ghost use Rattle.asg_rankings.specs.Nodes.{node_at};
ghost use Rattle.asg_replays.specs.Replays.{AreReplayed};
ghost use Rattle.asg_trees.specs.Judged.{TellsRanking, TellsTree};

use crate::NoMemory;
use crate::choice_lists::Choices;
use crate::node_parts::own_of;
use crate::trees::{judge_from, judge_tree};
use crate::verdicts::TreeVerdict;
use asg_admit::Reduced;
use asg_model::{Instance, Objective};
use asg_monoids::{NarrowKind, PeakKind, SumKind, TimeKind};
use asg_rankings::Node;
use asg_replays::{has_long, narrow_led, start};
use std::alloc::Global;

// The verdict by an objective of sums.
fn judge_sums(
    alloc: Global,
    objective: Objective,
    inst: &Instance,
    count: usize,
    answers: &Choices,
    nodes: &[Node],
) -> Result<TreeVerdict, NoMemory>
    requires sums { IsTrue (is_sum_objective objective) }
    requires place { inst.now.place ≡ PlaceAll }
    requires side { square_side inst.now ≤ most_side }
    requires passes { PassesNegative objective inst.now }
    requires some { 1 ≤ length answers.now }
    requires valid { All (IsValid inst.now) answers.now }
    ensures { IfOk result (TellsRanking objective inst.now count answers.now nodes.now) }
{
    let kind = SumKind::of(objective);
    let verdict = judge_tree(alloc, &kind, inst, count, answers, nodes)?;
    Ok(verdict)
}

// What the own phases of the root make of the square before any step in 64 bits, where none is
// long, they are admitted in turn, and no sum comes near 2^62. The error is want of memory.
fn root_led(
    alloc: Global,
    root: &Reduced<u64>,
    nodes: &[Node],
) -> Result<Option<Reduced<u64>>, NoMemory>
    requires { IsReduced (bounded_sums narrow_top) root.now }
    ensures { IfOk result (λ led. IfSome led (AreReplayed (bounded_sums narrow_top)
        bounded_difference plain_word (node_at nodes.now 1).own root.entry.now)) }
{
    if nodes.is_empty() {
        return Ok(None);
    }
    let own = own_of(nodes, 1);
    if has_long(own, root.now.side()) {
        return Ok(None);
    }
    narrow_led(alloc, root, own)
}

// The verdict by sums in 64 bits. The error is want of memory.
fn narrow_verdict(
    alloc: Global,
    objective: Objective,
    inst: &Instance,
    count: usize,
    answers: &Choices,
    nodes: &[Node],
) -> Result<TreeVerdict, NoMemory>
    requires narrow { IsTrue (is_narrow_objective objective) }
    requires place { inst.now.place ≡ PlaceAll }
    requires side { square_side inst.now ≤ most_side }
    requires passes { PassesNegative objective inst.now }
    requires some { 1 ≤ length answers.now }
    requires valid { All (IsValid inst.now) answers.now }
    ensures { IfOk result (TellsTree (bounded_sums narrow_top) bounded_difference plain_word
        (sum_entered objective) inst.now count answers.now nodes.now) }
{
    let _rows = inst.rows();
    let kind = NarrowKind::of(objective);
    let mut root = start(alloc, &kind, inst)?;
    let mut led = root_led(alloc, &root, nodes)?;
    judge_from(
        alloc, &kind, inst, count, answers, nodes, &mut root, &mut led,
    )
}

// The verdict by `sum` or `sum-max`: first by sums in 64 bits, and where these don't tell that the
// nodes are a search tree, by those in 128 bits, which are the sums of the contract.
fn judge_narrow(
    alloc: Global,
    objective: Objective,
    inst: &Instance,
    count: usize,
    answers: &Choices,
    nodes: &[Node],
) -> Result<TreeVerdict, NoMemory>
    requires narrow { IsTrue (is_narrow_objective objective) }
    requires place { inst.now.place ≡ PlaceAll }
    requires side { square_side inst.now ≤ most_side }
    requires passes { PassesNegative objective inst.now }
    requires some { 1 ≤ length answers.now }
    requires valid { All (IsValid inst.now) answers.now }
    ensures { IfOk result (TellsRanking objective inst.now count answers.now nodes.now) }
{
    let _rows = inst.rows();
    let verdict = narrow_verdict(alloc, objective, inst, count, answers, nodes)?;
    match verdict {
        TreeVerdict::Tree => Ok(TreeVerdict::Tree),
        _ => judge_sums(alloc, objective, inst, count, answers, nodes),
    }
}

// The verdict by a bottleneck objective.
fn judge_peaks(
    alloc: Global,
    objective: Objective,
    inst: &Instance,
    count: usize,
    answers: &Choices,
    nodes: &[Node],
) -> Result<TreeVerdict, NoMemory>
    requires peaks { IsTrue (is_bottleneck objective) }
    requires place { inst.now.place ≡ PlaceAll }
    requires side { square_side inst.now ≤ most_side }
    requires passes { PassesNegative objective inst.now }
    requires some { 1 ≤ length answers.now }
    requires valid { All (IsValid inst.now) answers.now }
    ensures { IfOk result (TellsRanking objective inst.now count answers.now nodes.now) }
{
    let kind = PeakKind::of(objective);
    let verdict = judge_tree(alloc, &kind, inst, count, answers, nodes)?;
    Ok(verdict)
}

// The verdict by `time-cost`.
fn judge_times(
    alloc: Global,
    inst: &Instance,
    count: usize,
    answers: &Choices,
    nodes: &[Node],
) -> Result<TreeVerdict, NoMemory>
    requires place { inst.now.place ≡ PlaceAll }
    requires side { square_side inst.now ≤ most_side }
    requires passes { PassesNegative TimeCost inst.now }
    requires some { 1 ≤ length answers.now }
    requires valid { All (IsValid inst.now) answers.now }
    ensures { IfOk result (TellsRanking TimeCost inst.now count answers.now nodes.now) }
{
    let kind = TimeKind::new();
    let verdict = judge_tree(alloc, &kind, inst, count, answers, nodes)?;
    Ok(verdict)
}

/// Judges whether nodes are a search tree of answers in the monoid of an algebraic objective, where
/// so many answers were asked for: the verdict tells the first node at fault; where none is,
/// whether some answer has no node; where each has one, the first node that is open and may not be;
/// and where there is none, that they are a search tree, so that nothing better than the answers
/// was left out. The answers are valid choices of the instance, which places all rows, on a square
/// whose side is at most 2,000, and none of whose costs the objective refuses. The error is want of
/// memory.
pub fn judge(
    alloc: Global,
    objective: Objective,
    inst: &Instance,
    count: usize,
    answers: &Choices,
    nodes: &[Node],
) -> Result<TreeVerdict, NoMemory>
    requires algebraic { IsTrue (is_algebraic objective) }
    requires place { inst.now.place ≡ PlaceAll }
    requires side { square_side inst.now ≤ most_side }
    requires passes { PassesNegative objective inst.now }
    requires some { 1 ≤ length answers.now }
    requires valid { All (IsValid inst.now) answers.now }
    ensures { IfOk result (TellsRanking objective inst.now count answers.now nodes.now) }
{
    match objective {
        Objective::Sum | Objective::SumMax => {
            judge_narrow(alloc, objective, inst, count, answers, nodes)
        }
        Objective::SumPair | Objective::Capped(_) => {
            judge_sums(alloc, objective, inst, count, answers, nodes)
        }
        Objective::Bottleneck | Objective::BottleneckMax => {
            judge_peaks(alloc, objective, inst, count, answers, nodes)
        }
        Objective::TimeCost => judge_times(alloc, inst, count, answers, nodes),
        Objective::Balanced | Objective::Lex => unreachable!(),
    }
}
