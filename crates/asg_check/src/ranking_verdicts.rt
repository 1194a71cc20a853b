//! What stands against a ranking.

ghost use Rattle.std.specs.Prelude.{◌≡◌, ◌≤◌, ◌∷◌, IsTrue, IfOk, All, length, pos};
ghost use Rattle.asg_model.specs.declared.parts.Place.TheVariants.{All as PlaceAll};
ghost use Rattle.asg_model.specs.Instances.{IsInstance};
ghost use Rattle.asg_model.specs.Limits.{most_side};
ghost use Rattle.asg_model.specs.Objectives.{is_algebraic};
ghost use Rattle.asg_model.specs.Refused.{PassesNegative};
ghost use Rattle.asg_model.specs.Shapes.{square_side};
ghost use Rattle.asg_model.specs.ValidChoice.{IsValid};
ghost use Rattle.asg_doc.specs.declared.documents.Claim.TheVariants.{Ranked};
ghost use Rattle.asg_verdicts.specs.declared.verdicts.Reason.TheVariants.{OutOfOrder};
ghost use Rattle.asg_check.specs.RankingReasons.{NodesStand};
ghost use Rattle.asg_verdicts.specs.Verdicts.{Tells, claim_reasons, node_reasons};
ghost use Rattle.asg_check.specs.Reasons.{StandsAgainst};
ghost use Rattle.asg_verdicts.specs.Verdicts.{order_reasons, proof_reasons, reason_number};
ghost use Rattle.asg_check.specs.Written.{EachSpells};

use crate::NoMemory;
use crate::ranked_answers::{
    first_amiss, first_out_of_order, first_repeated, first_unspelled, read_choices,
};
use asg_doc::Answer;
use asg_model::{Instance, Objective};
use asg_rankings::Node;
use asg_trees::{Choices, TreeVerdict, judge};
use asg_verdicts::{Reason, Verdict};
use std::alloc::Global;

// The verdict on a ranking with an answer, by its reasons in order. The error is want of memory.
pub(crate) fn ranking_verdict(
    alloc: Global,
    objective: Objective,
    inst: &Instance,
    count: u32,
    answers: &[Answer],
    nodes: &[Node],
) -> Result<Verdict, NoMemory>
    requires algebraic { IsTrue (is_algebraic objective) }
    requires place { inst.now.place ≡ PlaceAll }
    requires side { square_side inst.now ≤ most_side }
    requires passes { PassesNegative objective inst.now }
    requires some { 1 ≤ length answers.now }
    ensures { IfOk result (Tells
        (StandsAgainst objective inst.now (Ranked count answers.now nodes.now))
        claim_reasons) }
{
    // What each instance keeps is told by a reader.
    let _ = inst.rows();
    match first_amiss(alloc, objective, inst, answers)? {
        Some(place) => match first_unspelled(alloc, inst, answers, place)? {
            Some(unspelled) => Ok(Reason::NotValid.verdict_at_part(unspelled)),
            None => Ok(Reason::WrongValue.verdict_at_part(place)),
        },
        None => repeated_verdict(alloc, objective, inst, count, answers, nodes),
    }
}

// The verdict on a ranking whose answers spell choices, from the reason of repeated answers on. The
// error is want of memory.
fn repeated_verdict(
    alloc: Global,
    objective: Objective,
    inst: &Instance,
    count: u32,
    answers: &[Answer],
    nodes: &[Node],
) -> Result<Verdict, NoMemory>
    requires algebraic { IsTrue (is_algebraic objective) }
    requires place { inst.now.place ≡ PlaceAll }
    requires side { square_side inst.now ≤ most_side }
    requires passes { PassesNegative objective inst.now }
    requires instance { IsInstance inst.now }
    requires some { 1 ≤ length answers.now }
    requires each { EachSpells inst.now answers.now }
    ensures { IfOk result (Tells
        (StandsAgainst objective inst.now (Ranked count answers.now nodes.now))
        order_reasons) }
{
    match first_repeated(alloc, answers)? {
        Some(place) => Ok(Reason::Repeated.verdict_at_part(place)),
        None => order_verdict(alloc, objective, inst, count, answers, nodes),
    }
}

// The same from the reason of answers out of order on. The error is want of memory.
fn order_verdict(
    alloc: Global,
    objective: Objective,
    inst: &Instance,
    count: u32,
    answers: &[Answer],
    nodes: &[Node],
) -> Result<Verdict, NoMemory>
    requires algebraic { IsTrue (is_algebraic objective) }
    requires place { inst.now.place ≡ PlaceAll }
    requires side { square_side inst.now ≤ most_side }
    requires passes { PassesNegative objective inst.now }
    requires instance { IsInstance inst.now }
    requires some { 1 ≤ length answers.now }
    requires each { EachSpells inst.now answers.now }
    ensures { IfOk result (Tells
        (StandsAgainst objective inst.now (Ranked count answers.now nodes.now))
        (OutOfOrder ∷ proof_reasons)) }
{
    match first_out_of_order(objective, answers) {
        Some(place) => Ok(Reason::OutOfOrder.verdict_at_part(place)),
        None => proof_verdict(alloc, objective, inst, count, answers, nodes),
    }
}

// The same from the reasons against the nodes on. The error is want of memory.
fn proof_verdict(
    alloc: Global,
    objective: Objective,
    inst: &Instance,
    count: u32,
    answers: &[Answer],
    nodes: &[Node],
) -> Result<Verdict, NoMemory>
    requires algebraic { IsTrue (is_algebraic objective) }
    requires place { inst.now.place ≡ PlaceAll }
    requires side { square_side inst.now ≤ most_side }
    requires passes { PassesNegative objective inst.now }
    requires instance { IsInstance inst.now }
    requires some { 1 ≤ length answers.now }
    requires each { EachSpells inst.now answers.now }
    ensures { IfOk result (Tells
        (StandsAgainst objective inst.now (Ranked count answers.now nodes.now))
        proof_reasons) }
{
    let choices = read_choices(alloc, inst, answers)?;
    nodes_verdict(alloc, objective, inst, count, &choices, nodes)
}

// The verdict on nodes that are to be a search tree of the choices, by the reasons against nodes in
// order. The error is want of memory.
fn nodes_verdict(
    alloc: Global,
    objective: Objective,
    inst: &Instance,
    count: u32,
    choices: &Choices,
    nodes: &[Node],
) -> Result<Verdict, NoMemory>
    requires algebraic { IsTrue (is_algebraic objective) }
    requires place { inst.now.place ≡ PlaceAll }
    requires side { square_side inst.now ≤ most_side }
    requires passes { PassesNegative objective inst.now }
    requires some { 1 ≤ length choices.now }
    requires valid { All (IsValid inst.now) choices.now }
    ensures { IfOk result
        (Tells (NodesStand objective inst.now count choices.now nodes.now) node_reasons) }
{
    match judge(alloc, objective, inst, count as usize, choices, nodes)? {
        TreeVerdict::Tree => Ok(Verdict::Yes),
        TreeVerdict::FaultAt(node) => Ok(at_node(Reason::BadNode, nodes, node)),
        TreeVerdict::NodeLacks => Ok(Reason::BadNode.verdict()),
        TreeVerdict::OpenAt(node) => Ok(at_node(Reason::BetterLeft, nodes, node)),
    }
}

// The verdict that the reason stands at one of the nodes, whose number this is.
fn at_node(reason: Reason, nodes: &[Node], node: usize) -> Verdict
    requires { node ≤ length nodes.now }
    ensures { result ≡ Verdict.No (reason_number reason) (pos node) }
{
    let _ = nodes.len();
    reason.verdict_at(node as i64)
}
