//! The ranking of an instance by an objective.

ghost use Rattle.std.specs.Prelude.{◌≡◌, ◌≤◌, [], All, IsTrue, IfOk, IfErr, length};
ghost use Rattle.asg_model.specs.declared.parts.Place.TheVariants.{All as PlaceAll};
ghost use Rattle.asg_model.specs.Limits.{most_cost, most_side};
ghost use Rattle.asg_model.specs.Objectives.{is_algebraic};
ghost use Rattle.asg_model.specs.Refused.{PassesNegative};
ghost use Rattle.asg_model.specs.Shapes.{square_side};
ghost use Rattle.asg_model.specs.ValidChoice.{IsValid};
ghost use Rattle.asg_rank.specs.Rankings.{IsExhausted, IsRefusal, ranking_work};
ghost use Rattle.asg_rank.specs.RankOutcomes.{IsOutcomeIn, IsRankOutcome};
ghost use Rattle.asg_rank.specs.Rooms.{most_work};

use crate::NoMemory;
use crate::choice_lists::Choices;
use crate::ranker::{Next, RankRefusal, Ranker};
use asg_model::{Instance, Objective};
use asg_monoids::{NarrowKind, PeakKind, SumKind, TimeKind};
use asg_order::Kind;
use asg_proof::Ids;
use asg_rankings::Nodes;
use asg_roots::RootGuess;
use std::alloc::Global;

/// What a ranking gives.
#[derive(Drop)]
pub enum RankOutcome {
    /// The best choices in order, and what shows that nothing better was left out.
    Listed { answers: Choices, nodes: Nodes },
    /// No choice is valid: the rows are a Hall set.
    Nothing { rows: Ids },
}

// Has a ranker give all answers that it has to give. It takes no memory. Gives how many they are.
fn give_all<K: Kind + Drop>(ranker: &mut Ranker<K>) -> u32
where
    K::M: RootGuess,
    requires { ranker.old.given ≡ [] }
    ensures many { result ≡ length ranker.new.given }
    ensures done { IsExhausted ranker.new.problem ranker.new.count ranker.new.given }
    ensures valid { All (IsValid ranker.new.problem) ranker.new.given }
    ensures kind { ranker.new.kind ≡ ranker.old.kind }
    ensures problem { ranker.new.problem ≡ ranker.old.problem }
    ensures count { ranker.new.count ≡ ranker.old.count }
{
    let mut given = 0;
    'answers: while let Next::Answer(number) = ranker.next() {
        given = number;
    }
    given
}

// The outcome of a ranker that gave answers, and has nothing left to give. The error is want of
// memory.
fn ranked_outcome<K: Kind + Drop>(alloc: Global, ranker: Ranker<K>) -> Result<RankOutcome, NoMemory>
where
    K::M: RootGuess,
    requires some { 1 ≤ length ranker.given }
    requires done { IsExhausted ranker.problem ranker.count ranker.given }
    requires valid { All (IsValid ranker.problem) ranker.given }
    ensures { let m = K.monoid ranker.kind in
        IfOk result (IsOutcomeIn (K.M.monoid_of m) (K.M.difference m) (K.M.word_of m)
        (K.entered ranker.kind) (K.objective ranker.kind) ranker.problem ranker.count) }
{
    let nodes = ranker.nodes(alloc)?;
    Ok(RankOutcome::Listed {
        answers: ranker.into_choices(),
        nodes,
    })
}

// The outcome where a ranker had no answer to give. The error is want of memory.
fn none_outcome<K: Kind + Drop>(alloc: Global, ranker: &Ranker<K>) -> Result<RankOutcome, NoMemory>
where
    K::M: RootGuess,
    requires none { ranker.now.given ≡ [] }
    requires done { IsExhausted ranker.now.problem ranker.now.count ranker.now.given }
    ensures { let m = K.monoid ranker.now.kind in
        IfOk result (IsOutcomeIn (K.M.monoid_of m) (K.M.difference m) (K.M.word_of m)
        (K.entered ranker.now.kind) (K.objective ranker.now.kind) ranker.now.problem
        ranker.now.count) }
{
    let rows = Vec::from_slice(alloc, ranker.hall())?;
    Ok(RankOutcome::Nothing {
        rows: Ids::from_vec(rows),
    })
}

// The outcome of a ranker that is open and gave nothing yet. The error is want of memory.
fn outcome_of<K: Kind + Drop>(alloc: Global, ranker: Ranker<K>) -> Result<RankOutcome, NoMemory>
where
    K::M: RootGuess,
    requires { ranker.given ≡ [] }
    ensures { let m = K.monoid ranker.kind in
        IfOk result (IsOutcomeIn (K.M.monoid_of m) (K.M.difference m) (K.M.word_of m)
        (K.entered ranker.kind) (K.objective ranker.kind) ranker.problem ranker.count) }
{
    let mut spent = ranker;
    if give_all(&mut spent) == 0 {
        none_outcome(alloc, &spent)
    } else {
        ranked_outcome(alloc, spent)
    }
}

// The ranking by a kind.
fn ranking_by<K: Kind + Drop>(
    alloc: Global,
    kind: K,
    inst: &Instance,
    count: u32,
) -> Result<RankOutcome, RankRefusal>
where
    K::M: RootGuess,
    requires place { inst.now.place ≡ PlaceAll }
    requires side { square_side inst.now ≤ most_side }
    requires passes { PassesNegative (K.objective kind) inst.now }
    requires reach { most_cost ≤ K.reach kind }
    requires some { 1 ≤ count }
    ensures outcome { let m = K.monoid kind in
        IfOk result (IsOutcomeIn (K.M.monoid_of m) (K.M.difference m) (K.M.word_of m)
        (K.entered kind) (K.objective kind) inst.now count) }
    ensures within { IfOk result (λ _. ranking_work inst.now count ≤ most_work) }
    ensures refusal { IfErr result (IsRefusal inst.now count) }
{
    let ranker = Ranker::open(alloc, kind, inst, count)?;
    Ok(outcome_of(alloc, ranker)?)
}

/// The first `count` choices of an instance for an algebraic objective, from the best on, or all
/// valid ones where they are fewer, with the tree that proves the ranking: each of its nodes but
/// the root has at most one phase beyond those of its parent. Where no choice is valid, a Hall set
/// of the whole instance. The objective is any but `Balanced` and `Lex`, it refuses no live cost of
/// the instance (`asg_values::negative`), all rows are placed, the side is at most 2,000, and at
/// least one choice is asked for. The sums of `sum` and `sum-max` are taken in 64 bits. The errors:
/// the count times the rows times the side is above 4,000,000, or want of memory.
pub fn ranking(
    alloc: Global,
    objective: Objective,
    inst: &Instance,
    count: u32,
) -> Result<RankOutcome, RankRefusal>
    requires algebraic { IsTrue (is_algebraic objective) }
    requires place { inst.now.place ≡ PlaceAll }
    requires side { square_side inst.now ≤ most_side }
    requires passes { PassesNegative objective inst.now }
    requires some { 1 ≤ count }
    ensures outcome { IfOk result (IsRankOutcome objective inst.now count) }
    ensures within { IfOk result (λ _. ranking_work inst.now count ≤ most_work) }
    ensures refusal { IfErr result (IsRefusal inst.now count) }
{
    let _rows = inst.rows();
    match objective {
        Objective::Sum | Objective::SumMax => {
            ranking_by(alloc, NarrowKind::of(objective), inst, count)
        }
        Objective::SumPair | Objective::Capped(_) => {
            ranking_by(alloc, SumKind::of(objective), inst, count)
        }
        Objective::Bottleneck | Objective::BottleneckMax => {
            ranking_by(alloc, PeakKind::of(objective), inst, count)
        }
        Objective::TimeCost => ranking_by(alloc, TimeKind::new(), inst, count),
        Objective::Balanced | Objective::Lex => unreachable!(),
    }
}
