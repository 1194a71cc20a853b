//! The brief line of a ranking: of the answers of a ranker alone, without a search tree.

ghost use Rattle.std.specs.Prelude.{◌≡◌, ◌≤◌, [], IfErr, IfOk, IsTrue, length};
ghost use Rattle.asg_model.specs.declared.parts.Place.TheVariants.{All as PlaceAll};
ghost use Rattle.asg_model.specs.Limits.{most_cost, most_side};
ghost use Rattle.asg_model.specs.Objectives.{is_algebraic};
ghost use Rattle.asg_model.specs.Refused.{PassesNegative};
ghost use Rattle.asg_model.specs.Shapes.{square_side};
ghost use Rattle.asg_monoids.specs.NarrowObjectives.{is_narrow_objective};
ghost use Rattle.asg_rankings.specs.Ranked.{IsRanking};
ghost use Rattle.asg_rank.specs.Rankings.{IsRefusal, ranking_work};
ghost use Rattle.asg_rank.specs.Rooms.{most_work};
ghost use Rattle.asg_brief.specs.BestValues.{HasNoChoice};
ghost use Rattle.asg_brief.specs.BriefLines.{IsBriefRanking, IsRankedLine};

use crate::NoMemory;
use crate::brief_lines::BriefLine;
use crate::laws::{next_best_law, ranked_ends_law};
use crate::lines::{ends_line, none_line};
use crate::sum_rankings::line_by_sums;
use asg_model::{Instance, Objective};
use asg_monoids::{NarrowKind, PeakKind, SumKind, TimeKind};
use asg_order::Kind;
use asg_rank::{Next, RankRefusal, Ranker};
use asg_roots::RootGuess;
use asg_values::value;
use std::alloc::Global;

/// What a ranking comes to, as a line.
#[derive(Drop)]
pub enum BriefRanking {
    /// How many answers it has, how many were asked for, and the values of the first and the last.
    Ranked(BriefLine),
    /// No choice is valid.
    Nothing(BriefLine),
}

// Has a ranker give all answers that it has to give. It takes no memory. Gives how many they are.
fn give_all<K: Kind + Drop>(ranker: &mut Ranker<K>) -> u32
where
    K::M: RootGuess,
    requires none { ranker.old.given ≡ [] }
    requires asked { 1 ≤ ranker.old.count }
    ensures many { result ≡ length ranker.new.given }
    ensures ranking { 1 ≤ result → IsRanking (K.objective ranker.old.kind) ranker.old.problem
        ranker.old.count ranker.new.given }
    ensures nothing { result ≡ 0 → HasNoChoice ranker.old.problem }
{
    next_best_law();
    let mut given = 0;
    'answers: while let Next::Answer(number) = ranker.next() {
        given = number;
    }
    given
}

// The line of the answers that a ranker gave, so many. The error is want of memory.
fn given_line<K: Kind + Drop>(
    alloc: Global,
    objective: Objective,
    ranker: &Ranker<K>,
    given: u32,
    inst: &Instance,
    count: u32,
) -> Result<BriefLine, NoMemory>
where
    K::M: RootGuess,
    requires some { 1 ≤ given }
    requires many { given ≡ length ranker.now.given }
    requires ranking { IsRanking objective inst.now count ranker.now.given }
    ensures { IfOk result (IsRankedLine objective inst.now count) }
{
    ranked_ends_law();
    let first = value(alloc, objective, inst, ranker.choice(1))?;
    let last = value(alloc, objective, inst, ranker.choice(given))?;
    ends_line(alloc, objective, given, count, &first, &last)
}

// The line of a ranker that is open and gave nothing yet. The error is want of memory.
fn brief_of<K: Kind + Drop>(
    alloc: Global,
    objective: Objective,
    ranker: &mut Ranker<K>,
    inst: &Instance,
    count: u32,
) -> Result<BriefRanking, NoMemory>
where
    K::M: RootGuess,
    requires objective { K.objective ranker.old.kind ≡ objective }
    requires problem { ranker.old.problem ≡ inst.now }
    requires count { ranker.old.count ≡ count }
    requires none { ranker.old.given ≡ [] }
    requires asked { 1 ≤ count }
    ensures { IfOk result (IsBriefRanking objective inst.now count) }
{
    let given = give_all(ranker);
    if given == 0 {
        Ok(BriefRanking::Nothing(none_line(alloc, objective, inst)?))
    } else {
        Ok(BriefRanking::Ranked(given_line(alloc, objective, ranker, given, inst, count)?))
    }
}

// The line of a ranker that is open and gave nothing yet, and is used up. The error is want of
// memory.
fn final_brief<K: Kind + Drop>(
    alloc: Global,
    objective: Objective,
    ranker: Ranker<K>,
    inst: &Instance,
    count: u32,
) -> Result<BriefRanking, NoMemory>
where
    K::M: RootGuess,
    requires objective { K.objective ranker.kind ≡ objective }
    requires problem { ranker.problem ≡ inst.now }
    requires count { ranker.count ≡ count }
    requires none { ranker.given ≡ [] }
    requires asked { 1 ≤ count }
    ensures { IfOk result (IsBriefRanking objective inst.now count) }
{
    let mut spent = ranker;
    let brief = brief_of(alloc, objective, &mut spent, inst, count);
    drop(spent);
    brief
}

// The brief ranking by a kind.
fn brief_by<K: Kind + Drop>(
    alloc: Global,
    kind: K,
    inst: &Instance,
    count: u32,
) -> Result<BriefRanking, RankRefusal>
where
    K::M: RootGuess,
    requires place { inst.now.place ≡ PlaceAll }
    requires side { square_side inst.now ≤ most_side }
    requires passes { PassesNegative (K.objective kind) inst.now }
    requires reach { most_cost ≤ K.reach kind }
    requires some { 1 ≤ count }
    ensures told { IfOk result (IsBriefRanking (K.objective kind) inst.now count) }
    ensures within { IfOk result (λ _. ranking_work inst.now count ≤ most_work) }
    ensures refusal { IfErr result (IsRefusal inst.now count) }
{
    let objective = kind.objective();
    let ranker = Ranker::open(alloc, kind, inst, count)?;
    Ok(final_brief(alloc, objective, ranker, inst, count)?)
}

// The brief ranking by `sum` or `sum-max`: by a search whose answers pass their tests, and where
// there is none by the ranker.
fn brief_by_sums(
    alloc: Global,
    objective: Objective,
    inst: &Instance,
    count: u32,
) -> Result<BriefRanking, RankRefusal>
    requires narrow { IsTrue (is_narrow_objective objective) }
    requires place { inst.now.place ≡ PlaceAll }
    requires side { square_side inst.now ≤ most_side }
    requires passes { PassesNegative objective inst.now }
    requires some { 1 ≤ count }
    ensures told { IfOk result (IsBriefRanking objective inst.now count) }
    ensures within { IfOk result (λ _. ranking_work inst.now count ≤ most_work) }
    ensures refusal { IfErr result (IsRefusal inst.now count) }
{
    if let Some(line) = line_by_sums(alloc, objective, inst, count)? {
        return Ok(BriefRanking::Ranked(line));
    }
    brief_by(alloc, NarrowKind::of(objective), inst, count)
}

/// What the ranking of `count` choices of an instance comes to, in one line: how many answers it
/// has, how many were asked for, and the values of its first and its last answer, as documents
/// write them; or that no choice is valid. The answers of `sum` and `sum-max` are those of a search
/// where they pass its tests, and the ranker's elsewhere; no choice but its own is kept, and no
/// search tree is written out. The objective is any but `Balanced` and `Lex`,
/// it refuses no live cost of the instance (`asg_values::negative`), all rows are placed, the side
/// is at most 2,000, and at least one choice is asked for. The errors: the count times the rows
/// times the side is above 4,000,000, or want of memory.
pub fn brief_ranking(
    alloc: Global,
    objective: Objective,
    inst: &Instance,
    count: u32,
) -> Result<BriefRanking, RankRefusal>
    requires algebraic { IsTrue (is_algebraic objective) }
    requires place { inst.now.place ≡ PlaceAll }
    requires side { square_side inst.now ≤ most_side }
    requires passes { PassesNegative objective inst.now }
    requires some { 1 ≤ count }
    ensures told { IfOk result (IsBriefRanking objective inst.now count) }
    ensures within { IfOk result (λ _. ranking_work inst.now count ≤ most_work) }
    ensures refusal { IfErr result (IsRefusal inst.now count) }
{
    match objective {
        Objective::Sum | Objective::SumMax => brief_by_sums(alloc, objective, inst, count),
        Objective::SumPair | Objective::Capped(_) => {
            brief_by(alloc, SumKind::of(objective), inst, count)
        }
        Objective::Bottleneck | Objective::BottleneckMax => {
            brief_by(alloc, PeakKind::of(objective), inst, count)
        }
        Objective::TimeCost => brief_by(alloc, TimeKind::new(), inst, count),
        Objective::Balanced | Objective::Lex => unreachable!(),
    }
}
