//! The ranker.

ghost use Rattle.std.specs.Prelude.{◌≡◌, ℕ, ◌<◌, ◌≤◌, [], length, IfOk, IfErr};
ghost use Rattle.asg_model.specs.declared.bands.Band.TheVariants.{Whole};
ghost use Rattle.asg_model.specs.declared.parts.Cost.{Cost};
ghost use Rattle.asg_model.specs.declared.parts.Place.TheVariants.{All as PlaceAll};
ghost use Rattle.asg_model.specs.HallSet.{IsHall};
ghost use Rattle.asg_model.specs.Limits.{most_cost, most_side};
ghost use Rattle.asg_model.specs.Refused.{PassesNegative};
ghost use Rattle.asg_model.specs.Shapes.{square_side};
ghost use Rattle.asg_rankings.specs.Nodes.{answer_at};
ghost use Rattle.asg_rankings.specs.Ranked.{AreListed};
ghost use Rattle.asg_rankings.specs.SearchTrees.{IsSearchTree};
ghost use Rattle.asg_nodes.specs.Rules.{rules_of};
ghost use Rattle.asg_branching.specs.Searches.{IsReady, given_of};
ghost use Rattle.asg_rank.specs.Rankers.{GivesLeast};
ghost use Rattle.asg_rank.specs.Rankings.{ranking_work, IsExhausted, IsRefusal, Gives};
ghost use Rattle.asg_rank.specs.Rankings.{AreCountable, HaveFewPhases, LeaveLastOpen};
ghost use Rattle.asg_rank.specs.Rooms.{answer_room, most_work};

use crate::NoMemory;
use crate::choice_lists::Choices;
use crate::opening::open_search;
use crate::pairs::both;
use crate::rooms::counting_law;
use crate::written_nodes::written_nodes;
use asg_branching::{Search, follow, give};
use asg_model::{Choice, Instance};
use asg_nodes::root_hall;
use asg_order::{DMonoid, Kind, Ordered};
use asg_rankings::Nodes;
use asg_roots::RootGuess;
use asg_square::laws::square_law;
use std::alloc::Global;
use std::marker::Model;

/// The next answer of a ranker.
#[derive(Clone, Copy, Debug, PartialEq, Eq)]
pub enum Next {
    /// One more answer, by its number, counted from 1.
    Answer(u32),
    /// As many answers were given as were asked for, or every valid choice was.
    Done,
}

/// Why a ranker can't be opened.
#[derive(Clone, Copy, Debug, PartialEq, Eq)]
pub enum RankRefusal {
    /// The count times the rows times the side is above 4,000,000: this number.
    RankTooLarge(u64),
    /// There was not enough memory.
    NoMemory,
}

impl From<NoMemory> for RankRefusal {
    ghost use Rattle.std.specs.Prelude.{◌≡◌};
    ghost use Rattle.asg_rank.specs.declared.ranker.RankRefusal.TheVariants.{NoMemory};

    ghost from_gives = { λ _ refusal. refusal ≡ NoMemory };

    fn from(_: NoMemory) -> RankRefusal {
        RankRefusal::NoMemory
    }
}

/// A ranking of the valid choices of an instance, one answer after another, by Murty's partition of
/// the choices that are left [Murty 1968]. Each part is a node of a search tree. What an answer
/// costs is the square of its part, made once, and one tree for each child; children that can't be
/// among the answers that are left aren't grown to the end.
#[derive(Drop)]
pub struct Ranker<K: Kind + Drop> {
    kind: K,
    inst: Instance,
    count: u32,
    search: Search<<<K as Kind>::M as Ordered>::Value>,
}

// The work of a ranking of so many choices.
fn work_of(inst: &Instance, count: u32) -> u64
    requires { square_side inst.now ≤ most_side }
    ensures { result ≡ ranking_work inst.now count }
{
    let rows = inst.rows().len() as u64;
    u64::from(count) * rows * u64::from(inst.side())
}

// A copy of an instance, and a search over it for so many choices. The error is want of memory.
fn copy_and_search<K: Kind>(
    alloc: Global,
    kind: &K,
    inst: &Instance,
    count: u32,
) -> Result<(Instance, Search<<K::M as Ordered>::Value>), NoMemory>
where
    K::M: RootGuess,
    requires place { inst.now.place ≡ PlaceAll }
    requires side { square_side inst.now ≤ most_side }
    requires passes { PassesNegative (K.objective kind.now) inst.now }
    requires reach { most_cost ≤ K.reach kind.now }
    requires some { 1 ≤ count }
    requires work { ranking_work inst.now count ≤ most_work }
    ensures copy { IfOk result (λ made. made.0 ≡ inst.now) }
    ensures ready { let m = K.monoid kind.now in
        let R = rules_of (K.M.monoid_of m) (K.M.difference m) (K.entered kind.now) in
        IfOk result (λ made. IsReady R inst.now (answer_room inst.now count) made.1) }
    ensures none { IfOk result (λ made. given_of made.1 ≡ []) }
{
    let copy = inst.copy(alloc)?;
    both(copy, open_search(alloc, kind, inst, count))
}

// Gives the next answer, if there is room for one and a valid choice wasn't given yet.
fn advance<M: DMonoid>(m: &M, inst: &Instance, search: &mut Search<M::Value>) -> Next
    requires ready { (enter : Cost → M.Value) × (room : ℕ) × IsReady (rules_of (M.monoid_of m.now)
        (M.difference m.now) enter) inst.now room search.old }
    ensures ready { (enter : Cost → M.Value) (room : ℕ)
        → let R = rules_of (M.monoid_of m.now) (M.difference m.now) enter in
        IsReady R inst.now room search.old → IsReady R inst.now room search.new }
    ensures gives { (enter : Cost → M.Value) (room : ℕ)
        → let R = rules_of (M.monoid_of m.now) (M.difference m.now) enter in
        IsReady R inst.now room search.old
        → GivesLeast R inst.now room (given_of search.old) (given_of search.new) result }
{
    if search.given as usize == search.slots.len() {
        return Next::Done;
    }
    give(m, inst, search);
    follow(m, inst, search);
    Next::Answer(search.given)
}

impl<K: Kind + Drop> Model for Ranker<K> {
    ghost use Rattle.asg_rank.specs.Rankings.{Ranking};
    ghost use Rattle.asg_nodes.specs.Rules.{rules_of};
    ghost use Rattle.asg_branching.specs.Searches.{given_of};
    ghost use Rattle.asg_rank.specs.Rankers.{IsRanker};

    ghost Value = { Ranking K };

    ghost view = { λ r. record {
      kind = r.kind;
      problem = r.inst;
      count = r.count;
      given = given_of r.search;
    } };

    ghost invariant = { λ r. let m = K.monoid r.kind in
        IsRanker (rules_of (K.M.monoid_of m) (K.M.difference m) (K.entered r.kind))
        (K.objective r.kind) (K.reach r.kind) r.inst r.count r.search };
}

impl<K: Kind + Drop> Ranker<K>
where
    K::M: RootGuess,
{
    /// A ranker of the first `count` choices of an instance. All rows are placed, the side of its
    /// square is at most 2,000, the objective refuses no live cost (`asg_values::negative`), at
    /// least one choice is asked for, and the kind's reach is at least the cost limit. The errors:
    /// the count times the rows times the side is above 4,000,000, or want of memory. All memory is
    /// taken here. Few phases that solve the root are guessed first and tested (`asg_duals`); where
    /// no guess passes the tests, the engine solves it by shortest augmenting paths, with one phase
    /// for each row that needs one. The time grows with the cube of the side at most.
    pub fn open(
        alloc: Global,
        kind: K,
        inst: &Instance,
        count: u32,
    ) -> Result<Ranker<K>, RankRefusal>
        requires place { inst.now.place ≡ PlaceAll }
        requires side { square_side inst.now ≤ most_side }
        requires passes { PassesNegative (K.objective kind) inst.now }
        requires reach { most_cost ≤ K.reach kind }
        requires some { 1 ≤ count }
        ensures opened { IfOk result
            (λ r. r ≡ record { kind = kind; problem = inst.now; count = count; given = [] }) }
        ensures within { IfOk result (λ r. ranking_work inst.now count ≤ most_work) }
        ensures refusal { IfErr result (IsRefusal inst.now count) }
    {
        let work = work_of(inst, count);
        if work > MOST_WORK {
            return Err(RankRefusal::RankTooLarge(work));
        }
        let made = copy_and_search(alloc, &kind, inst, count)?;
        Ok(Ranker {
            kind,
            inst: made.0,
            count,
            search: made.1,
        })
    }

    /// The next answer: a best choice of those that weren't given yet. It takes no memory. Where a
    /// child of its node may be among the answers that are left, the time is that of one tree on
    /// the square for each row that is placed, of making the square for each node on the way from
    /// the one that it was made for last, if that lies on it, and else from the root, and of
    /// finding each child its place among those kept.
    pub fn next(&mut self) -> Next
        ensures gives { Gives (K.objective self.old.kind) self.old.problem self.old.count
            self.old.given self.new.given result }
        ensures kind { self.new.kind ≡ self.old.kind }
        ensures problem { self.new.problem ≡ self.old.problem }
        ensures count { self.new.count ≡ self.old.count }
    {
        counting_law();
        let _rows = self.inst.rows();
        advance(self.kind.monoid(), &self.inst, &mut self.search)
    }

    /// The answer of a number, counted from 1, that was given.
    pub fn choice(&self, i: u32) -> &Choice
        requires from { 1 ≤ i }
        requires upto { i ≤ length self.now.given }
        ensures { result.now ≡ answer_at self.now.given i }
    {
        &self.search.choices[i as usize - 1]
    }

    /// The answers that were given, in order. It takes no memory.
    pub(crate) fn into_choices(self) -> Choices
        ensures { result ≡ self.given }
    {
        let Ranker { search, .. } = self;
        let Search {
            given,
            mut choices,
            ..
        } = search;
        choices.truncate(given as usize);
        Choices::from_vec(choices)
    }

    /// A Hall set of the instance, after `Done` without an answer.
    pub fn hall(&self) -> &[u32]
        requires none { self.now.given ≡ [] }
        requires done { IsExhausted self.now.problem self.now.count self.now.given }
        ensures { IsHall self.now.problem Whole result.now }
    {
        square_law::<<K::M as Ordered>::Value>();
        let _rows = self.inst.rows();
        root_hall(&self.search.tree)
    }

    /// The tree that proves the ranking, after `Done` with an answer. The error is want of memory.
    pub fn nodes(&self, alloc: Global) -> Result<Nodes, NoMemory>
        requires some { 1 ≤ length self.now.given }
        requires done { IsExhausted self.now.problem self.now.count self.now.given }
        ensures listed { AreListed (K.objective self.now.kind) self.now.problem
            self.now.count self.now.given }
        ensures tree { let kind = self.now.kind in let m = K.monoid kind in
            IfOk result (λ nodes. IsSearchTree (K.M.monoid_of m) (K.M.difference m) (K.M.word_of m)
            (K.entered kind) self.now.problem self.now.count self.now.given nodes) }
        ensures phases { IfOk result (HaveFewPhases (square_side self.now.problem)) }
        ensures countable { IfOk result AreCountable }
        ensures last { IfOk result (LeaveLastOpen self.now.count self.now.given) }
    {
        square_law::<<K::M as Ordered>::Value>();
        counting_law();
        let _rows = self.inst.rows();
        let _spare = self.search.tree.region.spare();
        written_nodes(alloc, self.kind.monoid(), &self.search.tree)
    }
}

/// The greatest work of a ranking: the count times the rows times the side.
pub const MOST_WORK: u64 = 4_000_000;
