//! Laws of ranked answers: each is the contract of a function that only calls laws.

ghost use Rattle.std.specs.Prelude.{◌≡◌, ◌≢◌, ◌≤◌, ◌<◌, ◌⊎◌, ◌++◌, ◌∷◌, [], ℕ, Bool, IsTrue, List, Option, length, All, Contains};
ghost use Rattle.asg_model.specs.declared.parts.Place.TheVariants.{All as PlaceAll};
ghost use Rattle.asg_model.specs.Counts.{placed};
ghost use Rattle.asg_model.specs.Instances.{IsInstance};
ghost use Rattle.asg_model.specs.Limits.{most_cost};
ghost use Rattle.asg_model.specs.Problem.{Problem};
ghost use Rattle.asg_model.specs.Refused.{PassesNegative};
ghost use Rattle.asg_model.specs.ValidChoice.{IsValid};
ghost use Rattle.asg_model.specs.declared.objectives.Objective.{Objective};
ghost use Rattle.asg_rankings.specs.TreeProofs.{ProvesRanking};
ghost use Rattle.asg_model.specs.declared.parts.Cost.{Cost};
ghost use Rattle.asg_proof.specs.PhaseProofs.{EntersValues, IsRaised};
ghost use Rattle.asg_monoids.specs.BoundedSums.{bounded_sums, bounded_difference};
ghost use Rattle.asg_order.specs.declared.words.Word.{Word};
ghost use Rattle.asg_order.specs.Bridge.{choice_fold};
ghost use Rattle.asg_order.specs.Monoid.{IsValue, IsLe};
ghost use Rattle.asg_rankings.specs.Frontiers.{IsFrontier, Splits, IsLeastPart};
ghost use Rattle.asg_rankings.specs.Children.{child};
ghost use Rattle.asg_proof.specs.Phases.{PhaseOf, after_phases};
ghost use Rattle.asg_square.specs.Cells.{square_cell};
ghost use Rattle.asg_rankings.specs.Masks.{masked, keeps_cell};
ghost use Rattle.asg_rankings.specs.declared.nodes.Node.{Node};
ghost use Rattle.asg_rankings.specs.Ranked.{AreListed, IsRanking, IsNextBest};
ghost use Rattle.asg_rankings.specs.Nodes.{node_at, node_answer, node_instance, node_trail};
ghost use Rattle.asg_rankings.specs.SearchTrees.{last_answer, IsBelowParent, IsSearchTree};

use asg_order::{DMonoid, Kind, Written};
use asg_proof::laws::{index_law, lower_bound_law};
use asg_values::laws::infeasible_law;

/// The partition law: where all rows are placed, the valid choices of an instance other than a
/// valid one are those of its children, each in exactly one child.
pub fn partition_law()
    ensures within { (X : Problem) (f g : List (Option ℕ)) (branch : ℕ)
        → IsValid (child X f branch) g → IsValid X g }
    ensures other { (X : Problem) (f : List (Option ℕ)) (branch : ℕ)
        → X.place ≡ PlaceAll → IsValid X f → 1 ≤ branch → branch ≤ placed X
        → ¬ IsValid (child X f branch) f }
    ensures covered { (X : Problem) (f g : List (Option ℕ))
        → X.place ≡ PlaceAll → IsValid X f → IsValid X g → f ≢ g
        → (i : ℕ) × (1 ≤ i) × (i ≤ placed X) × IsValid (child X f i) g }
    ensures once { (X : Problem) (f g : List (Option ℕ)) (i j : ℕ)
        → X.place ≡ PlaceAll → IsValid X f → 1 ≤ i → i ≤ placed X → 1 ≤ j → j ≤ placed X
        → IsValid (child X f i) g → IsValid (child X f j) g → i ≡ j }
    ensures instance { (X : Problem) (f : List (Option ℕ)) (branch : ℕ) →
        IsInstance X → IsInstance (child X f branch) }
{}

/// A child is its instance with cells removed, so that phases prove of it what they prove of the
/// instance.
pub fn child_raised_law<M: DMonoid>(m: &M)
    ensures { (enter : Cost → M.Value) (X : Problem) (f : List (Option ℕ)) (branch : ℕ)
        → EntersValues (M.monoid_of m.now) enter X
        → IsRaised (M.monoid_of m.now) enter X (child X f branch) }
{}

/// The law of search trees: where the nodes are a search tree of answers, each answer is valid, and
/// each valid choice is an answer, or as many answers are listed as were asked for and the product
/// of the last one is at most its product.
pub fn search_tree_law<M: Written>(m: &M)
    ensures valid { let monoid = M.monoid_of m.now in
        (enter : Cost → M.Value) (X : Problem) (count : ℕ) (answers : List (List (Option ℕ)))
        (nodes : List Node)
        → IsInstance X → X.place ≡ PlaceAll → EntersValues monoid enter X
        → IsSearchTree monoid (M.difference m.now) (M.word_of m.now) enter X count answers nodes
        → All (IsValid X) answers }
    ensures accounted { let monoid = M.monoid_of m.now in
        (enter : Cost → M.Value) (X : Problem) (count : ℕ) (answers : List (List (Option ℕ)))
        (nodes : List Node) (g : List (Option ℕ))
        → IsInstance X → X.place ≡ PlaceAll → EntersValues monoid enter X
        → IsSearchTree monoid (M.difference m.now) (M.word_of m.now) enter X count answers nodes
        → IsValid X g
        → Contains answers g ⊎ ((count ≤ length answers)
        × IsLe monoid (choice_fold monoid enter X (last_answer answers)) (choice_fold monoid enter X g)) }
{
    infeasible_law();
    lower_bound_law(m);
}

/// The ranking law: listed answers of a search tree are a ranking by the kind's objective, and each
/// is best among the valid choices that those before it left.
pub fn ranking_law<K: Kind>(kind: &K)
    ensures ranking { (X : Problem) (count : ℕ) (answers : List (List (Option ℕ)))
        (nodes : List Node)
        → IsInstance X → X.place ≡ PlaceAll → PassesNegative (K.objective kind.now) X
        → most_cost ≤ K.reach kind.now
        → AreListed (K.objective kind.now) X count answers
        → IsSearchTree (K.M.monoid_of (K.monoid kind.now)) (K.M.difference (K.monoid kind.now))
        (K.M.word_of (K.monoid kind.now)) (K.entered kind.now) X count answers nodes
        → IsRanking (K.objective kind.now) X count answers }
    ensures next_best { (X : Problem) (count : ℕ) (answers : List (List (Option ℕ)))
        (nodes : List Node) (a : ℕ)
        → IsInstance X → X.place ≡ PlaceAll → PassesNegative (K.objective kind.now) X
        → most_cost ≤ K.reach kind.now
        → AreListed (K.objective kind.now) X count answers
        → IsSearchTree (K.M.monoid_of (K.monoid kind.now)) (K.M.difference (K.monoid kind.now))
        (K.M.word_of (K.monoid kind.now)) (K.entered kind.now) X count answers nodes
        → 1 ≤ a → a ≤ length answers
        → IsNextBest (K.objective kind.now) X answers a }
{
    search_tree_law(kind.monoid());
}

/// The law of masks: the square of a child after phases is that of its instance after them, without
/// the cells that the branch takes out. So a child needs no square of its own.
pub fn mask_law<M: DMonoid>(m: &M)
    ensures { let monoid = M.monoid_of m.now in
        (enter : Cost → M.Value) (X : Problem) (f : List (Option ℕ)) (branch : ℕ)
        (phases : List (PhaseOf M.Value))
        → after_phases monoid (M.difference m.now) phases
        (square_cell (child X f branch) monoid.unit enter)
        ≡ masked (keeps_cell X f branch) (after_phases monoid (M.difference m.now) phases
        (square_cell X monoid.unit enter)) }
{}

/// The frontier law: where a part of a frontier gives a choice and its children take its place,
/// open or empty, there is a frontier again; and a choice of the least part that is worth the
/// part's bound is new and best of those that weren't given.
pub fn frontier_law<M: DMonoid>(m: &M)
    ensures after { (X : Problem) (given : List (List (Option ℕ))) (is_open is_open_now : ℕ → Bool)
        (part part_now : ℕ → Problem) (last n : ℕ) (f : List (Option ℕ))
        → IsFrontier X given is_open part → IsTrue (is_open n) → (part n).place ≡ PlaceAll
        → IsValid (part n) f → Splits is_open is_open_now part part_now last n f
        → IsFrontier X (given ++ f ∷ []) is_open_now part_now }
    ensures best { let monoid = M.monoid_of m.now in
        (worth : List (Option ℕ) → M.Value) (X : Problem) (given : List (List (Option ℕ)))
        (is_open : ℕ → Bool) (part : ℕ → Problem) (bound : ℕ → M.Value) (n : ℕ)
        (f g : List (Option ℕ))
        → IsFrontier X given is_open part → IsLeastPart monoid worth is_open part bound n
        → IsValid (part n) f → worth f ≡ bound n
        → ((m : ℕ) → IsTrue (is_open m) → IsValue monoid (bound m))
        → ((h : List (Option ℕ)) → IsValid X h → IsValue monoid (worth h))
        → IsValid X g → ¬ Contains given g → IsLe monoid (worth f) (worth g) }
{}

/// The law of proved rankings: listed answers whose nodes are a search tree in the monoid of an
/// algebraic objective are a ranking.
pub fn proved_ranking_law()
    ensures ranking { (objective : Objective) (X : Problem) (count : ℕ) (answers : List (List (Option ℕ)))
        (nodes : List Node)
        → IsInstance X → X.place ≡ PlaceAll → PassesNegative objective X
        → AreListed objective X count answers → ProvesRanking objective X count answers nodes
        → IsRanking objective X count answers }
{
    infeasible_law();
    index_law::<u64>();
    index_law::<(u64, u128)>();
}

/// The law of nodes: what is X at the root, and below it the child of what it is at the parent, is
/// the instance of each node; and the trail of a node below the root is its parent's, and then its
/// own phases.
pub fn node_law()
    ensures instances { (X : Problem) (answers : List (List (Option ℕ))) (nodes : List Node)
        (part : ℕ → Problem)
        → ((m : ℕ) → 1 < m → m ≤ length nodes → IsBelowParent (placed X) nodes m)
        → part 1 ≡ X
        → ((m : ℕ) → 1 < m → m ≤ length nodes → part m ≡ child (part (node_at nodes m).parent)
        (node_answer answers nodes (node_at nodes m).parent) (node_at nodes m).branch)
        → (n : ℕ) → 1 ≤ n → n ≤ length nodes → part n ≡ node_instance X answers nodes n }
    ensures trails { (k : ℕ) (nodes : List Node)
        → ((m : ℕ) → 1 < m → m ≤ length nodes → IsBelowParent k nodes m)
        → (n : ℕ) → 1 < n → n ≤ length nodes
        → node_trail nodes n ≡ node_trail nodes (node_at nodes n).parent ++ (node_at nodes n).own }
{}

/// The tops law of search trees: nodes that are a search tree where sums stop at a top are one
/// where they stop at a greater top, if the product of the last answer is the same.
pub fn tree_tops_law()
    ensures { (low high : ℕ) (word_of : ℕ → Word) (enter : Cost → ℕ) (X : Problem) (count : ℕ)
        (answers : List (List (Option ℕ))) (nodes : List Node)
        → low ≤ high
        → choice_fold (bounded_sums high) enter X (last_answer answers)
        ≡ choice_fold (bounded_sums low) enter X (last_answer answers)
        → IsSearchTree (bounded_sums low) bounded_difference word_of enter X count answers nodes
        → IsSearchTree (bounded_sums high) bounded_difference word_of enter X count answers nodes }
{}
