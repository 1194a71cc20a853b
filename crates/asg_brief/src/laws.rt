//! Laws of brief lines: each is the contract of a function with an empty body.

ghost use Rattle.std.specs.Prelude.{◌≡◌, ◌≤◌, ℕ, List, Option, length};
ghost use Rattle.asg_model.specs.declared.objectives.Objective.{Objective};
ghost use Rattle.asg_model.specs.Best.{IsBest};
ghost use Rattle.asg_model.specs.Problem.{Problem};
ghost use Rattle.asg_model.specs.Values.{choice_value};
ghost use Rattle.asg_rankings.specs.Nodes.{answer_at};
ghost use Rattle.asg_rankings.specs.Ranked.{IsNextBest, IsRanking};
ghost use Rattle.asg_rankings.specs.SearchTrees.{last_answer};
ghost use Rattle.asg_rank.specs.Rankings.{IsExhausted};
ghost use Rattle.asg_brief.specs.BestValues.{IsBestValue};
ghost use Rattle.asg_brief.specs.BriefLines.{AreBriefLines, IsBriefLine, IsRankedLine};
ghost use Rattle.asg_brief.specs.RankedEnds.{AreRankedEnds};

/// All best choices of an instance have one value, which is that of any of them.
pub fn best_value_law()
    ensures { (objective : Objective) (X : Problem) (f : List (Option ℕ)) →
        IsBest objective X f → IsBestValue objective X (choice_value objective X f) }
{}

/// All rankings of so many choices of an instance have as many answers, and the same values of the
/// first and the last, which are those of any of them.
pub fn ranked_ends_law()
    ensures { (objective : Objective) (X : Problem) (count : ℕ)
        (choices : List (List (Option ℕ))) → IsRanking objective X count choices →
        AreRankedEnds objective X count (length choices)
        (choice_value objective X (answer_at choices 1))
        (choice_value objective X (last_answer choices)) }
{}

/// Choices of which each is best among the valid ones that those before it left are a ranking,
/// where there is one, they are at most as many as were asked for, and nothing is left.
pub fn next_best_law()
    ensures { (objective : Objective) (X : Problem) (count : ℕ)
        (choices : List (List (Option ℕ))) →
        ((a : ℕ) → 1 ≤ a → a ≤ length choices → IsNextBest objective X choices a) →
        1 ≤ length choices → length choices ≤ count → IsExhausted X count choices →
        IsRanking objective X count choices }
{}

/// An instance has one brief line, instances have one text of brief lines, and the rankings of so
/// many choices one line.
pub fn brief_line_law()
    ensures instance { (objective : Objective) (X : Problem) (line other : List ℕ) →
        IsBriefLine objective X line → IsBriefLine objective X other → line ≡ other }
    ensures instances { (objective : Objective) (instances : List Problem)
        (text other : List ℕ) → AreBriefLines objective instances text →
        AreBriefLines objective instances other → text ≡ other }
    ensures ranked { (objective : Objective) (X : Problem) (count : ℕ) (line other : List ℕ) →
        IsRankedLine objective X count line → IsRankedLine objective X count other →
        line ≡ other }
{}
