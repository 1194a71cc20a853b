//! Laws of brief requests: each is the contract of a function that at most calls laws.

ghost use Rattle.std.specs.Prelude.{◌≡◌, ℕ, List, Option, true};
ghost use Rattle.asg_brief.specs.BriefLines.{IsBestLine, IsNoneLine, IsRankedLine};
ghost use Rattle.asg_words.specs.declared.requests.Job.{Job};
ghost use Rattle.asg_words.specs.declared.requests.Task.TheVariants.{Solve, Rank, Edit};
ghost use Rattle.asg_answers.specs.declared.status.Status.TheVariants as statuses;
ghost use Rattle.asg_promises.specs.Due.{Due};
ghost use Rattle.asg_promises.specs.Sources.{MayHold};
ghost use Rattle.asg_promises.specs.Promised.{IsBriefScript, IsToldOf};
ghost use Rattle.asg_promises.specs.Requests.{AsksFor};

use super::instance_law;

/// For a brief request to solve, status 0 is due only with the line of the best choices of the
/// file's instance: there is a best choice, each has as many cells as rows are placed, and each has
/// the value of the line. Status 1 is due only with the line that none is valid, for an instance
/// without a valid choice.
pub fn brief_solve_law()
    ensures best { (words : List (List ℕ)) (told : List ℕ → Option (List ℕ))
        (text : List ℕ) (job : Job) →
        AsksFor words job → job.brief ≡ true → job.task ≡ Solve →
        Due words told statuses.Done text →
        (bytes : List ℕ) × MayHold told job.instance bytes
        × IsToldOf job bytes text (IsBestLine job.objective) }
    ensures none { (words : List (List ℕ)) (told : List ℕ → Option (List ℕ))
        (text : List ℕ) (job : Job) →
        AsksFor words job → job.brief ≡ true → job.task ≡ Solve →
        Due words told statuses.Nothing text →
        (bytes : List ℕ) × MayHold told job.instance bytes
        × IsToldOf job bytes text (IsNoneLine job.objective) }
{
    instance_law();
}

/// For a brief request to rank, status 0 is due only with the line of the rankings of as many
/// choices of the file's instance as were asked for: there is such a ranking, and each has as many
/// answers as the line says, and the values of the line as those of its first and its last answer.
/// Status 1 is due only with the line that none is valid, for an instance without a valid choice.
pub fn brief_rank_law()
    ensures ranked { (words : List (List ℕ)) (told : List ℕ → Option (List ℕ))
        (text : List ℕ) (count : ℕ) (job : Job) →
        AsksFor words job → job.brief ≡ true → job.task ≡ Rank count →
        Due words told statuses.Done text →
        (bytes : List ℕ) × MayHold told job.instance bytes
        × IsToldOf job bytes text (λ X. IsRankedLine job.objective X count) }
    ensures none { (words : List (List ℕ)) (told : List ℕ → Option (List ℕ))
        (text : List ℕ) (count : ℕ) (job : Job) →
        AsksFor words job → job.brief ≡ true → job.task ≡ Rank count →
        Due words told statuses.Nothing text →
        (bytes : List ℕ) × MayHold told job.instance bytes
        × IsToldOf job bytes text (IsNoneLine job.objective) }
{
    instance_law();
}

/// For a brief request to edit, status 0 is due only with a line for each `solve` line of the
/// script, in order: that of the best choices of the instance as edited then, or that it has none.
pub fn brief_edit_law()
    ensures { (words : List (List ℕ)) (told : List ℕ → Option (List ℕ))
        (text script : List ℕ) (job : Job) →
        AsksFor words job → job.brief ≡ true → job.task ≡ Edit script →
        Due words told statuses.Done text →
        (bytes says : List ℕ) × MayHold told job.instance bytes × MayHold told script says
        × IsBriefScript job bytes says text }
{}
