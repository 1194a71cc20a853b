//! Laws of requests to rank.

ghost use Rattle.std.specs.Prelude.{◌≡◌, ◌<◌, ◌≤◌, ◌⊎◌, ℕ, List, [], ◌∷◌, Option, Some, None, false, length};
ghost use Rattle.asg_model.specs.Limits.{longest_file};
ghost use Rattle.asg_model.specs.Problem.{Problem};
ghost use Rattle.asg_model.specs.ValidChoice.{IsValid};
ghost use Rattle.asg_check.specs.declared.document_forms.Form.TheVariants as forms;
ghost use Rattle.asg_rank.specs.Rankings.{ranking_work};
ghost use Rattle.asg_rank.specs.Rooms.{most_work};
ghost use Rattle.asg_words.specs.declared.requests.Job.{Job};
ghost use Rattle.asg_words.specs.declared.requests.Task.TheVariants.{Rank, Check};
ghost use Rattle.asg_answers.specs.declared.status.Status.{Status as Ended};
ghost use Rattle.asg_answers.specs.declared.status.Status.TheVariants as statuses;
ghost use Rattle.asg_promises.specs.Due.{Due, TellsShort};
ghost use Rattle.asg_promises.specs.Sources.{MayHold};
ghost use Rattle.asg_promises.specs.InstanceFile.{Holds, instance_in};
ghost use Rattle.asg_promises.specs.Promised.{AskAlike, IsCertified, IsRanked, IsUnsolvable};
ghost use Rattle.asg_promises.specs.Requests.{AsksFor};
ghost use Rattle.asg_answers.specs.Texts.{refused_instance_text, yes_text};

use super::instance_law;
use super::solve_laws::solved_law;

/// A request to rank ends with the status 0, 1, 3 or 10, unless a fault or want of memory cuts it
/// short. Where the file is told, isn't too long and holds an instance, it is 3 where the count
/// times the rows times the side is above 4,000,000, with 18 and this number; else 0 where a choice
/// is valid, and 1 where none is.
pub fn rank_law()
    ensures statuses { (words : List (List ℕ)) (told : List ℕ → Option (List ℕ))
        (status : Ended) (text : List ℕ) (count : ℕ) (job : Job) →
        AsksFor words job → job.task ≡ Rank count → Due words told status text →
        (status ≡ statuses.Done) ⊎ ((status ≡ statuses.Nothing)
        ⊎ ((status ≡ statuses.Instance) ⊎ (status ≡ statuses.TooLong))) }
    ensures valid { (words : List (List ℕ)) (told : List ℕ → Option (List ℕ))
        (status : Ended) (text bytes : List ℕ) (count : ℕ) (job : Job) (X : Problem)
        (choice : List (Option ℕ)) →
        TellsShort words told → AsksFor words job → job.task ≡ Rank count →
        told job.instance ≡ Some bytes → instance_in job bytes ≡ Holds X →
        ranking_work X count ≤ most_work → IsValid X choice →
        Due words told status text → status ≡ statuses.Done }
    ensures nothing { (words : List (List ℕ)) (told : List ℕ → Option (List ℕ))
        (status : Ended) (text bytes : List ℕ) (count : ℕ) (job : Job) (X : Problem) →
        TellsShort words told → AsksFor words job → job.task ≡ Rank count →
        told job.instance ≡ Some bytes → instance_in job bytes ≡ Holds X →
        ranking_work X count ≤ most_work → ((choice : List (Option ℕ)) → ¬ IsValid X choice) →
        Due words told status text → status ≡ statuses.Nothing }
    ensures too_much { (words : List (List ℕ)) (told : List ℕ → Option (List ℕ))
        (status : Ended) (text bytes : List ℕ) (count : ℕ) (job : Job) (X : Problem) →
        TellsShort words told → AsksFor words job → job.task ≡ Rank count →
        told job.instance ≡ Some bytes → instance_in job bytes ≡ Holds X →
        most_work < ranking_work X count → Due words told status text →
        (status ≡ statuses.Instance)
        × (text ≡ refused_instance_text (18 ∷ ranking_work X count ∷ [])) }
{}

/// For a request to rank that isn't brief, status 0 is due only with the text of a document that
/// ranks the choices of the file's instance: it certifies, it claims a ranking of as many choices
/// as were asked for, or of all valid ones where they are fewer, with the values and the cells of
/// these, and in its tree every node but the root has at most one phase of its own, of at most as
/// many steps as the side of the instance's square. Status 1 is due only with the text of a
/// document that certifies with a Hall set of the instance, so that no choice is valid.
pub fn ranked_law()
    ensures ranked { (words : List (List ℕ)) (told : List ℕ → Option (List ℕ))
        (text : List ℕ) (count : ℕ) (job : Job) →
        AsksFor words job → job.brief ≡ false → job.task ≡ Rank count →
        Due words told statuses.Done text →
        (bytes : List ℕ) × MayHold told job.instance bytes × IsRanked job count bytes text }
    ensures unrankable { (words : List (List ℕ)) (told : List ℕ → Option (List ℕ))
        (text : List ℕ) (count : ℕ) (job : Job) →
        AsksFor words job → job.brief ≡ false → job.task ≡ Rank count →
        Due words told statuses.Nothing text →
        (bytes : List ℕ) × MayHold told job.instance bytes
        × IsUnsolvable job (forms.Rank count) bytes text }
{
    instance_law();
}

/// What a request to rank that isn't brief writes certifies, with status 0 as with status 1, for
/// each job that asks alike. Where a request to check with the same count that asks alike names the
/// same instance's file, and as the answer a file with what was written, status 0 is due, and the
/// text `yes 1`: for rankings provided that what was written is no longer than the longest file
/// that is read; a text with status 1 never is.
pub fn accepted_ranking_law()
    ensures ranked { (job other : Job) (count : ℕ) (bytes text : List ℕ) →
        AskAlike job other → IsRanked job count bytes text →
        IsCertified other (forms.Rank count) bytes text }
    ensures unrankable { (job other : Job) (count : ℕ) (bytes text : List ℕ) →
        AskAlike job other → IsUnsolvable job (forms.Rank count) bytes text →
        IsCertified other (forms.Rank count) bytes text }
    ensures accepted { (ranking checking : List (List ℕ)) (told later : List ℕ → Option (List ℕ))
        (status : Ended) (text answer : List ℕ) (count : ℕ) (rank check : Job) →
        AsksFor ranking rank → rank.brief ≡ false → rank.task ≡ Rank count →
        (status ≡ statuses.Done) ⊎ (status ≡ statuses.Nothing) → Due ranking told status text →
        AsksFor checking check → check.task ≡ Check answer None (Some count) →
        AskAlike rank check →
        (length text ≤ longest_file) ⊎ (status ≡ statuses.Nothing) →
        later check.instance ≡ told rank.instance → later answer ≡ Some text →
        Due checking later statuses.Done (yes_text 1) }
{
    solved_law();
    instance_law();
}
