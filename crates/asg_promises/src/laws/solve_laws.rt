//! Laws of requests to solve.

ghost use Rattle.std.specs.Prelude.{◌≡◌, ◌≤◌, ◌⊎◌, ℕ, List, [], ◌∷◌, Option, Some, false, length};
ghost use Rattle.asg_model.specs.Limits.{longest_file};
ghost use Rattle.asg_model.specs.Problem.{Problem};
ghost use Rattle.asg_model.specs.ValidChoice.{IsValid};
ghost use Rattle.asg_check.specs.declared.document_forms.Form.{Form};
ghost use Rattle.asg_check.specs.declared.document_forms.Form.TheVariants as forms;
ghost use Rattle.asg_words.specs.declared.requests.Job.{Job};
ghost use Rattle.asg_words.specs.declared.requests.Task.TheVariants.{Solve};
ghost use Rattle.asg_answers.specs.declared.status.Status.{Status as Ended};
ghost use Rattle.asg_answers.specs.declared.status.Status.TheVariants as statuses;
ghost use Rattle.asg_answers.specs.SolverLimits.{SolverRefuses, SolverTakes, limit_number};
ghost use Rattle.asg_promises.specs.Due.{Due, TellsShort};
ghost use Rattle.asg_promises.specs.Sources.{MayHold};
ghost use Rattle.asg_promises.specs.InstanceFile.{Holds, instance_in};
ghost use Rattle.asg_promises.specs.Promised.{HasShortProofs, IsSolved, IsUnsolvable};
ghost use Rattle.asg_promises.specs.Requests.{AsksFor};
ghost use Rattle.asg_answers.specs.Texts.{refused_instance_text};

use super::instance_law;
use asg_values::laws::hall_rows_law;

/// A request to solve ends with the status 0, 1, 3 or 10, unless a fault or want of memory cuts it
/// short. Where the file is told, isn't too long and holds an instance, it is 3 where the
/// objective's solver refuses it, with 16 and the number of different costs for `balanced`, 17 and
/// that of the rows for `lex`; else 0 where a choice is valid, and 1 where none is.
pub fn solve_law()
    ensures statuses { (words : List (List ℕ)) (told : List ℕ → Option (List ℕ))
        (status : Ended) (text : List ℕ) (job : Job) →
        AsksFor words job → job.task ≡ Solve → Due words told status text →
        (status ≡ statuses.Done) ⊎ ((status ≡ statuses.Nothing)
        ⊎ ((status ≡ statuses.Instance) ⊎ (status ≡ statuses.TooLong))) }
    ensures valid { (words : List (List ℕ)) (told : List ℕ → Option (List ℕ))
        (status : Ended) (text bytes : List ℕ) (job : Job) (X : Problem)
        (choice : List (Option ℕ)) →
        TellsShort words told → AsksFor words job → job.task ≡ Solve →
        told job.instance ≡ Some bytes → instance_in job bytes ≡ Holds X →
        SolverTakes job.objective X → IsValid X choice →
        Due words told status text → status ≡ statuses.Done }
    ensures nothing { (words : List (List ℕ)) (told : List ℕ → Option (List ℕ))
        (status : Ended) (text bytes : List ℕ) (job : Job) (X : Problem) →
        TellsShort words told → AsksFor words job → job.task ≡ Solve →
        told job.instance ≡ Some bytes → instance_in job bytes ≡ Holds X →
        SolverTakes job.objective X → ((choice : List (Option ℕ)) → ¬ IsValid X choice) →
        Due words told status text → status ≡ statuses.Nothing }
    ensures too_large { (words : List (List ℕ)) (told : List ℕ → Option (List ℕ))
        (status : Ended) (text bytes : List ℕ) (job : Job) (X : Problem) (count : ℕ) →
        TellsShort words told → AsksFor words job → job.task ≡ Solve →
        told job.instance ≡ Some bytes → instance_in job bytes ≡ Holds X →
        SolverRefuses job.objective X count → Due words told status text →
        (status ≡ statuses.Instance) × (text ≡ refused_instance_text
        (limit_number job.objective ∷ count ∷ [])) }
{}

/// For a request to solve that isn't brief, status 0 is due only with the text of a document that
/// solves the file's instance: it certifies, it claims a best choice with its value and cells, and
/// its proof is a Hall set of the cells strictly better for the two bottleneck objectives, windows
/// of costs for `balanced`, levels of at most 200 phases of one step in all for `lex`, and for the
/// others at most as many phases as the side of the instance's square, each of at most as many
/// steps. Status 1 is due only with the text of a document that certifies with a Hall set of the
/// instance, so that no choice is valid. This text, whichever the form, and that for a bottleneck
/// objective or for `lex`, is no longer than the longest file that is read.
pub fn solved_law()
    ensures solved { (words : List (List ℕ)) (told : List ℕ → Option (List ℕ))
        (text : List ℕ) (job : Job) →
        AsksFor words job → job.brief ≡ false → job.task ≡ Solve →
        Due words told statuses.Done text →
        (bytes : List ℕ) × MayHold told job.instance bytes × IsSolved job bytes text }
    ensures unsolvable { (words : List (List ℕ)) (told : List ℕ → Option (List ℕ))
        (text : List ℕ) (job : Job) →
        AsksFor words job → job.brief ≡ false → job.task ≡ Solve →
        Due words told statuses.Nothing text →
        (bytes : List ℕ) × MayHold told job.instance bytes
        × IsUnsolvable job forms.Solve bytes text }
    ensures within { (job : Job) (form : Form) (bytes text : List ℕ) →
        (HasShortProofs job.objective × IsSolved job bytes text)
        ⊎ IsUnsolvable job form bytes text →
        length text ≤ longest_file }
{
    hall_rows_law();
    instance_law();
}
