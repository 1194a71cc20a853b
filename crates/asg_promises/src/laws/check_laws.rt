//! Laws of requests to check.

ghost use Rattle.std.specs.Prelude.{◌≡◌, ◌≤◌, ◌⊎◌, ℕ, List, Option, Some, None, false, length};
ghost use Rattle.asg_model.specs.Limits.{longest_file};
ghost use Rattle.asg_model.specs.Problem.{Problem};
ghost use Rattle.asg_doc.specs.declared.documents.Document.{Document as Answered};
ghost use Rattle.asg_doc.specs.HasText.{HasText};
ghost use Rattle.asg_doc.specs.Text.{text_of};
ghost use Rattle.asg_check.specs.declared.document_forms.Form.TheVariants as forms;
ghost use Rattle.asg_words.specs.declared.requests.Job.{Job};
ghost use Rattle.asg_words.specs.declared.requests.Task.TheVariants.{Solve, Check};
ghost use Rattle.asg_answers.specs.declared.status.Status.{Status as Ended};
ghost use Rattle.asg_answers.specs.declared.status.Status.TheVariants as statuses;
ghost use Rattle.asg_promises.specs.Due.{Due, TellsShort};
ghost use Rattle.asg_promises.specs.DueToCheck.{form_asked};
ghost use Rattle.asg_promises.specs.Sources.{MayHold};
ghost use Rattle.asg_promises.specs.InstanceFile.{Holds, instance_in};
ghost use Rattle.asg_promises.specs.Promised.{AskAlike, IsSolved, IsUnsolvable, IsCertified};
ghost use Rattle.asg_promises.specs.Promised.{IsNeverLong};
ghost use Rattle.asg_promises.specs.Promised.{IsDenied, IsNotOne, IsUnread, IsVerdict};
ghost use Rattle.asg_promises.specs.Requests.{AsksFor};
ghost use Rattle.asg_answers.specs.Texts.{yes_text};

use super::instance_law;
use super::solve_laws::solved_law;
use asg_doc_reader::unique_reading;

/// A request to check ends with the status 0, 3, 5, 6 or 10, unless a fault or want of memory cuts
/// it short. Where the files are told, none is too long and the first holds an instance, it is 5
/// where the answer's file isn't the text of one document, else 0 where that certifies, and 6 where
/// it doesn't. Where the request has a count, the document is to be a ranking of so many choices.
pub fn check_law()
    ensures statuses { (words : List (List ℕ)) (told : List ℕ → Option (List ℕ))
        (status : Ended) (text answer : List ℕ) (count : Option ℕ) (job : Job) →
        AsksFor words job → job.task ≡ Check answer None count → Due words told status text →
        (status ≡ statuses.Done) ⊎ ((status ≡ statuses.Instance) ⊎ ((status ≡ statuses.Document)
        ⊎ ((status ≡ statuses.No) ⊎ (status ≡ statuses.TooLong)))) }
    ensures unread { (words : List (List ℕ)) (told : List ℕ → Option (List ℕ))
        (status : Ended) (text answer bytes spoken : List ℕ) (count : Option ℕ) (job : Job)
        (X : Problem) →
        TellsShort words told → AsksFor words job → job.task ≡ Check answer None count →
        told job.instance ≡ Some bytes → told answer ≡ Some spoken →
        instance_in job bytes ≡ Holds X → IsNotOne spoken →
        Due words told status text → status ≡ statuses.Document }
    ensures judged { (words : List (List ℕ)) (told : List ℕ → Option (List ℕ))
        (status : Ended) (text answer bytes : List ℕ) (count : Option ℕ) (job : Job) (X : Problem)
        (document : Answered) →
        TellsShort words told → AsksFor words job → job.task ≡ Check answer None count →
        told job.instance ≡ Some bytes → told answer ≡ Some (text_of document) →
        instance_in job bytes ≡ Holds X → HasText document →
        Due words told status text → IsVerdict job (form_asked count) X document status }
{
    unique_reading();
}

/// For a request to check, status 0 is due only with `yes 1`, and only where the answer's file is
/// the text of one document, which certifies for the file's instance; what it claims is then true.
pub fn checked_law()
    ensures { (words : List (List ℕ)) (told : List ℕ → Option (List ℕ))
        (text answer : List ℕ) (count : Option ℕ) (job : Job) →
        AsksFor words job → job.task ≡ Check answer None count →
        Due words told statuses.Done text →
        (bytes spoken : List ℕ) × MayHold told job.instance bytes × MayHold told answer spoken
        × IsCertified job (form_asked count) bytes spoken × (text ≡ yes_text 1) }
{
    instance_law();
}

/// For a request to check, status 6 is due only where the answer's file is the text of one document
/// that doesn't certify, with the first reason against it and the place.
pub fn denied_law()
    ensures { (words : List (List ℕ)) (told : List ℕ → Option (List ℕ))
        (text answer : List ℕ) (count : Option ℕ) (job : Job) →
        AsksFor words job → job.task ≡ Check answer None count →
        Due words told statuses.No text →
        (bytes spoken : List ℕ) × MayHold told job.instance bytes × MayHold told answer spoken
        × IsDenied job (form_asked count) bytes spoken text }
{}

/// For a request to check, status 5 is due only where its first file holds an instance and the
/// answer's file isn't the text of one document, with the refused line, or 0 where it is the text
/// of none or of several.
pub fn unread_law()
    ensures { (words : List (List ℕ)) (told : List ℕ → Option (List ℕ))
        (text answer : List ℕ) (count : Option ℕ) (job : Job) →
        AsksFor words job → job.task ≡ Check answer None count →
        Due words told statuses.Document text →
        (bytes spoken : List ℕ) × MayHold told job.instance bytes × MayHold told answer spoken
        × (X : Problem) × (instance_in job bytes ≡ Holds X) × IsUnread spoken text }
{}

/// What a request to solve that isn't brief writes certifies, with status 0 as with status 1, for
/// each job that asks alike. Where a request to check that asks alike names the same instance's
/// file, and as the answer a file with what was written, status 0 is due, and the text `yes 1`: for
/// phases and windows provided that what was written is no longer than the longest file that is
/// read; a text with status 1, or for a bottleneck objective or `lex`, never is.
pub fn accepted_law()
    ensures solved { (job other : Job) (bytes text : List ℕ) →
        AskAlike job other → IsSolved job bytes text → IsCertified other forms.Solve bytes text }
    ensures unsolvable { (job other : Job) (bytes text : List ℕ) →
        AskAlike job other → IsUnsolvable job forms.Solve bytes text →
        IsCertified other forms.Solve bytes text }
    ensures accepted { (solving checking : List (List ℕ)) (told later : List ℕ → Option (List ℕ))
        (status : Ended) (text answer : List ℕ) (solve check : Job) →
        AsksFor solving solve → solve.brief ≡ false → solve.task ≡ Solve →
        (status ≡ statuses.Done) ⊎ (status ≡ statuses.Nothing) → Due solving told status text →
        AsksFor checking check → check.task ≡ Check answer None None → AskAlike solve check →
        (length text ≤ longest_file) ⊎ IsNeverLong solve status →
        later check.instance ≡ told solve.instance → later answer ≡ Some text →
        Due checking later statuses.Done (yes_text 1) }
{
    solved_law();
    instance_law();
}
