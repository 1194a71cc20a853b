//! Laws of requests to edit, and to check what they write.

ghost use Rattle.std.specs.Prelude.{◌≡◌, ◌≤◌, ◌⊎◌, ℕ, List, Option, Some, None, false, length};
ghost use Rattle.asg_model.specs.Limits.{longest_file};
ghost use Rattle.asg_model.specs.Problem.{Problem};
ghost use Rattle.asg_doc.specs.declared.documents.Document.{Document as Answered};
ghost use Rattle.asg_doc_reader.specs.RefusedLine.{AllHaveText};
ghost use Rattle.asg_doc.specs.Text.{texts_of};
ghost use Rattle.asg_words.specs.declared.requests.Job.{Job};
ghost use Rattle.asg_words.specs.declared.requests.Task.TheVariants.{Edit, Check};
ghost use Rattle.asg_text.specs.TriedScripts.{HoldsLines, RefusesLines, script_in, solved_instances};
ghost use Rattle.asg_text.specs.declared.script_lines.Line.{Line};
ghost use Rattle.asg_answers.specs.declared.status.Status.{Status as Ended};
ghost use Rattle.asg_answers.specs.declared.status.Status.TheVariants as statuses;
ghost use Rattle.asg_promises.specs.Due.{Due, TellsShort};
ghost use Rattle.asg_promises.specs.Sources.{MayHold};
ghost use Rattle.asg_promises.specs.InstanceFile.{Holds, instance_in};
ghost use Rattle.asg_promises.specs.Promised.{AreCertified, AskAlike, IsEdited, AreJudged, AreNotSoMany};
ghost use Rattle.asg_promises.specs.Requests.{AsksFor};
ghost use Rattle.asg_answers.specs.Texts.{refused_script_text, yes_text};

use asg_doc_reader::unique_reading;

/// A request to edit ends with the status 0, 3, 4 or 10, unless a fault or want of memory cuts it
/// short. Where the files are told, none is too long and the first holds an instance, it is 4 where
/// the script is refused, by its text or by an edit, with the number and the line; else 0.
pub fn edit_law()
    ensures statuses { (words : List (List ℕ)) (told : List ℕ → Option (List ℕ))
        (status : Ended) (text script : List ℕ) (job : Job) →
        AsksFor words job → job.task ≡ Edit script → Due words told status text →
        (status ≡ statuses.Done) ⊎ ((status ≡ statuses.Instance)
        ⊎ ((status ≡ statuses.Script) ⊎ (status ≡ statuses.TooLong))) }
    ensures refused { (words : List (List ℕ)) (told : List ℕ → Option (List ℕ))
        (status : Ended) (text script bytes says numbers : List ℕ) (job : Job) (X : Problem) →
        TellsShort words told → AsksFor words job → job.task ≡ Edit script →
        told job.instance ≡ Some bytes → told script ≡ Some says →
        instance_in job bytes ≡ Holds X → script_in job.objective X says ≡ RefusesLines numbers →
        Due words told status text →
        (status ≡ statuses.Script) × (text ≡ refused_script_text numbers) }
    ensures followed { (words : List (List ℕ)) (told : List ℕ → Option (List ℕ))
        (status : Ended) (text script bytes says : List ℕ) (job : Job) (X : Problem)
        (lines : List (ℕ × Line)) →
        TellsShort words told → AsksFor words job → job.task ≡ Edit script →
        told job.instance ≡ Some bytes → told script ≡ Some says →
        instance_in job bytes ≡ Holds X → script_in job.objective X says ≡ HoldsLines lines →
        Due words told status text → status ≡ statuses.Done }
{}

/// For a request to edit that isn't brief, status 0 is due only with the texts of documents, one
/// for each `solve` line of the script: each certifies for the instance as edited then, and claims
/// truly a best choice of it, or that none is valid; and its phases go on from those that the edits
/// since the document before have kept of that one's.
pub fn edited_documents_law()
    ensures { (words : List (List ℕ)) (told : List ℕ → Option (List ℕ))
        (text script : List ℕ) (job : Job) →
        AsksFor words job → job.brief ≡ false → job.task ≡ Edit script →
        Due words told statuses.Done text →
        (bytes says : List ℕ) × MayHold told job.instance bytes × MayHold told script says
        × IsEdited job bytes says text }
{}

/// For a request to check with a script, status 0 is due only where the answer's file is the text
/// of as many documents as the script has `solve` lines, each of which certifies for the instance
/// as edited then; what each claims is then true. The text is `yes` and their number.
pub fn certified_documents_law()
    ensures { (words : List (List ℕ)) (told : List ℕ → Option (List ℕ))
        (text script answer : List ℕ) (job : Job) →
        AsksFor words job → job.task ≡ Check answer (Some script) None →
        Due words told statuses.Done text →
        (bytes says spoken : List ℕ) × MayHold told job.instance bytes × MayHold told script says
        × MayHold told answer spoken × (certified : AreCertified job bytes says spoken)
        × (text ≡ yes_text (length certified.documents)) }
{}

/// A request to check with a script ends with the status 0, 3, 4, 5, 6 or 10, unless a fault or
/// want of memory cuts it short. Where the files are told, none is too long and the first holds an
/// instance, it is 4 where the script is refused, by its text or by an edit, with the number and
/// the line; else 5 where the answer's file isn't the text of as many documents as the script has
/// `solve` lines; else 0 where each of these certifies for the instance as edited then, and 6 where
/// one doesn't.
pub fn judge_law()
    ensures statuses { (words : List (List ℕ)) (told : List ℕ → Option (List ℕ))
        (status : Ended) (text script answer : List ℕ) (job : Job) →
        AsksFor words job → job.task ≡ Check answer (Some script) None →
        Due words told status text →
        (status ≡ statuses.Done) ⊎ ((status ≡ statuses.Instance) ⊎ ((status ≡ statuses.Script)
        ⊎ ((status ≡ statuses.Document) ⊎ ((status ≡ statuses.No)
        ⊎ (status ≡ statuses.TooLong))))) }
    ensures refused { (words : List (List ℕ)) (told : List ℕ → Option (List ℕ))
        (status : Ended) (text script answer bytes says numbers : List ℕ) (job : Job)
        (X : Problem) →
        TellsShort words told → AsksFor words job →
        job.task ≡ Check answer (Some script) None →
        told job.instance ≡ Some bytes → told script ≡ Some says →
        instance_in job bytes ≡ Holds X → script_in job.objective X says ≡ RefusesLines numbers →
        Due words told status text →
        (status ≡ statuses.Script) × (text ≡ refused_script_text numbers) }
    ensures unread { (words : List (List ℕ)) (told : List ℕ → Option (List ℕ))
        (status : Ended) (text script answer bytes says spoken : List ℕ) (job : Job) (X : Problem)
        (lines : List (ℕ × Line)) →
        TellsShort words told → AsksFor words job →
        job.task ≡ Check answer (Some script) None →
        told job.instance ≡ Some bytes → told script ≡ Some says → told answer ≡ Some spoken →
        instance_in job bytes ≡ Holds X → script_in job.objective X says ≡ HoldsLines lines →
        AreNotSoMany (length (solved_instances X lines)) spoken →
        Due words told status text → status ≡ statuses.Document }
    ensures judged { (words : List (List ℕ)) (told : List ℕ → Option (List ℕ))
        (status : Ended) (text script answer bytes says : List ℕ) (job : Job) (X : Problem)
        (lines : List (ℕ × Line)) (documents : List Answered) →
        TellsShort words told → AsksFor words job →
        job.task ≡ Check answer (Some script) None →
        told job.instance ≡ Some bytes → told script ≡ Some says →
        told answer ≡ Some (texts_of documents) →
        instance_in job bytes ≡ Holds X → script_in job.objective X says ≡ HoldsLines lines →
        AllHaveText documents → length documents ≡ length (solved_instances X lines) →
        Due words told status text →
        AreJudged job.objective (solved_instances X lines) documents status }
{
    unique_reading();
}

/// What a request to edit that isn't brief writes is the texts of documents, and is accepted by a
/// request to check with the same script that asks alike, where it is no longer than the longest
/// file that is read: status 0 is due, and the text `yes` and the number of these documents.
pub fn accepted_documents_law()
    ensures { (editing checking : List (List ℕ)) (told later : List ℕ → Option (List ℕ))
        (text script says answer : List ℕ) (edit check : Job) →
        AsksFor editing edit → edit.brief ≡ false → edit.task ≡ Edit script →
        Due editing told statuses.Done text →
        AsksFor checking check → check.task ≡ Check answer (Some says) None →
        AskAlike edit check → length text ≤ longest_file →
        later check.instance ≡ told edit.instance → later says ≡ told script →
        later answer ≡ Some text →
        (documents : List Answered) × AllHaveText documents × (text ≡ texts_of documents)
        × Due checking later statuses.Done (yes_text (length documents)) }
{}
