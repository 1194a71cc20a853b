//! Laws over the program's specification: each is the contract of a function that at most calls
//! laws.

ghost use Rattle.std.specs.Prelude.{◌≡◌, ◌↔◌, ◌<◌, ◌≤◌, ℕ, List, [], Option, Some, None, length, true};
ghost use Rattle.std.specs.List.{Contains};
ghost use Rattle.asg_model.specs.declared.objectives.Objective.{Objective};
ghost use Rattle.asg_model.specs.Instances.{IsInstance};
ghost use Rattle.asg_model.specs.Limits.{longest_file, most_side};
ghost use Rattle.asg_model.specs.Problem.{Problem};
ghost use Rattle.asg_model.specs.Refused.{IsFirstRefused, PassesNegative};
ghost use Rattle.asg_model.specs.Shapes.{square_side};
ghost use Rattle.asg_words.specs.declared.requests.Job.{Job};
ghost use Rattle.asg_words.specs.declared.requests.Request.{Request};
ghost use Rattle.asg_answers.specs.declared.status.Status.{Status as Ended};
ghost use Rattle.asg_answers.specs.declared.status.Status.TheVariants.{Usage, Instance, TooLong};
ghost use Rattle.asg_promises.specs.Due.{Due, DueForAsked, Tells, TellsShort};
ghost use Rattle.asg_promises.specs.InstanceFile.{Holds, Refuses, instance_in};
ghost use Rattle.asg_promises.specs.Promised.{IsRefusedInstance};
ghost use Rattle.asg_promises.specs.RefusedCosts.{first_refused};
ghost use Rattle.asg_promises.specs.Requests.{files_of, asked_of, AsksFor};
ghost use Rattle.asg_promises.specs.Sources.{AreShort, MayHold};
ghost use Rattle.asg_answers.specs.Statuses.{HasOneText, IsAnswer};
ghost use Rattle.asg_answers.specs.Texts.{usage_text, refused_instance_text};

use asg_brief::laws::brief_line_law;
use asg_check::laws::one_reason;
use asg_doc_reader::{refused_line, unique_reading};
use asg_model::laws::shape_law;
use asg_words::laws::request_law;

pub mod brief_laws;
pub mod check_laws;
pub mod edit_laws;
pub mod make_laws;
pub mod rank_laws;
pub mod solve_laws;

/// Where the files are told, what is due has one status, and one text with it, but where a document
/// is written, of which there may be several that serve. In brief it has one text whatever the
/// status: the lines are a function of the request and the files.
pub fn due_law()
    ensures status { (words : List (List ℕ)) (told : List ℕ → Option (List ℕ))
        (status other : Ended) (text more : List ℕ) →
        Tells words told → Due words told status text → Due words told other more →
        status ≡ other }
    ensures text { (words : List (List ℕ)) (told : List ℕ → Option (List ℕ))
        (status : Ended) (text more : List ℕ) →
        Tells words told → HasOneText status →
        Due words told status text → Due words told status more → text ≡ more }
    ensures brief { (words : List (List ℕ)) (told : List ℕ → Option (List ℕ))
        (status other : Ended) (text more : List ℕ) (job : Job) →
        Tells words told → AsksFor words job → job.brief ≡ true →
        Due words told status text → Due words told other more → text ≡ more }
{
    brief_line_law();
    one_reason();
    refused_line();
    unique_reading();
}

/// A status that is due is one that a run answers with, and not of a fault or of want of memory.
/// `TooLong` is due for no files that are short enough.
pub fn answer_law()
    ensures answers { (asked : Option Request) (contents : List (List ℕ))
        (status : Ended) (text : List ℕ) →
        DueForAsked asked contents status text → IsAnswer status }
    ensures short { (asked : Option Request) (contents : List (List ℕ)) (text : List ℕ) →
        AreShort contents → ¬ DueForAsked asked contents TooLong text }
{}

/// Whatever bytes the instance's file of a request has, what they hold is an instance: it keeps
/// what each instance keeps, the request's objective refuses none of its live costs, its square
/// isn't too large, and its place rule is that of the request.
pub fn instance_law()
    ensures instance { (words : List (List ℕ)) (bytes : List ℕ) (job : Job) (X : Problem) →
        AsksFor words job → instance_in job bytes ≡ Holds X → IsInstance X }
    ensures passes { (bytes : List ℕ) (job : Job) (X : Problem) →
        instance_in job bytes ≡ Holds X → PassesNegative job.objective X }
    ensures side { (bytes : List ℕ) (job : Job) (X : Problem) →
        instance_in job bytes ≡ Holds X → square_side X ≤ most_side }
    ensures place { (bytes : List ℕ) (job : Job) (X : Problem) →
        instance_in job bytes ≡ Holds X → X.place ≡ job.place }
{
    request_law();
    shape_law();
    asg_text::laws::instance_law();
}

/// The cell that the refusal of a cost names is the first live cell, row by row, whose cost the
/// objective refuses. There is none exactly where the objective refuses no live cost.
pub fn refused_cost_law()
    ensures none { (objective : Objective) (X : Problem) →
        (first_refused objective X ≡ None) ↔ PassesNegative objective X }
    ensures first { (objective : Objective) (X : Problem) (ids : ℕ × ℕ) →
        IsFirstRefused objective X ids → first_refused objective X ≡ Some ids }
{}

/// The usage line is due only for words that are no request.
pub fn usage_law()
    ensures { (words : List (List ℕ)) (told : List ℕ → Option (List ℕ)) (text : List ℕ) →
        Due words told Usage text → (asked_of words ≡ None) × (text ≡ usage_text) }
{}

/// A file is called too long only where the words name one that is longer than the longest that is
/// read.
pub fn too_long_law()
    ensures { (words : List (List ℕ)) (told : List ℕ → Option (List ℕ)) (text : List ℕ) →
        Due words told TooLong text →
        (name bytes : List ℕ) × Contains (files_of (asked_of words)) name × MayHold told name bytes
        × (longest_file < length bytes) × (text ≡ []) }
{}

/// The refusal of an instance is due only where the words are a request whose instance's file is
/// refused, by its text, by the request's options or by a cost that its objective doesn't take, or
/// for a request to solve holds an instance that is too large, with too many different costs for
/// `balanced` or too many rows for `lex`, or for a request to rank one of which so many choices are
/// too much to rank, with the numbers of the refusal.
pub fn refused_law()
    ensures { (words : List (List ℕ)) (told : List ℕ → Option (List ℕ)) (text : List ℕ) →
        Due words told Instance text →
        (job : Job) × (bytes numbers : List ℕ) × AsksFor words job
        × MayHold told job.instance bytes × IsRefusedInstance job bytes numbers
        × (text ≡ refused_instance_text numbers) }
{}

/// Which status is due, where the files are told, before the request's command decides it: `Usage`
/// for words that are no request; `TooLong` where a file is too long, and else `Instance` where the
/// instance's file is refused.
pub fn exact_law()
    ensures usage { (words : List (List ℕ)) (told : List ℕ → Option (List ℕ))
        (status : Ended) (text : List ℕ) →
        asked_of words ≡ None → Due words told status text → status ≡ Usage }
    ensures too_long { (words : List (List ℕ)) (told : List ℕ → Option (List ℕ))
        (status : Ended) (text name bytes : List ℕ) →
        Contains (files_of (asked_of words)) name → told name ≡ Some bytes →
        longest_file < length bytes → Due words told status text → status ≡ TooLong }
    ensures refused { (words : List (List ℕ)) (told : List ℕ → Option (List ℕ))
        (status : Ended) (text bytes numbers : List ℕ) (job : Job) →
        TellsShort words told → AsksFor words job → told job.instance ≡ Some bytes →
        instance_in job bytes ≡ Refuses numbers → Due words told status text → status ≡ Instance }
{}
