//! Laws of requests to make an instance.

ghost use Rattle.std.specs.Prelude.{◌≡◌, ℕ, List, Option, Some};
ghost use Rattle.asg_answers.specs.declared.status.Status.{Status as Ended};
ghost use Rattle.asg_answers.specs.declared.status.Status.TheVariants as statuses;
ghost use Rattle.asg_promises.specs.Due.{Due};
ghost use Rattle.asg_promises.specs.Requests.{asked_of};
ghost use Rattle.asg_text.specs.Formula.{generated_problem};
ghost use Rattle.asg_words.specs.declared.requests.Request.TheVariants.{Make};
ghost use Rattle.asg_text.specs.declared.formats.Format.TheVariants.{Rect};
ghost use Rattle.asg_tokens.specs.Readings.{Spells};
ghost use Rattle.asg_text.specs.RectTexts.{rect_text};
ghost use Rattle.asg_text.specs.Texts.{reading_of};

use asg_text::formula_laws::generated_law;
use asg_text::laws::rect_law;
use asg_words::laws::request_law;

/// For a request to make an instance the status `Done` is due with one text: the rect text of the
/// instance of the formula. It is read as that instance.
pub fn made_law()
    ensures due { (words : List (List ℕ)) (told : List ℕ → Option (List ℕ)) (status : Ended)
        (text : List ℕ) (seed side : ℕ) →
        asked_of words ≡ Some (Make seed side) → Due words told status text →
        (status ≡ statuses.Done) × (text ≡ rect_text (generated_problem seed side)) }
    ensures read { (words : List (List ℕ)) (seed side : ℕ) →
        asked_of words ≡ Some (Make seed side) →
        reading_of Rect (rect_text (generated_problem seed side))
        ≡ Spells (generated_problem seed side) }
{
    generated_law();
    rect_law();
    request_law();
}
