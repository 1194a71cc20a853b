//! Laws of what texts spell: each is the contract of a function that at most calls
//! a law.

ghost use Rattle.std.specs.Prelude.{◌≡◌, ◌↔◌, ◌≤◌, ℕ, List, length};
ghost use Rattle.asg_text.specs.ScriptRanges.{AreLinesOfScript};
ghost use Rattle.asg_text.specs.Scripts.{SpellsLines, reading_of_script};
ghost use Rattle.asg_text.specs.declared.script_lines.Line.{Line};
ghost use Rattle.asg_model.specs.Instances.{IsInstance};
ghost use Rattle.asg_model.specs.Problem.{Problem};
ghost use Rattle.asg_model.specs.Limits.{longest_file};
ghost use Rattle.asg_tokens.specs.Readings.{Spells};
ghost use Rattle.asg_text.specs.RectTexts.{IsPlain, rect_text};
ghost use Rattle.asg_text.specs.SameCells.{HaveSameCells};
ghost use Rattle.asg_text.specs.Texts.{reading_of};

use crate::formats::Format;
use asg_model::laws::whole_table_law;
use asg_networks::laws::asn_law;

/// A square file and a rect file with the same size and the same cells spell the same instance.
pub fn same_cells_law()
    ensures { (square rect : List ℕ) → HaveSameCells square rect → (X : Problem)
        → (reading_of Format.Square square ≡ Spells X) ↔ (reading_of Format.Rect rect ≡ Spells X) }
{}

/// What a file spells, however long it is, is an instance: it keeps what each instance keeps.
pub fn instance_law()
    ensures { (format : Format) (bytes : List ℕ) (X : Problem) →
        reading_of format bytes ≡ Spells X → IsInstance X }
{
    whole_table_law();
    asn_law();
}

/// What a square or a rect file spells is a plain instance, so that it has a rect text.
pub fn plain_law()
    ensures square { (bytes : List ℕ) (X : Problem) →
        reading_of Format.Square bytes ≡ Spells X → IsPlain X }
    ensures rect { (bytes : List ℕ) (X : Problem) →
        reading_of Format.Rect bytes ≡ Spells X → IsPlain X }
{}

/// The rect text of a plain instance is read as the instance, and is no longer than a file may be.
pub fn rect_law()
    ensures read { (X : Problem) → IsInstance X → IsPlain X →
        reading_of Format.Rect (rect_text X) ≡ Spells X }
    ensures short { (X : Problem) → IsInstance X → IsPlain X → length (rect_text X) ≤ longest_file }
{}

/// What a script spells, however long it is, has at most 10,000 lines, and each cost is in range.
pub fn script_law()
    ensures { (bytes : List ℕ) (script : List (ℕ × Line)) →
        reading_of_script bytes ≡ SpellsLines script → AreLinesOfScript script }
{}
