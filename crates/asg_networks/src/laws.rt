//! The law of what asn files spell: the contract of a function that at most calls a law.

ghost use Rattle.std.specs.Prelude.{◌≡◌, ℕ, List, map};
ghost use Rattle.std.specs.Str.Lines.{lines};
ghost use Rattle.asg_model.specs.Instances.{IsInstance};
ghost use Rattle.asg_model.specs.Problem.{Problem};
ghost use Rattle.asg_networks.specs.AsnArcs.{reading_of_asn};
ghost use Rattle.asg_networks.specs.AsnLines.{line_of};
ghost use Rattle.asg_tokens.specs.Readings.{Spells};

use asg_model::laws::whole_table_law;

/// What an asn file spells, however long it is, is an instance: it keeps what each instance keeps.
pub fn asn_law()
    ensures { (text : List ℕ) (X : Problem) →
        reading_of_asn (map line_of (lines text)) ≡ Spells X → IsInstance X }
{
    whole_table_law();
}
