//! Input files.

ghost use Rattle.std.specs.Prelude.{◌≡◌, ◌≤◌, length, IfOk, IfErr};
ghost use Rattle.asg_model.specs.Limits.{longest_file};
ghost use Rattle.asg_tokens.specs.Readings.{Spells, TellsOf};
ghost use Rattle.asg_text.specs.Texts.{reading_of};

use crate::formats::Format;
use asg_model::Instance;
use asg_networks::read_asn;
use asg_tokens::{TextRefusal, read_rect, read_square};
use std::alloc::Global;

/// The instance that an input file spells, or the earliest fault for which it is refused. All rows
/// are active and to be placed, and each column is open for one row. The file has at most
/// 268,435,456 bytes; time and memory grow with its length.
///
/// - `Asn` [DIMACS 1991]: lines of fields, with spaces and tabs between them. A blank line, and one
///   whose first field begins with `c`, is ignored. `p asn NODES ARCS` stands once and first; `n
///   ID` names a source; `a SRC DST COST` goes from a source to a node that is none. The rows are
///   the sources in the order of their first lines, the columns the other nodes ascending, the
///   cells the arcs. An arc may be repeated at the same cost. Faults: `SecondProblemLine`,
///   `BadLine`, `BadNode`, `BadArc`, `CostRange`, `ArcTwice`, with the first line that has one;
///   then `NoProblemLine`, `ArcCount`, `NoRows`, `TooLarge`, in this order.
/// - `Square`, `Rect`: tokens, with spaces, tabs and line ends between them: a size n, or two sizes
///   n and m, and then n * n or n * m cells row by row. A cell is an integer, a pair `a:b` of
///   integers, or `-` for an absent cell. Rows and columns have the ids from 1 on. Faults in their
///   order: `TokenCount` of the header, `BadToken` in it, `NoRows`, `TooLarge`, `BadToken` or
///   `CostRange` at the first cell that has one, `TokenCount` of the cells.
///
/// Sizes and ids are at most 4,294,967,295, costs lie between -10^9 and 10^9, and zeros may lead.
/// `NoMemory` comes where memory ran out.
#[tactic(auto, unfolding(crate::specs::Texts::reading_of))]
pub fn read(alloc: Global, format: Format, bytes: &[u8]) -> Result<Instance, TextRefusal>
    requires { length bytes.now ≤ longest_file }
    ensures instance { IfOk result (λ inst. reading_of format bytes.now ≡ Spells inst) }
    ensures refused { IfErr result (TellsOf (reading_of format bytes.now)) }
{
    match format {
        Format::Square => read_square(alloc, bytes),
        Format::Rect => read_rect(alloc, bytes),
        Format::Asn => read_asn(alloc, bytes),
    }
}
