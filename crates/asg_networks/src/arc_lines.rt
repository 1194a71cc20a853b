//! The common case of a line of an asn file: an arc, its parts short and its fields with one space
//! between them.

ghost use Rattle.std.specs.Prelude.{◌≡◌, ◌∷◌, map, IfSome};
ghost use Rattle.std.specs.Str.Lines.{lines};
ghost use Rattle.asg_networks.specs.AsnLines.{line_of, IsLineInRange};

use crate::asn_lines::{Arc, Line};
use asg_tokens::{behind_byte, short_id, short_integer};

/// What the first line of a text says, and the text behind it.
#[derive(Clone, Copy)]
pub(crate) struct Said<'a> {
    pub(crate) line: Line,
    pub(crate) rest: &'a [u8],
}

/// What the first line of a text says, where it is `a SRC DST COST` with one space between its
/// fields and an LF directly behind them, and each number is short; `None` tells nothing of the
/// text.
#[inline(always)]
pub(crate) fn arc_line<'a>(text: &'a [u8]) -> Option<Said<'a>>
    ensures says { IfSome result (λ said. map line_of (lines text.now)
        ≡ said.line ∷ map line_of (lines said.rest.now)) }
    ensures in_range { IfSome result (λ said. IsLineInRange said.line) }
{
    let from_blank = behind_byte(text, b'a')?;
    let from_source = behind_byte(from_blank, b' ')?;
    let source = short_id(from_source)?;
    let from_target = behind_byte(source.rest, b' ')?;
    let target = short_id(from_target)?;
    let from_cost = behind_byte(target.rest, b' ')?;
    let cost = short_integer(from_cost)?;
    let rest = behind_byte(cost.rest, b'\n')?;
    Some(Said {
        line: Line::Arrow(Some(Arc {
            source: source.id,
            target: target.id,
            cost: Some(cost.value),
        })),
        rest,
    })
}
