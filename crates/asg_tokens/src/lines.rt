//! The lines of a text.

ghost use Rattle.std.specs.Prelude.{◌≡◌, ◌==◌, ◌∷◌, [], IfSome, IfNone};
ghost use Rattle.std.specs.List.{position_or_len};
ghost use Rattle.std.specs.Str.Lines.{lines, strip_carriage_return};

use crate::pieces::Piece;

/// The first line of a text, without its end, and the text behind it; `None` where the text has
/// none. A line ends at LF or at the end of the text, and a CR before the LF belongs to its end.
pub fn first_line<'a>(text: &'a [u8]) -> Option<Piece<'a>>
    ensures first { IfSome result (λ line. lines text.now ≡ line.bytes.now ∷ lines line.rest.now) }
    ensures none { IfNone result (lines text.now ≡ []) }
{
    if text.is_empty() {
        return None;
    }
    let len = len_before_end(text);
    if len == text.len() {
        let rest = &text[len..];
        return Some(Piece { bytes: text, rest });
    }
    Some(Piece {
        bytes: without_return(&text[..len]),
        rest: &text[len + 1..],
    })
}

// How many bytes stand before the first LF.
fn len_before_end(text: &[u8]) -> usize
    ensures { result ≡ position_or_len (λ byte. byte == 10) text.now }
{
    text.iter().take_while(|byte| **byte != b'\n').count()
}

// The line without the CR at its end.
fn without_return<'a>(line: &'a [u8]) -> &'a [u8]
    ensures { result.now ≡ strip_carriage_return line.now }
{
    match line {
        [front @ .., b'\r'] => front,
        _ => line,
    }
}
