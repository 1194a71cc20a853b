//! The fields of a line.

ghost use Rattle.std.specs.Prelude.{◌≡◌, ◌==◌, bytes_eq, length};
ghost use Rattle.asg_tokens.specs.Pieces.{fields};

use crate::pieces::{Separators, first_piece};

/// Whether the field is the word.
pub fn is_word(field: &[u8], word: &[u8]) -> bool
    ensures { result ≡ bytes_eq field.now word.now }
{
    field == word
}

/// Whether no field is left.
pub fn is_at_end(text: &[u8]) -> bool
    ensures { result ≡ (length (fields text.now) == 0) }
{
    first_piece(text, Separators::Blanks).is_none()
}
