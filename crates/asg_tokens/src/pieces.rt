//! The pieces of a text: the fields of a line, and the tokens of a file.

ghost use Rattle.std.specs.Prelude.{◌≡◌, ◌∷◌, [], IfSome, IfNone, length, drop, not};
ghost use Rattle.std.specs.List.{prefix_len};
ghost use Rattle.asg_tokens.specs.Pieces.{pieces};
ghost use Rattle.asg_tokens.specs.Separators.{separates};

/// What separates the pieces of a text.
#[derive(Clone, Copy)]
pub enum Separators {
    /// Space and tab, between the fields of a line.
    Blanks,
    /// Space, tab, CR and LF, between the tokens of a file.
    Spaces,
}

impl Separators {
    /// Whether the byte is a separator.
    #[inline]
    pub(crate) fn has(self, byte: u8) -> bool
        ensures { result ≡ separates self byte }
    {
        match self {
            Separators::Blanks => matches!(byte, b' ' | b'\t'),
            Separators::Spaces => matches!(byte, b' ' | b'\t' | b'\r' | b'\n'),
        }
    }

    /// The text behind the separators that it begins with.
    #[inline]
    pub(crate) fn skip<'a>(self, text: &'a [u8]) -> &'a [u8]
        ensures same { pieces (separates self) result.now ≡ pieces (separates self) text.now }
        ensures from { result.now ≡ drop (prefix_len (separates self) text.now) text.now }
    {
        let (_, rest) = text.split_at(self.count_in_front(text));
        rest
    }

    // How many separators the text begins with.
    fn count_in_front(self, text: &[u8]) -> usize
        ensures { result ≡ prefix_len (separates self) text.now }
    {
        text.iter().take_while(|byte| self.has(**byte)).count()
    }

    // How many bytes the text has before its first separator.
    fn len_before(self, text: &[u8]) -> usize
        ensures { result ≡ prefix_len (λ byte. not (separates self byte)) text.now }
    {
        text.iter().take_while(|byte| !self.has(**byte)).count()
    }
}

/// The first piece of a text, and the text behind it.
#[derive(Clone, Copy)]
pub struct Piece<'a> {
    pub bytes: &'a [u8],
    pub rest: &'a [u8],
}

/// The first piece of a text; `None` where it has none.
pub fn first_piece<'a>(text: &'a [u8], separators: Separators) -> Option<Piece<'a>>
    ensures first { IfSome result (λ first. pieces (separates separators) text.now
        ≡ first.bytes.now ∷ pieces (separates separators) first.rest.now) }
    ensures none { IfNone result (pieces (separates separators) text.now ≡ []) }
{
    let from_piece = separators.skip(text);
    let (bytes, rest) = from_piece.split_at(separators.len_before(from_piece));
    if bytes.is_empty() {
        None
    } else {
        Some(Piece { bytes, rest })
    }
}

/// The number of pieces of a text.
pub(crate) fn count_pieces(text: &[u8], separators: Separators) -> usize
    ensures { result ≡ length (pieces (separates separators) text.now) }
{
    let mut count = 0;
    let mut rest = text;
    while let Some(piece) = first_piece(rest, separators) {
        count += 1;
        rest = piece.rest;
    }
    count
}
