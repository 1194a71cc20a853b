//! What the lines of an asn file say.

ghost use Rattle.std.specs.Prelude.{◌≡◌};
ghost use Rattle.asg_networks.specs.AsnLines.{sizes_of, node_of, arc_of, line_of, IsLineInRange};
ghost use Rattle.asg_tokens.specs.Pieces.{fields};

use asg_tokens::{Separators, first_piece, integer, is_at_end, is_word, size};

/// The sizes that a problem line states.
#[derive(Clone, Copy, PartialEq, Eq)]
pub(crate) struct Sizes {
    pub(crate) nodes: u32,
    pub(crate) arcs: u32,
}

/// An arc, with its cost where that is in range.
#[derive(Clone, Copy, PartialEq, Eq)]
pub(crate) struct Arc {
    pub(crate) source: u32,
    pub(crate) target: u32,
    pub(crate) cost: Option<i64>,
}

/// What a line says; `None` where its first field is that of the form, and the others aren't.
#[derive(Clone, Copy, PartialEq, Eq)]
pub(crate) enum Line {
    /// Nothing: it has no field, or is a comment.
    Empty,
    /// `p asn NODES ARCS`
    Header(Option<Sizes>),
    /// `n ID`
    Node(Option<u32>),
    /// `a SRC DST COST`
    Arrow(Option<Arc>),
    /// Nothing that a line may say.
    Other,
}

/// What a line says.
#[tactic(auto, unfolding(crate::specs::AsnLines::line_of))]
pub(crate) fn read_line(text: &[u8]) -> Line
    ensures says { result ≡ line_of text.now }
    ensures in_range { IsLineInRange result }
{
    let Some(first) = first_piece(text, Separators::Blanks) else {
        return Line::Empty;
    };
    if first.bytes.first() == Some(&b'c') {
        Line::Empty
    } else if is_word(first.bytes, b"p") {
        Line::Header(read_sizes(first.rest))
    } else if is_word(first.bytes, b"n") {
        Line::Node(read_node(first.rest))
    } else if is_word(first.bytes, b"a") {
        Line::Arrow(read_arc(first.rest))
    } else {
        Line::Other
    }
}

// The sizes of a problem line, from its second field on.
fn read_sizes(text: &[u8]) -> Option<Sizes>
    ensures { result ≡ sizes_of (fields text.now) }
{
    let word = first_piece(text, Separators::Blanks)?;
    let nodes = first_piece(word.rest, Separators::Blanks)?;
    let arcs = first_piece(nodes.rest, Separators::Blanks)?;
    if !is_at_end(arcs.rest) {
        return None;
    }
    if !is_word(word.bytes, b"asn") {
        return None;
    }
    let nodes = size(nodes.bytes)?;
    let arcs = size(arcs.bytes)?;
    Some(Sizes { nodes, arcs })
}

// The node of a node line, from its second field on.
fn read_node(text: &[u8]) -> Option<u32>
    ensures { result ≡ node_of (fields text.now) }
{
    let id = first_piece(text, Separators::Blanks)?;
    if is_at_end(id.rest) {
        size(id.bytes)
    } else {
        None
    }
}

// The arc of an arc line, from its second field on.
fn read_arc(text: &[u8]) -> Option<Arc>
    ensures { result ≡ arc_of (fields text.now) }
{
    let source = first_piece(text, Separators::Blanks)?;
    let target = first_piece(source.rest, Separators::Blanks)?;
    let cost = first_piece(target.rest, Separators::Blanks)?;
    if !is_at_end(cost.rest) {
        return None;
    }
    let source = size(source.bytes)?;
    let target = size(target.bytes)?;
    let cost = integer(cost.bytes)?;
    Some(Arc {
        source,
        target,
        cost,
    })
}
