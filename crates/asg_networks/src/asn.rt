//! Asn files.

ghost use Rattle.std.specs.Prelude.{◌≡◌, ◌≤◌, ◌∷◌, [], length, map, IfOk, IfErr, IfSome, IfNone};
ghost use Rattle.std.specs.Str.Lines.{lines};
ghost use Rattle.asg_model.specs.Limits.{longest_file};
ghost use Rattle.asg_networks.specs.AsnArcs.{reading_of_asn};
ghost use Rattle.asg_networks.specs.AsnLines.{line_of, IsLineInRange};
ghost use Rattle.asg_tokens.specs.Readings.{Spells, TellsOf};

use crate::arc_lines::{Said, arc_line};
use crate::asn_lines::read_line;
use crate::network::Network;
use asg_model::Instance;
use asg_tokens::{TextRefusal, first_line};
use std::alloc::Global;

/// The instance that an asn file spells.
pub fn read_asn(alloc: Global, text: &[u8]) -> Result<Instance, TextRefusal>
    requires { length text.now ≤ longest_file }
    ensures instance { IfOk result (λ inst.
        reading_of_asn (map line_of (lines text.now)) ≡ Spells inst) }
    ensures refused { IfErr result (TellsOf (reading_of_asn (map line_of (lines text.now)))) }
{
    let mut network = Network::new(alloc)?;
    let mut rest = text;
    let mut number = 0;
    while let Some(first) = first_said(rest) {
        number += 1;
        network.take(alloc, first.line, number)?;
        rest = first.rest;
    }
    network.instance(alloc)
}

// What the first line of a text says, and the text behind it; `None` where the text has none.
#[inline]
fn first_said<'a>(text: &'a [u8]) -> Option<Said<'a>>
    ensures says { IfSome result (λ said. map line_of (lines text.now)
        ≡ said.line ∷ map line_of (lines said.rest.now)) }
    ensures in_range { IfSome result (λ said. IsLineInRange said.line) }
    ensures none { IfNone result (lines text.now ≡ []) }
{
    match arc_line(text) {
        Some(said) => Some(said),
        None => first_said_of_any(text),
    }
}

// The same, for every line that a text may begin with.
fn first_said_of_any<'a>(text: &'a [u8]) -> Option<Said<'a>>
    ensures says { IfSome result (λ said. map line_of (lines text.now)
        ≡ said.line ∷ map line_of (lines said.rest.now)) }
    ensures in_range { IfSome result (λ said. IsLineInRange said.line) }
    ensures none { IfNone result (lines text.now ≡ []) }
{
    let first = first_line(text)?;
    Some(Said {
        line: read_line(first.bytes),
        rest: first.rest,
    })
}
