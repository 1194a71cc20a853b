//! Readers of search trees: nodes, each with its phases.

ghost use Rattle.std.specs.Prelude.{ℕ, List, MatchOption};
ghost use Rattle.asg_grammar.specs.Parts.{counted};
ghost use Rattle.asg_grammar.specs.Reading.{ReadsOrFails};
ghost use Rattle.asg_grammar.specs.Spellings.{SpellsOrFails};
ghost use Rattle.asg_doc_reader.specs.DocumentParts.{HasFront, mark_spelling, branch_spelling};
ghost use Rattle.asg_doc_reader.specs.DocumentParts.{node_head_spelling, node_head_part, node_part};
ghost use Rattle.asg_doc_reader.specs.DocumentParts.{tree_part};

use crate::phase_reader::phases;
use asg_grammar::{Fault, Lines, after, cut, number, numbers, pair};
use asg_proof::Ids;
use asg_rankings::{Mark, Node, Nodes};
use std::alloc::Global;

// The number before the first space, and what follows that.
fn front(text: &[u8]) -> Option<(u32, &[u8])>
    ensures { MatchOption result
        ((number : ℕ) (rest : List ℕ) → HasFront text.now number rest → ⊥)
        (λ parts. HasFront text.now parts.0 parts.1.now) }
{
    let (word, rest) = cut(b' ', text);
    let rest = after(b" ", rest)?;
    Some((number(word)?, rest))
}

// The mark that a text spells, and how many phases follow. The rows of an empty node alone take
// memory.
fn mark_of(alloc: Global, text: &[u8]) -> Result<(Mark, u32), Fault>
    ensures { SpellsOrFails mark_spelling text.now result }
{
    if let Some(counts) = after(b"answered ", text) {
        let Some((answer, count)) = pair(counts) else {
            return Err(Fault::Refused);
        };
        return Ok((Mark::Answered(answer), count));
    }
    if let Some(count) = after(b"open ", text) {
        let Some(count) = number(count) else {
            return Err(Fault::Refused);
        };
        return Ok((Mark::Open, count));
    }
    if let Some(rows) = after(b"empty", text) {
        let rows = numbers(alloc, rows)?;
        let mut ids = rows.into_vec();
        ids.shrink_to_fit();
        return Ok((Mark::Empty(Ids::from_vec(ids)), 0));
    }
    Err(Fault::Refused)
}

// The branch and the mark that a text spells, and how many phases follow.
fn branch_of(alloc: Global, text: &[u8]) -> Result<(u32, (Mark, u32)), Fault>
    ensures { SpellsOrFails branch_spelling text.now result }
{
    let Some((branch, rest)) = front(text) else {
        return Err(Fault::Refused);
    };
    let marked = mark_of(alloc, rest)?;
    Ok((branch, marked))
}

// The parent, the branch and the mark that a text spells, and how many phases follow.
fn node_head_of(alloc: Global, text: &[u8]) -> Result<(u32, (u32, (Mark, u32))), Fault>
    ensures { SpellsOrFails node_head_spelling text.now result }
{
    let Some((parent, rest)) = front(text) else {
        return Err(Fault::Refused);
    };
    let below = branch_of(alloc, rest)?;
    Ok((parent, below))
}

// The first line of a node.
fn node_head(alloc: Global, lines: &mut Lines) -> Result<(u32, (u32, (Mark, u32))), Fault>
    ensures { ReadsOrFails node_head_part lines.old lines.new result }
{
    let (text, left) = lines.next_behind(b"node ")?;
    let head = node_head_of(alloc, text)?;
    *lines = left;
    Ok(head)
}

// A node: its first line, and as many phases as that says.
fn node(alloc: Global, has_grades: bool, lines: &mut Lines) -> Result<Node, Fault>
    ensures { ReadsOrFails (node_part has_grades) lines.old lines.new result }
{
    let (parent, (branch, (mark, count))) = node_head(alloc, lines)?;
    let own = phases(alloc, has_grades, count, lines)?;
    Ok(Node {
        parent,
        branch,
        mark,
        own,
    })
}

// As many nodes as the count says. The count takes no memory, only the nodes that are read.
fn nodes(alloc: Global, has_grades: bool, count: u32, lines: &mut Lines) -> Result<Nodes, Fault>
    ensures { ReadsOrFails (counted count (node_part has_grades)) lines.old lines.new result }
{
    let mut nodes = Vec::new(alloc);
    for _ in 0..count {
        nodes.push(node(alloc, has_grades, lines)?)?;
    }
    nodes.shrink_to_fit();
    Ok(Nodes::from_vec(nodes))
}

// A search tree: how many nodes it has, and each.
pub(crate) fn tree(alloc: Global, has_grades: bool, lines: &mut Lines) -> Result<Nodes, Fault>
    ensures { ReadsOrFails (tree_part has_grades) lines.old lines.new result }
{
    let count = lines.positive(b"proof tree ")?;
    let nodes = nodes(alloc, has_grades, count, lines)?;
    Ok(nodes)
}
