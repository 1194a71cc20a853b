//! Writes search trees over a page.

ghost use Rattle.std.specs.Prelude.{ℕ, ◌∷◌, ◌++◌, [], All, codes, length};
ghost use Rattle.std.specs.List.{flat_map};
ghost use Rattle.asg_grammar.specs.Lines.{ended};
ghost use Rattle.asg_doc.specs.Flow.{Wrote};
ghost use Rattle.asg_doc.specs.HasText.{HasNodeText, HasTreeText};
ghost use Rattle.asg_doc.specs.Text.{mark_text, node_head_text, node_lines, tree_lines};

use crate::phase_writer::emit_phases;
use crate::{Page, emit, emit_next, emit_number_line, emit_spaced};
use asg_io::Sink;
use asg_rankings::{Mark, Node};

// Appends the mark of a node with an answer, and the number of its phases.
fn emit_answered<K: Sink>(answer: u32, count: u32, page: &mut Page, out: &mut K)
    ensures { Wrote K.written K.faults out.old out.new page.old page.new
        (mark_text (Mark.Answered answer) count) }
{
    emit(b"answered", page, out);
    emit_next(answer, page, out);
    emit_next(count, page, out);
}

// Appends the mark of an open node, and the number of its phases.
fn emit_open<K: Sink>(count: u32, page: &mut Page, out: &mut K)
    ensures { Wrote K.written K.faults out.old out.new page.old page.new
        (mark_text Mark.Open count) }
{
    emit(b"open", page, out);
    emit_next(count, page, out);
}

// Appends the mark of an empty node, which has no phases.
fn emit_empty<K: Sink>(rows: &[u32], page: &mut Page, out: &mut K)
    ensures { (count : ℕ) → Wrote K.written K.faults out.old out.new page.old page.new
        (mark_text (Mark.Empty rows.now) count) }
{
    emit(b"empty", page, out);
    emit_spaced(rows, page, out);
}

// Appends a mark, and the number of the node's phases.
fn emit_mark<K: Sink>(mark: &Mark, count: u32, page: &mut Page, out: &mut K)
    ensures { Wrote K.written K.faults out.old out.new page.old page.new
        (mark_text mark.now count) }
{
    match mark {
        Mark::Answered(answer) => emit_answered(*answer, count, page, out),
        Mark::Open => emit_open(count, page, out),
        Mark::Empty(rows) => emit_empty(rows.as_slice(), page, out),
    }
}

// Appends the first line of a node.
fn emit_node_head<K: Sink>(has_grades: bool, node: &Node, page: &mut Page, out: &mut K)
    requires { HasNodeText has_grades node.now }
    ensures { let node = node.now in Wrote K.written K.faults out.old out.new page.old page.new
        ((codes "node " ++ node_head_text (
          node.parent,
          (
            node.branch,
            (
              node.mark,
              length node.own,
            ),
          ),
        )) ++ 10 ∷ []) }
{
    emit(b"node", page, out);
    emit_next(node.parent, page, out);
    emit_next(node.branch, page, out);
    emit(b" ", page, out);
    emit_mark(&node.mark, node.own.len() as u32, page, out);
    emit(b"\n", page, out);
}

// Appends the lines of a node.
fn emit_node<K: Sink>(has_grades: bool, node: &Node, page: &mut Page, out: &mut K)
    requires { HasNodeText has_grades node.now }
    ensures { Wrote K.written K.faults out.old out.new page.old page.new
        (ended (node_lines has_grades node.now)) }
{
    emit_node_head(has_grades, node, page, out);
    emit_phases(has_grades, node.own.as_slice(), page, out);
}

// Appends the lines of nodes.
fn emit_nodes<K: Sink>(has_grades: bool, nodes: &[Node], page: &mut Page, out: &mut K)
    requires { All (HasNodeText has_grades) nodes.now }
    ensures { Wrote K.written K.faults out.old out.new page.old page.new
        (ended (flat_map (node_lines has_grades) nodes.now)) }
{
    'nodes: for node in nodes {
        emit_node(has_grades, node, page, out);
    }
}

// Appends the lines of a search tree.
pub(crate) fn emit_tree<K: Sink>(has_grades: bool, nodes: &[Node], page: &mut Page, out: &mut K)
    requires { HasTreeText has_grades nodes.now }
    ensures { Wrote K.written K.faults out.old out.new page.old page.new
        (ended (tree_lines has_grades nodes.now)) }
{
    emit_number_line(b"proof tree ", nodes.len() as u32, page, out);
    emit_nodes(has_grades, nodes, page, out);
}
