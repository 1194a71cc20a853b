//! Writes level proofs over a page.

ghost use Rattle.std.specs.Prelude.{◌∷◌, ◌++◌, ◌<◌, [], All, codes, length};
ghost use Rattle.std.specs.Fmt.{decimal};
ghost use Rattle.std.specs.List.{flat_map};
ghost use Rattle.asg_grammar.specs.Lines.{ended};
ghost use Rattle.asg_doc.specs.Flow.{Wrote};
ghost use Rattle.asg_doc.specs.HasText.{HasColumnText, HasLevelText, HaveLevelText};
ghost use Rattle.asg_doc.specs.Text.{spaced_columns, perm_line, level_head_text, level_lines};

use crate::line_writer::emit_pair;
use crate::phase_writer::emit_phases;
use crate::{Page, emit, emit_bound, emit_next, emit_number_line};
use asg_io::Sink;
use asg_proof::Level;

// Appends columns from 1 on, each after a space.
fn emit_columns<K: Sink>(columns: &[u32], page: &mut Page, out: &mut K)
    requires { All HasColumnText columns.now }
    ensures { Wrote K.written K.faults out.old out.new page.old page.new
        (spaced_columns columns.now) }
{
    'columns: for column in columns {
        emit_next(*column + 1, page, out);
    }
}

// Appends the line of an assignment.
fn emit_perm<K: Sink>(perm: &[u32], page: &mut Page, out: &mut K)
    requires { All HasColumnText perm.now }
    ensures { Wrote K.written K.faults out.old out.new page.old page.new
        (perm_line perm.now ++ 10 ∷ []) }
{
    emit(b"perm", page, out);
    emit_columns(perm, page, out);
    emit(b"\n", page, out);
}

// Appends the first line of a level.
fn emit_level_head<K: Sink>(level: &Level, page: &mut Page, out: &mut K)
    requires { HasLevelText level.now }
    ensures { Wrote K.written K.faults out.old out.new page.old page.new
        ((codes "level " ++ level_head_text (
          level.now.cost,
          (
            level.now.count,
            length level.now.phases,
          ),
        )) ++ 10 ∷ []) }
{
    emit(b"level ", page, out);
    emit_bound(level.cost, page, out);
    emit(b" ", page, out);
    emit_pair(level.count, level.phases.len() as u32, page, out);
}

// Appends the lines of a level.
fn emit_level<K: Sink>(level: &Level, page: &mut Page, out: &mut K)
    requires { HasLevelText level.now }
    ensures { Wrote K.written K.faults out.old out.new page.old page.new
        (ended (level_lines level.now)) }
{
    emit_level_head(level, page, out);
    emit_phases(false, level.phases.as_slice(), page, out);
}

// Appends the lines of levels.
fn emit_levels<K: Sink>(levels: &[Level], page: &mut Page, out: &mut K)
    requires { All HasLevelText levels.now }
    ensures { Wrote K.written K.faults out.old out.new page.old page.new
        (ended (flat_map level_lines levels.now)) }
{
    'levels: for level in levels {
        emit_level(level, page, out);
    }
}

// Appends the lines of a proof by levels.
pub(crate) fn emit_levels_proof<K: Sink>(
    perm: &[u32],
    levels: &[Level],
    page: &mut Page,
    out: &mut K,
)
    requires { HaveLevelText perm.now levels.now }
    ensures { Wrote K.written K.faults out.old out.new page.old page.new
        (((codes "proof levels " ++ decimal (length levels.now)) ++ 10 ∷ [])
        ++ ((perm_line perm.now ++ 10 ∷ []) ++ ended (flat_map level_lines levels.now))) }
{
    emit_number_line(b"proof levels ", levels.len() as u32, page, out);
    emit_perm(perm, page, out);
    emit_levels(levels, page, out);
}
