//! Writes phases over a page.

ghost use Rattle.std.specs.Prelude.{◌∷◌, ◌++◌, [], codes};
ghost use Rattle.std.specs.Fmt.{decimal};
ghost use Rattle.std.specs.List.{flat_map};
ghost use Rattle.asg_grammar.specs.Lines.{ended};
ghost use Rattle.asg_doc.specs.Flow.{Wrote};
ghost use Rattle.asg_doc.specs.Text.{step_text, spaced_steps, phase_lines};

use crate::{Page, emit, emit_list};
use asg_io::Sink;
use asg_order::Word;
use asg_proof::{Steps, WrittenPhase};
use itoa::Buffer;

// Appends the grade of a step.
fn emit_grade<K: Sink>(grade: u64, page: &mut Page, out: &mut K)
    ensures { Wrote K.written K.faults out.old out.new page.old page.new (decimal grade) }
{
    let mut buffer = Buffer::new();
    emit(buffer.format(grade).as_bytes(), page, out);
}

// Appends the amount of a step.
fn emit_amount<K: Sink>(amount: u128, page: &mut Page, out: &mut K)
    ensures { Wrote K.written K.faults out.old out.new page.old page.new (decimal amount) }
{
    let mut buffer = Buffer::new();
    emit(buffer.format(amount).as_bytes(), page, out);
}

// Appends a step: its amount, behind its grade where steps have grades.
fn emit_step<K: Sink>(has_grades: bool, step: Word, page: &mut Page, out: &mut K)
    ensures { Wrote K.written K.faults out.old out.new page.old page.new
        (step_text has_grades step) }
{
    if has_grades {
        emit_grade(step.grade, page, out);
        emit(b":", page, out);
        emit_amount(step.amount, page, out);
    } else {
        emit_amount(step.amount, page, out);
    }
}

// Appends steps, each after a space.
fn emit_steps<K: Sink>(has_grades: bool, steps: &Steps<'_>, page: &mut Page, out: &mut K)
    ensures { Wrote K.written K.faults out.old out.new page.old page.new
        (spaced_steps has_grades steps.now) }
{
    'steps: for place in 0..steps.len() {
        emit(b" ", page, out);
        emit_step(has_grades, steps.get(place), page, out);
    }
}

// Appends the line of steps.
fn emit_step_line<K: Sink>(has_grades: bool, steps: &Steps<'_>, page: &mut Page, out: &mut K)
    ensures { Wrote K.written K.faults out.old out.new page.old page.new
        ((codes "steps" ++ spaced_steps has_grades steps.now) ++ 10 ∷ []) }
{
    emit(b"steps", page, out);
    emit_steps(has_grades, steps, page, out);
    emit(b"\n", page, out);
}

// Appends the lines of a phase.
fn emit_phase<K: Sink>(has_grades: bool, phase: &WrittenPhase, page: &mut Page, out: &mut K)
    ensures { Wrote K.written K.faults out.old out.new page.old page.new
        (ended (phase_lines has_grades phase.now)) }
{
    emit_step_line(has_grades, &phase.steps(), page, out);
    emit_list(b"enters", phase.enters(), page, out);
    emit_list(b"leaves", phase.leaves(), page, out);
}

// Appends the lines of phases.
pub(crate) fn emit_phases<K: Sink>(
    has_grades: bool,
    phases: &[WrittenPhase],
    page: &mut Page,
    out: &mut K,
)
    ensures { Wrote K.written K.faults out.old out.new page.old page.new
        (ended (flat_map (phase_lines has_grades) phases.now)) }
{
    'phases: for phase in phases {
        emit_phase(has_grades, phase, page, out);
    }
}
