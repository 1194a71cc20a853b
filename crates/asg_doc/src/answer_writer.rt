//! Writes answers over a page.

ghost use Rattle.std.specs.Prelude.{All, codes};
ghost use Rattle.std.specs.List.{flat_map};
ghost use Rattle.asg_model.specs.declared.objectives.Objective.{Objective as O};
ghost use Rattle.asg_grammar.specs.Lines.{ended};
ghost use Rattle.asg_doc.specs.Flow.{Wrote};
ghost use Rattle.asg_doc.specs.HasText.{HasAnswerText, HaveAnswerText};
ghost use Rattle.asg_doc.specs.Text.{answer_lines_behind, listed_lines};

use crate::documents::Answer;
use crate::line_writer::{emit_cells, emit_value};
use crate::{Page, emit_number_line};
use asg_io::Sink;

// Appends the lines of an answer, its value behind a word.
pub(crate) fn emit_answer<K: Sink>(word: &[u8], answer: &Answer, page: &mut Page, out: &mut K)
    requires { (objective : O) × HasAnswerText objective answer.now }
    ensures { Wrote K.written K.faults out.old out.new page.old page.new
        (ended (answer_lines_behind word.now answer.now)) }
{
    emit_value(word, &answer.value, page, out);
    emit_number_line(b"cells ", answer.cells.len() as u32, page, out);
    emit_cells(answer.cells.as_slice(), page, out);
}

// Appends the lines of answers.
fn emit_each<K: Sink>(answers: &[Answer], page: &mut Page, out: &mut K)
    requires { (objective : O) × All (HasAnswerText objective) answers.now }
    ensures { Wrote K.written K.faults out.old out.new page.old page.new
        (ended (flat_map (answer_lines_behind (codes "answer")) answers.now)) }
{
    'answers: for answer in answers {
        emit_answer(b"answer", answer, page, out);
    }
}

// Appends the lines of listed answers.
pub(crate) fn emit_answers<K: Sink>(answers: &[Answer], page: &mut Page, out: &mut K)
    requires { (objective : O) × HaveAnswerText objective answers.now }
    ensures { Wrote K.written K.faults out.old out.new page.old page.new
        (ended (listed_lines answers.now)) }
{
    emit_number_line(b"answers ", answers.len() as u32, page, out);
    emit_each(answers, page, out);
}
