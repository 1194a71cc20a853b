//! Writes single lines of documents over a page.

ghost use Rattle.std.specs.Prelude.{◌∷◌, ◌++◌, [], map, All, FitsSigned};
ghost use Rattle.std.specs.Int.{w64};
ghost use Rattle.asg_grammar.specs.Lines.{ended};
ghost use Rattle.asg_doc.specs.declared.documents.ValueForm.{ValueForm};
ghost use Rattle.asg_doc.specs.Flow.{Wrote};
ghost use Rattle.asg_doc.specs.HasText.{IsWrittenValue};
ghost use Rattle.asg_doc.specs.Text.{cell_line, spaced_costs, value_text};

use crate::{Page, emit, emit_bound, emit_number, emit_signed};
use asg_io::Sink;
use asg_model::{Costs, Value};

// Appends one number, behind a space.
fn emit_one<K: Sink>(number: i128, page: &mut Page, out: &mut K)
    ensures { Wrote K.written K.faults out.old out.new page.old page.new
        (value_text (Value.One number)) }
{
    emit(b" ", page, out);
    emit_signed(number, page, out);
}

// Appends two numbers with a colon between them, behind a space.
fn emit_two<K: Sink>(first: i128, second: i128, page: &mut Page, out: &mut K)
    ensures { Wrote K.written K.faults out.old out.new page.old page.new
        (value_text (Value.Two first second)) }
{
    emit(b" ", page, out);
    emit_signed(first, page, out);
    emit(b":", page, out);
    emit_signed(second, page, out);
}

// Appends costs, each after a space.
fn emit_costs<K: Sink>(costs: &[i64], page: &mut Page, out: &mut K)
    requires { All (FitsSigned w64) costs.now }
    ensures { Wrote K.written K.faults out.old out.new page.old page.new (spaced_costs costs.now) }
{
    'costs: for cost in costs {
        emit(b" ", page, out);
        emit_bound(*cost, page, out);
    }
}

// Appends listed costs.
fn emit_many<K: Sink>(costs: &Costs, page: &mut Page, out: &mut K)
    requires { All (FitsSigned w64) costs.now }
    ensures { Wrote K.written K.faults out.old out.new page.old page.new
        (value_text (Value.Many costs.now)) }
{
    emit_costs(costs.as_slice(), page, out);
}

// Appends what the line of a value says behind its word: one number, two, or a list.
fn emit_numbers<K: Sink>(value: &Value, page: &mut Page, out: &mut K)
    requires { (form : ValueForm) × IsWrittenValue form value.now }
    ensures { Wrote K.written K.faults out.old out.new page.old page.new (value_text value.now) }
{
    match value {
        Value::One(number) => emit_one(*number, page, out),
        Value::Two(first, second) => emit_two(*first, *second, page, out),
        Value::Many(costs) => emit_many(costs, page, out),
    }
}

// Appends the line of a value behind a word.
pub(crate) fn emit_value<K: Sink>(word: &[u8], value: &Value, page: &mut Page, out: &mut K)
    requires { (form : ValueForm) × IsWrittenValue form value.now }
    ensures { Wrote K.written K.faults out.old out.new page.old page.new
        ((word.now ++ value_text value.now) ++ 10 ∷ []) }
{
    emit(word, page, out);
    emit_numbers(value, page, out);
    emit(b"\n", page, out);
}

// Appends two numbers with a space between them, and an end of line.
pub(crate) fn emit_pair<K: Sink>(first: u32, second: u32, page: &mut Page, out: &mut K)
    ensures { Wrote K.written K.faults out.old out.new page.old page.new
        (cell_line (first, second) ++ 10 ∷ []) }
{
    emit_number(first, page, out);
    emit(b" ", page, out);
    emit_number(second, page, out);
    emit(b"\n", page, out);
}

// Appends the lines of cells.
pub(crate) fn emit_cells<K: Sink>(cells: &[(u32, u32)], page: &mut Page, out: &mut K)
    ensures { Wrote K.written K.faults out.old out.new page.old page.new
        (ended (map cell_line cells.now)) }
{
    'cells: for cell in cells {
        emit_pair(cell.0, cell.1, page, out);
    }
}
