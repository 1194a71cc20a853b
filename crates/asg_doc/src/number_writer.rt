//! Writes numbers and words over a page.

ghost use Rattle.std.specs.Prelude.{◌∷◌, ◌++◌, []};
ghost use Rattle.std.specs.Fmt.{decimal, signed_decimal};
ghost use Rattle.asg_grammar.specs.Spellings.{spaced};
ghost use Rattle.asg_doc.specs.Flow.{Wrote};

use crate::page_buffer::{Page, emit};
use asg_io::Sink;
use itoa::Buffer;

/// Appends a line that has two parts.
pub fn emit_words<K: Sink>(front: &[u8], back: &[u8], page: &mut Page, out: &mut K)
    ensures { Wrote K.written K.faults out.old out.new page.old page.new
        ((front.now ++ back.now) ++ 10 ∷ []) }
{
    emit(front, page, out);
    emit(back, page, out);
    emit(b"\n", page, out);
}

/// Appends a signed number.
pub fn emit_signed<K: Sink>(number: i128, page: &mut Page, out: &mut K)
    ensures { Wrote K.written K.faults out.old out.new page.old page.new (signed_decimal number) }
{
    let mut buffer = Buffer::new();
    emit(buffer.format(number).as_bytes(), page, out);
}

/// Appends a signed number of 64 bits.
pub fn emit_bound<K: Sink>(bound: i64, page: &mut Page, out: &mut K)
    ensures { Wrote K.written K.faults out.old out.new page.old page.new (signed_decimal bound) }
{
    let mut buffer = Buffer::new();
    emit(buffer.format(bound).as_bytes(), page, out);
}

/// Appends the line of a number behind its word.
pub fn emit_number_line<K: Sink>(word: &[u8], number: u32, page: &mut Page, out: &mut K)
    ensures { Wrote K.written K.faults out.old out.new page.old page.new
        ((word.now ++ decimal number) ++ 10 ∷ []) }
{
    let mut buffer = Buffer::new();
    emit_words(word, buffer.format(number).as_bytes(), page, out);
}

/// Appends a number.
pub fn emit_number<K: Sink>(number: u32, page: &mut Page, out: &mut K)
    ensures { Wrote K.written K.faults out.old out.new page.old page.new (decimal number) }
{
    let mut buffer = Buffer::new();
    emit(buffer.format(number).as_bytes(), page, out);
}

/// Appends a number after a space. One of two digits at most goes right into a page with room for
/// it.
pub fn emit_next<K: Sink>(number: u32, page: &mut Page, out: &mut K)
    ensures { Wrote K.written K.faults out.old out.new page.old page.new (32 ∷ decimal number) }
{
    if number >= 100 || !page.has_room(3) {
        emit(b" ", page, out);
        emit_number(number, page, out);
    } else if number < 10 {
        page.push_digit(number as u8);
    } else {
        page.push_pair(number as u8);
    }
}

/// Appends numbers, each after a space.
pub fn emit_spaced<K: Sink>(numbers: &[u32], page: &mut Page, out: &mut K)
    ensures { Wrote K.written K.faults out.old out.new page.old page.new (spaced numbers.now) }
{
    'numbers: for number in numbers {
        emit_next(*number, page, out);
    }
}

/// Appends a line that lists numbers behind a word.
pub fn emit_list<K: Sink>(word: &[u8], numbers: &[u32], page: &mut Page, out: &mut K)
    ensures { Wrote K.written K.faults out.old out.new page.old page.new
        ((word.now ++ spaced numbers.now) ++ 10 ∷ []) }
{
    emit(word, page, out);
    emit_spaced(numbers, page, out);
    emit(b"\n", page, out);
}
