//! Writes the line of an objective over a page.

ghost use Rattle.std.specs.Prelude.{◌∷◌, ◌++◌, [], codes};
ghost use Rattle.std.specs.Fmt.{decimal};
ghost use Rattle.asg_doc.specs.Flow.{Wrote};
ghost use Rattle.asg_model.specs.Objectives.{objective_word};

use crate::{Page, emit_words};
use asg_io::Sink;
use asg_model::{Objective, word_front};
use itoa::Buffer;

// Appends the line of sums that stop at a cap.
fn emit_capped<K: Sink>(cap: u64, page: &mut Page, out: &mut K)
    ensures { Wrote K.written K.faults out.old out.new page.old page.new
        ((codes "objective capped=" ++ decimal cap) ++ 10 ∷ []) }
{
    let mut buffer = Buffer::new();
    emit_words(
        b"objective capped=",
        buffer.format(cap).as_bytes(),
        page,
        out,
    );
}

// Appends the line of an objective.
pub(crate) fn emit_objective<K: Sink>(objective: Objective, page: &mut Page, out: &mut K)
    ensures { Wrote K.written K.faults out.old out.new page.old page.new
        ((codes "objective " ++ objective_word objective) ++ 10 ∷ []) }
{
    match objective {
        Objective::Capped(cap) => emit_capped(cap, page, out),
        uncapped => emit_words(b"objective ", word_front(uncapped), page, out),
    }
}
