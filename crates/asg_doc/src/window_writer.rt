//! Writes windows over a page.

ghost use Rattle.std.specs.Prelude.{◌∷◌, ◌++◌, [], map, All};
ghost use Rattle.std.specs.Fmt.{signed_decimal};
ghost use Rattle.asg_grammar.specs.Lines.{ended};
ghost use Rattle.asg_doc.specs.Flow.{Wrote};
ghost use Rattle.asg_doc.specs.HasText.{HasWindowText};
ghost use Rattle.asg_doc.specs.Text.{window_line};

use crate::{Page, emit, emit_bound, emit_spaced};
use asg_io::Sink;
use asg_proof::Window;

// Appends the bounds of a window, with a space between them.
fn emit_bounds<K: Sink>(window: &Window, page: &mut Page, out: &mut K)
    requires { HasWindowText window.now }
    ensures { Wrote K.written K.faults out.old out.new page.old page.new
        (signed_decimal window.now.lo ++ 32 ∷ signed_decimal window.now.hi) }
{
    emit_bound(window.lo, page, out);
    emit(b" ", page, out);
    emit_bound(window.hi, page, out);
}

// Appends the line of a window.
fn emit_window<K: Sink>(window: &Window, page: &mut Page, out: &mut K)
    requires { HasWindowText window.now }
    ensures { Wrote K.written K.faults out.old out.new page.old page.new
        (window_line window.now ++ 10 ∷ []) }
{
    emit(b"window ", page, out);
    emit_bounds(window, page, out);
    emit_spaced(window.rows.as_slice(), page, out);
    emit(b"\n", page, out);
}

// Appends the lines of windows.
pub(crate) fn emit_windows<K: Sink>(windows: &[Window], page: &mut Page, out: &mut K)
    requires { All HasWindowText windows.now }
    ensures { Wrote K.written K.faults out.old out.new page.old page.new
        (ended (map window_line windows.now)) }
{
    'windows: for window in windows {
        emit_window(window, page, out);
    }
}
