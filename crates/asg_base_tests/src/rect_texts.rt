//! Tests of the rect texts of instances.

use asg_model::limits::LONGEST_FILE;
use asg_text::laws::plain_law;
use asg_text::{Format, read, write_rect};
use std::alloc::Global;

// A rect file, and the text of its instance.
type Text = (&'static [u8], &'static [u8]);

static TEXTS: [Text; 6] = [
    (b"2 3 5 - 1 - 2 1", b"2 3\n5 - 1\n- 2 1\n"),
    (
        b"2 4\n-1000000000 - 0000000012 1000000000 \r\n-  -7\t3:1 000000000005\n          ",
        b"2 4\n-1000000000 - 12 1000000000\n- -7 3:1 5\n",
    ),
    (b"2 2 0 -0:1 1:-0 -2:-03", b"2 2\n0 0:1\n1 -2:-3\n"),
    (b"2 0", b"2 0\n\n\n"),
    (b"3 1\n7\n-8\n-", b"3 1\n7\n-8\n-\n"),
    (
        b"1 1\n1000000000:-1000000000",
        b"1 1\n1000000000:-1000000000\n",
    ),
];

// These, for a caller that needn't know them.
fn texts() -> &'static [Text] {
    &TEXTS
}

// The text of the instance of a rect file.
fn rewritten(alloc: Global, file: &[u8]) -> Option<Vec<u8>> {
    if file.len() > LONGEST_FILE {
        return None;
    }
    plain_law();
    match read(alloc, Format::Rect, file) {
        Ok(inst) => {
            let text = write_rect(alloc, &inst);
            drop(inst);
            text.ok()
        }
        Err(_) => None,
    }
}

// Whether this is the text of the instance of a rect file.
fn is_rewritten(alloc: Global, file: &[u8], text: &[u8]) -> bool {
    match rewritten(alloc, file) {
        Some(written) => written.as_slice() == text,
        None => false,
    }
}

#[test]
fn instances_are_written(rt: HostRuntime) {
    for (file, text) in texts() {
        assert!(rt; is_rewritten(rt.alloc(), file, text), "{file:?}");
        assert!(rt; is_rewritten(rt.alloc(), text, text), "{text:?}");
    }
}
