//! A sink in memory.

use asg_io::{MemorySink, PutFault, Sink};
use std::alloc::{AllocError, Global};
use std::test::Fail;

// Pieces, what a put of each answers, and what is written then.
const PUTS: [(&str, Result<(), PutFault>, &str); 8] = [
    // The first one takes ten bytes.
    ("assignment 1", Err(PutFault), "assignment"),
    // A put of nothing has no number.
    ("", Ok(()), "assignment"),
    ("s\n", Ok(()), "assignments\n"),
    // The third takes nothing, and the fourth all of its piece.
    ("cd", Err(PutFault), "assignments\n"),
    ("ef", Err(PutFault), "assignments\nef"),
    // There is room for six more.
    ("ghijklm", Err(PutFault), "assignments\nefghijkl"),
    ("", Ok(()), "assignments\nefghijkl"),
    ("m", Err(PutFault), "assignments\nefghijkl"),
];

// A sink with room for twenty bytes whose first, third and fourth put fail.
fn small_sink(alloc: Global) -> Result<MemorySink, AllocError> {
    let fails = Vec::from_slice(alloc, &[(1, 10), (4, 90), (3, 0), (3, 2)])?;
    MemorySink::with(alloc, 20, fails)
}

// Whether the puts of a sink answer so, and write that.
fn are_put(out: &mut MemorySink) -> bool {
    for (piece, want, written) in &PUTS {
        if out.put(piece.as_bytes()) != *want || out.bytes() != written.as_bytes() {
            return false;
        }
    }
    true
}

// Whether those of the small one do.
fn answers_puts(alloc: Global) -> Result<bool, AllocError> {
    let mut out = small_sink(alloc)?;
    let are_put = are_put(&mut out);
    drop(out);
    Ok(are_put)
}

#[test]
fn a_sink_in_memory(rt: HostRuntime) -> Result<(), Fail> {
    assert!(rt; answers_puts(rt.alloc())?);
    Ok(())
}
