//! Faults of the shelf and of the sink: where a fetch fails nothing is written, and where a put does
//! a prefix of the text that is due.

use crate::of_app::runs::{Faults, Ran, run_over};
use std::alloc::{AllocError, Global};
use std::test::Fail;

const SOLVE: &[&str] = &["solve", "sum", "f"];

const CHECK: &[&str] = &["check", "bottleneck", "f", "g"];

const EDIT: &[&str] = &["edit", "sum", "f", "s"];

const CHECK_EDITS: &[&str] = &["check", "sum", "f", "g", "--script", "s"];

// Words, the number of the fetch that fails, that of the put with how many bytes it still takes,
// the status and what is written.
type Case = (
    &'static [&'static str],
    &'static [u32],
    &'static [(u32, u32)],
    u8,
    &'static [u8],
);

// The first and each later fetch of a request, names that the shelf hasn't, and puts of each kind of
// text: a document, the usage, a verdict, and a brief line behind another one.
static CASES: [Case; 18] = [
    (&["solve", "bottleneck", "f"], &[1], &[], 7, b""),
    (SOLVE, &[1], &[], 7, b""),
    (&["solve", "bottleneck", "h"], &[], &[], 7, b""),
    (CHECK, &[1], &[], 7, b""),
    (CHECK, &[2], &[], 7, b""),
    (&["check", "bottleneck", "f", "h"], &[], &[], 7, b""),
    (&["check", "bottleneck", "h", "g"], &[], &[], 7, b""),
    (EDIT, &[1], &[], 7, b""),
    (EDIT, &[2], &[], 7, b""),
    (CHECK_EDITS, &[1], &[], 7, b""),
    (CHECK_EDITS, &[2], &[], 7, b""),
    (CHECK_EDITS, &[3], &[], 7, b""),
    (
        &["solve", "bottleneck", "f"],
        &[],
        &[(1, 10)],
        8,
        b"assignment",
    ),
    (SOLVE, &[], &[(1, 10)], 8, b"assignment"),
    (&["solve"], &[], &[(1, 3)], 8, b"usa"),
    (CHECK, &[], &[(1, 2)], 8, b"ye"),
    (EDIT, &[], &[(1, 10)], 8, b"assignment"),
    (
        &["edit", "sum", "f", "s", "--brief"],
        &[],
        &[(2, 4)],
        8,
        b"best sum 3 6\nbest",
    ),
];

// These, for a caller that needn't know them.
fn cases() -> &'static [Case] {
    &CASES
}

// The run with these words, of which these fetches and puts fail.
fn faulty(
    alloc: Global,
    words: &[&str],
    fetches: &'static [u32],
    puts: &'static [(u32, u32)],
) -> Result<Ran, AllocError> {
    run_over(alloc, words, Faults { fetches, puts })
}

// Whether a run ends as the case says, and wrote exactly that.
fn is_stopped(alloc: Global, case: &Case) -> Result<bool, AllocError> {
    let ran = faulty(alloc, case.0, case.1, case.2)?;
    Ok(ran.code == case.3 && ran.written.as_slice() == case.4)
}

#[test]
fn faults_of_shelf_and_sink(rt: HostRuntime) -> Result<(), Fail> {
    for case in cases() {
        assert!(rt; is_stopped(rt.alloc(), case)?, "{:?}", case.0);
    }
    Ok(())
}

// Whether a run whose put failed wrote a part of what another one did, which the text at its end
// is of.
fn is_part(part: &Ran, whole: &Ran, end: &[u8]) -> bool {
    whole.code == 0
        && part.code == 8
        && part.written.len() < whole.written.len()
        && whole.written.starts_with(&part.written)
        && part.written.ends_with(end)
}

// Whether a run of the script whose second put fails did, of what this one wrote.
fn is_cut(alloc: Global, whole: &Ran) -> Result<bool, AllocError> {
    let part = faulty(alloc, EDIT, &[], &[(2, 10)])?;
    Ok(part.written.len() > 10 && is_part(&part, whole, b"assignment"))
}

// Whether it did, of what one without faults wrote.
fn is_cut_short(alloc: Global) -> Result<bool, AllocError> {
    let whole = faulty(alloc, EDIT, &[], &[])?;
    is_cut(alloc, &whole)
}

#[test]
fn a_fault_behind_a_document(rt: HostRuntime) -> Result<(), Fail> {
    assert!(rt; is_cut_short(rt.alloc())?);
    Ok(())
}

// A text that is longer than two pages.
const LONG: &[&str] = &["make", "7", "200"];

// A put of it that fails, with how many bytes it still takes, and how many are written in all.
type Page = (&'static [(u32, u32)], usize);

static PAGES: [Page; 4] = [
    (&[(1, 0)], 0),
    (&[(1, 7)], 7),
    (&[(2, 0)], 65_536),
    (&[(2, 7)], 65_543),
];

// These, for a caller that needn't know them.
fn pages() -> &'static [Page] {
    &PAGES
}

// Whether a put that fails leaves so many bytes of the text of a run without faults.
fn leaves(alloc: Global, whole: &Ran, page: &Page) -> Result<bool, AllocError> {
    let part = faulty(alloc, LONG, &[], page.0)?;
    Ok(part.written.len() == page.1 && is_part(&part, whole, b""))
}

// Whether it does, and that is longer than two pages.
fn is_page_cut(alloc: Global, page: &Page) -> Result<bool, AllocError> {
    let whole = faulty(alloc, LONG, &[], &[])?;
    Ok(whole.written.len() > 131_072 && leaves(alloc, &whole, page)?)
}

#[test]
fn faults_between_pages(rt: HostRuntime) -> Result<(), Fail> {
    for page in pages() {
        assert!(rt; is_page_cut(rt.alloc(), page)?, "{}", page.1);
    }
    Ok(())
}
