//! Runs of the program over memory: a shelf with three files, `f`, `g` and `s`, and a sink, of which
//! chosen fetches and puts fail.

use asg_app::run;
use asg_io::{MemoryShelf, MemorySink};
use std::alloc::{AllocError, Global};

/// How a run ended, and what it wrote.
#[derive(Drop)]
pub(crate) struct Ran {
    pub code: u8,
    pub written: Vec<u8>,
}

/// The numbers of the fetches that fail, and those of the puts that fail with how many bytes they
/// still take.
#[derive(Clone, Copy)]
pub(crate) struct Faults {
    pub fetches: &'static [u32],
    pub puts: &'static [(u32, u32)],
}

// More room than the text of any of the runs needs.
const ROOM: u32 = 200_000;

// A square of three rows, the document that solves it for the greatest cost, and a script of edits.
const SQUARE: &[u8] = b"3\n4 1 3\n2 0 5\n3 2 2\n";

const SOLVED: &[u8] =
    b"assignment 1\ncommand solve\nobjective bottleneck\nstatus best\nvalue 2\ncells 3\n1 2\n2 1\n\
      3 3\nproof below 3\nend\n";

const SCRIPT: &[u8] =
    b"cost 1 2 9\nsolve\ndrop-row 2\nsolve\ndrop-column 2\nsolve\ndrop-column 3\nsolve\n";

// The files with their names.
static FILES: [(&'static str, &'static [u8]); 3] = [("f", SQUARE), ("g", SOLVED), ("s", SCRIPT)];

// These, for a caller that needn't know them.
fn files() -> &'static [(&'static str, &'static [u8])] {
    &FILES
}

// Puts each file under its name.
fn add_files(alloc: Global, contents: &mut Vec<(String, Vec<u8>)>) -> Result<(), AllocError> {
    for (name, held) in files() {
        contents.push((String::from_str(alloc, name)?, held.to_vec(alloc)?))?;
    }
    Ok(())
}

// The files under their names.
fn contents_of(alloc: Global) -> Result<Vec<(String, Vec<u8>)>, AllocError> {
    let mut contents = Vec::new(alloc);
    add_files(alloc, &mut contents)?;
    Ok(contents)
}

// The shelf with the files.
fn shelf_of(alloc: Global, faults: Faults) -> Result<MemoryShelf, AllocError> {
    let fails = faults.fetches.to_vec(alloc)?;
    let contents = contents_of(alloc)?;
    Ok(MemoryShelf::with(alloc, contents, fails))
}

// The sink.
fn sink_of(alloc: Global, faults: Faults) -> Result<MemorySink, AllocError> {
    MemorySink::with(alloc, ROOM, faults.puts.to_vec(alloc)?)
}

// Adds words to a line.
fn add_words(alloc: Global, line: &mut Vec<String>, words: &[&str]) -> Result<(), AllocError> {
    for word in words {
        line.push(String::from_str(alloc, word)?)?;
    }
    Ok(())
}

// The words of a line.
fn line_of(alloc: Global, words: &[&str]) -> Result<Vec<String>, AllocError> {
    let mut line = Vec::new(alloc);
    add_words(alloc, &mut line, words)?;
    Ok(line)
}

// A run over what is already made.
fn run_made(
    alloc: Global,
    line: &[String],
    shelf: &mut MemoryShelf,
    out: &mut MemorySink,
) -> Result<Ran, AllocError> {
    let code = run(alloc, line, shelf, out).code();
    let written = out.bytes().to_vec(alloc)?;
    Ok(Ran { code, written })
}

// A run over a shelf that is made.
fn run_shelf(
    alloc: Global,
    line: &[String],
    shelf: &mut MemoryShelf,
    faults: Faults,
) -> Result<Ran, AllocError> {
    let mut out = sink_of(alloc, faults)?;
    let ran = run_made(alloc, line, shelf, &mut out);
    drop(out);
    ran
}

// A run with the words of a line.
fn run_line(alloc: Global, line: &[String], faults: Faults) -> Result<Ran, AllocError> {
    let mut shelf = shelf_of(alloc, faults)?;
    let ran = run_shelf(alloc, line, &mut shelf, faults);
    drop(shelf);
    ran
}

/// A run with these words.
pub(crate) fn run_over(alloc: Global, words: &[&str], faults: Faults) -> Result<Ran, AllocError> {
    let line = line_of(alloc, words)?;
    run_line(alloc, &line, faults)
}
