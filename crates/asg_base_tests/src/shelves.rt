//! Shelves, in memory and of real files.

use asg_io::{FetchFault, MemoryShelf, RealShelf, RealSink, Shelf, Sink};
use std::alloc::{AllocError, Global};
use std::path::PathBuf;
use std::test::Fail;
use std::{env, fs, process};

// A limit, and what a fetch answers: whether the contents are those that are wanted.
type Fetch = (usize, Result<bool, FetchFault>);

// What a shelf answers, with the contents tested in place of handed out.
fn fetched<F: Shelf>(
    alloc: Global,
    shelf: &mut F,
    name: &str,
    limit: usize,
    want: &[u8],
) -> Result<bool, FetchFault> {
    let bytes = shelf.fetch(alloc, name, limit)?;
    Ok(bytes.as_slice() == want)
}

// Whether a shelf answers so for a name.
fn are_fetched<F: Shelf>(
    alloc: Global,
    shelf: &mut F,
    name: &str,
    fetches: &[Fetch],
    want: &[u8],
) -> bool {
    for (limit, answer) in fetches {
        if fetched(alloc, shelf, name, *limit, want) != *answer {
            return false;
        }
    }
    true
}

// Fetches of the first of two files of one name, the fifth of which fails by its number.
const OF_FIRST: [Fetch; 5] = [
    (3, Err(FetchFault::TooLong)),
    (4, Ok(true)),
    (0, Err(FetchFault::TooLong)),
    (usize::MAX, Ok(true)),
    (4, Err(FetchFault::Failed)),
];

// Those of an empty one, and of one that isn't there.
const OF_EMPTY: [Fetch; 1] = [(0, Ok(true))];

const OF_NONE: [Fetch; 1] = [(4, Err(FetchFault::Failed))];

// Two files of one name, and an empty one.
const FILES: [(&str, &[u8]); 3] = [("f", b"abcd"), ("e", b""), ("f", b"second")];

// Puts a file under its name.
fn add_file(
    alloc: Global,
    files: &mut Vec<(String, Vec<u8>)>,
    name: &str,
    held: &[u8],
) -> Result<(), AllocError> {
    files.push((String::from_str(alloc, name)?, held.to_vec(alloc)?))?;
    Ok(())
}

// The files on a shelf whose fifth and ninth fetch fail.
fn shelf_of_three(alloc: Global) -> Result<MemoryShelf, AllocError> {
    let mut files = Vec::new(alloc);
    for (name, held) in &FILES {
        add_file(alloc, &mut files, name, held)?;
    }
    Ok(MemoryShelf::with(alloc, files, Vec::from_slice(alloc, &[9, 5])?))
}

// Whether it answers so.
fn answers_fetches(alloc: Global) -> Result<bool, AllocError> {
    let mut shelf = shelf_of_three(alloc)?;
    let are_fetched = are_fetched(alloc, &mut shelf, "f", &OF_FIRST, b"abcd")
        && are_fetched(alloc, &mut shelf, "e", &OF_EMPTY, b"")
        && are_fetched(alloc, &mut shelf, "g", &OF_NONE, b"");
    drop(shelf);
    Ok(are_fetched)
}

#[test]
fn a_shelf_in_memory(rt: HostRuntime) -> Result<(), Fail> {
    assert!(rt; answers_fetches(rt.alloc())?);
    Ok(())
}

// A file's bytes, more than one read takes.
fn long_bytes(alloc: Global) -> Result<Vec<u8>, AllocError> {
    let mut long = vec![in alloc; 7u8; 70_000]?;
    long.extend_from_slice(b"abcd")?;
    Ok(long)
}

// Whether a file of this name is written in three pieces.
fn is_written(rt: &HostRuntime, name: &str, long: &[u8]) -> Result<bool, Fail> {
    let mut out = RealSink::new(fs::create(rt, name)?);
    let (front, back) = long.split_at(long.len() / 2);
    Ok(out.put(front) == Ok(()) && out.put(b"") == Ok(()) && out.put(back) == Ok(()))
}

// Fetches of it.
const OF_LONG: [Fetch; 4] = [
    (70_003, Err(FetchFault::TooLong)),
    (70_004, Ok(true)),
    (usize::MAX, Ok(true)),
    (0, Err(FetchFault::TooLong)),
];

// Whether it is read back.
fn is_read(rt: &HostRuntime, name: &str, long: &[u8]) -> bool {
    let mut shelf = RealShelf::new(rt.alloc(), rt);
    let is_read = are_fetched(rt.alloc(), &mut shelf, name, &OF_LONG, long);
    drop(shelf);
    is_read
}

// Whether it is written and read back, and can then be removed.
fn are_kept(rt: &HostRuntime, name: &str, long: &[u8]) -> Result<bool, Fail> {
    let are_kept = is_written(rt, name, long)? && is_read(rt, name, long);
    fs::remove_file(rt, name)?;
    Ok(are_kept)
}

// Whether the long one is.
fn is_kept(rt: &HostRuntime, name: &str) -> Result<bool, Fail> {
    let long = long_bytes(rt.alloc())?;
    let are_kept = are_kept(rt, name, &long);
    drop(long);
    are_kept
}

// A path of this process's own.
fn own_path(rt: &HostRuntime) -> Result<PathBuf, Fail> {
    let mut path = env::temp_dir(rt)?;
    let file = format!(in rt.alloc(); "asg_io-a_real_file-{}", process::id(rt.process()))?;
    path.push(file.as_str())?;
    Ok(path)
}

// Whether a file is kept there; so too where the path is no text.
fn keeps_a_file(rt: &HostRuntime) -> Result<bool, Fail> {
    let path = own_path(rt)?;
    match path.to_str() {
        Some(name) => is_kept(rt, name),
        None => Ok(true),
    }
}

#[test]
fn a_real_file(rt: HostRuntime) -> Result<(), Fail> {
    assert!(rt; keeps_a_file(&rt)?);
    Ok(())
}
