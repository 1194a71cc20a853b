//! The program: the words after its name, the files of the file system, and the standard output.
#![tactic(auto)]

use asg_app::{Status, run};
use asg_io::{RealShelf, RealSink};
use std::process::ExitCode;
use std::rt::Env;
use std::{env, io};

// The words after the program's name. The error says that memory was wanting, or that a word isn't
// UTF-8.
fn words_after_name(rt: &(impl Env + AllocGlobal)) -> io::Result<Vec<String>> {
    let mut words = env::args(rt)?;
    let _name = words.next();
    Ok(words.collect(rt.alloc())?)
}

// How the program ends where its words can't be taken.
fn untaken(error: &io::Error) -> Status {
    if error.kind() == io::ErrorKind::OutOfMemory {
        Status::NoMemory
    } else {
        Status::Usage
    }
}

// The size of the largest block after whose release the C library keeps what is released for blocks
// to come, and maps none by itself.
const KEPT: usize = (32 << 20) - (1 << 16);

// Takes such a block, and releases it untouched, so that memory that was released is used again:
// a page that is new costs more than the cells that stand in it.
fn keep_memory(rt: &impl AllocGlobal) {
    if let Ok(block) = Vec::<u8>::with_capacity(rt.alloc(), KEPT) {
        drop(block);
    }
}

// How many bytes of the stack a run is given before it begins: more than all its frames take.
const STACK: usize = 5 << 16;

// The size of a page of memory.
const PAGE: usize = 4096;

// Goes down the stack by so many pages, and tells a byte of the one that it began with, which isn't
// 0. It writes that page before it goes on, and reads it by what the pages below told, so that no
// compiler leaves one out.
fn page_byte(pages: usize) -> u8 {
    let mut page = [1u8; PAGE];
    page[pages % PAGE] = 3;
    if pages == 0 {
        return page[0];
    }
    let below = page_byte(pages - 1);
    page[(usize::from(below) * 16).wrapping_add(pages) % PAGE]
}

// Takes the stack of a run, and tells whether it could be had. A program ends by a signal where its
// stack can't grow, so as much memory is taken first, and released untouched.
fn has_stack(rt: &impl AllocGlobal) -> bool {
    match Vec::<u8>::with_capacity(rt.alloc(), STACK) {
        Ok(block) => {
            drop(block);
            page_byte(STACK / PAGE) != 0
        }
        Err(_) => false,
    }
}

fn main(rt: HostRuntime) -> ExitCode {
    keep_memory(&rt);
    let status = match words_after_name(&rt) {
        Ok(words) => {
            if has_stack(&rt) {
                let mut shelf = RealShelf::new(rt.alloc(), &rt);
                let mut out = RealSink::new(io::writer(&rt));
                run(rt.alloc(), &words, &mut shelf, &mut out)
            } else {
                Status::NoMemory
            }
        }
        Err(error) => untaken(&error),
    };
    ExitCode::from(status.code())
}
