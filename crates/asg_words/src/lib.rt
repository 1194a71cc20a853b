//! The words of a command line, and the request that they make.
//!
//! One simple command of `clap` takes the words: a command's name, the words after it, five options
//! and a flag. Which command a name is, how many words follow it, which options go with it, and how
//! numbers are spelled and bounded, is tested over the words that were found, each in its place.
//! Contracts see the words as lists of bytes and a request as a value, so that `parse` answers by a
//! function of the words. It serves the program's top call, which fetches the files that a request
//! names.
#![tactic(auto)]

mod command_line;
mod file_names;
mod found_lists;
mod found_requests;
mod found_words;
mod jobs;
pub mod laws;
mod limits;
mod named;
mod numbers;
mod options;
mod parsing;
mod requests;

pub use file_names::FileName;
pub use found_lists::FoundWords;
pub use found_requests::request;
pub use parsing::parse;
pub use requests::{Job, Request, Task, WordsRefusal};
