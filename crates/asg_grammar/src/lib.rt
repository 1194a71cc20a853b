//! Parts of a text of lines, and what their readers are made of: a cursor over the lines of a file,
//! cuts of bytes, and numbers in their one spelling.
//!
//! Contracts see a file as the list of its whole lines, and a part of a text as the lines of a
//! value. Parts are made of others by sequence, where the later part may depend on the earlier
//! value, by counted repetition, and by choice on a first line. A reader of a part gives the value
//! whose lines stand next, or stops before the line with which no text of the part goes on; what
//! holds of readers of parts holds of readers of what is made of them. The crate serves the readers
//! of documents.
#![tactic(auto)]

mod byte_cuts;
mod faults;
mod fields;
mod line_cursor;
mod list_lines;
mod number_lists;
mod numerals;

pub use byte_cuts::{after, cut};
pub use faults::{Fault, Refusal};
pub use fields::{graded, next_graded, next_long, numbers, pair, positive, signed_pair};
pub use line_cursor::{Lines, count_ends};
pub use number_lists::Numbers;
pub use numerals::{number, signed_number, wide_number};
