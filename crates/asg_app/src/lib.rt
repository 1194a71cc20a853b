//! The program's top call: from the words of a command line to the bytes written.
//!
//! A run reads the words, fetches the files that they name, makes a reply by the job's command
//! (`asg_commands`) and puts it; a request to edit writes each document as it is made. Contracts see
//! the words, what the shelf tells of the files, the bytes that the sink tells, and the status:
//! `Due` (`asg_promises`) says which status and which text are due. It serves the program alone.
#![tactic(auto)]

mod answers;
mod edits;
mod files;
mod program;
mod replies;
mod requests;

pub use asg_answers::Status;
pub use program::run;
