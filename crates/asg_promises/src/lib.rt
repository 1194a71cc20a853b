//! What the program promises: which status and which text are due for the words of a command line
//! and the contents of the files that they name, and what that means.
//!
//! `Due` (`specs/Due.antt`) is the program's specification: the stages that all commands share, and
//! for each command a relation on the instance and the text. Laws say in the subject's words what
//! it comes to: each is the contract of a function that at most calls laws. The crate serves the
//! top call (`asg_app`), whose contract says that what is due is written.
#![tactic(auto)]

pub mod laws;
