//! The commands: each makes a reply of a job, its instance and the contents of its other files, or
//! of the numbers of an instance that is to be made.
//!
//! The stages before a command are here too: the instance's file is read and gets the job's options,
//! and the script is read and tried. Of a request to edit, which writes its documents as it makes
//! them, this crate reads the files and opens the editor. It knows neither shelf nor sink, and
//! serves `asg_app` alone.
#![tactic(auto)]

mod check;
mod editors;
mod instances;
mod judge;
mod make;
mod rank;
mod scripts;
mod solve;
mod sources;
mod stages;
mod stops;

pub use editors::{Work, started};
pub use make::made_reply;
pub use sources::Sources;
pub use stages::job_reply;
pub use stops::{Stop, stop_reply};
