//! Tests of `asg_app`: what only a shelf and a sink in memory can show, and statuses.

mod fault_tests;
mod runs;
mod status_tests;
