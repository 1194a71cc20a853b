//! Statuses by their numbers and in words.

use asg_app::Status;
use std::alloc::{AllocError, Global};
use std::test::Fail;

// Whether a status is told in these words.
fn is_told(alloc: Global, status: Status, words: &str) -> Result<bool, AllocError> {
    let told = format!(in alloc; "{status}")?;
    Ok(told.as_str() == words)
}

#[test]
fn a_status_in_words(rt: HostRuntime) -> Result<(), Fail> {
    assert!(rt; is_told(rt.alloc(), Status::No, "a document doesn't certify")?);
    assert!(rt; Status::TooLong.code() == 10);
    Ok(())
}
