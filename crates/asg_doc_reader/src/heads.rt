//! What the first line of a claim says, and that of a proof.

use asg_proof::Ids;

// What the status of a document says.
#[derive(Clone, Copy, Debug, PartialEq, Eq)]
pub(crate) enum Status {
    Best,
    Nothing,
    Ranked,
}

// What the first line of a proof says.
#[derive(Drop)]
pub(crate) enum ProofHead {
    Phases(u32),
    Below(Ids),
    Windows(u32),
    Levels(u32),
}
