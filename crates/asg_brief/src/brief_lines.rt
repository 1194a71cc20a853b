//! Brief lines as bytes.

ghost use Rattle.std.specs.Prelude.{◌≡◌};

use std::marker::Model;

/// A brief line, with its end.
#[derive(Drop)]
pub struct BriefLine {
    bytes: Vec<u8>,
}

impl Model for BriefLine {
    ghost use Rattle.std.specs.Prelude.{List, ℕ};

    ghost Value = { List ℕ };

    ghost view = { λ line. line.bytes.items };
}

impl BriefLine {
    // The line of these bytes.
    pub(crate) fn of(bytes: Vec<u8>) -> BriefLine
        ensures { result ≡ bytes.items }
    {
        BriefLine { bytes }
    }

    /// The bytes of the line, the last of them an LF.
    pub fn as_bytes(&self) -> &[u8]
        ensures { result.now ≡ self.now }
    {
        self.bytes.as_slice()
    }
}
