//! Cuts of a list of bytes.

ghost use Rattle.std.specs.Prelude.{◌≡◌, ◌++◌, ℕ, List, MatchOption};
ghost use Rattle.asg_grammar.specs.Lines.{Lacks, IsCutAt};

/// Cuts at the first such byte: what stands before it, and the rest from it on. Where there is
/// none, the rest is empty.
pub fn cut(at: u8, bytes: &[u8]) -> (&[u8], &[u8])
    ensures whole { bytes.now ≡ result.0.now ++ result.1.now }
    ensures front { Lacks at result.0.now }
    ensures rest { IsCutAt at result.1.now }
{
    let end = bytes
        .iter()
        .position(|byte| *byte == at)
        .unwrap_or(bytes.len());
    bytes.split_at(end)
}

/// What follows the bytes that come first; none where others do.
pub fn after<'a>(front: &[u8], bytes: &'a [u8]) -> Option<&'a [u8]>
    ensures { MatchOption result ((rest : List ℕ) → bytes.now ≡ front.now ++ rest → ⊥)
        (λ rest. bytes.now ≡ front.now ++ rest.now) }
{
    bytes.strip_prefix(front)
}
