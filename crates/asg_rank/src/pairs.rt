//! Pairs of values, the second of which may not have been made.

ghost use Rattle.std.specs.Prelude.{◌≡◌, IfOk, Ok};

use crate::NoMemory;

/// Both values, where the second one was made; else the first one is let go. The error is want of
/// memory.
pub(crate) fn both<A: Drop, B: Drop>(
    first: A,
    second: Result<B, NoMemory>,
) -> Result<(A, B), NoMemory>
    ensures { IfOk result (λ made. (made.0 ≡ first) × (second ≡ Ok made.1)) }
{
    let second = second?;
    Ok((first, second))
}
