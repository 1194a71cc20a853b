//! The words that hold windows which follow each other.

ghost use Rattle.std.specs.Prelude.{◌≡◌, ℕ, ◌-◌, ◌/◌, ◌%◌, ◌<◌, ◌≤◌};
ghost use Rattle.asg_bit_rows.specs.WordBits.{HasBit};
ghost use Rattle.asg_hall_windows.specs.Stretches.{HasWords};

use asg_bit_rows::first_bits;

/// The first and the last word that hold windows, and the bits of these windows in each of the two.
#[derive(Clone, Copy)]
pub(crate) struct Span {
    pub(crate) first: u32,
    pub(crate) last: u32,
    pub(crate) low: u64,
    pub(crate) high: u64,
}

// All bits of a word but these.
fn other_bits(bits: u64) -> u64
    ensures { (k : ℕ) → k < 64 → (HasBit bits k → ⊥) → HasBit result k }
{
    !bits
}

// The bits of the windows before one in the word of the last of them.
fn high_bits(to: u32) -> u64
    requires { 0 < to }
    ensures { (w : ℕ) → w < to → w / 64 ≡ (to - 1) / 64 → HasBit result (w % 64) }
{
    first_bits(((to - 1) % 64 + 1) as usize)
}

// The bits of the windows from one on and before another in the word of the first of them.
fn low_bits(from: u32, to: u32) -> u64
    requires { from < to }
    ensures { (w : ℕ) → from ≤ w → w < to → w / 64 ≡ from / 64 → HasBit result (w % 64) }
{
    let low = other_bits(first_bits((from % 64) as usize));
    if from / 64 == (to - 1) / 64 {
        return low & high_bits(to);
    }
    low
}

impl Span {
    // The words that hold the windows from one on and before another.
    pub(crate) fn of(from: u32, to: u32) -> Span
        requires { from < to }
        ensures { HasWords result from to }
    {
        Span {
            first: from / 64,
            last: (to - 1) / 64,
            low: low_bits(from, to),
            high: high_bits(to),
        }
    }
}
