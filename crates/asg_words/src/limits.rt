//! The limit of a number that the words give, beside those of instances and rankings.

// The greatest seed of a generated instance.
pub const MOST_SEED: u32 = 1_000_000;
