//! Limits on instances, squares and files.

/// The greatest distance of a part of a cost from 0.
pub const MOST_COST: i64 = 1_000_000_000;

/// The greatest number of rows of an instance.
pub const MOST_ROWS: usize = 1_000;

/// The greatest number of columns of an instance.
pub const MOST_COLUMNS: usize = 1_000;

/// The greatest capacity of a column.
pub const MOST_CAPACITY: u32 = 1_000;

/// The greatest side of the square of an instance that is taken.
pub const MOST_SIDE: u32 = 2_000;

/// The greatest length of a file, in bytes.
pub const LONGEST_FILE: usize = 268_435_456;

/// The greatest cap of a capped sum.
pub const MOST_CAP: u64 = 1_000_000_000_000;

/// The greatest number of choices that are ranked.
pub const MOST_RANKED: u32 = 4_000_000;
