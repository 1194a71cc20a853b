//! What a search finds.

/// An assignment with dual variables, as a search came to them: nothing of it is tested.
#[derive(Drop)]
pub struct Found {
    /// The column of each row.
    pub columns: Vec<u32>,
    /// The row of each column.
    pub rows: Vec<u32>,
    /// By how much each row may fall.
    pub falls: Vec<u64>,
    /// By how much each column may rise.
    pub rises: Vec<u64>,
}
