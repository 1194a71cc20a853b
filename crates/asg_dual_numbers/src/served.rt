//! What serving a row that waits for a column comes to.

/// What became of a waiting row.
#[derive(Clone, Copy)]
pub enum Served {
    /// It has a column, and no other row lost it.
    Alone,
    /// It has a column at once at less than the next, and this row lost it.
    Ahead(u32),
    /// It has a column, or waits itself, and this row is to wait for the next pass.
    Tied(u32),
}
