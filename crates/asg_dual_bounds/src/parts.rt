//! Parts and dual variables, lent.

/// A part of the answers: the rows before `row` have their columns, `row` takes none of the banned
/// ones, and later rows are free.
#[derive(Clone, Copy)]
pub struct Part<'a> {
    pub columns: &'a [u32],
    pub row: usize,
    pub banned: &'a [u32],
}

/// Dual variables: by how much each row falls and each column rises, and how much each column rises
/// at least.
#[derive(Clone, Copy)]
pub struct Duals<'a> {
    pub falls: &'a [u64],
    pub rises: &'a [u64],
    pub floor: u64,
}
