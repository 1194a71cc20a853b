//! What is known of labels that stand side by side.

/// What is known of the labels of columns of a square that stand side by side.
#[derive(Clone, Copy)]
pub(crate) enum Labelling {
    /// Each column is the only copy of the column at its place.
    Plain,
    /// Each two columns are the copies of the column at half their place.
    Twice,
    /// No column is a copy.
    Extra,
    /// Nothing.
    Mixed,
}
