//! The formats of input files.

/// The format of an input file.
#[derive(Clone, Copy, Debug, PartialEq, Eq)]
pub enum Format {
    /// DIMACS asn: a problem line, node lines and arc lines.
    Asn,
    /// A size, and the cells of a square row by row.
    Square,
    /// Two sizes, and the cells of a table row by row.
    Rect,
}
