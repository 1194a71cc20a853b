//! Why a text is refused.

ghost use Rattle.std.specs.Prelude.{◌≡◌};

use std::alloc::{AllocError, AllocFailed};
use std::fmt;

/// Why a text isn't read. Lines and tokens count from 1. The variants before `NoMemory` have the
/// numbers 1 to 12, in this order.
#[derive(Clone, Copy, PartialEq, Eq)]
pub enum TextRefusal {
    /// An asn file has no problem line.
    NoProblemLine,
    /// This line of an asn file is a second problem line.
    SecondProblemLine(u64),
    /// This line of an asn file has no form, or stands before the problem line.
    BadLine(u64),
    /// This node line has another form, its node is out of range, or an earlier arc goes to it.
    BadNode(u64),
    /// This arc line has another form, its nodes are out of range, or it doesn't go from a source
    /// to a node that is none.
    BadArc(u64),
    /// A cost below -10^9 or above 10^9, at this line of an asn file, else at this token.
    CostRange(u64),
    /// The arc of this line differs in its cost from an earlier one.
    ArcTwice(u64),
    /// An asn file states so many arcs, and has so many arc lines.
    ArcCount(u64, u64),
    /// So many rows and columns, one of them above 1,000.
    TooLarge(u64, u64),
    /// No row.
    NoRows,
    /// So many tokens were expected, of the header or of cells, and so many are there.
    TokenCount(u64, u64),
    /// This token has no form that may stand there.
    BadToken(u64),
    /// Memory ran out.
    NoMemory,
}

// What is said of a line.
fn say_of_line<W: fmt::Write>(f: &mut fmt::Formatter<W>, line: u64, words: &str) -> fmt::Result {
    write!(f, "line {line}: {words}")
}

// How many of these were told, and how many are there.
fn say_counts<W: fmt::Write>(
    f: &mut fmt::Formatter<W>,
    told: u64,
    words: &str,
    found: u64,
) -> fmt::Result {
    write!(f, "{told} {words}, {found} there")
}

impl fmt::Display for TextRefusal {
    fn fmt<W: fmt::Write>(&self, f: &mut fmt::Formatter<W>) -> fmt::Result {
        match *self {
            TextRefusal::NoProblemLine => f.write_str("there is no problem line"),
            TextRefusal::SecondProblemLine(line) => say_of_line(f, line, "a second problem line"),
            TextRefusal::BadLine(line) => say_of_line(
                f,
                line,
                "no line of this form may stand here",
            ),
            TextRefusal::BadNode(line) => say_of_line(f, line, "no node line may say this"),
            TextRefusal::BadArc(line) => say_of_line(f, line, "no arc line may say this"),
            TextRefusal::CostRange(place) => write!(f, "{place}: a cost out of range"),
            TextRefusal::ArcTwice(line) => say_of_line(f, line, "an earlier arc at another cost"),
            TextRefusal::ArcCount(told, found) => say_counts(f, told, "arcs are told", found),
            TextRefusal::TooLarge(rows, columns) => write!(
                f,
                "too large: {rows} rows, {columns} columns"
            ),
            TextRefusal::NoRows => f.write_str("there is no row"),
            TextRefusal::TokenCount(due, found) => say_counts(f, due, "tokens are due", found),
            TextRefusal::BadToken(token) => write!(
                f,
                "token {token} has no form that may stand here"
            ),
            TextRefusal::NoMemory => f.write_str("out of memory"),
        }
    }
}

impl From<AllocError> for TextRefusal {
    ghost use Rattle.asg_tokens.specs.declared.refusals.TextRefusal.TheVariants.{NoMemory};

    ghost from_gives = { λ _ refusal. refusal ≡ NoMemory };

    fn from(_: AllocError) -> TextRefusal {
        TextRefusal::NoMemory
    }
}

impl<T: Drop> From<AllocFailed<T>> for TextRefusal {
    ghost use Rattle.asg_tokens.specs.declared.refusals.TextRefusal.TheVariants.{NoMemory};

    ghost from_gives = { λ _ refusal. refusal ≡ NoMemory };

    fn from(_: AllocFailed<T>) -> TextRefusal {
        TextRefusal::NoMemory
    }
}
