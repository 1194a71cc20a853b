//! Edits of an instance, and why they are refused.

ghost use Rattle.std.specs.Prelude.{◌≡◌};

use crate::parts::Cost;
use std::alloc::AllocError;
use std::fmt;

/// One edit of an instance. Rows and columns are named by their ids.
#[derive(Clone, Copy, PartialEq, Eq)]
pub enum Edit {
    /// The cell gets this cost, whether or not it had one.
    Cost { row: u32, col: u32, cost: Cost },
    /// The cell loses its cost.
    Forbid { row: u32, col: u32 },
    /// The row is dropped.
    DropRow { row: u32 },
    /// The column is closed.
    DropColumn { col: u32 },
}

/// Why an edit was refused. The variants before `NoMemory` have the numbers 1 to 7, in this order,
/// and are tested in it.
#[derive(Clone, Copy, PartialEq, Eq)]
pub enum EditRefusal {
    /// No row has the id.
    NoSuchRow,
    /// No column has the id.
    NoSuchColumn,
    /// The row was dropped.
    RowDropped,
    /// The column was closed.
    ColumnDropped,
    /// A part of the cost lies outside -10^9 to 10^9.
    CostRange,
    /// The only active row is to be dropped.
    LastRow,
    /// The objective refuses the cost.
    NegativeCost,
    /// There was not enough memory.
    NoMemory,
}

impl fmt::Display for EditRefusal {
    fn fmt<W: fmt::Write>(&self, f: &mut fmt::Formatter<W>) -> fmt::Result {
        f.write_str(match *self {
            EditRefusal::NoSuchRow => "no row has the id",
            EditRefusal::NoSuchColumn => "no column has the id",
            EditRefusal::RowDropped => "the row is dropped",
            EditRefusal::ColumnDropped => "the column is closed",
            EditRefusal::CostRange => "the cost is out of range",
            EditRefusal::LastRow => "no other row is active",
            EditRefusal::NegativeCost => "the objective refuses the cost",
            EditRefusal::NoMemory => "out of memory",
        })
    }
}

impl From<AllocError> for EditRefusal {
    ghost use Rattle.asg_model.specs.declared.edits.EditRefusal.TheVariants.{NoMemory};

    ghost from_gives = { λ _ refusal. refusal ≡ NoMemory };

    fn from(_: AllocError) -> EditRefusal {
        EditRefusal::NoMemory
    }
}
