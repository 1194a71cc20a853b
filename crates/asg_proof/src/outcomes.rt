//! What a solving call gives.

use crate::column_lists::Columns;
use crate::levels::Levels;
use crate::phase_lists::Phases;
use crate::row_ids::Ids;
use crate::windows::Windows;
use asg_model::Choice;

/// What shows that a choice is best.
#[derive(Drop)]
pub enum Proof {
    /// For the algebraic objectives: phases that are admitted in turn from the square of the
    /// instance, and whose index is the product of the choice's entered costs.
    Phases(Phases),
    /// For the two bottleneck objectives: rows that are a Hall set of the cells whose costs are
    /// strictly better than the value.
    Below(Ids),
    /// For `balanced`: windows whose rows are Hall sets of their bands, and of which, where the
    /// value d is above 0, for each cost v of a live cell one holds the costs from v to v + d - 1.
    Windows(Windows),
    /// For `lex`: a perfect assignment of the square, as the column of each row, and levels that
    /// say how many of its cells have which cost, from the greatest cost down, with what proves
    /// each count.
    Levels { perm: Columns, levels: Levels },
}

/// What a solving call gives.
#[derive(Drop)]
pub enum Outcome {
    /// A best choice, and what shows that it is best.
    Best { choice: Choice, proof: Proof },
    /// No choice is valid: the rows are a Hall set.
    Nothing { rows: Ids },
}
