//! The spread of an assignment.

ghost use Rattle.std.specs.Prelude.{◌≡◌, ℕ, ◌<◌, Option};
ghost use Rattle.asg_square.specs.Grid.{IsPerm};
ghost use Rattle.asg_window.specs.Assignments.{IsSpread};
ghost use Rattle.asg_window.specs.Extremes.{AreExtremes, IsOneMore};

use asg_square::Square;

// The least and the greatest grade of some live cells.
#[derive(Clone, Copy)]
struct Extremes {
    least: u32,
    greatest: u32,
}

// These extremes, and one more cell.
fn with(extremes: Extremes, cell: Option<u32>) -> Extremes
    ensures { IsOneMore extremes cell result }
{
    match cell {
        Some(grade) if grade > 0 => Extremes {
            least: extremes.least.min(grade),
            greatest: extremes.greatest.max(grade),
        },
        _ => extremes,
    }
}

/// How far the grades of the live cells of an assignment lie apart at most; 0 where it has none.
pub(crate) fn spread_of(square: &Square<u32>, perm: &[u32]) -> u32
    requires { IsPerm square.now perm.now }
    ensures { IsSpread square.now perm.now result }
{
    let mut extremes = Extremes {
        least: u32::MAX,
        greatest: 0,
    };
    for row in 0..square.side() {
        extremes = with(extremes, square.at(row, perm[row as usize]));
    }
    extremes.greatest.saturating_sub(extremes.least)
}
