//! Whether a phase is admitted from a square without some cells.

ghost use Rattle.std.specs.Prelude.{◌≡◌, ◌↔◌, ◌<◌, ℕ, length, All, IsTrue};
ghost use Rattle.asg_admit.specs.Admission.{AllowsRow, AllowsRows};
ghost use Rattle.asg_admit.specs.Reduced.{phase_of};
ghost use Rattle.asg_admit.specs.Settling.{HasValueAt};
ghost use Rattle.asg_order.specs.Monoid.{IsValue};
ghost use Rattle.asg_proof.specs.Phases.{IsAdmittedPhase};
ghost use Rattle.asg_proof.specs.Steps.{HasValues};
ghost use Rattle.asg_square.specs.Grid.{cell_at};
ghost use Rattle.asg_square.specs.Masked.{masked_grid};

use crate::admission::is_over;
use crate::row_cells::cells_allow;
use asg_order::DMonoid;
use asg_square::Square;

// As many words of 64 bits as the columns of the greatest square need.
const MOST_WORDS: usize = 32;

/// Whether a phase is admitted from the square without the cells that rows of bits don't keep: bit
/// `c % 64` of word `c / 64` of a row says whether the cell in column `c` is kept, and each row has
/// as many words as its columns need, row by row; where one lacks, no cell of its columns is kept.
/// The square stays as it is. It takes no memory, and rows that never enter aren't looked at.
pub fn admits_within<M: DMonoid>(
    m: &M,
    square: &Square<M::Value>,
    kept: &[u64],
    steps: &[M::Value],
    enters: &[u32],
    leaves: &[u32],
) -> bool
    requires { HasValues (M.monoid_of m.now) square.now.side
        (cell_at (masked_grid square.now kept.now)) }
    ensures { let phase = phase_of steps.now enters.now leaves.now in
        IsTrue result ↔ IsAdmittedPhase (M.monoid_of m.now) (M.difference m.now) square.now.side
        phase (cell_at (masked_grid square.now kept.now)) }
{
    if !is_over(m, square, steps, enters, leaves) {
        return false;
    }
    kept_rows_allow(m, square, kept, steps, enters, leaves)
}

// Whether each kept cell of each row allows the steps.
fn kept_rows_allow<M: DMonoid>(
    m: &M,
    square: &Square<M::Value>,
    kept: &[u64],
    steps: &[M::Value],
    enters: &[u32],
    leaves: &[u32],
) -> bool
    requires values { All (IsValue (M.monoid_of m.now)) steps.now }
    requires enters { length enters.now ≡ square.now.side }
    requires leaves { length leaves.now ≡ square.now.side }
    requires cells { HasValues (M.monoid_of m.now) square.now.side
        (cell_at (masked_grid square.now kept.now)) }
    ensures { let phase = phase_of steps.now enters.now leaves.now in
        IsTrue result ↔ AllowsRows (M.monoid_of m.now) (M.difference m.now) phase
        (masked_grid square.now kept.now) }
{
    for row in 0..square.side() {
        if !kept_row_allows(m, square, kept, steps, leaves, row, enters[row as usize]) {
            return false;
        }
    }
    true
}

// Whether each kept cell of a row allows the steps; none is met where the row never enters.
fn kept_row_allows<M: DMonoid>(
    m: &M,
    square: &Square<M::Value>,
    kept: &[u64],
    steps: &[M::Value],
    leaves: &[u32],
    row: u32,
    enter: u32,
) -> bool
    requires values { All (IsValue (M.monoid_of m.now)) steps.now }
    requires leaves { length leaves.now ≡ square.now.side }
    requires row { row < square.now.side }
    requires cells { (k : ℕ) → k < square.now.side
        → HasValueAt (M.monoid_of m.now) (masked_grid square.now kept.now) row k }
    ensures { IsTrue result ↔ AllowsRow (M.monoid_of m.now) (M.difference m.now) steps.now enter
        leaves.now (masked_grid square.now kept.now) row }
{
    if enter as usize >= steps.len() {
        return true;
    }
    square.side();
    let mut room = [0u64; MOST_WORDS];
    let words = &mut room[..leaves.len().div_ceil(64)];
    square.kept_words(row, kept, words);
    let values = square.row_values(row);
    cells_allow(m, values, words, steps, leaves, enter)
}
