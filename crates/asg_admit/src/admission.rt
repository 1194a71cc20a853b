//! Whether a phase is admitted.

ghost use Rattle.std.specs.Prelude.{◌≡◌, ◌↔◌, ◌<◌, ◌/◌, ℕ, length, All, IsTrue};
ghost use Rattle.asg_admit.specs.Admission.{AllowsRow, AllowsRows, IsPhaseOver, cell_in_row};
ghost use Rattle.asg_admit.specs.Reduced.{phase_of};
ghost use Rattle.asg_admit.specs.Settling.{HasValueAt};
ghost use Rattle.asg_order.specs.Monoid.{IsValue};
ghost use Rattle.asg_proof.specs.Phases.{IsAdmittedPhase};
ghost use Rattle.asg_proof.specs.Steps.{HasValues};
ghost use Rattle.asg_bit_rows.specs.BitTable.{is_bit_set};
ghost use Rattle.asg_square.specs.Grid.{cell_at};

use crate::counting::are_counted;
use crate::row_cells::cells_allow;
use asg_order::DMonoid;
use asg_square::Square;

/// Whether a phase is admitted from the square: the lists are over the rows and the columns, each
/// step is a value, and each step in turn has one more row and column than the side and is at most
/// each present cell of both. It takes no memory.
pub fn admits<M: DMonoid>(
    m: &M,
    square: &Square<M::Value>,
    steps: &[M::Value],
    enters: &[u32],
    leaves: &[u32],
) -> bool
    requires { HasValues (M.monoid_of m.now) square.now.side (cell_at square.now) }
    ensures { let phase = phase_of steps.now enters.now leaves.now in
        IsTrue result ↔ IsAdmittedPhase (M.monoid_of m.now) (M.difference m.now) square.now.side
        phase (cell_at square.now) }
{
    if !is_over(m, square, steps, enters, leaves) {
        return false;
    }
    rows_allow(m, square, steps, enters, leaves)
}

/// Whether the lists are those of a phase over the square, whatever its cells.
pub fn is_over<M: DMonoid>(
    m: &M,
    square: &Square<M::Value>,
    steps: &[M::Value],
    enters: &[u32],
    leaves: &[u32],
) -> bool
    ensures { let phase = phase_of steps.now enters.now leaves.now in
        IsTrue result ↔ IsPhaseOver (M.monoid_of m.now) square.now.side phase }
{
    let side = square.side() as usize;
    if enters.len() != side {
        return false;
    }
    if leaves.len() != side {
        return false;
    }
    if !are_values(m, steps) {
        return false;
    }
    are_counted(enters, leaves, steps.len())
}

/// Whether each of the values is one of the monoid.
pub fn are_values<M: DMonoid>(m: &M, steps: &[M::Value]) -> bool
    ensures { IsTrue result ↔ All (IsValue (M.monoid_of m.now)) steps.now }
{
    for t in 0..steps.len() {
        if !m.is_value(steps[t]) {
            return false;
        }
    }
    true
}

// Whether each cell of each row allows the steps.
fn rows_allow<M: DMonoid>(
    m: &M,
    square: &Square<M::Value>,
    steps: &[M::Value],
    enters: &[u32],
    leaves: &[u32],
) -> bool
    requires values { All (IsValue (M.monoid_of m.now)) steps.now }
    requires enters { length enters.now ≡ square.now.side }
    requires leaves { length leaves.now ≡ square.now.side }
    requires cells { HasValues (M.monoid_of m.now) square.now.side (cell_at square.now) }
    ensures { let phase = phase_of steps.now enters.now leaves.now in
        IsTrue result ↔ AllowsRows (M.monoid_of m.now) (M.difference m.now) phase square.now }
{
    for row in 0..square.side() {
        if !row_allows(m, square, steps, leaves, row, enters[row as usize]) {
            return false;
        }
    }
    true
}

// Whether each cell of a row allows the steps; none is met where the row never enters.
fn row_allows<M: DMonoid>(
    m: &M,
    square: &Square<M::Value>,
    steps: &[M::Value],
    leaves: &[u32],
    row: u32,
    enter: u32,
) -> bool
    requires values { All (IsValue (M.monoid_of m.now)) steps.now }
    requires leaves { length leaves.now ≡ square.now.side }
    requires row { row < square.now.side }
    requires cells { (k : ℕ) → k < square.now.side
        → HasValueAt (M.monoid_of m.now) square.now row k }
    ensures { IsTrue result ↔ AllowsRow (M.monoid_of m.now) (M.difference m.now) steps.now enter
        leaves.now square.now row }
{
    if enter as usize >= steps.len() {
        return true;
    }
    square.side();
    let words = square.row_words(row);
    let values = square.row_values(row);
    cells_allow(m, values, words, steps, leaves, enter)
}

// The cell at a column, by the values of a row and the words that say which of them are present.
#[inline]
pub(crate) fn stored_cell<V: Copy>(values: &[V], words: &[u64], column: usize) -> Option<V>
    requires values { column < length values.now }
    requires words { column / 64 < length words.now }
    ensures { result ≡ cell_in_row values.now words.now column }
{
    if is_set(words[column / 64], column % 64) {
        Some(values[column])
    } else {
        None
    }
}

// Whether a bit of a word is set.
#[inline]
fn is_set(word: u64, bit: usize) -> bool
    requires { bit < 64 }
    ensures { result ≡ is_bit_set word bit }
{
    word >> bit & 1 == 1
}
