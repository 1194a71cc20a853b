//! Single steps.

ghost use Rattle.std.specs.Prelude.{◌≡◌, ◌<◌, ℕ, List, length};
ghost use Rattle.std.specs.Option.{option_map};
ghost use Rattle.asg_admit.specs.Reduced.{IsReduced, KeepsLabels};
ghost use Rattle.asg_admit.specs.Settling.{IsWritten, HasValueAt, StepsRow};
ghost use Rattle.asg_order.specs.Monoid.{IsValue};
ghost use Rattle.asg_proof.specs.Phases.{entered_at, staying_at};
ghost use Rattle.asg_proof.specs.Steps.{HasValues, IsAdmittedStep, assignment_fold, moved, stepped};
ghost use Rattle.asg_square.specs.Cells.{IsAssignment};
ghost use Rattle.asg_square.specs.Grid.{cell_at};

use crate::reduced::Reduced;
use asg_order::DMonoid;
use asg_proof::laws::step_law;
use asg_square::Square;

/// Applies one admitted step by c, and multiplies the index by c: with I the rows whose enter is at
/// most t and J the columns whose leave is greater than t, each present cell of both becomes its
/// difference from c, and each present cell of neither its product with c. Each perfect assignment
/// then has c less: its product before is c times its product afterwards. It takes no memory.
pub fn step<M: DMonoid>(
    m: &M,
    reduced: &mut Reduced<M::Value>,
    enters: &[u32],
    leaves: &[u32],
    t: u32,
    c: M::Value,
)
    requires reduced { IsReduced (M.monoid_of m.now) reduced.old }
    requires enters { length enters.now ≡ reduced.old.now.side }
    requires leaves { length leaves.now ≡ reduced.old.now.side }
    requires admitted { IsAdmittedStep (M.monoid_of m.now) reduced.old.now.side
        (entered_at enters.now t) (staying_at leaves.now t) c (cell_at reduced.old.now) }
    ensures cells { (r k : ℕ) → cell_at reduced.new.now r k
        ≡ stepped (M.monoid_of m.now) (M.difference m.now)
        (entered_at enters.now t) (staying_at leaves.now t) c (cell_at reduced.old.now) r k }
    ensures index { reduced.new.index ≡ (M.monoid_of m.now).product reduced.old.index c }
    ensures labels { KeepsLabels reduced.old.now reduced.new.now }
    ensures reduced { IsReduced (M.monoid_of m.now) reduced.new }
    ensures law { let monoid = M.monoid_of m.now in
        let side = reduced.old.now.side in
        (p : List ℕ) → IsAssignment (cell_at reduced.old.now) side p
        → assignment_fold monoid side (cell_at reduced.old.now) p
        ≡ monoid.product c (assignment_fold monoid side (cell_at reduced.new.now) p) }
{
    step_law(m);
    reduced.now.side();
    step_rows(m, &mut reduced.now, enters, leaves, t as usize, c);
    reduced.index = m.op(reduced.index, c);
    reduced.now.side();
}

// Steps each row.
pub(crate) fn step_rows<M: DMonoid>(
    m: &M,
    square: &mut Square<M::Value>,
    enters: &[u32],
    leaves: &[u32],
    t: usize,
    c: M::Value,
)
    requires enters { length enters.now ≡ square.old.side }
    requires leaves { length leaves.now ≡ square.old.side }
    requires step { IsValue (M.monoid_of m.now) c }
    requires cells { HasValues (M.monoid_of m.now) square.old.side (cell_at square.old) }
    ensures labels { KeepsLabels square.old square.new }
    ensures cells { (r k : ℕ) → r < square.old.side → k < square.old.side → cell_at square.new r k
        ≡ stepped (M.monoid_of m.now) (M.difference m.now)
        (entered_at enters.now t) (staying_at leaves.now t) c (cell_at square.old) r k }
{
    for row in 0..square.side() {
        step_row(
            m,
            square,
            leaves,
            t,
            c,
            row,
            enters[row as usize] as usize <= t,
        );
    }
}

// Steps the cells of a row.
fn step_row<M: DMonoid>(
    m: &M,
    square: &mut Square<M::Value>,
    leaves: &[u32],
    t: usize,
    c: M::Value,
    row: u32,
    entered: bool,
)
    requires leaves { length leaves.now ≡ square.old.side }
    requires step { IsValue (M.monoid_of m.now) c }
    requires row { row < square.old.side }
    requires cells { (k : ℕ) → k < square.old.side
        → HasValueAt (M.monoid_of m.now) square.old row k }
    ensures { StepsRow (M.monoid_of m.now) (M.difference m.now) c entered (staying_at leaves.now t)
        square.old square.new row }
{
    for column in 0..square.side() {
        step_cell(
            m,
            square,
            c,
            row,
            column,
            entered,
            t < leaves[column as usize] as usize,
        );
    }
}

// Steps one cell.
#[inline]
fn step_cell<M: DMonoid>(
    m: &M,
    square: &mut Square<M::Value>,
    c: M::Value,
    row: u32,
    column: u32,
    entered: bool,
    stays: bool,
)
    requires step { IsValue (M.monoid_of m.now) c }
    requires row { row < square.old.side }
    requires column { column < square.old.side }
    requires value { HasValueAt (M.monoid_of m.now) square.old row column }
    ensures { IsWritten square.old square.new row column
        (option_map (moved (M.monoid_of m.now) (M.difference m.now) entered stays c)
        (cell_at square.old row column)) }
{
    square.side();
    if entered != stays {
        return;
    }
    if let Some(x) = square.at(row, column) {
        let value = moved_value(m, c, x, entered);
        square.set(row, column, Some(value));
    }
}

// A value after a step, where its row has entered and its column stays, or neither.
#[inline]
fn moved_value<M: DMonoid>(m: &M, c: M::Value, x: M::Value, entered: bool) -> M::Value
    requires step { IsValue (M.monoid_of m.now) c }
    requires value { IsValue (M.monoid_of m.now) x }
    ensures { result ≡ moved (M.monoid_of m.now) (M.difference m.now) entered entered c x }
{
    if entered { m.diff(x, c) } else { m.op(c, x) }
}
