//! Whether the present cells of a row allow the steps of a phase.

ghost use Rattle.std.specs.Prelude.{◌≡◌, ◌↔◌, ◌<◌, ◌≤◌, ◌+◌, ◌*◌, ℕ, Some, length, All, IsTrue, slice_get, slice_index};
ghost use Rattle.std.specs.Int.{bit_at};
ghost use Rattle.asg_admit.specs.Admission.{AllowsAt, cell_in_row, is_marked};
ghost use Rattle.asg_model.specs.Limits.{most_side};
ghost use Rattle.asg_order.specs.Monoid.{IsValue};
ghost use Rattle.asg_bit_rows.specs.BitTable.{word_count};

use crate::lesser_cells::{allowing, bits_to_test};
use crate::replayed_cells::replay_cell;
use asg_order::DMonoid;
use asg_order::laws::differences;

// Whether the cells of a row that enters at this step allow the steps, by their values and the
// words that say which of them are present. Those that are at least a value which allows all steps
// take one comparison each.
pub(crate) fn cells_allow<M: DMonoid>(
    m: &M,
    values: &[M::Value],
    words: &[u64],
    steps: &[M::Value],
    leaves: &[u32],
    enter: u32,
) -> bool
    requires steps { All (IsValue (M.monoid_of m.now)) steps.now }
    requires leaves { length leaves.now ≡ length values.now }
    requires few { length values.now ≤ most_side }
    requires words { length words.now ≡ word_count (length values.now) }
    requires inside { (k : ℕ) → k < 64 * length words.now → IsTrue (is_marked words.now k)
        → k < length values.now }
    requires values { (k : ℕ) (x : M.Value) → cell_in_row values.now words.now k ≡ Some x
        → IsValue (M.monoid_of m.now) x }
    ensures { IsTrue result ↔ ((k : ℕ) → k < length leaves.now
        → AllowsAt (M.monoid_of m.now) (M.difference m.now) steps.now enter
        (slice_index leaves.now k) (cell_in_row values.now words.now k)) }
{
    differences(m);
    let least = allowing(m, steps, enter);
    for number in 0..words.len() {
        let first = 64 * number;
        let word = bits_to_test(m, values, first, words[number], least);
        if !bits_allow(m, values, first, word, steps, leaves, enter) {
            return false;
        }
    }
    true
}

// The same of the cells behind a place whose bits a word has.
#[inline]
fn bits_allow<M: DMonoid>(
    m: &M,
    values: &[M::Value],
    first: usize,
    word: u64,
    steps: &[M::Value],
    leaves: &[u32],
    enter: u32,
) -> bool
    requires steps { All (IsValue (M.monoid_of m.now)) steps.now }
    requires leaves { length leaves.now ≡ length values.now }
    requires few { length values.now ≤ most_side }
    requires first { first ≤ length values.now }
    requires inside { (k : ℕ) → bit_at word k ≡ 1 → first + k < length values.now }
    requires values { (k : ℕ) (x : M.Value) → bit_at word k ≡ 1
        → slice_get values.now (first + k) ≡ Some x → IsValue (M.monoid_of m.now) x }
    ensures { IsTrue result ↔ ((k : ℕ) → k < 64 → bit_at word k ≡ 1
        → AllowsAt (M.monoid_of m.now) (M.difference m.now) steps.now enter
        (slice_index leaves.now (first + k)) (slice_get values.now (first + k))) }
{
    let mut rest = word;
    'bits: while rest != 0 {
        let k = rest.trailing_zeros();
        let column = first + k as usize;
        let cell = Some(values[column]);
        if !cell_allows(m, cell, steps, enter, leaves[column]) {
            return false;
        }
        rest &= !(1 << k);
    }
    true
}

// Whether a cell allows the steps at which its row has entered and its column stays.
#[inline]
fn cell_allows<M: DMonoid>(
    m: &M,
    cell: Option<M::Value>,
    steps: &[M::Value],
    enter: u32,
    leave: u32,
) -> bool
    requires values { All (IsValue (M.monoid_of m.now)) steps.now }
    requires cell { (x : M.Value) → cell ≡ Some x → IsValue (M.monoid_of m.now) x }
    ensures { IsTrue result
        ↔ AllowsAt (M.monoid_of m.now) (M.difference m.now) steps.now enter leave cell }
{
    if leave <= enter {
        return true;
    }
    match cell {
        Some(x) => replay_cell(m, x, steps, enter, leave).is_some(),
        None => true,
    }
}
