//! The cells of a row that are less than a value which allows all steps of a phase: what allows the
//! steps does so in every greater value, so these alone are left to be tested.

ghost use Rattle.std.specs.Prelude.{◌≡◌, ◌<◌, ◌≤◌, ◌+◌, ℕ, IsTrue, Some, IfSome, MatchOption, length, All, slice_get};
ghost use Rattle.std.specs.Int.{bit_at};
ghost use Rattle.asg_admit.specs.Settled.{AllowsAll};
ghost use Rattle.asg_model.specs.Limits.{most_side};
ghost use Rattle.asg_order.specs.Monoid.{IsLe, IsValue};

use crate::products::product_of;
use crate::replayed_cells::{cut, lessened};
use asg_order::DMonoid;
use asg_order::laws::differences;

// A value that allows all steps from the one at which a row enters on: their product, where that
// does so.
pub(crate) fn allowing<M: DMonoid>(m: &M, steps: &[M::Value], enter: u32) -> Option<M::Value>
    requires steps { All (IsValue (M.monoid_of m.now)) steps.now }
    ensures is_value { IfSome result (IsValue (M.monoid_of m.now)) }
    ensures allows { IfSome result
        (AllowsAll (M.monoid_of m.now) (M.difference m.now) steps.now enter) }
{
    differences(m);
    let end = steps.len();
    let from = cut(enter, end);
    let product = product_of(m, steps, from, end);
    match lessened(m, product, steps, from, end) {
        Some(_) => Some(product),
        None => None,
    }
}

// The bits of a word without those whose cells, which stand behind a place, are at least a value, if
// there is one.
#[inline]
pub(crate) fn bits_to_test<M: DMonoid>(
    m: &M,
    values: &[M::Value],
    first: usize,
    word: u64,
    least: Option<M::Value>,
) -> u64
    requires few { length values.now ≤ most_side }
    requires first { first ≤ length values.now }
    requires inside { (k : ℕ) → bit_at word k ≡ 1 → first + k < length values.now }
    requires values { (k : ℕ) (x : M.Value) → bit_at word k ≡ 1
        → slice_get values.now (first + k) ≡ Some x → IsValue (M.monoid_of m.now) x }
    requires least { IfSome least (IsValue (M.monoid_of m.now)) }
    ensures inside { (k : ℕ) → bit_at result k ≡ 1 → bit_at word k ≡ 1 }
    ensures others { (k : ℕ) (x : M.Value) → bit_at word k ≡ 1 → (bit_at result k ≡ 1 → ⊥)
        → slice_get values.now (first + k) ≡ Some x
        → MatchOption least ⊥ (λ y. IsLe (M.monoid_of m.now) y x) }
{
    match least {
        Some(y) => bits_below(m, values, first, word, y),
        None => word,
    }
}

// The bits of a word whose cells, which stand behind a place, aren't at least a value.
#[inline]
fn bits_below<M: DMonoid>(
    m: &M,
    values: &[M::Value],
    first: usize,
    word: u64,
    least: M::Value,
) -> u64
    requires least { IsValue (M.monoid_of m.now) least }
    requires few { length values.now ≤ most_side }
    requires first { first ≤ length values.now }
    requires inside { (k : ℕ) → bit_at word k ≡ 1 → first + k < length values.now }
    requires values { (k : ℕ) (x : M.Value) → bit_at word k ≡ 1
        → slice_get values.now (first + k) ≡ Some x → IsValue (M.monoid_of m.now) x }
    ensures inside { (k : ℕ) → bit_at result k ≡ 1 → bit_at word k ≡ 1 }
    ensures others { (k : ℕ) (x : M.Value) → bit_at word k ≡ 1 → (bit_at result k ≡ 1 → ⊥)
        → slice_get values.now (first + k) ≡ Some x → IsLe (M.monoid_of m.now) least x }
{
    let mut below = word;
    let mut rest = word;
    'bits: while rest != 0 {
        let k = rest.trailing_zeros();
        let column = first + k as usize;
        below = kept(below, k, !m.le(least, values[column]));
        rest &= !(1 << k);
    }
    below
}

// The word, without a bit that isn't to be kept.
#[inline]
fn kept(word: u64, bit: u32, is_kept: bool) -> u64
    requires { bit < 64 }
    ensures inside { (k : ℕ) → bit_at result k ≡ 1 → bit_at word k ≡ 1 }
    ensures others { (k : ℕ) → bit_at word k ≡ 1 → (k ≡ bit → IsTrue is_kept)
        → bit_at result k ≡ 1 }
{
    if is_kept { word } else { word & !(1 << bit) }
}
