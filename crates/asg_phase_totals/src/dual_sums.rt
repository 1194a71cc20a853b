//! Sums of steps, and dual variables raised by them.

ghost use Rattle.std.specs.Prelude.{◌≡◌, ◌<◌, ◌≤◌, ◌+◌, ◌^◌, ℕ, None, IfSome, length, min, slice_index};
ghost use Rattle.asg_phase_totals.specs.Duals.{AreSums, RaisesDuals, sum_before};

use crate::sum_numbers::SumNumber;
use asg_admit::cut;

/// For each place the sum of the steps before it.
pub fn sum_up<N: SumNumber>(steps: &[N], sums: &mut [N])
    requires room { length steps.now < length sums.old }
    requires fits { sum_before (N.numbers steps.now) (length steps.now) < N.width }
    ensures room { length sums.new ≡ length sums.old }
    ensures sums { AreSums (N.numbers steps.now) (N.numbers sums.new) }
{
    sums[0] = N::zero();
    for t in 0..steps.len() {
        sums[t + 1] = sums[t].plus(steps[t]);
    }
}

/// Raises each dual variable by the sum of the steps before its mark, all steps where that is past
/// them.
pub fn raise<N: SumNumber>(duals: &mut Vec<N>, steps: &[N], marks: &[u32], sums: &[N])
    requires room { length steps.now < length sums.now }
    requires sums { AreSums (N.numbers steps.now) (N.numbers sums.now) }
    requires marks { length marks.now ≡ length duals.old.items }
    requires fits { (i : ℕ) → i < length duals.old.items → slice_index (N.numbers duals.old.items) i
        + sum_before (N.numbers steps.now) (length steps.now) < N.width }
    ensures { RaisesDuals (N.numbers steps.now) marks.now (N.numbers duals.old.items)
        (N.numbers duals.new.items) }
{
    let end = steps.len();
    for i in 0..duals.len() {
        duals[i] = duals[i].plus(sums[cut(marks[i], end)]);
    }
}

/// Lessens each dual variable by the sum of the steps before its mark: that undoes [`raise`].
pub fn lower<N: SumNumber>(duals: &mut Vec<N>, steps: &[N], marks: &[u32], sums: &[N])
    requires room { length steps.now < length sums.now }
    requires sums { AreSums (N.numbers steps.now) (N.numbers sums.now) }
    requires marks { length marks.now ≡ length duals.old.items }
    requires raised { (i : ℕ) → i < length duals.old.items
        → sum_before (N.numbers steps.now) (min (slice_index marks.now i) (length steps.now))
        ≤ slice_index (N.numbers duals.old.items) i }
    ensures { RaisesDuals (N.numbers steps.now) marks.now (N.numbers duals.new.items)
        (N.numbers duals.old.items) }
{
    let end = steps.len();
    for i in 0..duals.len() {
        duals[i] = duals[i].minus(sums[cut(marks[i], end)]);
    }
}

/// The sum of the steps, `None` where it is greater than the top.
pub fn sum_within<N: SumNumber>(top: N, steps: &[N]) -> Option<N>
    requires { N.number top ≤ N.top }
    ensures within { IfSome result (λ sum. N.number sum
        ≡ sum_before (N.numbers steps.now) (length steps.now)) }
    ensures small { IfSome result (λ sum. N.number sum ≤ N.number top) }
    ensures beyond { result ≡ None → N.number top
        < sum_before (N.numbers steps.now) (length steps.now) }
{
    let mut sum = N::zero();
    for t in 0..steps.len() {
        if top.minus(sum).is_below(steps[t]) {
            return None;
        }
        sum = sum.plus(steps[t]);
    }
    Some(sum)
}
